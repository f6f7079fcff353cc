//! The scanners of `markdown_scanners_tree` and `markdown_inlines`, and the blocks of
//! `markdown_blocks`, as C functions, whose header is `fillaqut.h`.
//!
//! A slice is two parameters in C: a pointer, and then the length in elements. A reference to a
//! struct is a pointer to it; a struct that is answered is returned by value. `alloc: Global` is
//! no parameter in C: what it is asked for comes from the C library's `malloc` and `realloc`.
#![tactic(auto)]

mod block_lines;
mod blocks;
mod delimiter_runs;
mod event_records;
mod extensions;
mod html;
mod html_settings;
mod inline;
mod inlines;
mod keys;
mod known_labels;
mod labels;
mod line_rests;
mod line_runs;
mod line_starts;
mod lines;
mod page_events;
mod page_html;
mod page_lists;
mod pages;
mod reference_definitions;
mod runs;
mod skips;
mod status;
mod tables;
mod texts;
mod version;
