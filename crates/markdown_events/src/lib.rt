//! The events of Markdown: the parts of a text in its order, as a list in which starts and ends
//! balance. `Parser` has those of a page, and `inline_events` those of the content of a block.
//! (CommonMark 0.31.2, chapters 4 to 6)
#![tactic(auto)]

pub mod broken_links;
pub mod definitions;
mod elements;
pub mod event_reader;
pub mod inline_events;
pub mod insecure_characters;
mod joined_text;
mod line_feeds;
mod link_tags;
mod page;
pub mod parser;
mod parts;
pub mod settings;
pub mod text_merge;
pub mod text_merge_stream;
mod writer;
