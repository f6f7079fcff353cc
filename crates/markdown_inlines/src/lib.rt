//! What the inline pass of a Markdown parser scans for beside the scanners of the layer below: the inlines of CommonMark 0.31.2,
//! chapter 6.
#![tactic(auto)]

mod angles;
mod backticks;
pub mod code_content;
pub mod code_spans;
pub mod cut;
pub mod delimiter_runs;
pub mod emails;
pub mod emphasis;
pub mod guarded_code_spans;
pub mod inlines;
pub mod line_breaks;
pub mod link_tails;
pub mod link_targets;
pub mod links;
mod long_texts;
pub mod marks;
mod piece_at;
mod piece_scanner;
pub mod pieces;
mod plain_labels;
mod reading;
mod searches;
mod wiki_links;
