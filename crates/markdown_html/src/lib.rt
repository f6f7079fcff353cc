//! HTML of the events of a page, as the examples of CommonMark write it.
//! (CommonMark 0.31.2; GitHub Flavored Markdown 0.29 for its extensions)
#![tactic(auto)]

pub mod addresses;
mod blocks;
pub mod escapes;
pub mod html;
mod inlines;
pub mod page;
pub mod push;
pub mod schemes;
pub mod setting;
pub mod writer;
