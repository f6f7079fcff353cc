//! What `fillaqut inlines` prints of the inlines of a page of Markdown.
#![tactic(auto)]

mod blocks;
pub mod help;
mod labels;
pub mod page;
mod printing;
pub mod program;
