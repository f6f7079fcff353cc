//! What `fillaqut blocks` prints of the blocks of a page of Markdown.
#![tactic(auto)]

mod arguments;
mod beginning;
mod definition;
pub mod help;
pub mod info;
mod json;
mod page;
mod printer;
mod printing;
pub mod program;
