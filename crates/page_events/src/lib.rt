//! What `fillaqut events` prints of the events of a page of Markdown.
#![tactic(auto)]

pub mod elements;
pub mod help;
pub mod json;
pub mod page;
mod printing;
pub mod program;
