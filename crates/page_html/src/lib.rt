//! What `fillaqut html` prints: the HTML of pages of Markdown.
#![tactic(auto)]

pub mod asked;
pub mod help;
pub mod page;
pub mod program;
