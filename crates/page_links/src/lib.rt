//! The links of a page of Markdown, and what `fillaqut links` prints of them.
#![tactic(auto)]

pub mod anchors;
mod arguments;
pub mod checks;
pub mod definitions;
mod headings;
pub mod help;
mod html;
mod html_links;
mod label_set;
pub mod labels;
pub mod links;
pub mod page;
mod printing;
pub mod program;
pub mod reports;
mod targets;
