//! Small uses of the library, each with a contract of its own.
#![tactic(auto)]

pub mod blocks;
pub mod comments;
pub mod contents;
pub mod definitions;
pub mod events;
pub mod extensions;
pub mod footnotes;
pub mod headings;
pub mod html;
pub mod labels;
pub mod lines;
pub mod link_definitions;
pub mod links;
pub mod lists;
pub mod options;
pub mod outline;
pub mod pages;
pub mod pass;
pub mod tables;
pub mod walk;
