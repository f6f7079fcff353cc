//! A program that prints something of each page that its command line names.
#![tactic(auto)]

pub mod arguments;
pub mod asked;
pub mod came;
pub mod extensions;
pub mod files;
pub mod names;
pub mod pages;
pub mod program;
pub mod reading;
pub mod stops;
pub mod streams;
pub mod texts;
mod tries;
pub mod values;
pub mod whole;
pub mod writing;
