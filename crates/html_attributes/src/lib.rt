//! The start tags of raw HTML, and their attributes.
#![tactic(auto)]

pub mod attributes;
mod slices;
pub mod tags;
pub mod values;
