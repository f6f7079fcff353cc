//! The blocks of a page of Markdown: the block structure of CommonMark 0.31.2, chapters 3, 4 and 5, and tables of GitHub Flavored
//! Markdown 0.29.
#![tactic(auto)]

pub mod alerts;
mod blank_lines;
mod block_events;
pub mod blocks;
mod bullets;
pub mod byte_order_mark;
pub mod cells;
pub mod containers;
pub mod content;
pub mod definitions;
mod delimiter_rows;
pub mod events;
pub mod first_blocks;
mod foldings;
pub mod footnotes;
pub mod info;
mod kinds;
mod leaf;
mod line;
pub mod link_definitions;
pub mod lists;
pub mod metadata;
pub mod page_events;
mod rest;
pub mod rows;
mod step;
mod tables;
pub mod taken;
mod terms;
pub mod walk;
pub mod whole;
