//! What `fillaqut tables` does with pages of Markdown: their tables are laid out.
#![tactic(auto)]

mod arguments;
mod cells;
pub mod changes;
pub mod columns;
pub mod files;
pub mod formatted;
mod handling;
pub mod help;
mod layout;
pub mod looks;
pub mod marks;
pub mod misfits;
pub mod program;
pub mod replacing;
mod reports;
mod same;
pub mod widths;

pub use markdown_blocks::cells::{Cell, Cells, cells_of as scan_cells};
