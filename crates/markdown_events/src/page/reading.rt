//! What the blocks of a page are read with, and where they stand.
use markdown_blocks::containers::Container;
use markdown_values::values::Extensions;
use std::alloc::Global;

/// What the blocks of a page are read with.
#[derive(Drop)]
pub(crate) struct Reading<'a, 'r, D> {
    pub(crate) alloc: Global,
    pub(crate) page: &'a str,
    pub(crate) asked: Extensions,
    /// Where labels lead.
    pub(crate) definitions: &'r D,
    pub(crate) room: Room,
}

/// How many bytes references may still add to a page, and how many cells its rows may still be filled
/// in with.
#[derive(Clone, Copy)]
pub(crate) struct Room {
    pub(crate) references: usize,
    pub(crate) cells: usize,
}

/// Where a leaf block stands: in these containers, of which its first line goes on with `kept`,
/// directly in an item of a tight list or not.
#[derive(Clone, Copy)]
pub(crate) struct Place<'c> {
    pub(crate) containers: &'c [Container],
    pub(crate) kept: usize,
    pub(crate) is_tight: bool,
}
