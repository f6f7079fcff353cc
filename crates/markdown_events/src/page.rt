//! The events of a page.
pub(crate) mod blocks_left;
pub(crate) mod blocks_of;
pub(crate) mod definitions;
pub(crate) mod element;
pub(crate) mod leaf_content;
pub(crate) mod leaf_events;
pub(crate) mod levels;
pub(crate) mod open_elements;
pub(crate) mod reading;
pub(crate) mod ready;
pub(crate) mod references;
pub(crate) mod source;
pub(crate) mod spans;
pub(crate) mod table_events;
pub(crate) mod task_events;
