//! The memory that a long text is read in.
use std::alloc::Global;

// For how many items memory is kept from text to text.
const KEPT: usize = 4096;

// Gives the memory of these items back, if there is room for more of them than is kept for the next text. Nothing
// depends on what is in it.
#[inline(always)]
pub(crate) fn give_back<T: Drop>(alloc: Global, items: &mut Vec<T>) {
    if items.capacity() > KEPT {
        *items = Vec::new(alloc);
    }
}
