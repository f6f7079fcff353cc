//! The lists of a page. (CommonMark 0.31.2, section 5.3)
ghost use Rattle.std.specs.Prelude.{◌≡◌, ◌⊎◌, map, IfOk};
ghost use Rattle.markdown_scanners_c.specs.Buffer.{IsWritten};
ghost use Rattle.markdown_scanners_c.specs.PageLists.{AreListsReturned, list_returned};
ghost use Rattle.markdown_scanners_c.specs.Status.{no_memory};

use crate::extensions::{are_extensions, extensions_of};
use crate::pages::{BlockCount, none_counted, write_front};
use crate::status::{BAD_KIND, NO_MEMORY};
use markdown_blocks::lists::{ListBlock, lists_of_page_ext};
use std::alloc::{AllocError, Global};

/// `struct mds_list` of C: a list of a page.
#[repr(C)]
#[derive(Clone, Copy)]
pub struct PageList {
    pub delimiter: u8,
    pub is_loose: bool,
    pub start: u32,
    pub depth: usize,
    pub line: usize,
    pub end: usize,
}

/// Writes the lists of a page, each where it ends.
#[unsafe(no_mangle)]
pub extern "C" fn mds_scan_lists(
    alloc: Global,
    page: &[u8],
    extensions: u32,
    lists: &mut [PageList],
) -> BlockCount
    ensures lists { AreListsReturned page.now extensions lists.old lists.new result }
{
    if !are_extensions(extensions) {
        return none_counted(BAD_KIND);
    }
    match lists_of_page_ext(alloc, page, extensions_of(extensions)) {
        Ok(found) => write_lists(alloc, &found, lists),
        Err(_) => none_counted(NO_MEMORY),
    }
}

// Writes the lists.
fn write_lists(alloc: Global, found: &[ListBlock], lists: &mut [PageList]) -> BlockCount
    ensures { ((result.status ≡ no_memory) × (result.count ≡ 0) × (lists.new ≡ lists.old))
        ⊎ IsWritten (map list_returned found.now) lists.old lists.new result.status result.count }
{
    match lists_returned(alloc, found) {
        Ok(returned) => write_front(&returned, lists),
        Err(_) => none_counted(NO_MEMORY),
    }
}

// The lists, as C has them.
fn lists_returned(alloc: Global, found: &[ListBlock]) -> Result<Vec<PageList>, AllocError>
    ensures { IfOk result (λ returned. returned.items ≡ map list_returned found.now) }
{
    found.iter().map(|list| list_returned(list)).collect(alloc)
}

// A list as C has it.
fn list_returned(list: &ListBlock) -> PageList
    ensures { result ≡ list_returned list.now }
{
    PageList {
        delimiter: list.delimiter,
        is_loose: list.is_loose,
        start: list.start,
        depth: list.depth,
        line: list.line,
        end: list.end,
    }
}
