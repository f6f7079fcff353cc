//! The lists of a page.
ghost use Rattle.std.specs.Prelude.{◌≡◌, List, count_by, IfOk};
ghost use Rattle.markdown_values.specs.values.Extensions.{commonmark};
ghost use Rattle.markdown_blocks.specs.declared.lists.ListBlock.{ListBlock};
ghost use Rattle.markdown_blocks.specs.lists.Lists.{AreListsOf};

use markdown_blocks::lists::{ListBlock, Lists, lists_of_page};
use markdown_blocks::page_events::page_events;
use std::alloc::{AllocError, Global};

/// The first list of a page that ends, read no further than its end shows.
pub fn first_list(alloc: Global, page: &[u8]) -> Result<Option<ListBlock>, AllocError> {
    let mut lists = Lists::new(alloc);
    for event in page_events(alloc, page) {
        let ended = lists.read(event?)?;
        if ended.is_some() {
            return Ok(ended);
        }
    }
    Ok(lists.finish())
}

/// How many lists of a page are loose.
pub fn count_loose(alloc: Global, page: &[u8]) -> Result<usize, AllocError>
    ensures { IfOk result (λ count. (lists : List ListBlock)
        × AreListsOf commonmark page.now lists
        × (count ≡ count_by (λ list. list.is_loose) lists)) }
{
    let lists = lists_of_page(alloc, page)?;
    Ok(lists.iter().filter(|list| list.is_loose).count())
}
