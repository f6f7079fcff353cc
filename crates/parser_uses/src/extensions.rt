//! Task list items, alerts and metadata blocks of a page.
ghost use Rattle.std.specs.Prelude.{◌≡◌, List, length, count_by, IfOk};
ghost use Rattle.markdown_values.specs.values.Extensions.{commonmark};
ghost use Rattle.markdown_blocks.specs.declared.first_blocks.Task.{Task};
ghost use Rattle.markdown_blocks.specs.first_blocks.Tasks.{AreTasksOf};

use markdown_blocks::first_blocks::{FirstBlocks, tasks_of_page};
use markdown_blocks::metadata::metadata_of_page;
use markdown_blocks::page_events::page_events;
use markdown_values::values::BlockQuoteKind;
use std::alloc::{AllocError, Global};

/// How many task list items of a page are checked, and how many it has.
pub fn count_tasks(alloc: Global, page: &[u8]) -> Result<(usize, usize), AllocError>
    ensures { IfOk result (λ counts. (tasks : List Task) × AreTasksOf commonmark page.now tasks
        × (counts.0 ≡ count_by (λ task. task.is_checked) tasks) × (counts.1 ≡ length tasks)) }
{
    let tasks = tasks_of_page(alloc, page)?;
    let checked = tasks.iter().filter(|task| task.is_checked).count();
    Ok((checked, tasks.len()))
}

/// The kind of the first alert of a page, read no further than its line.
pub fn first_alert(alloc: Global, page: &[u8]) -> Result<Option<BlockQuoteKind>, AllocError> {
    let mut firsts = FirstBlocks::new();
    for event in page_events(alloc, page) {
        let Some(first) = firsts.read(event?) else {
            continue;
        };
        if let Some(alert) = first.alert() {
            return Ok(Some(alert.kind));
        }
    }
    Ok(None)
}

/// The content of the metadata block that a page begins with, if it does, and what stands after it.
pub fn parted(page: &[u8]) -> (&[u8], &[u8]) {
    match metadata_of_page(page, true, true) {
        Some(metadata) => (&page[metadata.start..metadata.end], &page[metadata.len..]),
        None => (&[], page),
    }
}
