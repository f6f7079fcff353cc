//! The tables of a page and their rows. (GitHub Flavored Markdown 0.29, section 4.10, tables)
ghost use Rattle.std.specs.Prelude.{◌≡◌, ◌++◌, List, IfOk, OnOk, map};
ghost use Rattle.markdown_events.specs.InlineEvents.{seen_event};
ghost use Rattle.page_tables.specs.Marks.{AreMarksOf, mark_view, marks_of, with_tables};

use markdown_events::event_reader::EventReader;
use markdown_values::values::{Alignment, Event, Extensions, Tag, TagEnd};
use std::alloc::{AllocError, Global};
use std::ops::Range;

/// What a page has of tables, in its order.
#[derive(Drop)]
pub enum Mark {
    /// A table begins, whose columns are aligned so.
    Table(Vec<Alignment>),
    /// The head of the table: the range of its text in the page.
    Head(Range<usize>),
    /// Another row of the table, but for the delimiter row: the range of its text in the page.
    Row(Range<usize>),
    /// The table ends.
    End,
}

/// The tables of a page.
///
/// # Errors
///
/// `AllocError` where memory is refused.
pub fn marks_of_page(alloc: Global, page: &str) -> Result<Vec<Mark>, AllocError>
    ensures { IfOk result (λ marks. AreMarksOf page.now (map mark_view marks.items)) }
{
    let mut reader = EventReader::with_setting(alloc, page, with_tables())?;
    let mut marks = Vec::new(alloc);
    while let Some(event) = reader.next()? {
        push_mark(&mut marks, event)?;
    }
    Ok(marks)
}

// CommonMark with tables.
fn with_tables() -> Extensions
    ensures { result ≡ with_tables }
{
    Extensions {
        tables: true,
        ..Extensions::none()
    }
}

// Adds what an event says of tables.
fn push_mark(marks: &mut Vec<Mark>, event: (Event, Range<usize>)) -> Result<(), AllocError>
    ensures { OnOk result (map mark_view marks.new.items
        ≡ map mark_view marks.old.items ++ marks_of (seen_event event.entry)) }
{
    let (event, range) = event;
    let mark = match event {
        Event::Start(Tag::Table(alignments)) => Mark::Table(alignments),
        Event::Start(Tag::TableHead) => Mark::Head(range),
        Event::Start(Tag::TableRow) => Mark::Row(range),
        Event::End(TagEnd::Table) => Mark::End,
        _ => return Ok(()),
    };
    marks.push(mark)?;
    Ok(())
}
