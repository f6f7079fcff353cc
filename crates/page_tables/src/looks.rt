//! What is made and said of a page.
ghost use Rattle.std.specs.Prelude.{◌≡◌, ◌++◌, [], IfOk, map, not, string_bytes, if◌then◌else◌};
ghost use Rattle.std.specs.Str.{bytes_eq};
ghost use Rattle.page_tables.specs.Changes.{changes_of};
ghost use Rattle.page_tables.specs.Looks.{IsLook, becomes_other, is_left, made_text};
ghost use Rattle.page_tables.specs.Marks.{mark_view};
ghost use Rattle.page_tables.specs.Misfits.{misfits};
ghost use Rattle.page_tables.specs.Printed.{IsPrinted};
ghost use Rattle.page_tables.specs.Reports.{change_lines, left_line, misfit_lines};
ghost use Rattle.page_tables.specs.Sizes.{IsBounded};
ghost use Rattle.page_tables.specs.Widths.{display_width};

use crate::changes::changes_of;
use crate::formatted::{Made, becomes_other, is_left, made_of};
use crate::marks::{Mark, marks_of_page};
use crate::misfits::{Misfit, misfits};
use crate::reports::{push_changes, push_left, push_misfits};
use crate::widths::DisplayWidths;
use std::alloc::{AllocError, Global};

/// What is made and said of a page.
#[derive(Drop)]
pub struct Look {
    /// What it becomes.
    pub made: Made,
    /// The lines that name what is left as it is.
    pub notes: String,
    /// The lines that name the rows for which tables are left as they are, and the tables that
    /// change, if the page is checked.
    pub lines: String,
}

impl Look {
    /// What becomes of the page: itself, with its tables laid out.
    pub fn text<'a>(&'a self, page: &'a [u8]) -> &'a [u8]
        ensures { result.now ≡ made_text page.now self.now.made }
    {
        match &self.made {
            Made::Becomes(text) => text.as_bytes(),
            Made::Stays | Made::IsLeft => page,
        }
    }

    /// Whether the page becomes another text.
    pub fn changes(&self) -> bool
        ensures { result ≡ becomes_other self.now.made }
    {
        becomes_other(&self.made)
    }
}

/// What is made and said of the page of this name, with the lines of its tables where it is
/// checked.
///
/// # Errors
///
/// `AllocError` where memory is refused.
pub fn look_at_page(alloc: Global, name: &str, page: &str, checks: bool) -> Result<Look, AllocError>
    ensures said { IfOk result (λ look. IsLook checks name.now page.now
        (made_text page.now look.made)
        (string_bytes look.notes) (string_bytes look.lines)) }
    ensures printed { IfOk result (λ look. IsPrinted page.now (made_text page.now look.made)) }
    ensures bounded { IfOk result (λ look. IsBounded page.now (made_text page.now look.made)) }
    ensures changes { IfOk result (λ look. becomes_other look.made
        ≡ not (bytes_eq (made_text page.now look.made) page.now)) }
{
    look_at_text(alloc, name, page, checks)
}

// The same, by its tables.
fn look_at_text(alloc: Global, name: &str, page: &str, checks: bool) -> Result<Look, AllocError>
    ensures look { IfOk result (λ look. IsLook checks name.now page.now
        (made_text page.now look.made)
        (string_bytes look.notes) (string_bytes look.lines)) }
    ensures changes { IfOk result (λ look. becomes_other look.made
        ≡ not (bytes_eq (made_text page.now look.made) page.now)) }
{
    let marks = marks_of_page(alloc, page)?;
    let made = made_of(alloc, page, &DisplayWidths, &marks)?;
    let rows = misfits(alloc, page.as_bytes(), &DisplayWidths, &marks)?;
    let notes = notes_of(alloc, name, page.as_bytes(), &rows, is_left(&made), checks)?;
    let lines = lines_of(alloc, name, page, &marks, &rows, &made, checks)?;
    Ok(Look { made, notes, lines })
}

// What is said of a page with these rows that don't fit their tables: of the rows, unless it is
// checked, and of a page that is left as it is.
fn notes_of(
    alloc: Global,
    name: &str,
    page: &[u8],
    rows: &[Misfit],
    left: bool,
    checks: bool,
) -> Result<String, AllocError>
    ensures { IfOk result (λ notes. string_bytes notes
        ≡ (if checks then [] else misfit_lines name.now page.now rows.now)
        ++ (if left then left_line name.now else [])) }
{
    let mut notes = String::new(alloc);
    if !checks {
        push_misfits(&mut notes, name, page, rows)?;
    }
    if left {
        push_left(&mut notes, name)?;
    }
    Ok(notes)
}

// The lines of a page with these tables that is checked, and with these rows that don't fit them, of
// which this is made: the rows, and where the page changes.
fn lines_of(
    alloc: Global,
    name: &str,
    page: &str,
    marks: &[Mark],
    rows: &[Misfit],
    made: &Made,
    checks: bool,
) -> Result<String, AllocError>
    requires { becomes_other made.now ≡ not (bytes_eq (made_text page.now made.now) page.now) }
    ensures { IfOk result (λ lines. string_bytes lines
        ≡ (if checks then misfit_lines name.now page.now rows.now ++ change_lines name.now page.now
        (changes_of display_width page.now (map mark_view marks.now) (made_text page.now made.now))
        else [])) }
{
    let mut lines = String::new(alloc);
    if !checks {
        return Ok(lines);
    }
    push_misfits(&mut lines, name, page.as_bytes(), rows)?;
    let heads = changes_of(alloc, page, &DisplayWidths, marks, made)?;
    push_changes(&mut lines, name, page.as_bytes(), &heads)?;
    Ok(lines)
}
