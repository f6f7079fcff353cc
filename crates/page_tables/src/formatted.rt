//! Pages as a formatter leaves them: with their tables laid out.
ghost use Rattle.std.specs.Prelude.{◌≡◌, ◌↔◌, ℕ, List, IsTrue, IfOk, IfSome, IfNone, map, not, string_bytes};
ghost use Rattle.std.specs.Str.{IsUtf8, bytes_eq};
ghost use Rattle.page_tables.specs.Formatted.{HaveSameTables, IsFormatted, IsSettled};
ghost use Rattle.page_tables.specs.Looks.{IsMade, becomes_other, is_left, made_text};
ghost use Rattle.page_tables.specs.Marks.{AreMarksOf, mark_view};
ghost use Rattle.page_tables.specs.Sizes.{IsBounded};

use crate::cells::are_equal;
use crate::layout::laid_out;
use crate::marks::{Mark, marks_of_page};
use crate::same::are_same;
use crate::widths::CellWidths;
use std::alloc::{AllocError, Global};
use std::str::from_utf8;

/// What becomes of a page.
#[derive(Drop)]
pub enum Made {
    /// It stays: its tables are laid out.
    Stays,
    /// It becomes this text, with the same tables, which are laid out.
    Becomes(String),
    /// It is left as it is, since its tables would not be the same, or not be laid out.
    IsLeft,
}

/// A page with its tables laid out, or None where it stays as it is: they are laid out or too wide, have
/// a row that doesn't fit, or would not be the same then. A page without tables is read once.
///
/// # Errors
///
/// `AllocError` where memory is refused.
pub fn formatted<W: CellWidths>(
    alloc: Global,
    page: &str,
    widths: &W,
) -> Result<Option<String>, AllocError>
    ensures made { IfOk result (λ found. IfSome found (λ text.
        IsFormatted (W.width widths.now) page.now (string_bytes text))) }
    ensures left { IfOk result (λ found. IfNone found (
        IsFormatted (W.width widths.now) page.now page.now)) }
    ensures same { IfOk result (λ found. IfSome found (λ text.
        HaveSameTables page.now (string_bytes text))) }
    ensures again { IfOk result (λ found. IfSome found (λ text. (other : List ℕ)
        → IsFormatted (W.width widths.now) (string_bytes text) other
        → other ≡ string_bytes text)) }
    ensures bounded { IfOk result (λ found. IfSome found (λ text.
        IsBounded page.now (string_bytes text))) }
{
    let marks = marks_of_page(alloc, page)?;
    match made_of(alloc, page, widths, &marks)? {
        Made::Becomes(text) => Ok(Some(text)),
        Made::Stays | Made::IsLeft => Ok(None),
    }
}

/// What becomes of a page with these tables.
pub(crate) fn made_of<W: CellWidths>(
    alloc: Global,
    page: &str,
    widths: &W,
    marks: &[Mark],
) -> Result<Made, AllocError>
    requires { AreMarksOf page.now (map mark_view marks.now) }
    ensures made { IfOk result (λ made. IsMade (W.width widths.now) page.now
        (map mark_view marks.now) (made_text page.now made) (is_left made)) }
    ensures other { IfOk result (λ made.
        becomes_other made ≡ not (bytes_eq (made_text page.now made) page.now)) }
{
    let laid = laid_out(alloc, page.as_bytes(), widths, marks)?;
    if are_equal(&laid, page.as_bytes()) {
        return Ok(Made::Stays);
    }
    if !is_settled(alloc, page, widths, marks, &laid)? {
        return Ok(Made::IsLeft);
    }
    match String::from_utf8(laid) {
        Ok(text) => Ok(Made::Becomes(text)),
        Err(_) => Ok(Made::IsLeft),
    }
}

/// Whether a page becomes another text.
pub(crate) fn becomes_other(made: &Made) -> bool
    ensures { result ≡ becomes_other made.now }
{
    matches!(made, Made::Becomes(_))
}

/// Whether a page is left as it is.
pub(crate) fn is_left(made: &Made) -> bool
    ensures { result ≡ is_left made.now }
{
    matches!(made, Made::IsLeft)
}

// Whether the text is a page with the same tables, and they are laid out.
fn is_settled<W: CellWidths>(
    alloc: Global,
    page: &str,
    widths: &W,
    marks: &[Mark],
    text: &[u8],
) -> Result<bool, AllocError>
    requires { AreMarksOf page.now (map mark_view marks.now) }
    ensures { IfOk result (λ past_first_line. IsTrue past_first_line
        ↔ IsSettled (W.width widths.now) page.now text.now) }
{
    let Some(other) = as_text(text) else {
        return Ok(false);
    };
    let others = marks_of_page(alloc, other)?;
    if !are_same(page.as_bytes(), marks, text, &others) {
        return Ok(false);
    }
    let again = laid_out(alloc, text, widths, &others)?;
    Ok(are_equal(&again, text))
}

// The bytes as a text, if they are one.
fn as_text(bytes: &[u8]) -> Option<&str>
    ensures same { IfSome result (λ text. text.now ≡ bytes.now) }
    ensures text { IfSome result (λ _. IsUtf8 bytes.now) }
    ensures none { IfNone result (¬ IsUtf8 bytes.now) }
{
    match from_utf8(bytes) {
        Ok(text) => Some(text),
        Err(_) => None,
    }
}
