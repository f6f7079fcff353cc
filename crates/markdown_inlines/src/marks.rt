//! What begins and ends at each byte of a text, by its emphasis.
ghost use Rattle.std.specs.Prelude.{◌≡◌, ◌==◌, ◌<◌, ℕ, length, get_or, OnOk, if◌then◌else◌};
ghost use Rattle.markdown_inlines.specs.Marks.{AreMarks, mark_by, marks_by, opening_mark, closing_mark};
ghost use Rattle.markdown_inlines.specs.declared.marks.Mark.TheVariants.{Nothing};

use crate::emphasis::Emphasis;
use std::alloc::AllocError;

/// What a byte of a text begins or ends.
#[derive(Clone, Copy, Debug, PartialEq, Eq)]
pub enum Mark {
    /// Nothing.
    Nothing,
    /// It is the delimiter that emphasis begins with.
    OpensEmphasis,
    /// It is the first of the two that strong emphasis begins with.
    OpensStrong,
    /// It is the delimiter that emphasis ends with.
    ClosesEmphasis,
    /// It is the first of the two that strong emphasis ends with.
    ClosesStrong,
    /// It is the one tilde that strikethrough begins with.
    OpensStrikethrough,
    /// It is the first of the two that strikethrough begins with.
    OpensStrikethroughOfTwo,
    /// It is the one tilde that strikethrough ends with.
    ClosesStrikethrough,
    /// It is the first of the two that strikethrough ends with.
    ClosesStrikethroughOfTwo,
    /// It is the second of two.
    Second,
}

// One for each byte of a text, and no larger than that.
const _: () = prove!(size_of::<Mark>() == 1);

// Puts in the marks of the bytes of a text of this length, in place of all others.
pub(crate) fn put_marks(
    marks: &mut Vec<Mark>,
    len: usize,
    emphasis: &[Emphasis],
) -> Result<(), AllocError>
    ensures { OnOk result (AreMarks emphasis.now len marks.new.items) }
{
    marks.clear();
    marks.resize(len, Mark::Nothing)?;
    mark_emphasis(marks, emphasis);
    Ok(())
}

// Marks where emphasis begins and ends.
fn mark_emphasis(marks: &mut [Mark], emphasis: &[Emphasis])
    requires { (k : ℕ) → get_or marks.old k Nothing ≡ Nothing }
    ensures marked { (k : ℕ) → k < length marks.old
        → get_or marks.new k Nothing ≡ marks_by emphasis.now k }
    ensures length { length marks.new ≡ length marks.old }
{
    let mut index = emphasis.len();
    while index > 0 {
        index -= 1;
        mark_both_sides(marks, emphasis[index]);
    }
}

// Marks where one emphasis begins and ends.
fn mark_both_sides(marks: &mut [Mark], emphasis: Emphasis)
    ensures marked { (k : ℕ) → k < length marks.old
        → get_or marks.new k Nothing ≡ mark_by emphasis k (get_or marks.old k Nothing) }
    ensures length { length marks.new ≡ length marks.old }
{
    if emphasis.count == 2 {
        put(marks, emphasis.opening.saturating_add(1), Mark::Second);
        put(marks, emphasis.closing.saturating_add(1), Mark::Second);
    }
    put(marks, emphasis.closing, closing_mark(emphasis));
    put(marks, emphasis.opening, opening_mark(emphasis));
}

// The mark of its first opening delimiter.
fn opening_mark(emphasis: Emphasis) -> Mark
    ensures { result ≡ opening_mark emphasis }
{
    let is_double = emphasis.count == 2;
    if emphasis.byte == b'~' {
        if is_double {
            Mark::OpensStrikethroughOfTwo
        } else {
            Mark::OpensStrikethrough
        }
    } else if is_double {
        Mark::OpensStrong
    } else {
        Mark::OpensEmphasis
    }
}

// The mark of its first closing delimiter.
fn closing_mark(emphasis: Emphasis) -> Mark
    ensures { result ≡ closing_mark emphasis }
{
    let is_double = emphasis.count == 2;
    if emphasis.byte == b'~' {
        if is_double {
            Mark::ClosesStrikethroughOfTwo
        } else {
            Mark::ClosesStrikethrough
        }
    } else if is_double {
        Mark::ClosesStrong
    } else {
        Mark::ClosesEmphasis
    }
}

// Puts a mark at an offset, if it is within them.
fn put(marks: &mut [Mark], offset: usize, mark: Mark)
    ensures put { (k : ℕ) → k < length marks.old → get_or marks.new k Nothing
        ≡ (if k == offset then mark else get_or marks.old k Nothing) }
    ensures length { length marks.new ≡ length marks.old }
{
    if offset < marks.len() {
        marks[offset] = mark;
    }
}
