//! Headings.
ghost use Rattle.std.specs.Prelude.{ℕ, ◌≡◌, ◌≤◌, ◌==◌, length, Some, IsTrue, IfSome, IfNone};
ghost use Rattle.std.specs.List.{prefix_len};
ghost use Rattle.markdown_values.specs.values.Headings.{heading_number};
ghost use Rattle.markdown_scanners_tree.specs.SomeExactly.{SomeExactly, IsOnly};
ghost use Rattle.markdown_scanners_tree.specs.Bytes.{begins_with, ends_or_begins_with, is_white_space};
ghost use Rattle.markdown_scanners_tree.specs.scanners.Headings.{IsAtxHeading, IsSetextUnderline, underline_byte};

use crate::scanners::classes::is_ascii_whitespace;
use crate::scanners::lines::scan_blank_line;
use crate::scanners::runs::scan_ch_repeat;
use markdown_values::values::HeadingLevel;

/// The level of an ATX heading that begins at the front. (CommonMark 0.31.2, section 4.2.)
///
/// Its opening has as many bytes as the level has number.
pub fn scan_atx_heading(bytes: &[u8]) -> Option<HeadingLevel>
    ensures found { SomeExactly (IsAtxHeading bytes.now) result }
    ensures only { IsOnly (IsAtxHeading bytes.now) result }
    ensures within { IfSome result (λ level. heading_number level ≤ length bytes.now) }
{
    let run = scan_ch_repeat(bytes, b'#');
    let level = HeadingLevel::try_from(run).ok()?;
    if ends_or_begins_with_space(&bytes[run..]) {
        Some(level)
    } else {
        None
    }
}

// Whether white space stands at the front, or nothing at all.
fn ends_or_begins_with_space(bytes: &[u8]) -> bool
    ensures { result ≡ ends_or_begins_with is_white_space bytes.now }
{
    match bytes {
        [] => true,
        [first, ..] => is_ascii_whitespace(*first),
    }
}

/// The length in bytes of a setext heading's underline at the front, with its line ending, and
/// the level of the heading. (CommonMark 0.31.2, section 4.3.)
#[inline(always)]
pub fn scan_setext_heading(bytes: &[u8]) -> Option<(usize, HeadingLevel)>
    ensures found { SomeExactly (λ r. IsSetextUnderline bytes.now r.0 r.1) result }
    ensures only { IsOnly (λ r. IsSetextUnderline bytes.now r.0 r.1) result }
    ensures none { IfNone result ((n : ℕ) (level : HeadingLevel)
        → ¬ IsSetextUnderline bytes.now n level) }
    ensures within { IfSome result (λ r. r.0 ≤ length bytes.now) }
{
    match bytes {
        [byte, ..] => match underline_level(*byte) {
            Some(level) => scan_underline(bytes, *byte, level),
            None => None,
        },
        [] => None,
    }
}

// The level of the heading whose underline is made of the byte.
fn underline_level(byte: u8) -> Option<HeadingLevel>
    ensures found { IfSome result (λ level. underline_byte level ≡ Some byte) }
    ensures none { IfNone result ((level : HeadingLevel) → ¬ (underline_byte level ≡ Some byte)) }
{
    match byte {
        b'=' => Some(HeadingLevel::H1),
        b'-' => Some(HeadingLevel::H2),
        _ => None,
    }
}

// The same as `scan_setext_heading`, where the first byte and the level are known.
//
// The byte is an argument, so that one loop compares with a register: two loops, each with a
// constant, take half as long again. It is not inlined, so that most lines cost a look at their first byte.
#[inline(never)]
fn scan_underline(bytes: &[u8], byte: u8, level: HeadingLevel) -> Option<(usize, HeadingLevel)>
    requires of_level { underline_byte level ≡ Some byte }
    requires begins { IsTrue (begins_with (λ b. b == byte) bytes.now) }
    ensures found { SomeExactly (λ r. IsSetextUnderline bytes.now r.0 r.1) result }
    ensures only { IsOnly (λ r. IsSetextUnderline bytes.now r.0 r.1) result }
    ensures none { IfNone result ((n : ℕ) (level : HeadingLevel)
        → ¬ IsSetextUnderline bytes.now n level) }
    ensures within { IfSome result (λ r. r.0 ≤ length bytes.now) }
{
    let run = begun_run(bytes, byte);
    let blank = scan_blank_line(&bytes[run..])?;
    Some((run + blank, level))
}

// The length of the run of the byte at the front. The first byte is known, and is not looked at
// again.
fn begun_run(bytes: &[u8], byte: u8) -> usize
    requires { IsTrue (begins_with (λ b. b == byte) bytes.now) }
    ensures run { result ≡ prefix_len (λ b. b == byte) bytes.now }
    ensures within { result ≤ length bytes.now }
{
    1 + scan_ch_repeat(&bytes[1..], byte)
}
