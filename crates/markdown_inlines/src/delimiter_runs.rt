//! Delimiter runs. (CommonMark 0.31.2, section 6.2; GitHub Flavored Markdown 0.29, section 6.5)
ghost use Rattle.std.specs.Prelude.{◌≡◌, ◌↔◌, ◌⊎◌, ◌==◌, ◌<◌, ◌≤◌, ◌+◌, Option, ℕ, length, drop, IsTrue, IfSome, slice_index};
ghost use Rattle.markdown_scanners_tree.specs.Ascii.{asterisk, tilde, underscore};
ghost use Rattle.std.specs.Str.{IsCharBoundary};
ghost use Rattle.markdown_scanners_tree.specs.SomeExactly.{SomeExactly, IsOnly};
ghost use Rattle.markdown_inlines.specs.DelimiterRuns.{IsDelimiterRun, IsTildeRun, can_open, is_left_flanking};
ghost use Rattle.markdown_inlines.specs.DelimiterRuns.{char_before, char_after};
ghost use Rattle.markdown_inlines.specs.DelimiterRuns.{is_white_space, is_punctuation, is_white_side, is_punctuation_side};

use markdown_scanners_tree::scanners::scan_ch_repeat;
use ucd_category::{GeneralCategory, GeneralCategoryGroup};

/// A delimiter run.
#[derive(Clone, Copy, Debug, PartialEq, Eq)]
pub struct DelimiterRun {
    /// How many bytes it has.
    pub count: usize,
    /// The byte that it is made of: `*` or `_`, or the `~` of strikethrough.
    pub byte: u8,
    /// Whether it can open emphasis, or strikethrough, by the characters on its sides.
    pub can_open: bool,
    /// Whether it can close it.
    pub can_close: bool,
}

/// The delimiter run that begins at an offset of the text between two characters, before which no
/// unescaped byte of the same kind stands.
pub fn scan_delimiter_run(text: &str, offset: usize) -> Option<DelimiterRun>
    requires { 0 < offset → IsCharBoundary text.now offset }

    // The one run that begins there is answered.
    ensures found { SomeExactly (IsDelimiterRun text.now offset) result }
    ensures only { IsOnly (IsDelimiterRun text.now offset) result }

    // After it a text may be cut.
    ensures within { IfSome result (λ run. offset + run.count ≤ length text.now) }
    ensures boundary { IfSome result (λ run. IsCharBoundary text.now (offset + run.count)) }
{
    let bytes = text.as_bytes();
    if offset == bytes.len() || !is_delimiter(bytes[offset]) {
        return None;
    }
    let byte = bytes[offset];
    let count = scan_ch_repeat(&bytes[offset..], byte);
    let (before, after) = sides(text, offset, count);
    Some(DelimiterRun {
        byte,
        count,
        can_open: can_open(byte, before, after),
        can_close: can_open(byte, after, before),
    })
}

// The run of tildes at an offset of the text, where one stands, before which no unescaped tilde does.
pub(crate) fn scan_tilde_run(text: &str, offset: usize) -> Option<DelimiterRun>
    requires within { offset < length text.now }
    requires opens { slice_index text.now offset ≡ tilde }
    ensures found { SomeExactly (IsTildeRun text.now offset) result }
{
    let count = scan_ch_repeat(&text.as_bytes()[offset..], b'~');
    let (before, after) = sides(text, offset, count);
    Some(DelimiterRun {
        byte: b'~',
        count,
        can_open: is_left_flanking(before, after),
        can_close: is_left_flanking(after, before),
    })
}

// The characters on both sides of a part of the text that begins at an offset.
fn sides(text: &str, offset: usize, count: usize) -> (Option<char>, Option<char>)
    requires begins { IsCharBoundary text.now offset }
    requires ends { IsCharBoundary text.now (offset + count) }
    requires within { offset + count ≤ length text.now }
    ensures before { result.0 ≡ char_before text.now offset }
    ensures after { result.1 ≡ char_after text.now (offset + count) }
{
    let before = text[..offset].chars().next_back();
    let after = text[offset + count..].chars().next();
    (before, after)
}

// Whether emphasis is made of the byte.
fn is_delimiter(byte: u8) -> bool
    ensures { IsTrue result ↔ ((byte ≡ asterisk) ⊎ (byte ≡ underscore)) }
{
    byte == b'*' || byte == b'_'
}

// Whether a run of the byte between these characters can open emphasis.
fn can_open(byte: u8, before: Option<char>, after: Option<char>) -> bool
    ensures { result ≡ can_open byte before after }
{
    is_left_flanking(before, after)
        && (byte == b'*' || !is_left_flanking(after, before) || is_punctuation_side(before))
}

// Whether a run between these characters is left-flanking.
fn is_left_flanking(before: Option<char>, after: Option<char>) -> bool
    ensures { result ≡ is_left_flanking before after }
{
    !is_white_side(after)
        && (!is_punctuation_side(after) || is_white_side(before) || is_punctuation_side(before))
}

// Whether white space stands there, or an end of the text.
fn is_white_side(side: Option<char>) -> bool
    ensures { result ≡ is_white_side side }
{
    match side {
        Some(c) => is_white_space(c),
        None => true,
    }
}

// Whether punctuation stands there.
fn is_punctuation_side(side: Option<char>) -> bool
    ensures { result ≡ is_punctuation_side side }
{
    match side {
        Some(c) => is_punctuation(c),
        None => false,
    }
}

/// Whether it is a Unicode white space character of CommonMark (section 2.1).
pub fn is_white_space(c: char) -> bool
    ensures { result ≡ is_white_space c }
{
    matches!(c, '\t' | '\n' | '\x0c' | '\r')
        || GeneralCategory::for_char(c) == GeneralCategory::SpaceSeparator
}

/// Whether it is a Unicode punctuation character of CommonMark (section 2.1).
pub fn is_punctuation(c: char) -> bool
    ensures { result ≡ is_punctuation c }
{
    let category = GeneralCategory::for_char(c);
    GeneralCategoryGroup::Punctuation.contains(category)
        || GeneralCategoryGroup::Symbol.contains(category)
}
