//! Link labels: the bracketed names by which references and footnotes are matched.
ghost use Rattle.std.specs.Prelude.{◌≡◌, ◌⊎◌, ◌≤◌, ◌<◌, ◌+◌, ◌++◌, true, false, ℕ, nat_eq, List, length, take};
ghost use Rattle.std.specs.Prelude.{IfOk, IsOk, IfSome, option_map, IsAscii, IsTrue, IsCharBoundary};
ghost use Rattle.std.specs.Cmp.{on_equiv, on_per, partial_equiv_from_equiv};
ghost use Rattle.std.specs.Cmp.Lexicographic.{pointwise, nat_list_eq_equiv};
ghost use Rattle.std.specs.Cmp.Rules.{hashing};
ghost use Rattle.std.specs.Hash as fed;
ghost use Rattle.std.specs.Str.{IsUtf8};
ghost use Rattle.std.proofs.Common.{rules};
ghost use Rattle.markdown_values.specs.strings.Text.{cow_text, IsBorrowed, IsBoxed};
ghost use Rattle.markdown_scanners_tree.specs.SomeExactly.{SomeExactly, IsOnly};
ghost use Rattle.markdown_scanners_tree.specs.Handler.{Skips, IsCallableAfterLineEndings, IsSteadyAtChars, IsSteadyAtAscii};
ghost use Rattle.markdown_scanners_tree.specs.linklabel.Label.{Label, IsLabel, IsLabelInBytes, HasNoLabel, HasNoLabelInBytes, ends_in_backslash, ReadsBack};
ghost use Rattle.markdown_scanners_tree.specs.linklabel.Answer.{answered_label, slice_before, without_first_space, without_last_space};
ghost use Rattle.markdown_scanners_tree.specs.linklabel.Key.{label_key, key_bytes, blocks};
ghost use Rattle.markdown_scanners_tree.specs.linklabel.private.Pass.{IsMeasure};
ghost use Rattle.markdown_scanners_tree.specs.linklabel.private.Steady.{IsSteadyAfterLines, EndsAtChars};

mod key;
mod key_block;
mod length;
mod measure;
mod steps;
mod tally;
mod word;
mod words;
mod write;

use caseless::default_caseless_match_str;
use key::{eq_ascii, hash_ascii, hash_folded};
pub(crate) use length::label_len;
use markdown_values::strings::CowStr;
use measure::{Measure, measure_label};
use std::alloc::{AllocError, Global};
use std::hash::{Hash, Hasher};
use std::marker::Model;
use write::write_label;

// How many characters the content of a label may have.
pub(crate) const MOST_CHARACTERS: usize = 999;

/// What a label in brackets names.
#[derive(Debug, Drop)]
pub enum ReferenceLabel<'a> {
    /// The definition of a link.
    Link(CowStr<'a>),
    /// The definition of a footnote.
    Footnote(CowStr<'a>),
}

/// A label by which references find their definitions. Two are equal where their texts have the
/// same full case folding (CommonMark 0.31.2, section 6.3, link labels). The text is folded on the
/// way where labels are compared or hashed, so that neither takes memory; that of an ASCII text
/// byte by byte.
#[derive(Drop)]
pub struct LinkLabel<'a> {
    text: CowStr<'a>,
    is_ascii: bool,
}

impl<'a> Model for LinkLabel<'a> {
    ghost Value = { List ℕ };

    ghost view = { λ l. cow_text l.text };

    ghost invariant = { λ l. IsTrue l.is_ascii → IsAscii (cow_text l.text) };
}

impl<'a> LinkLabel<'a> {
    /// The label with this text, always `Ok`: it takes no memory.
    // Not inlined, the text goes through memory twice.
    #[inline(always)]
    pub fn new(_alloc: Global, text: CowStr<'a>) -> Result<LinkLabel<'a>, AllocError>
        ensures label { IfOk result (λ label. label ≡ cow_text text.entry) }
        ensures no_memory { IsOk result }
    {
        let is_ascii = text.as_str().is_ascii();
        Ok(LinkLabel { text, is_ascii })
    }

    /// The text as it was given, its case unchanged.
    pub fn as_str(&self) -> &str
        ensures { result.now ≡ self.now }
    {
        self.text.as_str()
    }
}

impl<'a> PartialEq for LinkLabel<'a> {
    ghost eq = { λ a b. pointwise nat_eq (label_key a) (label_key b) };

    ghost laws = { on_per label_key (partial_equiv_from_equiv nat_list_eq_equiv) };

    fn eq(&self, other: &LinkLabel<'a>) -> bool {
        if self.as_str() == other.as_str() {
            true
        } else if self.is_ascii && other.is_ascii {
            eq_ascii(self.as_str(), other.as_str())
        } else {
            default_caseless_match_str(self.as_str(), other.as_str())
        }
    }
}

impl<'a> Eq for LinkLabel<'a> {
    ghost laws = { on_equiv label_key nat_list_eq_equiv };
}

impl<'a> Hash for LinkLabel<'a> {
    ghost hash_input = { λ l. blocks (key_bytes l) ++ fed.u8 255 };

    ghost respects_eq = { Prim.search (hashing, rules) };

    fn hash<H: Hasher>(&self, state: &mut H) {
        if self.is_ascii {
            hash_ascii(self.as_str(), state);
        } else {
            hash_folded(self.as_str(), state);
        }
        // No UTF-8 has this byte, so it ends the key.
        state.write_u8(0xFF);
    }
}

/// The label of a footnote, which is matched as a link's is.
pub type FootnoteLabel<'a> = LinkLabel<'a>;

/// Reads a label whose opening bracket has been read: up to the first closing bracket that no
/// backslash escapes (CommonMark 0.31.2, section 6.3, link labels). Answers how many bytes were
/// taken, the closing bracket counted, and the label with each run of white space as one space and
/// none at its ends.
///
/// There is no label where no such bracket comes, where an opening bracket comes first that no
/// backslash escapes, for two line endings in one run of white space, for white space alone, and
/// for more than 999 characters.
///
/// After each line ending `handler` is given the bytes that follow, and answers how many of them
/// belong to the containers of the text and are no part of the label, or None where the text ends
/// there. In a table a pipe drops the one backslash before it, as cells are read (GitHub Flavored
/// Markdown 0.29, section 4.10).
///
/// `handler` has one answer for one rest, and what it skips ends in the rest, between two of its
/// characters. It is given no other bytes than what follows a line ending of the text, and may be
/// asked twice for one rest.
///
/// # Errors
///
/// `AllocError` where memory is refused for a label that does not stand in the text as it is.
pub fn scan_link_label_rest<'t, F: Fn(&[u8]) -> Option<usize>>(
    alloc: Global,
    text: &'t str,
    handler: &F,
    is_in_table: bool,
) -> Result<Option<(usize, CowStr<'t>)>, AllocError>
    requires callable { IsCallableAfterLineEndings F.Fn handler.now text.now }
    requires steady { IsSteadyAtChars F.Fn handler.now }

    // The one label of the text is answered, or none where it has none.
    ensures found { IfOk result (λ found.
        SomeExactly (IsLabel (Skips F.Fn handler.now) text.entry.now is_in_table)
        (option_map answered_label found)) }
    ensures only { IfOk result (λ found.
        IsOnly (IsLabel (Skips F.Fn handler.now) text.entry.now is_in_table)
        (option_map answered_label found)) }

    // The bytes that are taken can be cut off the text.
    ensures within { IfOk result (λ found. IfSome found (λ r. r.0 ≤ length text.entry.now)) }
    ensures boundary { IfOk result (λ found. IfSome found (λ r.
        IsCharBoundary text.entry.now r.0)) }

    // The label is lent where it stands in the text as it is, and else has memory of its own.
    ensures storage { IfOk result (λ found. IfSome found (λ r. IsBorrowed r.1 ⊎ IsBoxed r.1)) }
    ensures slice { IfOk result (λ found. IfSome found (λ r. IsBorrowed r.1
        → cow_text r.1 ≡ slice_before text.entry.now r.0)) }

    // A label reads as itself again.
    ensures reads_back { IfOk result (λ found. IfSome found (λ r. is_in_table ≡ false
        → ends_in_backslash (cow_text r.1) ≡ false → ReadsBack (cow_text r.1))) }

    // Memory is needed only for a label that doesn't stand in the text as it is.
    ensures borrowed { (label : Label)
        → IsLabel (Skips F.Fn handler.now) text.entry.now is_in_table label
        → label.plain ≡ true → IsOk result }
    ensures no_label { HasNoLabel (Skips F.Fn handler.now) text.entry.now is_in_table
        → IsOk result }
{
    let bytes = text.as_bytes();
    let Some(measure) = measure_label(bytes, handler, is_in_table) else {
        return Ok(None);
    };
    let label = measured_label(alloc, text, bytes, measure, handler, is_in_table)?;
    Ok(Some((measure.close + 1, label)))
}

/// Reads a label whose opening bracket has been read, as `scan_link_label_rest` does, from bytes that
/// may be anything after its closing bracket (CommonMark 0.31.2, section 6.3, link labels). There is
/// no label where the bytes that it takes are not UTF-8. Beside what the handler skips or reads, no
/// byte is read past the first bracket that no backslash escapes, and at most 1001 that begin a
/// character.
///
/// `handler` has one answer for one rest, and what it skips is there and is ASCII, as the markers of
/// containers are. It is given no other bytes than what follows a line ending, and may be asked twice
/// for one rest.
///
/// # Errors
///
/// `AllocError` where memory is refused for a label that does not stand in the bytes as it is.
pub fn scan_link_label_bytes<'t, F: Fn(&[u8]) -> Option<usize>>(
    alloc: Global,
    bytes: &'t [u8],
    handler: &F,
    is_in_table: bool,
) -> Result<Option<(usize, CowStr<'t>)>, AllocError>
    requires callable { IsCallableAfterLineEndings F.Fn handler.now bytes.now }
    requires steady { IsSteadyAtAscii F.Fn handler.now }

    // The one label of the bytes is answered, or none where they have none.
    ensures found { IfOk result (λ found.
        SomeExactly (IsLabelInBytes (Skips F.Fn handler.now) bytes.entry.now is_in_table)
        (option_map answered_label found)) }
    ensures only { IfOk result (λ found.
        IsOnly (IsLabelInBytes (Skips F.Fn handler.now) bytes.entry.now is_in_table)
        (option_map answered_label found)) }

    // The bytes that are taken are there, and more than the label has.
    ensures within { IfOk result (λ found. IfSome found (λ r. r.0 ≤ length bytes.entry.now)) }
    ensures room { IfOk result (λ found. IfSome found (λ r. length (cow_text r.1) < r.0)) }

    // The label is lent where it stands in the bytes as it is, and else has memory of its own.
    ensures storage { IfOk result (λ found. IfSome found (λ r. IsBorrowed r.1 ⊎ IsBoxed r.1)) }
    ensures slice { IfOk result (λ found. IfSome found (λ r. IsBorrowed r.1
        → cow_text r.1 ≡ slice_before bytes.entry.now r.0)) }

    // A label reads as itself again.
    ensures reads_back { IfOk result (λ found. IfSome found (λ r. is_in_table ≡ false
        → ends_in_backslash (cow_text r.1) ≡ false → ReadsBack (cow_text r.1))) }

    // Memory is needed only for a label that doesn't stand in the bytes as it is.
    ensures borrowed { (label : Label)
        → IsLabelInBytes (Skips F.Fn handler.now) bytes.entry.now is_in_table label
        → label.plain ≡ true → IsOk result }
    ensures no_label { HasNoLabelInBytes (Skips F.Fn handler.now) bytes.entry.now is_in_table
        → IsOk result }
{
    let Some(measure) = measure_label(bytes, handler, is_in_table) else {
        return Ok(None);
    };
    let taken = measure.close + 1;
    let Ok(text) = str::from_utf8(&bytes[..taken]) else {
        return Ok(None);
    };
    let label = measured_label(alloc, text, bytes, measure, handler, is_in_table)?;
    Ok(Some((taken, label)))
}

// The label that was measured, where the text is the front of the bytes and has it.
fn measured_label<'t, F: Fn(&[u8]) -> Option<usize>>(
    alloc: Global,
    text: &'t str,
    bytes: &[u8],
    measure: Measure,
    handler: &F,
    is_in_table: bool,
) -> Result<CowStr<'t>, AllocError>
    requires callable { IsCallableAfterLineEndings F.Fn handler.now bytes.now }
    requires steady { IsSteadyAfterLines F.Fn handler.now bytes.now }
    requires cuts { EndsAtChars F.Fn handler.now bytes.now text.now }
    requires front { text.now ≡ take (length text.now) bytes.now }
    requires measured { IsMeasure (Skips F.Fn handler.now) bytes.now is_in_table measure }
    requires closed { measure.close < length text.now }
    ensures answered { IfOk result (λ label. IsLabel (Skips F.Fn handler.now) bytes.now is_in_table
        (answered_label (measure.close + 1, label))) }
    ensures storage { IfOk result (λ label. IsBorrowed label ⊎ IsBoxed label) }
    ensures memory { measure.is_plain ≡ true → IsOk result }
{
    if measure.is_plain {
        let label = up_to_last_space(past_first_space(&text[..measure.close]));
        return Ok(CowStr::from(label));
    }
    let mut label = String::with_capacity(alloc, measure.length)?;
    write_label(&mut label, text, bytes, handler, is_in_table)?;
    CowStr::from_string(alloc, label)
}

// A text after the space at its front, if one stands there.
fn past_first_space(text: &str) -> &str
    ensures { result.now ≡ without_first_space text.now }
{
    text.strip_prefix(' ').unwrap_or(text)
}

// A text up to the space at its end, if one stands there.
fn up_to_last_space(text: &str) -> &str
    ensures { result.now ≡ without_last_space text.now }
{
    text.strip_suffix(' ').unwrap_or(text)
}
