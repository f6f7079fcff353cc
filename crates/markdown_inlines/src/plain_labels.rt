//! Labels that stand in a text as they are: words with one space between, as most are. (CommonMark
//! 0.31.2, section 6.3, link labels)
ghost use Rattle.std.specs.Prelude.{◌≡◌, ◌==◌, ◌<◌, ◌≤◌, false, length, slice_index, IfSome};
ghost use Rattle.std.specs.List.{prefix_len};
ghost use Rattle.markdown_scanners_tree.specs.Ascii.{right_bracket, space};
ghost use Rattle.markdown_scanners_tree.specs.Bytes.{begins_with};
ghost use Rattle.markdown_scanners_tree.specs.linklabel.private.Run.{is_ordinary};
ghost use Rattle.markdown_scanners_tree.specs.linklabel.private.Words.{AreWords};
ghost use Rattle.markdown_inlines.specs.PlainLabels.{IsPlainLabel, IsSpacedWord};

use markdown_scanners_tree::byte_sets::ByteSet;

// A label of so many bytes has no more characters than a label may have.
const MOST_BYTES: usize = 999;

// White space, and the brackets and the backslash.
const NOT_IN_WORDS: ByteSet = ByteSet {
    low: [4, 0, 0, 0, 0, 0, 0, 0, 0, 1, 1, 3, 3, 3, 0, 0],
    high: [1, 0, 4, 0, 0, 2, 0, 0, 0, 0, 0, 0, 0, 0, 0, 0],
};

/// How many bytes stand before the right bracket of the label at the front, if they are words with
/// one space between. Other labels are not found, and none of more than 999 bytes.
pub(crate) fn scan_plain_label(bytes: &[u8]) -> Option<usize>
    ensures found { IfSome result (IsPlainLabel bytes.now) }
    ensures within { IfSome result (λ len. len < length bytes.now) }
    ensures cut { IfSome result (λ len. slice_index bytes.now len ≡ right_bracket) }
{
    let words = words_len(bytes);
    if words > 0 && words <= MOST_BYTES && is_closed(&bytes[words..]) {
        Some(words)
    } else {
        None
    }
}

// How many bytes the words at the front take, with one space between.
fn words_len(bytes: &[u8]) -> usize
    ensures words { AreWords false bytes.now result }
    ensures within { result ≤ length bytes.now }
{
    let mut words = word_len(bytes);
    while words > 0 {
        let next = spaced_word_len(&bytes[words..]);
        if next == 0 {
            return words;
        }
        words += next;
    }
    words
}

// How many bytes the space at the front takes with the word after it. Zero where they don't stand
// there.
fn spaced_word_len(rest: &[u8]) -> usize
    ensures word { 0 < result → IsSpacedWord rest.now result }
    ensures within { result ≤ length rest.now }
{
    if !begins_with_space(rest) {
        return 0;
    }
    let word = word_len(&rest[1..]);
    if word == 0 { 0 } else { word + 1 }
}

// How many bytes the word at the front has.
fn word_len(bytes: &[u8]) -> usize
    ensures word { result ≡ prefix_len is_ordinary bytes.now }
    ensures within { result ≤ length bytes.now }
{
    NOT_IN_WORDS.len_outside(bytes)
}

// Whether a space stands at the front.
fn begins_with_space(rest: &[u8]) -> bool
    ensures { result ≡ begins_with (λ b. b == space) rest.now }
{
    matches!(rest, [b' ', ..])
}

// Whether a right bracket stands at the front.
fn is_closed(rest: &[u8]) -> bool
    ensures { result ≡ begins_with (λ b. b == right_bracket) rest.now }
{
    matches!(rest, [b']', ..])
}
