//! Words with one space between at the front of a label, and escapes in them. Most labels are such,
//! and are found by one look at each of their bytes.
ghost use Rattle.std.specs.Prelude.{◌≡◌, ◌≤◌, length};
ghost use Rattle.markdown_scanners_tree.specs.linklabel.private.Words.{AreWords, is_kept_escape, joins_words};

use crate::linklabel::MOST_CHARACTERS;
use crate::linklabel::tally::continued_count;
use crate::linklabel::word::is_ordinary;
use crate::scanners::is_ascii_punctuation;

// How many bytes the words at the front take, with one space between: of so many characters as a
// label may have and one.
#[inline(always)]
pub(crate) fn leading_words(bytes: &[u8], is_in_table: bool) -> usize
    ensures words { AreWords is_in_table bytes.now result }
    ensures within { result ≤ length bytes.now }
{
    match bytes {
        [first, ..] if is_ordinary(*first) || *first == b'\\' => {
            words_of_characters(bytes, is_in_table)
        }
        _ => 0,
    }
}

// The same, whatever stands at the front. Bytes that begin no character leave room for as many more:
// so words of other than ASCII characters are read a part at a time, each half as long at most.
#[inline(always)]
fn words_of_characters(bytes: &[u8], is_in_table: bool) -> usize
    ensures words { AreWords is_in_table bytes.now result }
    ensures within { result ≤ length bytes.now }
{
    let mut words = 0;
    let mut room = MOST_CHARACTERS + 1;
    loop {
        let end = words + room.min(bytes.len() - words);
        let next = words_up_to(bytes, words, end, is_in_table);
        if next < end || next == words {
            return next;
        }
        room = continued_count(&bytes[words..next]);
        words = next;
    }
}

// How many bytes words with one space between them take at the front, where so many bytes are such
// and were read: up to this end, or a byte after it.
#[inline(always)]
fn words_up_to(bytes: &[u8], from: usize, end: usize, is_in_table: bool) -> usize
    requires words { AreWords is_in_table bytes.now from }
    requires ordered { from ≤ end }
    requires end { end ≤ length bytes.now }
    ensures words { AreWords is_in_table bytes.now result }
    ensures forward { from ≤ result }
    ensures within { result ≤ length bytes.now }
{
    let mut offset = from;
    while offset < end {
        if is_ordinary(bytes[offset]) {
            offset += 1;
        } else if offset > 0 && joins_words(&bytes[offset..]) {
            offset += 2;
        } else if is_kept_escape(&bytes[offset..], is_in_table) {
            offset += 2;
        } else {
            return offset;
        }
    }
    offset
}

// Whether a space stands there, and a word after it.
fn joins_words(rest: &[u8]) -> bool
    ensures { result ≡ joins_words rest.now }
{
    match rest {
        [b' ', next, ..] => is_ordinary(*next),
        _ => false,
    }
}

// Whether a backslash stands there with a byte that it escapes, and no cell of a table drops either:
// for that the byte is no pipe there, and no backslash, which a pipe may follow.
fn is_kept_escape(rest: &[u8], is_in_table: bool) -> bool
    ensures { result ≡ is_kept_escape is_in_table rest.now }
{
    match rest {
        [b'\\', b'\\' | b'|', ..] if is_in_table => false,
        [b'\\', next, ..] => is_ascii_punctuation(*next),
        _ => false,
    }
}
