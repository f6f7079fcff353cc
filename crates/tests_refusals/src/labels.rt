//! Link labels.
use crate::no_memory::texts::hash_of;
use crate::printing::{MadeOf, print, print_consuming, print_reading, print_ready};
use crate::stop::Stop;
use crate::texts::boxed;
use markdown_scanners_tree::linklabel::{LinkLabel, scan_link_label_bytes, scan_link_label_rest};
use markdown_values::strings::CowStr;
use std::alloc::{AllocError, Global};
use std::fmt;
use std::io::Stdout;

/// The length of a label and its text.
pub(crate) type Label<'a> = Option<(usize, CowStr<'a>)>;

/// A label after its opening bracket, in which nothing is skipped.
pub(crate) fn label(alloc: Global, text: &str) -> Result<Label<'_>, AllocError> {
    let handler = |_: &[u8]| -> Option<usize> { Some(0) };
    scan_link_label_rest(alloc, text, &handler, false)
}

impl<'a> MadeOf<&'a str> for Option<(usize, CowStr<'a>)> {
    fn made_of(alloc: Global, value: &'a str) -> Result<Label<'a>, AllocError> {
        label(alloc, value)
    }
}

impl<'a> MadeOf<&'a [u8]> for Option<(usize, CowStr<'a>)> {
    fn made_of(alloc: Global, bytes: &'a [u8]) -> Result<Label<'a>, AllocError> {
        let handler = |_: &[u8]| -> Option<usize> { Some(0) };
        scan_link_label_bytes(alloc, bytes, &handler, false)
    }
}

/// A label that doesn't stand in its text as it is.
pub(crate) fn short(alloc: Global, output: Stdout) -> Result<(), Stop> {
    let text = "hello\r\nworld\r\n]";
    print_reading::<&str, Label<'_>>(alloc, output, "hello world", text)
}

/// A label that doesn't stand as it is in its bytes, which are no text.
pub(crate) fn in_bytes(alloc: Global, output: Stdout) -> Result<(), Stop> {
    let bytes: &[u8] = b"hello\r\nworld\r\n]\xff";
    print_reading::<&[u8], Label<'_>>(alloc, output, "hello world", bytes)
}

/// A label of 900 bytes.
pub(crate) fn of_900_bytes(alloc: Global, output: Stdout) -> Result<(), Stop> {
    let text = two_words(alloc)?;
    print_reading::<&str, Label<'_>>(alloc, output, "two words", text.as_str())
}

// Words of 450 and 449 bytes, with two spaces between them.
fn two_words(alloc: Global) -> Result<String, AllocError> {
    let word = "a".repeat(alloc, 450)?;
    format!(in alloc; "{word}  {}]", &word[1..])
}

const STREET: &str = "Straße 0123456789abcdefghijklmnopqrst";

const CAPITALS: &str = "STRASSE 0123456789ABCDEFGHIJKLMNOPQRST";

// A label, printed by its text.
#[derive(Drop)]
struct NewLabel<'a>(LinkLabel<'a>);

impl fmt::Debug for NewLabel<'_> {
    fn fmt<W: fmt::Write>(&self, f: &mut fmt::Formatter<W>) -> fmt::Result {
        f.write_str(self.0.as_str())
    }
}

impl MadeOf<CowStr<'static>> for NewLabel<'static> {
    fn made_of(alloc: Global, value: CowStr<'static>) -> Result<NewLabel<'static>, AllocError> {
        Ok(NewLabel(LinkLabel::new(alloc, value)?))
    }
}

/// The label of an owned text, which takes no memory of its own.
pub(crate) fn new(alloc: Global, output: Stdout) -> Result<(), Stop> {
    let (first, second) = (boxed(alloc, STREET), boxed(alloc, STREET));
    print_consuming::<CowStr<'static>, NewLabel<'static>>(alloc, output, STREET, first, second)
}

/// Labels are read and compared without memory.
pub(crate) fn compared(alloc: Global, output: Stdout) -> Result<(), Stop> {
    let (one, other) = two_labels(alloc)?;
    print_compared(output, &one, &other)
}

fn print_compared(output: Stdout, one: &LinkLabel<'_>, other: &LinkLabel<'_>) -> Result<(), Stop> {
    print_ready(output)?;
    print(output, compared_labels(one, other))
}

fn two_labels(alloc: Global) -> Result<(LinkLabel<'static>, LinkLabel<'static>), AllocError> {
    let one = LinkLabel::new(alloc, CowStr::from(STREET))?;
    let other = LinkLabel::new(alloc, CowStr::from(CAPITALS))?;
    Ok((one, other))
}

// Whether the one has the text that it was made of, whether they match and whether they have one
// hash.
fn compared_labels(one: &LinkLabel<'_>, other: &LinkLabel<'_>) -> (bool, bool, bool) {
    let is_same_hash = hash_of(one) == hash_of(other);
    (one.as_str() == STREET, *one == *other, is_same_hash)
}
