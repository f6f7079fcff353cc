//! Markers and labels of footnote definitions. (GitHub Docs, footnotes: no part of CommonMark)
ghost use Rattle.std.specs.Prelude.{◌≡◌, ◌<◌, ◌≤◌, ◌+◌, length, Some, None, IsTrue, IfSome, IfNone};
ghost use Rattle.std.specs.List.{prefix_len};
ghost use Rattle.markdown_blocks.specs.containers.Containers.{footnote_of};
ghost use Rattle.markdown_blocks.specs.containers.Footnotes.{after_columns, closes_label, footnote_label, is_label_byte};
ghost use Rattle.markdown_scanners_tree.specs.line.State.{bytes_further};

use crate::containers::Container;
use markdown_scanners_tree::line::LineStart;
use markdown_values::values::Extensions;

/// The label of the footnote definition whose marker stands at the front of a text, if one does. Of
/// a page and a `BlockEvent::Start` of a footnote definition the text is the page from its offset on.
///
/// Labels match as those of links do.
pub fn footnote_label(text: &[u8]) -> Option<&[u8]>
    ensures label { IfSome result (λ label. footnote_label text.now ≡ Some label.now) }
    ensures none { IfNone result (footnote_label text.now ≡ None) }
    ensures within { IfSome result (λ label. length label.now + 4 ≤ length text.now) }
{
    let [b'[', b'^', rest @ ..] = text else {
        return None;
    };
    let len = label_len(rest);
    if len == 0 || !closes_label(&rest[len..]) {
        return None;
    }
    Some(&rest[..len])
}

// How many bytes at the front may stand in a label.
fn label_len(bytes: &[u8]) -> usize
    ensures run { result ≡ prefix_len is_label_byte bytes.now }
    ensures within { result ≤ length bytes.now }
{
    bytes.iter().take_while(|b| is_label_byte(**b)).count()
}

// Whether the byte may stand in a label.
fn is_label_byte(byte: u8) -> bool
    ensures { result ≡ is_label_byte byte }
{
    !matches!(byte, b' ' | b'\t' | b'\n' | b'\r' | 0 | b']')
}

// Whether a bracket and a colon stand at the front.
fn closes_label(bytes: &[u8]) -> bool
    ensures answer { result ≡ closes_label bytes.now }
    ensures within { IsTrue result → 2 ≤ length bytes.now }
{
    matches!(bytes, [b']', b':', ..])
}

/// Passes the marker of the footnote definition at the position, and the spaces and tabs after it,
/// if one stands there and the extension is on.
pub(crate) fn scan_footnote<'a>(
    line: &'a [u8],
    start: &mut LineStart<'a>,
    extensions: Extensions,
) -> Option<Container>
    requires { start.old.bytes ≡ line.now }
    ensures found { IfSome result (λ container.
        footnote_of extensions start.old ≡ Some (container, start.new)) }
    ensures none { IfNone result (footnote_of extensions start.old ≡ None) }
    ensures unchanged { IfNone result (start.new ≡ start.old) }
    ensures bytes { start.new.bytes ≡ line.now }
    ensures rises { IfSome result (λ _. start.old.offset < start.new.offset) }
{
    if !extensions.footnotes {
        return None;
    }
    let offset = start.bytes_scanned();
    let label = footnote_label(&line[offset..])?;
    let mut after = further(line, start, label.len() + 4)?;
    pass_columns(&mut after);
    *start = after;
    Some(Container::Footnote)
}

// The position so many bytes further, each of one column, if they are there.
fn further<'a>(line: &'a [u8], start: &LineStart, count: usize) -> Option<LineStart<'a>>
    requires { start.now.bytes ≡ line.now }
    ensures further { IfSome result (λ after. after ≡ bytes_further count start.now) }
    ensures none { IfNone result (length line.now < start.now.offset + count) }
{
    let offset = start.bytes_scanned().checked_add(count)?;
    let phase = (start.phase() + count % 4) % 4;
    LineStart::resumed(line, offset, start.remaining_space(), phase)
}

// Passes all columns of space.
fn pass_columns(start: &mut LineStart)
    requires { start.old.phase < 4 }
    ensures offset { start.new ≡ after_columns start.old }
    ensures bytes { start.new.bytes ≡ start.old.bytes }
    ensures forward { start.old.offset ≤ start.new.offset }
{
    while start.scan_space_upto(4) == 4 {}
}
