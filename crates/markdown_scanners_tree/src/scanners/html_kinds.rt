//! Kinds of HTML blocks: where they begin and end.
ghost use Rattle.std.specs.Prelude.{◌≡◌, ◌↔◌, ◌≤◌, ◌==◌, ◌∷◌, None, length, take, IsTrue, IfSome};
ghost use Rattle.std.specs.Str.{str_eq_ignore_ascii_case};
ghost use Rattle.markdown_scanners_tree.specs.SomeExactly.{SomeExactly, IsOnly};
ghost use Rattle.markdown_scanners_tree.specs.Ascii.{less_than_sign, greater_than_sign};
ghost use Rattle.markdown_scanners_tree.specs.Bytes.{begins_with, is_letter};
ghost use Rattle.markdown_scanners_tree.specs.declared.scanners.html_kinds.HtmlBlockKind.TheVariants.{RawText};
ghost use Rattle.markdown_scanners_tree.specs.scanners.Interrupts.{IsInterruptingHtml};
ghost use Rattle.markdown_scanners_tree.specs.scanners.html_block.HtmlBlock.{IsBlockStart};
ghost use Rattle.markdown_scanners_tree.specs.scanners.html_kinds.HtmlKinds.{IsHtmlBlockStart, condition_number, raw_text_names, name_among, begins_with_raw_name, ends_raw_name};
ghost use Rattle.markdown_scanners_tree.specs.scanners.html_kinds.HtmlKinds.{ends_tag_name, begins_html_end, ends_before_blank, is_somewhere, is_html_end};
ghost use Rattle.markdown_scanners_tree.specs.scanners.html_kinds.private.Marks.{declared_kind, marked_kind, first_of_end};

use crate::scanners::classes::{is_ascii_alphanumeric, is_ascii_letter};
use crate::scanners::html_block::starts_html_block_type_6;
use crate::scanners::html_tag::scan_html_type_7;
use crate::scanners::lines::{line_head, scan_blank_line};
use crate::scanners::runs::first_bytes;
use memchr::memchr;

/// The kinds of HTML blocks, by the numbers of their start and end conditions. (CommonMark 0.31.2,
/// section 4.6)
#[derive(Clone, Copy, Debug, PartialEq, Eq, PartialOrd, Ord, Hash)]
pub enum HtmlBlockKind {
    /// An open tag `pre`, `script`, `style` or `textarea`, to the line with a closing tag of one of
    /// these names.
    RawText = 1,
    /// `<!--`, to the line with `-->`.
    Comment,
    /// `<?`, to the line with `?>`.
    Processing,
    /// `<!` and a letter, to the line with `>`.
    Declaration,
    /// `<![CDATA[`, to the line with `]]>`.
    Cdata,
    /// A tag with one of 62 names, to the next blank line.
    BlockName,
    /// Another tag alone in its line, to the next blank line. It can't interrupt a paragraph.
    TagAlone,
}

impl HtmlBlockKind {
    /// The number of the start and the end condition: 1 to 7.
    pub fn number(self) -> u8
        ensures { result ≡ condition_number self }
    {
        self as u8
    }

    /// The kind whose conditions have this number, and None where none have it.
    pub fn from_number(number: u8) -> Option<HtmlBlockKind>
        ensures found { SomeExactly (λ kind. condition_number kind ≡ number) result }
        ensures only { IsOnly (λ kind. condition_number kind ≡ number) result }
    {
        match number {
            1 => Some(HtmlBlockKind::RawText),
            2 => Some(HtmlBlockKind::Comment),
            3 => Some(HtmlBlockKind::Processing),
            4 => Some(HtmlBlockKind::Declaration),
            5 => Some(HtmlBlockKind::Cdata),
            6 => Some(HtmlBlockKind::BlockName),
            7 => Some(HtmlBlockKind::TagAlone),
            _ => None,
        }
    }

    /// Whether a block of this kind goes on to the next blank line, and ends before it: true of
    /// `BlockName` and `TagAlone`. Each other kind ends with the first line that has its closing
    /// mark, blank lines or not. (CommonMark 0.31.2, section 4.6)
    pub fn ends_before_blank(self) -> bool
        ensures { result ≡ ends_before_blank self }
    {
        matches!(self, HtmlBlockKind::BlockName | HtmlBlockKind::TagAlone)
    }
}

// The names of start condition 1.
const RAW_TEXT_NAMES: [&str; 4] = ["pre", "script", "style", "textarea"];

// How many bytes after `<` tell a block name: a `/`, ten bytes at most, and `/>`.
const BLOCK_NAME_BYTES: usize = 13;

/// The kind of the HTML block that begins at the front, after the indent of its line.
///
/// It is the first whose start condition holds: a tag that stands alone in its line and has a block
/// name too begins a block by its name. (CommonMark 0.31.2, section 4.6)
pub fn scan_html_block_start(bytes: &[u8]) -> Option<HtmlBlockKind>
    ensures found { SomeExactly (IsHtmlBlockStart bytes.now) result }
    ensures only { IsOnly (IsHtmlBlockStart bytes.now) result }
{
    let rest = bytes.strip_prefix(b"<")?;
    match scan_marked_kind(rest) {
        Some(kind) => Some(kind),
        None => scan_tag_kind(bytes, rest),
    }
}

// The kind that a mark after `<` begins: 2 to 5.
fn scan_marked_kind(rest: &[u8]) -> Option<HtmlBlockKind>
    ensures { result ≡ marked_kind rest.now }
{
    match rest {
        [b'?', ..] => Some(HtmlBlockKind::Processing),
        [b'!', bytes @ ..] => scan_declared_kind(bytes),
        _ => None,
    }
}

// The kind that begins after `<!`.
fn scan_declared_kind(bytes: &[u8]) -> Option<HtmlBlockKind>
    ensures { result ≡ declared_kind bytes.now }
{
    if bytes.starts_with(b"--") {
        Some(HtmlBlockKind::Comment)
    } else if begins_with_letter(bytes) {
        Some(HtmlBlockKind::Declaration)
    } else if bytes.starts_with(b"[CDATA[") {
        Some(HtmlBlockKind::Cdata)
    } else {
        None
    }
}

// Whether a letter stands at the front.
fn begins_with_letter(bytes: &[u8]) -> bool
    ensures { result ≡ begins_with is_letter bytes.now }
{
    match bytes {
        [first, ..] => is_ascii_letter(*first),
        _ => false,
    }
}

// The kind that a tag begins, where no mark stands after its `<`: 1, 6 or 7.
fn scan_tag_kind(bytes: &[u8], rest: &[u8]) -> Option<HtmlBlockKind>
    requires opened { bytes.now ≡ less_than_sign ∷ rest.now }
    requires no_mark { marked_kind rest.now ≡ None }
    ensures { SomeExactly (IsHtmlBlockStart bytes.now) result }
{
    if begins_raw_text(rest) {
        return Some(HtmlBlockKind::RawText);
    }
    if begins_block_name(rest) {
        return Some(HtmlBlockKind::BlockName);
    }
    if scan_html_type_7(bytes).is_some() && !has_raw_name(rest) {
        return Some(HtmlBlockKind::TagAlone);
    }
    None
}

// Whether an HTML block that can interrupt a paragraph begins with `<` and these bytes: one by the
// conditions 1 to 6, which read no tag.
pub(in crate::scanners) fn begins_interrupting_html(rest: &[u8]) -> bool
    ensures { IsTrue result ↔ IsInterruptingHtml (less_than_sign ∷ rest.now) }
{
    if scan_marked_kind(rest).is_some() {
        return true;
    }
    if begins_raw_text(rest) {
        return true;
    }
    begins_block_name(rest)
}

// Whether a name of start condition 6 stands after `<`, and what must follow it. Only the bytes
// that tell it are looked at.
fn begins_block_name(rest: &[u8]) -> bool
    ensures { IsTrue result ↔ IsBlockStart rest.now }
{
    starts_html_block_type_6(first_bytes(rest, BLOCK_NAME_BYTES))
}

// Whether a name of start condition 1 stands after `<`, and what must follow it.
fn begins_raw_text(rest: &[u8]) -> bool
    ensures { result ≡ begins_with_raw_name ends_raw_name rest.now }
{
    match scan_raw_name(rest) {
        Some(length) => ends_raw_name(&rest[length..]),
        None => false,
    }
}

// Whether the tag whose name stands after `<` has a name of start condition 1.
fn has_raw_name(rest: &[u8]) -> bool
    ensures { result ≡ begins_with_raw_name ends_tag_name rest.now }
{
    match scan_raw_name(rest) {
        Some(length) => ends_tag_name(&rest[length..]),
        None => false,
    }
}

// The length of a name of start condition 1 at the front, in any ASCII case.
fn scan_raw_name(bytes: &[u8]) -> Option<usize>
    ensures name { result ≡ name_among raw_text_names bytes.now }
    ensures within { IfSome result (λ n. n ≤ length bytes.now) }
{
    for name in RAW_TEXT_NAMES {
        if begins_with_name(bytes, name.as_bytes()) {
            return Some(name.len());
        }
    }
    None
}

// Whether the name stands at the front, in any ASCII case.
fn begins_with_name(bytes: &[u8], name: &[u8]) -> bool
    ensures name { result
        ≡ str_eq_ignore_ascii_case (take (length name.now) bytes.now) name.now }
    ensures within { IsTrue result → length name.now ≤ length bytes.now }
{
    if bytes.len() < name.len() {
        return false;
    }
    bytes[..name.len()].eq_ignore_ascii_case(name)
}

// Whether a space, a tab, `>` or the end of the line stands at the front.
fn ends_raw_name(rest: &[u8]) -> bool
    ensures { result ≡ ends_raw_name rest.now }
{
    match rest {
        [] => true,
        [first, ..] => matches!(*first, b' ' | b'\t' | b'>' | b'\n' | b'\r'),
    }
}

// Whether no further byte of a tag name stands at the front.
fn ends_tag_name(rest: &[u8]) -> bool
    ensures { result ≡ ends_tag_name rest.now }
{
    match rest {
        [] => true,
        [first, ..] => !(is_ascii_alphanumeric(*first) || *first == b'-'),
    }
}

/// Whether the line at the front ends an HTML block of this kind.
///
/// Of the kinds up to `Cdata` it is the last line of the block, and may be the first too. Of
/// `BlockName` and `TagAlone` it is a blank line, and no part of the block. (CommonMark 0.31.2,
/// section 4.6)
pub fn ends_html_block(line: &[u8], kind: HtmlBlockKind) -> bool
    ensures { result ≡ is_html_end kind line.now }
{
    if kind.ends_before_blank() {
        scan_blank_line(line).is_some()
    } else {
        holds_html_end(line_head(line), kind)
    }
}

// Whether what ends a block of this kind stands somewhere in the bytes.
fn holds_html_end(bytes: &[u8], kind: HtmlBlockKind) -> bool
    ensures { result ≡ is_somewhere (begins_html_end kind) bytes.now }
{
    let first = first_of_end(kind);
    let mut from = 0;
    while from < bytes.len() {
        let Some(found) = memchr(first, &bytes[from..]) else {
            return false;
        };
        let offset = from + found;
        if begins_html_end(&bytes[offset..], kind) {
            return true;
        }
        from = offset + 1;
    }
    false
}

// The first byte of what ends a block of this kind.
fn first_of_end(kind: HtmlBlockKind) -> u8
    ensures { result ≡ first_of_end kind }
{
    match kind {
        HtmlBlockKind::RawText => b'<',
        HtmlBlockKind::Comment => b'-',
        HtmlBlockKind::Processing => b'?',
        HtmlBlockKind::Declaration => b'>',
        HtmlBlockKind::Cdata => b']',
        HtmlBlockKind::BlockName | HtmlBlockKind::TagAlone => b'\n',
    }
}

// Whether what ends a block of this kind stands at the front.
fn begins_html_end(bytes: &[u8], kind: HtmlBlockKind) -> bool
    ensures { result ≡ begins_html_end kind bytes.now }
{
    match kind {
        HtmlBlockKind::RawText => begins_raw_end(bytes),
        HtmlBlockKind::Comment => bytes.starts_with(b"-->"),
        HtmlBlockKind::Processing => bytes.starts_with(b"?>"),
        HtmlBlockKind::Declaration => bytes.starts_with(b">"),
        HtmlBlockKind::Cdata => bytes.starts_with(b"]]>"),
        HtmlBlockKind::BlockName | HtmlBlockKind::TagAlone => false,
    }
}

// Whether a closing tag with a name of start condition 1 stands at the front.
fn begins_raw_end(bytes: &[u8]) -> bool
    ensures { result ≡ begins_html_end RawText bytes.now }
{
    let Some(name) = bytes.strip_prefix(b"</") else {
        return false;
    };
    match scan_raw_name(name) {
        Some(length) => begins_with_bracket(&name[length..]),
        None => false,
    }
}

// Whether `>` stands at the front.
fn begins_with_bracket(rest: &[u8]) -> bool
    ensures { result ≡ begins_with (λ b. b == greater_than_sign) rest.now }
{
    matches!(rest, [b'>', ..])
}
