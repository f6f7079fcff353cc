//! Open and closing tags, over the lines of containers or alone in a line.
ghost use Rattle.std.specs.Prelude.{IsOk, ◌≡◌, ◌≢◌, ◌≤◌, true, [], ◌∷◌, IfOk, OnErr, List, IfSome, IfNone, length};
ghost use Rattle.markdown_scanners_tree.specs.SomeExactly.{SomeExactly, IsOnly};
ghost use Rattle.markdown_scanners_tree.specs.Bytes.{is_line_ending};
ghost use Rattle.markdown_scanners_tree.specs.Handler.{Answers, IsCallableAfterLineEndings, IsSteady};
ghost use Rattle.markdown_scanners_tree.specs.Kept.{KeptByte, bytes_of};
ghost use Rattle.markdown_scanners_tree.specs.scanners.html_tag.HtmlTag.{IsTagAloneInLine};
ghost use Rattle.markdown_scanners_tree.specs.scanners.html_tag.KeptTag.{IsKeptPrefix, HasTag, OnEachTag, HasNoTag, AreTextAndLength, AreLengths, tag_buffer};
ghost use Rattle.markdown_scanners_tree.specs.scanners.tag_state.private.TagMachine.{ends_source_line};

use crate::scanners::classes::is_line_ending;
use crate::scanners::lines::scan_blank_line;
use crate::scanners::tag_state::TagState;
use std::alloc::{AllocError, Global};

// A tag's bytes without those that a handler skips, and the offset after it in its source.
#[derive(Drop)]
struct TagLength {
    kept: usize,
    end: usize,
}

// Whether a line ends with the first byte: LF, or a CR that no LF follows.
fn ends_source_line(rest: &[u8]) -> bool
    ensures { result ≡ ends_source_line rest.now }
{
    match rest {
        [b'\n', ..] => true,
        [b'\r', b'\n', ..] => false,
        [b'\r', ..] => true,
        _ => false,
    }
}

// The same of a byte that is LF or CR, before these bytes.
fn ends_line_before(byte: u8, rest: &[u8]) -> bool
    requires { is_line_ending byte ≡ true }
    ensures { result ≡ ends_source_line (byte ∷ rest.now) }
{
    byte == b'\n' || !matches!(rest, [b'\n', ..])
}

// How long the tag is that the bytes begin with.
fn measure_tag<F: Fn(&[u8]) -> usize>(bytes: &[u8], handler: Option<&F>) -> Option<TagLength>
    requires callable { IfSome handler (λ f. IsCallableAfterLineEndings F.Fn f.now bytes.now) }
    requires steady { IfSome handler (λ f. IsSteady F.Fn f.now) }

    ensures found { IfSome result (λ tag.
        HasTag F.Fn handler.entry bytes.now (AreLengths tag.kept tag.end)) }
    ensures only { IfSome result (λ tag.
        OnEachTag F.Fn handler.entry bytes.now (AreLengths tag.kept tag.end)) }
    ensures none { IfNone result (HasNoTag F.Fn handler.entry bytes.now) }

    ensures whole { IfSome result (λ tag. IfNone handler.entry (tag.kept ≡ tag.end)) }
    ensures within { IfSome result (λ tag. tag.end ≤ length bytes.now) }
{
    let (mut state, mut offset) = TagState::after_first(bytes);
    let mut kept = offset;
    let mut endings = 0;
    while offset < bytes.len() && !state.is_final() {
        let byte = bytes[offset];
        if is_line_ending(byte) {
            state = state.after_line_ending(byte);
            offset += 1;
            kept += 1;
            if ends_line_before(byte, &bytes[offset..]) {
                let skips = handler?;
                offset += skips(&bytes[offset..]);
                endings += 1;
            }
        } else {
            let (after, passed) = state.read_in_line(&bytes[offset..]);
            state = after;
            offset += passed;
            kept += passed;
        }
    }
    if state.is_tag_end(endings) {
        Some(TagLength { kept, end: offset })
    } else {
        None
    }
}

// The kept bytes of a source up to a number of them. Memory is asked for once, for that many bytes.
fn copy_kept<F: Fn(&[u8]) -> usize>(
    alloc: Global,
    bytes: &[u8],
    handler: &F,
    kept: usize,
) -> Result<Vec<u8>, AllocError>
    requires callable { IsCallableAfterLineEndings F.Fn handler.now bytes.now }
    requires steady { IsSteady F.Fn handler.now }
    requires some { (prefix : List KeptByte)
        × IsKeptPrefix (Answers F.Fn handler.now) bytes.now prefix × (kept ≡ length prefix) }
    ensures copied { IfOk result (λ buffer. (prefix : List KeptByte)
        → IsKeptPrefix (Answers F.Fn handler.now) bytes.now prefix → kept ≡ length prefix
        → buffer.items ≡ bytes_of prefix) }
{
    let mut buffer = Vec::with_capacity(alloc, kept)?;
    let mut offset = 0;
    while buffer.len() < kept {
        let is_last = ends_source_line(&bytes[offset..]);
        buffer.push_reserved(bytes[offset]);
        offset += 1;
        if is_last {
            offset += handler(&bytes[offset..]);
        }
    }
    Ok(buffer)
}

/// The tag that the bytes begin with, over the lines of containers: its text and its length in
/// bytes.
///
/// After each line ending in the tag the handler is given the bytes that follow, and answers how
/// many of them belong to the containers; those are no part of the tag. The text is empty where
/// the handler skips nothing in the tag, since it then stands in the bytes. Without a handler a tag
/// holds no line ending. A closing tag holds at most one. (CommonMark 0.31.2, section 6.6, raw
/// HTML.)
///
/// The handler has one answer for one rest, and skips at most as many bytes as the rest has. It is
/// given no other bytes than what follows a line ending of the source.
///
/// # Errors
///
/// `AllocError` where memory for the text is refused. It is asked for once, after the whole tag has
/// been read, so the handler may be asked twice for one rest.
pub fn scan_html_block_inner<F: Fn(&[u8]) -> usize>(
    alloc: Global,
    bytes: &[u8],
    handler: Option<&F>,
) -> Result<Option<(Vec<u8>, usize)>, AllocError>
    requires callable { IfSome handler (λ f. IsCallableAfterLineEndings F.Fn f.now bytes.now) }
    requires steady { IfSome handler (λ f. IsSteady F.Fn f.now) }

    // A tag is there.
    ensures found { IfOk result (λ answer. IfSome answer (λ tag.
        HasTag F.Fn handler.entry bytes.now (AreTextAndLength tag.0.items tag.1))) }
    ensures only { IfOk result (λ answer. IfSome answer (λ tag.
        OnEachTag F.Fn handler.entry bytes.now (AreTextAndLength tag.0.items tag.1))) }
    ensures within { IfOk result (λ answer. IfSome answer (λ tag. tag.1 ≤ length bytes.now)) }

    // None is there.
    ensures none { IfOk result (λ answer. IfNone answer
        (HasNoTag F.Fn handler.entry bytes.now)) }

    // Memory is refused.
    ensures memory { OnErr result
        (HasTag F.Fn handler.entry bytes.now (λ prefix. tag_buffer prefix ≢ [])) }
    ensures without_handler { IfNone handler.entry (IsOk result) }
{
    let Some(tag) = measure_tag(bytes, handler) else {
        return Ok(None);
    };
    let buffer = match handler {
        Some(skips) if tag.kept != tag.end => copy_kept(alloc, bytes, skips, tag.kept)?,
        _ => Vec::new(alloc),
    };
    Ok(Some((buffer, tag.end)))
}

/// The length in bytes of the tag that the bytes begin with, where the rest of its line is blank.
///
/// The tag holds no line ending, and the blank rest is not counted. (CommonMark 0.31.2, section
/// 4.6, start condition 7; the tag names that other start conditions take are not left out here.)
pub fn scan_html_type_7(bytes: &[u8]) -> Option<usize>
    ensures found { SomeExactly (IsTagAloneInLine bytes.now) result }
    ensures only { IsOnly (IsTagAloneInLine bytes.now) result }
    ensures within { IfSome result (λ n. n ≤ length bytes.now) }
{
    let tag = measure_tag(bytes, None::<&fn(&[u8]) -> usize>)?;
    scan_blank_line(&bytes[tag.end..])?;
    Some(tag.end)
}
