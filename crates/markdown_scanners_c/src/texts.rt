//! Texts that references and escapes stand for, written into a buffer of the caller's.
ghost use Rattle.std.specs.Prelude.{ℕ, List, ◌≡◌, ◌≤◌, ◌+◌, ◌/◌, length, take};
ghost use Rattle.std.specs.Str.{IsUtf8};
ghost use Rattle.html_entities.specs.Entities.{html_entity};
ghost use Rattle.markdown_scanners_tree.specs.scanners.entities.CharacterReference.{StartsWithReference};
ghost use Rattle.markdown_scanners_c.specs.Buffer.{IsWritten};
ghost use Rattle.markdown_scanners_c.specs.Status.{ok};
ghost use Rattle.markdown_scanners_c.specs.Texts.{IsNoText, IsReferenceText, IsMeaningText, IsUnescapedText};

use crate::status::{EMPTY, NO_MEMORY, NOT_UTF8, NOTHING, OK, TOO_SHORT};
use html_entities::HtmlEntities;
use markdown_scanners_tree::scanners::{scan_entity, unescape};
use markdown_values::strings::CowStr;
use std::alloc::Global;

/// `struct mds_text` of C: how many bytes a text stands for, and how many it has.
#[repr(C)]
pub struct Text {
    pub status: u32,
    pub taken: usize,
    pub length: usize,
}

/// No text, but a status.
pub(crate) fn no_text(status: u32) -> Text
    ensures { IsNoText status result }
{
    Text {
        status,
        taken: 0,
        length: 0,
    }
}

/// Writes the text at the front of the buffer, where there is room for it.
pub(crate) fn write_text(text: &[u8], taken: usize, buffer: &mut [u8]) -> Text
    ensures written { IsWritten text.now buffer.old buffer.new result.status result.length }
    ensures taken { result.taken ≡ taken }
{
    let length = text.len();
    if length > buffer.len() {
        return Text {
            status: TOO_SHORT,
            taken,
            length,
        };
    }
    buffer[..length].copy_from_slice(text);
    Text {
        status: OK,
        taken,
        length,
    }
}

/// Writes what the character reference at the front stands for, by number or by a name of HTML.
/// (CommonMark 0.31.2, section 2.5)
#[tactic(auto, unfolding(crate::specs::Texts::IsReferenceText))]
#[unsafe(no_mangle)]
pub extern "C" fn mds_scan_entity(bytes: &[u8], buffer: &mut [u8]) -> Text
    ensures text { IsReferenceText bytes.now buffer.old buffer.new result }
    ensures only { (other : ℕ × List ℕ) → StartsWithReference html_entity bytes.now other.0 other.1
        → (other.0 ≡ result.taken) × (length other.1 ≡ result.length) }
    ensures within { result.taken ≤ length bytes.now }
    ensures room { result.length ≤ 6 }
    ensures utf8 { result.status ≡ ok → IsUtf8 (take result.length buffer.new) }
{
    if bytes.is_empty() {
        return no_text(EMPTY);
    }
    let (taken, meaning) = scan_entity(bytes, &HtmlEntities);
    match meaning {
        Some(meaning) => write_text(meaning.as_str().as_bytes(), taken, buffer),
        None => no_text(NOTHING),
    }
}

/// Writes the text with its escapes and references resolved. (CommonMark 0.31.2, sections 2.4 and
/// 2.5)
#[unsafe(no_mangle)]
pub extern "C" fn mds_unescape(
    alloc: Global,
    text: &[u8],
    is_in_table: bool,
    buffer: &mut [u8],
) -> Text
    ensures text { IsUnescapedText is_in_table text.now buffer.old buffer.new result }
    ensures room { result.length ≤ length text.now + length text.now / 5 }
    ensures utf8 { result.status ≡ ok → IsUtf8 (take result.length buffer.new) }
{
    match str::from_utf8(text) {
        Ok(text) => unescaped(alloc, text, is_in_table, buffer),
        Err(_) => no_text(NOT_UTF8),
    }
}

// The unescaped text, in the buffer.
#[tactic(auto, unfolding(crate::specs::Texts::IsMeaningText))]
fn unescaped(alloc: Global, text: &str, is_in_table: bool, buffer: &mut [u8]) -> Text
    ensures text { IsMeaningText is_in_table text.now buffer.old buffer.new result }
    ensures room { result.length ≤ length text.now + length text.now / 5 }
    ensures utf8 { result.status ≡ ok → IsUtf8 (take result.length buffer.new) }
{
    match unescape(alloc, CowStr::from(text), is_in_table, &HtmlEntities) {
        Ok(meaning) => write_text(meaning.as_str().as_bytes(), text.len(), buffer),
        Err(_) => no_text(NO_MEMORY),
    }
}
