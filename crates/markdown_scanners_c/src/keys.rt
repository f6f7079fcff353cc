//! Keys of link labels, by which they are kept and looked up.
ghost use Rattle.std.specs.Prelude.{◌≡◌, ◌≢◌, ◌≤◌, ◌*◌, IsAscii, length, map};
ghost use Rattle.std.specs.Char.{to_ascii_lowercase};
ghost use Rattle.markdown_scanners_c.specs.Buffer.{IsWritten};
ghost use Rattle.markdown_scanners_c.specs.Keys.{IsKeyText, IsReturnedKey};
ghost use Rattle.markdown_scanners_c.specs.Status.{no_memory};

use crate::status::{NO_MEMORY, NOT_UTF8, OK};
use crate::texts::{Text, no_text, write_text};
use caseless::default_case_fold_str;
use std::alloc::Global;

/// Writes the key of a label, its full case folding. (CommonMark 0.31.2, section 6.3)
#[unsafe(no_mangle)]
pub extern "C" fn mds_label_key(alloc: Global, text: &[u8], buffer: &mut [u8]) -> Text
    ensures key { IsReturnedKey text.now buffer.old buffer.new result }
    ensures room { result.length ≤ 3 * length text.now }
    ensures no_memory { IsAscii text.now → result.status ≢ no_memory }
{
    if text.is_ascii() {
        return write_lowercase(text, buffer);
    }
    match str::from_utf8(text) {
        Ok(text) => key_text(alloc, text, buffer),
        Err(_) => no_text(NOT_UTF8),
    }
}

// The key of a label, in the buffer.
fn key_text(alloc: Global, text: &str, buffer: &mut [u8]) -> Text
    ensures key { IsKeyText text.now buffer.old buffer.new result }
    ensures room { result.length ≤ 3 * length text.now }
{
    match default_case_fold_str(alloc, text) {
        Ok(key) => write_text(key.as_bytes(), text.len(), buffer),
        Err(_) => no_text(NO_MEMORY),
    }
}

// Writes the bytes in lower case at the front of the buffer, where there is room for them.
fn write_lowercase(bytes: &[u8], buffer: &mut [u8]) -> Text
    ensures written { IsWritten (map to_ascii_lowercase bytes.now) buffer.old buffer.new
        result.status result.length }
    ensures taken { result.taken ≡ length bytes.now }
{
    let text = write_text(bytes, bytes.len(), buffer);
    if text.status == OK {
        buffer[..text.length].make_ascii_lowercase();
    }
    text
}
