//! What the values of attributes mean. (HTML Living Standard, section 13.1.2.3)
ghost use Rattle.std.specs.Prelude.{◌≡◌, ◌++◌, ◌<◌, [], ◌∷◌, IfOk, OnOk, length, slice_index, string_bytes};
ghost use Rattle.html_attributes.specs.Values.{IsFirstMeaning, IsMeaning};
ghost use Rattle.markdown_values.specs.strings.Text.{cow_text};
ghost use Rattle.markdown_scanners_tree.specs.Ascii.{ampersand};
ghost use Rattle.markdown_scanners_tree.specs.scanners.unescaping.Unescaping.{Piece};

use crate::slices::bytes_after;
use markdown_scanners_tree::scanners::{Entities, scan_entity};
use markdown_values::strings::CowStr;
use std::alloc::{AllocError, Global};

/// The text that a value means: its character references stand for theirs, and each other byte for
/// itself. What is not UTF-8 in it is U+FFFD. (CommonMark 0.31.2, section 2.5)
///
/// # Errors
///
/// `AllocError` where memory is refused.
pub fn meaning_of<E: Entities>(
    alloc: Global,
    value: &[u8],
    entities: &E,
) -> Result<String, AllocError>
    ensures { IfOk result (λ text.
        IsMeaning (E.known entities.now) value.now (string_bytes text)) }
{
    let mut bytes = Vec::new(alloc);
    let mut rest = value;
    while !rest.is_empty() {
        rest = push_first(&mut bytes, rest, entities)?;
    }
    String::from_utf8_lossy(alloc, &bytes)
}

// Adds what the front of a value means, and answers what follows it.
fn push_first<'v, E: Entities>(
    bytes: &mut Vec<u8>,
    value: &'v [u8],
    entities: &E,
) -> Result<&'v [u8], AllocError>
    requires some { 0 < length value.now }
    ensures first { IfOk result (λ rest. (it : Piece)
        × IsFirstMeaning (E.known entities.now) value.now it
        × (value.now ≡ it.source ++ rest.now)
        × (bytes.new.items ≡ bytes.old.items ++ it.meaning)) }
    ensures shorter { IfOk result (λ rest. length rest.now < length value.now) }
{
    if value[0] == b'&' {
        return push_ampersand(bytes, value, entities);
    }
    bytes.push(value[0])?;
    Ok(bytes_after(value, 1))
}

// The same at an ampersand.
fn push_ampersand<'v, E: Entities>(
    bytes: &mut Vec<u8>,
    value: &'v [u8],
    entities: &E,
) -> Result<&'v [u8], AllocError>
    requires some { 0 < length value.now }
    requires begins { slice_index value.now 0 ≡ ampersand }
    ensures first { IfOk result (λ rest. (it : Piece)
        × IsFirstMeaning (E.known entities.now) value.now it
        × (value.now ≡ it.source ++ rest.now)
        × (bytes.new.items ≡ bytes.old.items ++ it.meaning)) }
    ensures shorter { IfOk result (λ rest. length rest.now < length value.now) }
{
    let (count, found) = scan_entity(value, entities);
    let Some(text) = found else {
        bytes.push(b'&')?;
        return Ok(bytes_after(value, 1));
    };
    push_text(bytes, text)?;
    Ok(bytes_after(value, count))
}

// Adds a text.
fn push_text(bytes: &mut Vec<u8>, text: CowStr<'_>) -> Result<(), AllocError>
    ensures { OnOk result (bytes.new.items ≡ bytes.old.items ++ cow_text text.entry) }
{
    bytes.extend_from_slice(text.as_str().as_bytes())
}
