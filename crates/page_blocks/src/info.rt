//! How texts are printed.
ghost use Rattle.std.specs.Prelude.{◌≡◌, ◌<◌, ◌++◌, IfOk, OnOk, codes, false, string_bytes};
ghost use Rattle.std.specs.Fmt.{digit_glyph};
ghost use Rattle.std.specs.List.{flat_map};
ghost use Rattle.std.specs.Str.{is_utf8};
ghost use Rattle.page_blocks.specs.Info.{is_plain, byte_text, bytes_text, escaped_byte};
ghost use Rattle.page_blocks.specs.Info.{bytes_json, digits_json, hex_byte, json_text, text_json};

use std::alloc::{AllocError, Global};
use std::str::from_utf8;

/// Adds bytes, as the text of a JSON string has the characters of their numbers.
pub fn push_bytes(text: &mut String, bytes: &[u8]) -> Result<(), AllocError>
    ensures { OnOk result (string_bytes text.new ≡ string_bytes text.old ++ bytes_text bytes.now) }
{
    for byte in bytes {
        push_byte(text, *byte)?;
    }
    Ok(())
}

/// Adds a byte in that way.
#[tactic(auto, using(std::proofs::lemmas::Fmt::hex_byte))]
pub(crate) fn push_byte(text: &mut String, byte: u8) -> Result<(), AllocError>
    ensures { OnOk result (string_bytes text.new ≡ string_bytes text.old ++ byte_text byte) }
{
    if is_plain(byte) {
        text.push(char::from(byte))
    } else {
        write!(text, "\\u00{byte:02x}")
    }
}

// Whether a byte stands for itself.
fn is_plain(byte: u8) -> bool
    ensures { result ≡ is_plain byte }
{
    (32..=126).contains(&byte) && byte != b'"' && byte != b'\\'
}

/// Adds a text as a member of this name, and where it is not UTF-8 its bytes in hexadecimal digits
/// as another.
#[tactic(auto, unfolding(crate::specs::Info::text_json))]
pub(crate) fn push_text_json(
    alloc: Global,
    text: &mut String,
    name: &str,
    bytes: &[u8],
) -> Result<(), AllocError>
    ensures { OnOk result (string_bytes text.new
        ≡ string_bytes text.old ++ text_json name.now bytes.now) }
{
    write!(text, ",\"{name}\":\"")?;
    push_json_text(alloc, text, bytes)?;
    text.push_str("\"")?;
    push_bytes_json(text, name, bytes)
}

// Adds the bytes of a text of this name in hexadecimal digits, where it is not UTF-8.
fn push_bytes_json(text: &mut String, name: &str, bytes: &[u8]) -> Result<(), AllocError>
    ensures { OnOk result (string_bytes text.new
        ≡ string_bytes text.old ++ bytes_json name.now bytes.now) }
{
    if is_text(bytes) {
        return Ok(());
    }
    push_digits(text, name, bytes)
}

// Adds them.
fn push_digits(text: &mut String, name: &str, bytes: &[u8]) -> Result<(), AllocError>
    ensures { OnOk result (string_bytes text.new
        ≡ string_bytes text.old ++ digits_json name.now bytes.now) }
{
    write!(text, ",\"{name}_bytes\":\"")?;
    push_hex(text, bytes)?;
    push_quote(text)
}

// Adds a quotation mark.
fn push_quote(text: &mut String) -> Result<(), AllocError>
    ensures { OnOk result (string_bytes text.new ≡ string_bytes text.old ++ codes "\"") }
{
    text.push_str("\"")
}

/// Adds bytes as the text of a JSON string.
///
/// # Errors
///
/// `AllocError` where memory is refused.
pub fn push_json_text(alloc: Global, text: &mut String, bytes: &[u8]) -> Result<(), AllocError>
    ensures { OnOk result (string_bytes text.new ≡ string_bytes text.old ++ json_text bytes.now) }
{
    let escaped = escape_bytes(alloc, bytes)?;
    let shown = String::from_utf8_lossy(alloc, &escaped)?;
    text.push_str(shown.as_str())
}

// The bytes, of which those that a JSON string can't have are written by their numbers.
fn escape_bytes(alloc: Global, bytes: &[u8]) -> Result<Vec<u8>, AllocError>
    ensures { IfOk result (λ escaped. escaped.items ≡ flat_map escaped_byte bytes.now) }
{
    let mut escaped = Vec::new(alloc);
    for byte in bytes {
        push_escaped(&mut escaped, *byte)?;
    }
    Ok(escaped)
}

// Adds a byte in that way.
fn push_escaped(escaped: &mut Vec<u8>, byte: u8) -> Result<(), AllocError>
    ensures { OnOk result (escaped.new.items ≡ escaped.old.items ++ escaped_byte byte) }
{
    if is_plain(byte) || byte >= 128 {
        escaped.push(byte)?;
        return Ok(());
    }
    escaped.extend_from_slice(b"\\u00")?;
    escaped.push(hex_digit(byte / 16))?;
    escaped.push(hex_digit(byte % 16))?;
    Ok(())
}

// A digit of a number below 16.
fn hex_digit(number: u8) -> u8
    requires { number < 16 }
    ensures { result ≡ digit_glyph false number }
{
    if number < 10 {
        return b'0' + number;
    }
    b'a' + (number - 10)
}

// Adds each byte as two hexadecimal digits.
fn push_hex(text: &mut String, bytes: &[u8]) -> Result<(), AllocError>
    ensures { OnOk result (string_bytes text.new
        ≡ string_bytes text.old ++ flat_map hex_byte bytes.now) }
{
    for byte in bytes {
        push_hex_byte(text, *byte)?;
    }
    Ok(())
}

// Adds a byte in that way.
#[tactic(auto, using(std::proofs::lemmas::Fmt::hex_byte))]
fn push_hex_byte(text: &mut String, byte: u8) -> Result<(), AllocError>
    ensures { OnOk result (string_bytes text.new ≡ string_bytes text.old ++ hex_byte byte) }
{
    write!(text, "{byte:02x}")
}

// Whether bytes are UTF-8.
fn is_text(bytes: &[u8]) -> bool
    ensures { result ≡ is_utf8 bytes.now }
{
    match from_utf8(bytes) {
        Ok(_) => true,
        Err(_) => false,
    }
}
