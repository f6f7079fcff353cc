//! Texts and addresses as HTML has them.
ghost use Rattle.std.specs.Prelude.{◌≡◌, ◌<◌, ◌++◌, IfOk, IsTrue, OnOk, length, not, string_bytes};
ghost use Rattle.std.specs.List.{prefix_len};
ghost use Rattle.std.specs.Str.{IsCharBoundary};
ghost use Rattle.markdown_html.specs.EscapeLaws.{IsTextOf};
ghost use Rattle.markdown_html.specs.Escapes.{address_byte, escaped, escaped_byte, is_special, percent_encoded, stands_in_address, written_address};

use markdown_scanners_tree::byte_sets::ByteSet;
use std::alloc::AllocError;

// The bytes of a text that become references: `"` and `&`, whose high half is 2, and `<` and `>`,
// whose high half is 3.
const SPECIAL: ByteSet = ByteSet {
    low: [0, 0, 1, 0, 0, 0, 1, 0, 0, 0, 0, 0, 2, 0, 2, 0],
    high: [0, 0, 1, 2, 0, 0, 0, 0, 0, 0, 0, 0, 0, 0, 0, 0],
};

// The bytes of an address that are not written as they are. A bit stands for those of one high
// half, and the first for all bytes of the high halves of which none is written so.
const ENCODED: ByteSet = ByteSet {
    low: [19, 1, 3, 1, 1, 1, 3, 3, 1, 1, 1, 41, 45, 41, 13, 33],
    high: [1, 1, 2, 4, 0, 8, 16, 32, 1, 1, 1, 1, 1, 1, 1, 1],
};

/// Appends a text, in which `<`, `>`, `&` and `"` become references: it stands for itself between
/// tags, and in the value of an attribute between double quotes.
///
/// # Errors
///
/// `AllocError` where memory is refused; a part of the text may be appended then.
pub fn push_escaped(out: &mut String, text: &str) -> Result<(), AllocError>
    ensures text { OnOk result
        (string_bytes out.new ≡ string_bytes out.old ++ escaped text.now) }
    ensures reads { IsTextOf text.now (escaped text.now) }
{
    let mut rest = text;
    while !rest.is_empty() {
        rest = push_first(out, rest)?;
    }
    Ok(())
}

// Appends what stands for itself at the front of a text, and the reference after it, and answers the
// text after these.
fn push_first<'a>(out: &mut String, text: &'a str) -> Result<&'a str, AllocError>
    requires { 0 < length text.now }
    ensures text { IfOk result (λ rest. string_bytes out.new ++ escaped rest.now
        ≡ string_bytes out.old ++ escaped text.now) }
    ensures shorter { IfOk result (λ rest. length rest.now < length text.now) }
{
    let plain = plain_len(text.as_bytes());
    out.push_str(&text[..plain])?;
    let rest = &text[plain..];
    if rest.is_empty() {
        return Ok(rest);
    }
    push_reference(out, rest.as_bytes()[0])?;
    Ok(&rest[1..])
}

// How many bytes at the front stand for themselves.
fn plain_len(bytes: &[u8]) -> usize
    ensures { result ≡ prefix_len (λ b. not (is_special b)) bytes.now }
{
    SPECIAL.len_outside(bytes)
}

// Appends a byte that becomes a reference.
fn push_reference(out: &mut String, byte: u8) -> Result<(), AllocError>
    requires { IsTrue (is_special byte) }
    ensures { OnOk result
        (string_bytes out.new ≡ string_bytes out.old ++ escaped_byte byte) }
{
    match byte {
        b'<' => out.push_str("&lt;"),
        b'>' => out.push_str("&gt;"),
        b'&' => out.push_str("&amp;"),
        _ => out.push_str("&quot;"),
    }
}

/// Appends an address as the value of an attribute between double quotes: letters, digits and most
/// other signs that an address may have stand as they are, and other bytes by their numbers, after a
/// percent sign.
///
/// # Errors
///
/// `AllocError` where memory is refused; a part of the address may be appended then.
pub fn push_address(out: &mut String, address: &str) -> Result<(), AllocError>
    ensures { OnOk result
        (string_bytes out.new ≡ string_bytes out.old ++ written_address address.now) }
{
    let mut rest = address;
    while !rest.is_empty() {
        rest = push_part(out, rest)?;
    }
    Ok(())
}

// Appends the bytes at the front of an address that are written as they are, and those after them
// that are not, and answers the address after these.
fn push_part<'a>(out: &mut String, address: &'a str) -> Result<&'a str, AllocError>
    requires { 0 < length address.now }
    ensures address { IfOk result (λ rest. string_bytes out.new ++ written_address rest.now
        ≡ string_bytes out.old ++ written_address address.now) }
    ensures shorter { IfOk result (λ rest. length rest.now < length address.now) }
{
    let standing = standing_len(address);
    out.push_str(&address[..standing])?;
    let rest = &address[standing..];
    let encoded = encoded_len(rest);
    push_encoded(out, &rest[..encoded])?;
    Ok(&rest[encoded..])
}

// How many bytes at the front of an address are written as they are.
fn standing_len(address: &str) -> usize
    ensures count { result ≡ prefix_len stands_in_address address.now }
    ensures cut { IsCharBoundary address.now result }
{
    ENCODED.len_outside(address.as_bytes())
}

// How many are not.
fn encoded_len(address: &str) -> usize
    ensures count { result ≡ prefix_len (λ b. not (stands_in_address b)) address.now }
    ensures cut { IsCharBoundary address.now result }
{
    encoded_bytes_len(address.as_bytes())
}

// The same of bytes.
fn encoded_bytes_len(bytes: &[u8]) -> usize
    ensures { result ≡ prefix_len (λ b. not (stands_in_address b)) bytes.now }
{
    bytes.iter().take_while(|b| !stands_in_address(**b)).count()
}

// Appends a part of an address byte by byte.
fn push_encoded(out: &mut String, part: &str) -> Result<(), AllocError>
    ensures { OnOk result
        (string_bytes out.new ≡ string_bytes out.old ++ written_address part.now) }
{
    for byte in part.as_bytes() {
        push_address_byte(out, *byte)?;
    }
    Ok(())
}

// Appends a byte of an address.
fn push_address_byte(out: &mut String, byte: u8) -> Result<(), AllocError>
    ensures { OnOk result
        (string_bytes out.new ≡ string_bytes out.old ++ address_byte byte) }
{
    if stands_in_address(byte) {
        return out.push(char::from(byte));
    }
    match byte {
        b'&' => out.push_str("&amp;"),
        b'\'' => out.push_str("&#x27;"),
        _ => push_percent_encoded(out, byte),
    }
}

// Appends a byte by its number.
#[tactic(auto, using(std::proofs::lemmas::Fmt::hex_byte))]
fn push_percent_encoded(out: &mut String, byte: u8) -> Result<(), AllocError>
    ensures { OnOk result
        (string_bytes out.new ≡ string_bytes out.old ++ percent_encoded byte) }
{
    write!(out, "%{byte:02X}")
}

// Whether a byte of an address is written as it is.
fn stands_in_address(byte: u8) -> bool
    ensures { result ≡ stands_in_address byte }
{
    !ENCODED.contains(byte)
}
