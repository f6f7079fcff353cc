//! Character references: entities by name, and characters by number.
ghost use Rattle.std.specs.Prelude.{◌≡◌, ◌+◌, ◌<◌, ◌≤◌, ◌≢◌, ℕ, slice_index, List, Option, IfNone, IfSome, length, drop, take};
ghost use Rattle.std.specs.Option.{option_copied, option_map};
ghost use Rattle.std.specs.List.{prefix_len};
ghost use Rattle.std.specs.Str.Parse.{AllDigits, digits_value};
ghost use Rattle.std.specs.Char.{is_digit, digit_value};
ghost use Rattle.markdown_values.specs.strings.Text.{cow_text};
ghost use Rattle.markdown_scanners_tree.specs.Ascii.{number_sign};
ghost use Rattle.markdown_scanners_tree.specs.Bytes.{is_alphanumeric};
ghost use Rattle.markdown_scanners_tree.specs.SomeExactly.{SomeExactly, IsOnly};
ghost use Rattle.markdown_scanners_tree.specs.scanners.entities.CharacterReference.{Lookup, referenced_char, marks_hexadecimal};
ghost use Rattle.markdown_scanners_tree.specs.scanners.entities.CharacterReference.{StartsWithReference, IsReferenceAnswer};
ghost use Rattle.markdown_scanners_tree.specs.scanners.entities.private.Digits.{StartsWithNumber, IsNumberAnswer};
ghost use Rattle.markdown_scanners_tree.specs.scanners.entities.private.Name.{IsNameAnswer};

use crate::scanners::numbers::digit_of;
use crate::scanners::runs::{first_bytes, scan_alphanumerics};
use markdown_values::strings::CowStr;

/// A table of entity names and their texts.
///
/// HTML5 has the names and texts that CommonMark asks for (0.31.2, section 2.5); the scanners take
/// any table.
pub trait Entities {
    /// The text that is known for each name, which is a function of the name.
    ghost known: { Self → List ℕ → Option (List ℕ) };

    /// The text of the entity with this name, which stands between `&` and `;`.
    fn get(&self, name: &[u8]) -> Option<&'static str>
        ensures { option_copied result ≡ known self.now name.now };
}

/// The character reference at the front: its length in bytes, with the byte before it and the
/// semicolon, and its text; `(0, None)` where none stands there.
///
/// The first byte, which is `&` in a text, has to be there, and is not looked at.
///
/// (CommonMark 0.31.2, section 2.5.)
#[inline(always)]
pub fn scan_entity<E: Entities>(bytes: &[u8], entities: &E) -> (usize, Option<CowStr<'static>>)
    requires { 0 < length bytes.now }
    ensures found { IsReferenceAnswer (E.known entities.now) bytes.now result.0 result.1 }
    ensures only { IsOnly
        (λ (r : ℕ × List ℕ). StartsWithReference (E.known entities.now) bytes.now r.0 r.1)
        (option_map (λ text. (result.0, cow_text text)) result.1) }
    ensures empty { IfNone result.1 (result.0 ≡ 0) }
{
    if bytes.len() < 2 || bytes[1] != b'#' {
        return scan_named(bytes, entities);
    }
    scan_numbered(bytes)
}

// The reference by number at the front, where `#` follows the first byte.
#[inline(always)]
pub(in crate::scanners) fn scan_numbered(bytes: &[u8]) -> (usize, Option<CowStr<'static>>)
    requires long { 1 < length bytes.now }
    requires number { slice_index bytes.now 1 ≡ number_sign }
    ensures found { (known : Lookup) → IsReferenceAnswer known bytes.now result.0 result.1 }
    ensures empty { IfNone result.1 (result.0 ≡ 0) }
{
    match numbered_char(bytes) {
        Some((n, c)) => (n, Some(CowStr::from(c))),
        None => (0, None),
    }
}

// The length of the reference by number at the front, where `#` follows the first byte, and its
// character. It is called, so that a scan and the loops over pieces stay short.
#[inline(never)]
pub(in crate::scanners) fn numbered_char(bytes: &[u8]) -> Option<(usize, char)>
    requires long { 1 < length bytes.now }
    requires number { slice_index bytes.now 1 ≡ number_sign }
    ensures found { (known : Lookup) → IsNumberAnswer known bytes.now result }
    ensures some { IfSome result (λ r. 2 ≤ r.0) }
    ensures within { IfSome result (λ r. r.0 ≤ length bytes.now) }
{
    if bytes.len() > 2 && is_hexadecimal_mark(bytes[2]) {
        let Some((n, number)) = scan_number(&bytes[3..], 16, 6) else {
            return None;
        };
        return Some((n + 4, referenced(number)));
    }
    let Some((n, number)) = scan_number(&bytes[2..], 10, 7) else {
        return None;
    };
    Some((n + 3, referenced(number)))
}

// The reference by name at the front, where no `#` follows the first byte.
#[inline(always)]
fn scan_named<E: Entities>(bytes: &[u8], entities: &E) -> (usize, Option<CowStr<'static>>)
    requires not_empty { 0 < length bytes.now }
    requires no_number { 1 < length bytes.now → slice_index bytes.now 1 ≢ number_sign }
    ensures found { IsReferenceAnswer (E.known entities.now) bytes.now result.0 result.1 }
    ensures empty { IfNone result.1 (result.0 ≡ 0) }
{
    let (n, text) = scan_name(bytes, entities);
    match text {
        Some(text) => (n + 2, Some(CowStr::from(text))),
        None => (0, None),
    }
}

// How many letters and digits follow the first byte, and where a semicolon ends them, the text of
// the entity that has them as its name.
#[inline(always)]
pub(in crate::scanners) fn scan_name<E: Entities>(
    bytes: &[u8],
    entities: &E,
) -> (usize, Option<&'static str>)
    requires not_empty { 0 < length bytes.now }
    requires no_number { 1 < length bytes.now → slice_index bytes.now 1 ≢ number_sign }
    ensures name { result.0 ≡ prefix_len is_alphanumeric (drop 1 bytes.now) }
    ensures found { IsNameAnswer (E.known entities.now) bytes.now result.0
        (option_copied result.1) }
    ensures within { result.0 + 1 ≤ length bytes.now }
    ensures ended { IfSome result.1 (λ _. result.0 + 2 ≤ length bytes.now) }
{
    let n = scan_alphanumerics(&bytes[1..]);
    if n + 1 == bytes.len() || bytes[n + 1] != b';' {
        return (n, None);
    }
    (n, entities.get(&bytes[1..n + 1]))
}

// The character of a number; zero, surrogates and numbers above 0x10FFFF have U+FFFD.
fn referenced(number: u32) -> char
    ensures { result ≡ referenced_char number }
{
    if number == 0 {
        return '\u{FFFD}';
    }
    match char::from_u32(number) {
        Some(c) => c,
        None => '\u{FFFD}',
    }
}

// Whether the byte after `#` says that hexadecimal digits follow.
fn is_hexadecimal_mark(b: u8) -> bool
    ensures { result ≡ marks_hexadecimal b }
{
    b == b'x' || b == b'X'
}

// The number of 1 to `limit` digits at the front that a semicolon ends, and how many digits it has.
fn scan_number(bytes: &[u8], radix: u32, limit: usize) -> Option<(usize, u32)>
    requires base { 2 ≤ radix }
    requires hexadecimal { radix ≤ 16 }
    requires at_most_seven { limit ≤ 7 }
    ensures { SomeExactly (λ r. StartsWithNumber radix limit bytes.now r.0 r.1) result }
{
    let (n, number) = leading_number(first_bytes(bytes, limit), radix);
    if n == 0 || n == bytes.len() || bytes[n] != b';' {
        return None;
    }
    Some((n, number))
}

// How many digits stand at the front, and the number that they stand for.
fn leading_number(bytes: &[u8], radix: u32) -> (usize, u32)
    requires base { 2 ≤ radix }
    requires hexadecimal { radix ≤ 16 }
    requires at_most_seven { length bytes.now ≤ 7 }
    ensures count { result.0 ≡ prefix_len (λ b. is_digit b radix) bytes.now }
    ensures within { result.0 ≤ length bytes.now }
    ensures value { result.1 ≡ digits_value radix (take result.0 bytes.now) }
{
    let mut number = 0;
    let mut n = 0;
    while n < bytes.len() {
        let digit = digit_of(bytes[n]);
        if digit >= radix {
            return (n, number);
        }
        number = number * radix + digit;
        n += 1;
    }
    (n, number)
}
