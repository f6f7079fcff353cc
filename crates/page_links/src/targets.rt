//! The parts of a destination. (RFC 3986, sections 3 and 4)
ghost use Rattle.std.specs.Prelude.{◌≡◌, ◌++◌, IfOk, drop, string_bytes, take};
ghost use Rattle.std.specs.Option.{option_map};
ghost use Rattle.std.specs.Str.{str_eq_ignore_ascii_case};
ghost use Rattle.std.specs.Str.Lossy.{utf8_lossy};
ghost use Rattle.percent_encoding.specs.Percent as percent;
ghost use Rattle.page_links.specs.targets.Targets.{base_of, ends_as, ends_path, folder_of, fragment_of, fragment_text};
ghost use Rattle.page_links.specs.targets.Targets.{has_host, has_scheme, is_elsewhere, is_from_root, is_page};
ghost use Rattle.page_links.specs.targets.Targets.{is_scheme_byte, opened_path, path_of};

use percent_encoding::percent_decode;
use std::alloc::{AllocError, Global};

/// Whether a destination is not looked for where this folder is the root: it has a scheme or a host;
/// or it begins with a slash, where no folder is the root.
pub(crate) fn is_elsewhere(root: Option<&str>, destination: &[u8]) -> bool
    ensures { result ≡ is_elsewhere (option_map (λ root. root.now) root.entry) destination.now }
{
    match root {
        Some(_) => has_scheme(destination) || has_host(destination),
        None => has_scheme(destination) || is_from_root(destination),
    }
}

// Whether it begins with a slash.
fn is_from_root(destination: &[u8]) -> bool
    ensures { result ≡ is_from_root destination.now }
{
    matches!(destination, [b'/', ..])
}

// Whether it begins with two slashes, after which a host stands.
fn has_host(destination: &[u8]) -> bool
    ensures { result ≡ has_host destination.now }
{
    destination.starts_with(b"//")
}

// Whether it begins with a scheme.
fn has_scheme(destination: &[u8]) -> bool
    ensures { result ≡ has_scheme destination.now }
{
    if destination.is_empty() || !destination[0].is_ascii_alphabetic() {
        return false;
    }
    for byte in destination {
        if *byte == b':' {
            return true;
        }
        if !is_scheme_byte(*byte) {
            return false;
        }
    }
    false
}

// Whether a byte may stand in a scheme.
fn is_scheme_byte(byte: u8) -> bool
    ensures { result ≡ is_scheme_byte byte }
{
    byte.is_ascii_alphanumeric() || byte == b'+' || byte == b'-' || byte == b'.'
}

/// What stands before the query and the fragment.
pub(crate) fn path_of(destination: &[u8]) -> &[u8]
    ensures { result.now ≡ path_of destination.now }
{
    let mut end = 0;
    while end < destination.len() && !ends_path(destination[end]) {
        end += 1;
    }
    &destination[..end]
}

// Whether a query or a fragment begins.
fn ends_path(byte: u8) -> bool
    ensures { result ≡ ends_path byte }
{
    byte == b'?' || byte == b'#'
}

/// The fragment, if there is one: what stands after the first number sign.
pub(crate) fn fragment_of(destination: &[u8]) -> Option<&[u8]>
    ensures { option_map (λ fragment. fragment.now) result ≡ fragment_of destination.now }
{
    for i in 0..destination.len() {
        if destination[i] == b'#' {
            return Some(&destination[i + 1..]);
        }
    }
    None
}

/// The path of the file that a path of the page of this name means: from the folder of that page on,
/// or from the root where it begins with a slash, its percent-encoded bytes decoded. What is not UTF-8
/// in it is U+FFFD.
pub(crate) fn opened_path(
    alloc: Global,
    root: Option<&str>,
    name: &str,
    path: &[u8],
) -> Result<String, AllocError>
    ensures { IfOk result (λ opened. string_bytes opened
        ≡ opened_path (option_map (λ root. root.now) root.entry) name.now path.now) }
{
    decoded_after(alloc, base_of(root, name.as_bytes(), path), path)
}

// Where a path of the page of this name leads from.
fn base_of<'a>(root: Option<&'a str>, name: &'a [u8], path: &[u8]) -> &'a [u8]
    ensures { result.now ≡ base_of (option_map (λ root. root.now) root.entry) name.now path.now }
{
    if is_from_root(path) {
        return root.unwrap_or("").as_bytes();
    }
    folder_of(name)
}

/// Whether the file of this path is a page of Markdown, by its name.
pub(crate) fn is_page(path: &[u8]) -> bool
    ensures { result ≡ is_page path.now }
{
    ends_as(path, b".md") || ends_as(path, b".markdown")
}

// Whether a text ends so, in ASCII letters of any case.
fn ends_as(text: &[u8], last: &[u8]) -> bool
    ensures { result ≡ ends_as last.now text.now }
{
    are_alike(&text[text.len().saturating_sub(last.len())..], last)
}

// Whether two texts are the same but for the case of ASCII letters.
fn are_alike(one: &[u8], other: &[u8]) -> bool
    ensures { result ≡ str_eq_ignore_ascii_case one.now other.now }
{
    one.eq_ignore_ascii_case(other)
}

/// The text that a fragment means: its percent-encoded bytes decoded. What is not UTF-8 in it is
/// U+FFFD.
pub(crate) fn fragment_text(alloc: Global, fragment: &[u8]) -> Result<String, AllocError>
    ensures { IfOk result (λ text. string_bytes text ≡ fragment_text fragment.now) }
{
    decoded_after(alloc, &[], fragment)
}

// The text of bytes, and of others after them whose percent-encoded bytes are decoded.
fn decoded_after(alloc: Global, first: &[u8], encoded: &[u8]) -> Result<String, AllocError>
    ensures { IfOk result (λ text.
        string_bytes text ≡ utf8_lossy (first.now ++ percent.percent_decode encoded.now)) }
{
    let mut bytes = Vec::new(alloc);
    bytes.extend_from_slice(first)?;
    percent_decode(encoded).append_to(&mut bytes)?;
    String::from_utf8_lossy(alloc, &bytes)
}

// What stands up to the last slash, with it.
fn folder_of(name: &[u8]) -> &[u8]
    ensures { result.now ≡ folder_of name.now }
{
    let mut end = name.len();
    while end > 0 && name[end - 1] != b'/' {
        end -= 1;
    }
    &name[..end]
}
