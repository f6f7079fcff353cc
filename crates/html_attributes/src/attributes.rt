//! The attributes of a tag of HTML, as they are written. (HTML Living Standard, sections 13.1.2.3
//! and 13.2.5.32 to 39)
ghost use Rattle.std.specs.Prelude.{◌≡◌, ◌+◌, ◌<◌, ◌≤◌, drop, length, map, IfOk, List, take};
ghost use Rattle.std.specs.Option.{option_map};
ghost use Rattle.std.specs.Str.{str_eq_ignore_ascii_case};
ghost use Rattle.html_attributes.specs.Attributes.{AreAttributes, Written, after, after_attribute};
ghost use Rattle.html_attributes.specs.Attributes.{attribute_at, between, is_end, is_one_of};
ghost use Rattle.html_attributes.specs.Attributes.{length_before, name_at, part_before, quoted};
ghost use Rattle.html_attributes.specs.Attributes.{seen_attribute, value_after, value_at, value_of};
ghost use Rattle.html_attributes.specs.Attributes.{white_space};

use std::alloc::{AllocError, Global};

/// An attribute of a tag.
#[derive(Clone, Copy, Debug)]
pub struct Attribute<'a> {
    /// Its name.
    pub name: &'a [u8],
    /// Its value as it is written, without quotation marks; empty where it has none. Character
    /// references stand in it as they are.
    pub value: &'a [u8],
}

/// The value of the first attribute of this name, in ASCII letters of any case.
#[tactic(auto, using(crate::proofs::AttributeLemmas::first_value))]
pub fn value_of<'a>(attributes: &[Attribute<'a>], name: &[u8]) -> Option<&'a [u8]>
    ensures { option_map (λ value. value.now) result
        ≡ value_of name.now (map seen_attribute attributes.now) }
{
    for attribute in attributes {
        if is_same_name(attribute.name, name) {
            return Some(attribute.value);
        }
    }
    None
}

/// Whether two names are the same, in ASCII letters of any case.
pub(crate) fn is_same_name(one: &[u8], other: &[u8]) -> bool
    ensures { result ≡ str_eq_ignore_ascii_case one.now other.now }
{
    one.eq_ignore_ascii_case(other)
}

// White space of HTML; what stands between attributes, and what ends a value without quotation
// marks or a name.
const WHITE_SPACE: &[u8] = b"\t\n\x0c\r ";

const BETWEEN: &[u8] = b"/\t\n\x0c\r ";

const VALUE_ENDS: &[u8] = b">\t\n\x0c\r ";

pub(crate) const TAG_NAME_ENDS: &[u8] = b"/>\t\n\x0c\r ";

const NAME_ENDS: &[u8] = b"=/>\t\n\x0c\r ";

// How many bytes stand before the first of these.
fn length_before(ends: &[u8], bytes: &[u8]) -> usize
    ensures count { result ≡ length_before ends.now bytes.now }
    ensures within { result ≤ length bytes.now }
{
    let mut count = 0;
    while count < bytes.len() && !ends.contains(&bytes[count]) {
        count += 1;
    }
    count
}

// What follows bytes of these.
fn after<'a>(these: &[u8], bytes: &'a [u8]) -> &'a [u8]
    ensures rest { result.now ≡ after these.now bytes.now }
    ensures within { length result.now ≤ length bytes.now }
{
    let mut count = 0;
    while count < bytes.len() && these.contains(&bytes[count]) {
        count += 1;
    }
    &bytes[count..]
}

/// What stands before the first of these bytes, and what stands from it on.
pub(crate) fn part_before<'a>(ends: &[u8], bytes: &'a [u8]) -> (&'a [u8], &'a [u8])
    ensures text { result.0.now ≡ (part_before ends.now bytes.now).text }
    ensures rest { result.1.now ≡ (part_before ends.now bytes.now).rest }
    ensures within { length result.1.now ≤ length bytes.now }
{
    let count = length_before(ends, bytes);
    (&bytes[..count], &bytes[count..])
}

// After a quotation mark: what stands before the next one of its kind, and what follows that.
fn quoted(quote: u8, bytes: &[u8]) -> (&[u8], &[u8])
    ensures text { result.0.now ≡ (quoted quote bytes.now).text }
    ensures rest { result.1.now ≡ (quoted quote bytes.now).rest }
    ensures within { length result.1.now ≤ length bytes.now }
{
    let count = length_before(&[quote], bytes);
    if count < bytes.len() {
        (&bytes[..count], &bytes[count + 1..])
    } else {
        (bytes, &[])
    }
}

// A value, in quotation marks of either kind or without, and what follows it.
fn value_at(bytes: &[u8]) -> (&[u8], &[u8])
    ensures text { result.0.now ≡ (value_at bytes.now).text }
    ensures rest { result.1.now ≡ (value_at bytes.now).rest }
    ensures within { length result.1.now ≤ length bytes.now }
{
    match bytes {
        [quote, rest @ ..] if *quote == b'"' || *quote == b'\'' => quoted(*quote, rest),
        _ => part_before(VALUE_ENDS, bytes),
    }
}

// The value after a name, empty where none is written, and what follows it.
fn value_after(bytes: &[u8]) -> (&[u8], &[u8])
    ensures text { result.0.now ≡ (value_after bytes.now).text }
    ensures rest { result.1.now ≡ (value_after bytes.now).rest }
    ensures within { length result.1.now ≤ length bytes.now }
{
    match after(WHITE_SPACE, bytes) {
        [b'=', rest @ ..] => value_at(after(WHITE_SPACE, rest)),
        _ => (&[], bytes),
    }
}

// The attribute at the front, and what follows it.
fn attribute_at(bytes: &[u8]) -> (Attribute<'_>, &[u8])
    requires some { 0 < length bytes.now }
    ensures attribute { seen_attribute result.0 ≡ attribute_at bytes.now }
    ensures rest { result.1.now ≡ after_attribute bytes.now }
    ensures shorter { length result.1.now < length bytes.now }
{
    let count = 1 + length_before(NAME_ENDS, &bytes[1..]);
    let name = &bytes[..count];
    let (value, rest) = value_after(&bytes[count..]);
    (Attribute { name, value }, rest)
}

// Whether the attributes end.
fn is_end(bytes: &[u8]) -> bool
    ensures { result ≡ is_end bytes.now }
{
    matches!(bytes, [] | [b'>', ..])
}

/// The attributes at the front, after the name of a tag, and what follows them: `>`, or nothing
/// where the text ends.
pub(crate) fn attributes_at<'a>(
    alloc: Global,
    bytes: &'a [u8],
) -> Result<(Vec<Attribute<'a>>, &'a [u8]), AllocError>
    ensures attributes { IfOk result (λ found. AreAttributes (after between bytes.now)
        (map seen_attribute found.0.items) found.1.now) }
    ensures within { IfOk result (λ found. length found.1.now ≤ length bytes.now) }
{
    let mut attributes = Vec::new(alloc);
    let mut rest = after(BETWEEN, bytes);
    while !is_end(rest) {
        let (attribute, later) = attribute_at(rest);
        attributes.push(attribute)?;
        rest = after(BETWEEN, later);
    }
    Ok((attributes, rest))
}
