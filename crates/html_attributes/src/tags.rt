//! The start tags of raw HTML. (HTML Living Standard, sections 13.1.2 and 13.2.5)
ghost use Rattle.std.specs.Prelude.{◌≡◌, ◌++◌, ◌<◌, ◌≤◌, length, map, IfOk, OnOk};
ghost use Rattle.std.specs.Option.{option_map, option_to_list};
ghost use Rattle.std.specs.Str.{str_eq_ignore_ascii_case};
ghost use Rattle.html_attributes.specs.Attributes.{value_of};
ghost use Rattle.html_attributes.specs.StartTags.{AreStartTags, IsPiece, IsTag, Piece, begins_tag};
ghost use Rattle.html_attributes.specs.StartTags.{closer_of, from, piece_of, seen_tag, stands, text_end};

use crate::attributes::{
    Attribute, TAG_NAME_ENDS, attributes_at, is_same_name, part_before, value_of,
};
use crate::slices::{bytes_after, first_bytes};
use std::alloc::{AllocError, Global};

/// A start tag of HTML.
#[derive(Debug, Drop)]
pub struct StartTag<'a> {
    /// How many bytes of the HTML stand before it.
    pub offset: usize,
    /// Its name, as it is written.
    pub name: &'a [u8],
    /// Its attributes, in order.
    pub attributes: Vec<Attribute<'a>>,
}

impl<'a> StartTag<'a> {
    /// Whether this is its name, in ASCII letters of any case.
    pub fn is_named(&self, name: &[u8]) -> bool
        ensures { result ≡ str_eq_ignore_ascii_case self.now.name.now name.now }
    {
        is_same_name(self.name, name)
    }

    /// The value of its first attribute of this name, in ASCII letters of any case.
    pub fn value_of(&self, name: &[u8]) -> Option<&'a [u8]>
        ensures { option_map (λ value. value.now) result
            ≡ value_of name.now (seen_tag self.now).attributes }
    {
        value_of(&self.attributes, name)
    }
}

/// The start tags of raw HTML, in order, as browsers read them: none stands in comments, CDATA
/// sections, processing instructions, declarations or end tags, nor in the text of `script`,
/// `style`, `textarea` and `title`. What is not closed goes up to the end. (CommonMark 0.31.2,
/// section 6.6)
///
/// # Errors
///
/// `AllocError` where memory is refused.
pub fn start_tags<'a>(alloc: Global, html: &'a [u8]) -> Result<Vec<StartTag<'a>>, AllocError>
    ensures { IfOk result (λ tags. AreStartTags html.now (map seen_tag tags.items)) }
{
    let mut tags = Vec::new(alloc);
    let mut rest = html;
    while !rest.is_empty() {
        let offset = html.len() - rest.len();
        rest = pass_piece(alloc, &mut tags, offset, rest)?;
    }
    Ok(tags)
}

// Passes what stands at the front, so many bytes after the beginning, and adds the tag that it is,
// if it is one.
fn pass_piece<'a>(
    alloc: Global,
    tags: &mut Vec<StartTag<'a>>,
    offset: usize,
    bytes: &'a [u8],
) -> Result<&'a [u8], AllocError>
    requires some { 0 < length bytes.now }
    ensures piece { IfOk result (λ rest. (it : Piece) × IsPiece offset bytes.now it
        × (it.rest ≡ rest.now)
        × (map seen_tag tags.new.items ≡ map seen_tag tags.old.items ++ option_to_list it.tag)) }
    ensures shorter { IfOk result (λ rest. length rest.now < length bytes.now) }
{
    if let Some(closer) = closer_of(bytes) {
        return Ok(from(closer, bytes_after(bytes, 2)));
    }
    if begins_tag(bytes) {
        return pass_tag(alloc, tags, offset, bytes_after(bytes, 1));
    }
    Ok(bytes_after(bytes, 1))
}

// Passes the start tag after `<`, and adds it, unless the text ends in it.
fn pass_tag<'a>(
    alloc: Global,
    tags: &mut Vec<StartTag<'a>>,
    offset: usize,
    bytes: &'a [u8],
) -> Result<&'a [u8], AllocError>
    ensures tag { IfOk result (λ rest. (it : Piece) × IsTag offset bytes.now it
        × (it.rest ≡ rest.now)
        × (map seen_tag tags.new.items ≡ map seen_tag tags.old.items ++ option_to_list it.tag)) }
    ensures within { IfOk result (λ rest. length rest.now ≤ length bytes.now) }
{
    let (name, later) = part_before(TAG_NAME_ENDS, bytes);
    let (attributes, rest) = attributes_at(alloc, later)?;
    add_tag(
        tags,
        StartTag {
            offset,
            name,
            attributes,
        },
        rest,
    )
}

// Adds a tag that ends with the first of these bytes, or nothing where there are no bytes. Answers
// what follows it, and the text that its element holds.
fn add_tag<'a>(
    tags: &mut Vec<StartTag<'a>>,
    tag: StartTag<'a>,
    bytes: &'a [u8],
) -> Result<&'a [u8], AllocError>
    ensures rest { IfOk result (λ rest. rest.now ≡ (piece_of (seen_tag tag.entry) bytes.now).rest) }
    ensures added { OnOk result (map seen_tag tags.new.items ≡ map seen_tag tags.old.items
        ++ option_to_list (piece_of (seen_tag tag.entry) bytes.now).tag) }
    ensures within { IfOk result (λ rest. length rest.now ≤ length bytes.now) }
{
    let [_, later @ ..] = bytes else {
        return Ok(bytes);
    };
    let end = text_end(tag.name);
    tags.push(tag)?;
    Ok(from(end, later))
}

// Whether a start tag begins.
fn begins_tag(bytes: &[u8]) -> bool
    ensures { result ≡ begins_tag bytes.now }
{
    match bytes {
        [b'<', letter, ..] => letter.is_ascii_alphabetic(),
        _ => false,
    }
}

// What ends what holds no tags, where it begins.
fn closer_of(bytes: &[u8]) -> Option<&'static [u8]>
    ensures { option_map (λ closer. closer.now) result ≡ closer_of bytes.now }
{
    if bytes.starts_with(b"<!--") {
        Some(b"-->")
    } else if bytes.starts_with(b"<![CDATA[") {
        Some(b"]]>")
    } else if bytes.starts_with(b"<?") {
        Some(b"?>")
    } else if bytes.starts_with(b"<!") || bytes.starts_with(b"</") {
        Some(b">")
    } else {
        None
    }
}

// What ends the text of an element of this name, where it holds text alone; else nothing.
fn text_end(name: &[u8]) -> &'static [u8]
    ensures { result.now ≡ text_end name.now }
{
    if name.eq_ignore_ascii_case(b"script") {
        b"</script"
    } else if name.eq_ignore_ascii_case(b"style") {
        b"</style"
    } else if name.eq_ignore_ascii_case(b"textarea") {
        b"</textarea"
    } else if name.eq_ignore_ascii_case(b"title") {
        b"</title"
    } else {
        b""
    }
}

// What stands from the first such text on.
fn from<'a>(text: &[u8], bytes: &'a [u8]) -> &'a [u8]
    ensures rest { result.now ≡ from text.now bytes.now }
    ensures within { length result.now ≤ length bytes.now }
{
    let mut count = 0;
    while count < bytes.len() && !stands(text, &bytes[count..]) {
        count += 1;
    }
    &bytes[count..]
}

// Whether a text stands at the front, in ASCII letters of any case.
fn stands(text: &[u8], bytes: &[u8]) -> bool
    ensures { result ≡ stands text.now bytes.now }
{
    is_same_name(first_bytes(bytes, text.len()), text)
}
