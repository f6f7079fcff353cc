//! Escapes and references.
use crate::printing::{MadeOf, print_reading};
use crate::stop::Stop;
use crate::texts::Text;
use markdown_scanners_tree::scanners::{EntityTable, unescape};
use markdown_values::strings::CowStr;
use std::alloc::{AllocError, Global};
use std::io::Stdout;

/// Knows `amp` alone.
pub(crate) const AMPERSAND: EntityTable = EntityTable {
    rows: &[(b"amp", "&")],
};

/// What a text means, in a table or outside of one.
pub(crate) fn unescaped(
    alloc: Global,
    text: &str,
    is_in_table: bool,
) -> Result<Text<'_>, AllocError> {
    let text = CowStr::from(text);
    Ok(Text(unescape(alloc, text, is_in_table, &AMPERSAND)?))
}

impl<'a> MadeOf<&'a str> for Text<'a> {
    fn made_of(alloc: Global, value: &'a str) -> Result<Text<'a>, AllocError> {
        unescaped(alloc, value, false)
    }
}

/// An escape, a reference and a line ending of two bytes.
pub(crate) fn short(alloc: Global, output: Stdout) -> Result<(), Stop> {
    let text = "a\\*b &amp;lt; &#x1F354; &no; c\r";
    print_reading::<&str, Text<'_>>(alloc, output, "a\\*b &amp;lt; ..", text)
}

/// A text whose meaning has 900 bytes.
pub(crate) fn of_900_bytes(alloc: Global, output: Stdout) -> Result<(), Stop> {
    let source = "&amp;".repeat(alloc, 900)?;
    print_reading::<&str, Text<'_>>(alloc, output, "900 references", source.as_str())
}
