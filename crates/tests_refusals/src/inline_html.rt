//! Tags over lines, and runs of scans of inline HTML.
use crate::printing::{MadeOf, print_reading};
use crate::stop::Stop;
use markdown_scanners_tree::inline_html::{HtmlRun, run_inline_html};
use markdown_scanners_tree::scanners::scan_html_block_inner;
use std::alloc::{AllocError, Global};
use std::fmt;
use std::io::Stdout;
use std::str::from_utf8;

/// The text of a tag and its length.
#[derive(Drop)]
pub(crate) struct Found(pub(crate) Option<(Vec<u8>, usize)>);

impl fmt::Debug for Found {
    fn fmt<W: fmt::Write>(&self, f: &mut fmt::Formatter<W>) -> fmt::Result {
        match &self.0 {
            Some((text, length)) => {
                let text = from_utf8(text).unwrap_or("not UTF-8");
                write!(f, "{} {} {text:?}", *length, text.len())
            }
            None => f.write_str("none"),
        }
    }
}

/// What a tag stands in. In nothing, it ends in its line.
#[derive(Clone, Copy)]
pub(crate) enum Around {
    Quote,
    Nothing,
}

/// The tag, over the lines of what it stands in.
pub(crate) fn scan_tag(alloc: Global, around: Around, data: &[u8]) -> Result<Found, AllocError> {
    let handler = |rest: &[u8]| -> usize { if rest.starts_with(b"> ") { 2 } else { 0 } };
    let handler = match around {
        Around::Quote => Some(&handler),
        Around::Nothing => None,
    };
    Ok(Found(scan_html_block_inner(alloc, data, handler)?))
}

impl MadeOf<&[u8]> for Found {
    fn made_of(alloc: Global, value: &[u8]) -> Result<Found, AllocError> {
        scan_tag(alloc, Around::Quote, value)
    }
}

/// A tag over two lines.
pub(crate) fn tag(alloc: Global, output: Stdout) -> Result<(), Stop> {
    print_reading::<&[u8], Found>(alloc, output, "<foo bar>", b"<foo\n> bar>")
}

/// A tag whose text has 900 bytes.
pub(crate) fn tag_of_900_bytes(alloc: Global, output: Stdout) -> Result<(), Stop> {
    let data = attributes(alloc)?;
    print_reading::<&[u8], Found>(alloc, output, "448 attributes", data.as_bytes())
}

fn attributes(alloc: Global) -> Result<String, AllocError> {
    let lines = "\n> a".repeat(alloc, 448)?;
    format!(in alloc; "<ab{lines}>")
}

const TEXT: &str = "<!-- <!x> <!-- <![CDATA[ ]]>";

const PLACES: [usize; 5] = [2, 7, 12, 17, 18];

impl MadeOf<&[usize]> for HtmlRun {
    fn made_of(alloc: Global, value: &[usize]) -> Result<HtmlRun, AllocError> {
        run_inline_html(alloc, TEXT.as_bytes(), value)
    }
}

/// Places up to one that is refused.
pub(crate) fn run(alloc: Global, output: Stdout) -> Result<(), Stop> {
    print_reading::<&[usize], HtmlRun>(alloc, output, TEXT, &PLACES)
}
