//! Starts of HTML blocks that a known name opens.
ghost use Rattle.std.specs.Prelude.{◌≡◌, ◌↔◌, IsTrue, length, map, Contains};
ghost use Rattle.std.specs.Ordering.{nat_cmp};
ghost use Rattle.std.specs.Char.{to_ascii_lowercase};
ghost use Rattle.std.specs.Cmp.Lexicographic.{slice_cmp};
ghost use Rattle.markdown_scanners_tree.specs.scanners.html_block.HtmlBlock.{IsBlockName, IsBlockStart, ends_block_name};
ghost use Rattle.markdown_scanners_tree.specs.scanners.html_block.private.BlockRows.{rises, texts, after_slash};

use crate::scanners::runs::scan_alphanumerics;
use std::cmp::Ordering;

// In lower case, in ascending order.
const BLOCK_NAMES: [&str; 62] = [
    "address",
    "article",
    "aside",
    "base",
    "basefont",
    "blockquote",
    "body",
    "caption",
    "center",
    "col",
    "colgroup",
    "dd",
    "details",
    "dialog",
    "dir",
    "div",
    "dl",
    "dt",
    "fieldset",
    "figcaption",
    "figure",
    "footer",
    "form",
    "frame",
    "frameset",
    "h1",
    "h2",
    "h3",
    "h4",
    "h5",
    "h6",
    "head",
    "header",
    "hr",
    "html",
    "iframe",
    "legend",
    "li",
    "link",
    "main",
    "menu",
    "menuitem",
    "nav",
    "noframes",
    "ol",
    "optgroup",
    "option",
    "p",
    "param",
    "search",
    "section",
    "summary",
    "table",
    "tbody",
    "td",
    "tfoot",
    "th",
    "thead",
    "title",
    "tr",
    "track",
    "ul",
];

// How the row compares with the name in lower case.
fn compare_in_lowercase(row: &str, name: &[u8]) -> Ordering
    ensures { result ≡ slice_cmp nat_cmp row.now (map to_ascii_lowercase name.now) }
{
    let letters = row.as_bytes();
    let mut i = 0;
    while i < letters.len() && i < name.len() {
        let letter = name[i].to_ascii_lowercase();
        if letters[i] != letter {
            return letters[i].cmp(&letter);
        }
        i += 1;
    }
    letters.len().cmp(&name.len())
}

// Whether the name is one of the rows without regard to ASCII case.
fn is_among(rows: &[&str], name: &[u8]) -> bool
    requires { IsTrue (rises rows.now) }
    ensures { IsTrue result ↔ Contains (texts rows.now) (map to_ascii_lowercase name.now) }
{
    rows.binary_search_by(|row| compare_in_lowercase(row, name))
        .is_ok()
}

// Whether the name opens an HTML block.
fn is_block_name(name: &[u8]) -> bool
    ensures { IsTrue result ↔ IsBlockName name.now }
{
    is_among(&BLOCK_NAMES, name)
}

// Whether a name can end before these bytes.
fn ends_name(rest: &[u8]) -> bool
    ensures { result ≡ ends_block_name rest.now }
{
    match rest {
        [] => true,
        [b' ' | b'\t' | b'\n' | b'\r' | b'>', ..] => true,
        [b'/', b'>', ..] => true,
        _ => false,
    }
}

// The bytes without a `/` at their front.
fn without_slash(bytes: &[u8]) -> &[u8]
    ensures { result.now ≡ after_slash bytes.now }
{
    match bytes {
        [b'/', rest @ ..] => rest,
        _ => bytes,
    }
}

/// Whether an HTML block that one of 62 names opens begins with the bytes after `<`.
///
/// They are an optional `/`, one of the names in any ASCII case as the longest run of letters and
/// digits, and then the end, a space, a tab, a line ending, `>` or `/>`. (CommonMark 0.31.2,
/// section 4.6, start condition 6.)
pub fn starts_html_block_type_6(bytes: &[u8]) -> bool
    ensures { IsTrue result ↔ IsBlockStart bytes.now }
{
    let after = without_slash(bytes);
    let length = scan_alphanumerics(after);
    // The byte after the name is asked first, since a search among the names takes longer.
    ends_name(&after[length..]) && is_block_name(&after[..length])
}
