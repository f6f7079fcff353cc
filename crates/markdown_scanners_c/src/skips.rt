//! What is left out of a text at the starts of its lines.
ghost use Rattle.std.specs.Prelude.{◌≡◌, ◌+◌, ◌&&◌, ℕ, true, nat_le, drop};
ghost use Rattle.markdown_scanners_c.specs.Skips.{stand_from, are_skips, left_out, is_ascii_front, are_ascii_skips, skips_status};
ghost use Rattle.markdown_scanners_c.specs.private.LabelText.{returned_ascii};
ghost use Rattle.markdown_scanners_c.specs.private.Searched.{searched, returned_skip};

use crate::status::{BAD_SKIPS, OK};

/// `struct mds_skip` of C: so many bytes are left out at the offset.
#[repr(C)]
#[derive(Clone, Copy)]
pub struct Skip {
    pub offset: usize,
    pub length: usize,
}

/// Whether the skips are a table of the bytes: `OK` or `BAD_SKIPS`. (CommonMark 0.31.2, section 5)
#[unsafe(no_mangle)]
pub extern "C" fn mds_check_skips(bytes: &[u8], skips: &[Skip]) -> u32
    ensures { result ≡ skips_status skips.now bytes.now }
{
    if are_skips(skips, bytes) && are_ascii_skips(skips, bytes) {
        OK
    } else {
        BAD_SKIPS
    }
}

// Whether the skips stand in order in a text of so many bytes.
fn are_skips(skips: &[Skip], bytes: &[u8]) -> bool
    ensures { result ≡ are_skips skips.now bytes.now }
{
    let mut from = 0;
    for skip in skips {
        if !stands(*skip, from, bytes.len()) {
            return false;
        }
        from = skip.offset + skip.length.max(1);
    }
    true
}

// Whether the skip begins at the offset or after it, and ends within so many bytes.
fn stands(skip: Skip, from: usize, size: usize) -> bool
    ensures { result ≡ (nat_le from skip.offset && nat_le (skip.offset + skip.length) size) }
{
    from <= skip.offset && skip.offset <= size && skip.length <= size - skip.offset
}

// Whether each skip leaves out ASCII alone.
fn are_ascii_skips(skips: &[Skip], bytes: &[u8]) -> bool
    ensures { result ≡ are_ascii_skips skips.now bytes.now }
{
    for skip in skips {
        if !is_ascii_skip(*skip, bytes) {
            return false;
        }
    }
    true
}

// Whether the bytes that are left out there are ASCII.
fn is_ascii_skip(skip: Skip, bytes: &[u8]) -> bool
    ensures { result ≡ is_ascii_front (drop skip.offset bytes.now) skip.length }
{
    let offset = skip.offset.min(bytes.len());
    is_ascii_front(&bytes[offset..], skip.length)
}

// Whether so many bytes are there at the front, and are ASCII.
fn is_ascii_front(rest: &[u8], count: usize) -> bool
    ensures { result ≡ is_ascii_front rest.now count }
{
    count <= rest.len() && rest[..count].is_ascii()
}

/// How many bytes a table leaves out at the offset, in as many steps as its length has binary
/// digits. Of a table that is out of order it is some number, and always the same.
pub(crate) fn searched(skips: &[Skip], offset: usize) -> usize
    ensures halves { result ≡ searched skips.now offset }
    ensures found { (size : ℕ) → stand_from 0 size skips.now ≡ true
        → result ≡ left_out skips.now offset }
{
    let mut rest = skips;
    while !rest.is_empty() {
        let middle = rest.len() / 2;
        let skip = rest[middle];
        if skip.offset == offset {
            return skip.length;
        }
        rest = if skip.offset < offset {
            &rest[middle + 1..]
        } else {
            &rest[..middle]
        };
    }
    0
}

/// How many bytes of a rest of the text a table leaves out, all of them where it names more.
pub(crate) fn returned_skip(skips: &[Skip], bytes: &[u8], rest: &[u8]) -> usize
    ensures { result ≡ returned_skip skips.now bytes.now rest.now }
{
    let offset = bytes.len().saturating_sub(rest.len());
    searched(skips, offset).min(rest.len())
}

/// How many bytes of a rest of the text a table leaves out, all of them where it names more, if they
/// are ASCII.
pub(crate) fn returned_ascii(skips: &[Skip], bytes: &[u8], rest: &[u8]) -> Option<usize>
    ensures { result ≡ returned_ascii skips.now bytes.now rest.now }
{
    let count = returned_skip(skips, bytes, rest);
    if is_ascii_front(rest, count) {
        Some(count)
    } else {
        None
    }
}
