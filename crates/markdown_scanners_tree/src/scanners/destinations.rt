//! Link destinations of texts that can be read to their end: most are bare, and have neither a
//! parenthesis nor an escape. (CommonMark 0.31.2, section 6.3)
ghost use Rattle.std.specs.Prelude.{◌≡◌, ◌+◌, ◌≤◌, length, IfSome};
ghost use Rattle.std.specs.List.{prefix_len};
ghost use Rattle.markdown_scanners_tree.specs.SomeExactly.{SomeExactly, IsOnly};
ghost use Rattle.markdown_scanners_tree.specs.scanners.classes.private.InDestination.{is_in_destination};
ghost use Rattle.markdown_scanners_tree.specs.scanners.links.FoundDestination.{IsDestination, RawTextStandsIn, with_raw_text};
ghost use Rattle.markdown_scanners_tree.specs.scanners.links.DestinationEnds.{ends_destination};

use crate::byte_sets::ByteSet;
use crate::scanners::links::scan_link_dest_bytes;
use std::ops::Range;

// The bytes up to space, whose high halves are 0 to 2, the parentheses and the backslash.
const NESTS_ESCAPES_OR_ENDS: ByteSet = ByteSet {
    low: [3, 1, 1, 1, 1, 1, 1, 1, 3, 3, 1, 1, 5, 1, 1, 1],
    high: [1, 1, 2, 0, 0, 4, 0, 0, 0, 0, 0, 0, 0, 0, 0, 0],
};

/// The link destination at the front of the bytes, as `scan_link_dest_bytes` answers it. A bare one
/// that is plain up to its end is found by a look at 16 bytes at a time, so that bytes after it may be
/// read. (CommonMark 0.31.2, section 6.3.)
pub fn scan_link_dest_ahead(bytes: &[u8], max_next: usize) -> Option<(usize, Range<usize>)>
    // The one destination that stands there is answered.
    ensures found { SomeExactly (IsDestination (max_next + 1) bytes.now)
        (with_raw_text bytes.now result) }
    ensures only { IsOnly (IsDestination (max_next + 1) bytes.now)
        (with_raw_text bytes.now result) }

    // Its raw text is all of it or stands between its brackets, and can be cut out.
    ensures raw_text { IfSome result (λ r. RawTextStandsIn bytes.now r.0 r.1) }
{
    let plain = plain_len(bytes);
    if plain > 0 && bytes[0] != b'<' && is_ended(&bytes[plain..]) {
        return Some((plain, 0..plain));
    }
    scan_link_dest_bytes(bytes, max_next)
}

// How many bytes stand at the front that neither nest, escape nor end a destination.
fn plain_len(bytes: &[u8]) -> usize
    ensures run { result ≡ prefix_len is_in_destination bytes.now }
    ensures within { result ≤ length bytes.now }
{
    NESTS_ESCAPES_OR_ENDS.len_outside(bytes)
}

// Whether a bare destination ends before these bytes, in which no parenthesis is open.
fn is_ended(rest: &[u8]) -> bool
    ensures { result ≡ ends_destination rest.now }
{
    match rest {
        [byte, ..] => *byte <= b' ' || *byte == b')',
        _ => true,
    }
}
