//! The case folding of labels, as it is compared and hashed: nothing is stored, and no memory is
//! taken.
ghost use Rattle.std.specs.Prelude.{◌≡◌, ◌↔◌, ◌≤◌, IsTrue, IsAscii, fold, length, map};
ghost use Rattle.std.specs.Char.{to_ascii_lowercase};
ghost use Rattle.markdown_scanners_tree.specs.linklabel.Key.{label_key, key_bytes, blocks};

use crate::linklabel::key_block::{KeyBlock, SIZE};
use caseless::Caseless;
use std::hash::Hasher;

// Whether two texts of ASCII have one key.
pub(crate) fn eq_ascii(one: &str, other: &str) -> bool
    requires one { IsAscii one.now }
    requires other { IsAscii other.now }
    ensures { IsTrue result ↔ (label_key one.now ≡ label_key other.now) }
{
    one.eq_ignore_ascii_case(other)
}

// Feeds the key of a text of ASCII, which is the text in lower case, in blocks.
pub(crate) fn hash_ascii<H: Hasher>(text: &str, state: &mut H)
    requires { IsAscii text.now }
    ensures { state.new ≡ fold H.write state.old (blocks (key_bytes text.now)) }
{
    let mut rest = text.as_bytes();
    while rest.len() > SIZE {
        let (block, later) = rest.split_at(SIZE);
        write_lowercase(block, state);
        rest = later;
    }
    write_lowercase(rest, state);
}

// Feeds a block of ASCII in lower case, in one write.
fn write_lowercase<H: Hasher>(block: &[u8], state: &mut H)
    requires { length block.now ≤ 16 }
    ensures { state.new ≡ H.write state.old (map to_ascii_lowercase block.now) }
{
    let mut lower = [0; SIZE];
    for (offset, byte) in block.iter().enumerate() {
        lower[offset] = byte.to_ascii_lowercase();
    }
    state.write(&lower[..block.len()]);
}

// Feeds the key of a text, as UTF-8 in blocks.
pub(crate) fn hash_folded<H: Hasher>(text: &str, state: &mut H)
    ensures { state.new ≡ fold H.write state.old (blocks (key_bytes text.now)) }
{
    let mut block = KeyBlock::new();
    for c in text.chars().default_case_fold() {
        block.push_char(c, state);
    }
    block.end(state);
}
