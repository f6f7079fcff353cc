//! Bytes that are gathered for a hasher, since a write of one byte takes it about as long as one of sixteen.
ghost use Rattle.std.specs.Prelude.{◌≤◌};

use std::hash::Hasher;

/// How many bytes go into one write.
pub(crate) const SIZE: usize = 16;

/// The bytes that are gathered for the next write.
#[derive(Drop)]
pub(crate) struct KeyBlock {
    bytes: [u8; SIZE],
    len: usize,
    ghost fits: { len ≤ 16 },
}

impl KeyBlock {
    ghost use Rattle.std.specs.Prelude.{◌≡◌, ◌∷◌, ◌++◌, [], List, ℕ, encode_utf8, fold, take};
    ghost use Rattle.markdown_scanners_tree.specs.linklabel.Key.{blocks_after};

    /// No bytes.
    pub(crate) fn new() -> KeyBlock
        ensures { take result.len result.bytes ≡ [] }
    {
        KeyBlock {
            bytes: [0; SIZE],
            len: 0,
        }
    }

    /// Adds a byte, after a write of those that fill a block.
    pub(crate) fn push<H: Hasher>(&mut self, byte: u8, state: &mut H)
        ensures { (rest : List ℕ)
            → fold H.write state.new (blocks_after (take self.new.len self.new.bytes) rest)
            ≡ fold H.write state.old (blocks_after (take self.old.len self.old.bytes)
            (byte ∷ rest)) }
    {
        if self.len == SIZE {
            state.write(&self.bytes);
            self.len = 0;
        }
        self.bytes[self.len] = byte;
        self.len += 1;
    }

    /// Adds the bytes of a character.
    pub(crate) fn push_char<H: Hasher>(&mut self, c: char, state: &mut H)
        ensures { (rest : List ℕ)
            → fold H.write state.new (blocks_after (take self.new.len self.new.bytes) rest)
            ≡ fold H.write state.old
            (blocks_after (take self.old.len self.old.bytes) (encode_utf8 c ++ rest)) }
    {
        let mut buffer = [0; 4];
        for byte in c.encode_utf8(&mut buffer).as_bytes() {
            self.push(*byte, state);
        }
    }

    /// Writes what is gathered.
    pub(crate) fn end<H: Hasher>(self, state: &mut H)
        ensures { state.new ≡ fold H.write state.old (blocks_after (take self.len self.bytes) []) }
    {
        state.write(&self.bytes[..self.len]);
    }
}
