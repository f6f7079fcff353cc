//! Texts as the keys of a map, which most often compare as one number.
ghost use Rattle.std.specs.Prelude.{◌≡◌, ◌≤◌, List, ℕ, Some, IsAscii, refl, bytes_eq, length, map, string_bytes, get_or};
ghost use Rattle.std.specs.Char.{to_ascii_lowercase};
ghost use Rattle.std.specs.Str.{IsUtf8};
ghost use Rattle.std.specs.Cmp.{partial_equiv_from_equiv};
ghost use Rattle.std.specs.Cmp.Lexicographic.{slice_cmp, nat_list_eq_equiv, nat_list_cmp_total, texts_ties, texts_po};
ghost use Rattle.std.specs.Ordering.{nat_cmp};
ghost use Rattle.markdown_blocks.specs.foldings.Fronts.{front_of, HasDigits};

use std::cmp::Ordering;
use std::marker::Model;
use std::str::from_utf8;

/// How long a text may be that lies in the key itself.
pub(crate) const SHORT: usize = 32;

/// The case folding of a label, in the order of its bytes. The first of these are kept as a number too,
/// which orders most texts by one comparison.
#[derive(Drop)]
pub(crate) struct Folding {
    front: u64,
    text: Text,
}

// The text of a key: short, so that it lies in the key itself, or in memory of its own.
#[derive(Drop)]
enum Text {
    Short(ShortText),
    Long(String),
}

#[derive(Clone, Copy)]
struct ShortText {
    bytes: [u8; SHORT],
    len: usize,
    ghost fits: { len ≤ 32 },
}

impl Model for Folding {
    ghost use Rattle.std.specs.Prelude.{◌≡◌, List, ℕ};
    ghost use Rattle.std.specs.Str.{IsUtf8};
    ghost use Rattle.markdown_blocks.specs.foldings.Fronts.{front_of, HasDigits};
    ghost use Rattle.markdown_blocks.specs.foldings.Texts.{bytes_of};

    ghost Value = { List ℕ };

    ghost view = { λ f. bytes_of f.text };

    ghost invariant = { λ f. (f.front ≡ front_of (bytes_of f.text)) × HasDigits 8 (bytes_of f.text)
        × IsUtf8 (bytes_of f.text) };
}

impl Folding {
    /// The text as a key.
    pub(crate) fn new(text: String) -> Folding
        ensures { result ≡ string_bytes text }
    {
        Folding {
            front: front_of(text.as_str().as_bytes()),
            text: Text::Long(text),
        }
    }

    /// A short text of ASCII in lower case as a key, for which no memory is asked.
    pub(crate) fn lower(text: &str) -> Folding
        requires short { length text.now ≤ 32 }
        requires ascii { IsAscii text.now }
        ensures { result ≡ map to_ascii_lowercase text.now }
    {
        let len = text.len();
        let mut bytes = [0; SHORT];
        let (lower, _) = bytes.split_at_mut(len);
        lower.copy_from_slice(text.as_bytes());
        lower.make_ascii_lowercase();
        Folding {
            // Zeros stand after the text, as the number has them.
            front: front_of(&bytes),
            text: Text::Short(ShortText { bytes, len }),
        }
    }

    /// The text.
    pub(crate) fn as_str(&self) -> &str
        ensures { result.now ≡ self.now }
    {
        match from_utf8(self.as_bytes()) {
            Ok(text) => text,
            Err(_) => unreachable!(),
        }
    }

    // Its bytes.
    fn as_bytes(&self) -> &[u8]
        ensures bytes { result.now ≡ self.now }
        ensures utf8 { IsUtf8 result.now }
    {
        match &self.text {
            Text::Short(text) => &text.bytes[..text.len],
            Text::Long(text) => text.as_str().as_bytes(),
        }
    }
}

// The number that the first bytes make, the first as the highest digit; where there are fewer, with
// zeros for the others.
fn front_of(bytes: &[u8]) -> u64
    ensures front { result ≡ front_of bytes.now }
    ensures digits { HasDigits 8 bytes.now }
{
    u64::from_be_bytes([
        byte_at(bytes, 0),
        byte_at(bytes, 1),
        byte_at(bytes, 2),
        byte_at(bytes, 3),
        byte_at(bytes, 4),
        byte_at(bytes, 5),
        byte_at(bytes, 6),
        byte_at(bytes, 7),
    ])
}

// The byte at the index, or zero.
fn byte_at(bytes: &[u8], index: usize) -> u8
    ensures { result ≡ get_or bytes.now index 0 }
{
    if index < bytes.len() { bytes[index] } else { 0 }
}

impl PartialEq for Folding {
    ghost eq = { bytes_eq };

    ghost laws = { partial_equiv_from_equiv nat_list_eq_equiv };

    fn eq(&self, other: &Folding) -> bool {
        self.as_bytes() == other.as_bytes()
    }
}

impl Eq for Folding {
    ghost laws = { nat_list_eq_equiv };
}

impl PartialOrd for Folding {
    ghost partial_cmp = { λ a b. Some (slice_cmp nat_cmp a b) };

    ghost laws = { texts_po };

    fn partial_cmp(&self, other: &Folding) -> Option<Ordering> {
        Some(self.cmp(other))
    }
}

impl Ord for Folding {
    ghost cmp = { slice_cmp nat_cmp };

    ghost total = { nat_list_cmp_total };

    ghost matches_partial_cmp = { λ a b. refl };

    ghost matches_eq = { texts_ties };

    fn cmp(&self, other: &Folding) -> Ordering {
        if self.front == other.front {
            return self.as_bytes().cmp(other.as_bytes());
        }
        if self.front < other.front {
            Ordering::Less
        } else {
            Ordering::Greater
        }
    }
}
