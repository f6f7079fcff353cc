//! Sets of bytes, and how many bytes at the front of a text are not in one, 16 at a time.
ghost use Rattle.std.specs.Prelude.{ℕ, ◌≡◌, ◌/◌, ◌<◌, ◌≤◌, bit_and, length, not, slice_index, take};
ghost use Rattle.std.specs.List.{prefix_len};
ghost use Rattle.markdown_scanners_tree.specs.ByteSets.{has_byte};

use std::simd::prelude::*;

// How many bytes a vector holds.
const LANES: usize = 16;

/// A set of bytes: those whose low and high halves, of four bits each, have a bit in common here.
///
/// So a bit may stand for the bytes of one high half, and eight such rows are the most that a set can
/// tell apart.
pub struct ByteSet {
    /// The bits of each low half.
    pub low: [u8; 16],
    /// The bits of each high half.
    pub high: [u8; 16],
}

impl ByteSet {
    /// Whether a byte is in the set.
    pub fn contains(&self, byte: u8) -> bool
        ensures { result ≡ has_byte self.now byte }
    {
        self.low[(byte & 15) as usize] & self.high[(byte / 16) as usize] != 0
    }

    /// How many bytes at the front are not in the set: all of them, or those before the first that is.
    pub fn len_outside(&self, bytes: &[u8]) -> usize
        ensures count { result ≡ prefix_len (λ b. not (has_byte self.now b)) bytes.now }
        ensures within { result ≤ length bytes.now }
    {
        if bytes.len() < LANES {
            return self.few_outside(bytes);
        }
        let last = bytes.len() - LANES;
        let mut from = 0;
        while from < last {
            let before = self.lanes_outside(&bytes[from..]);
            from += before;
            if before < LANES {
                return from;
            }
        }
        // Some bytes of the last vector may have been read.
        last + self.lanes_outside(&bytes[last..])
    }

    // The same of bytes that fill no vector.
    fn few_outside(&self, bytes: &[u8]) -> usize
        ensures count { result ≡ prefix_len (λ b. not (has_byte self.now b)) bytes.now }
        ensures within { result ≤ length bytes.now }
    {
        bytes.iter().take_while(|b| !self.contains(**b)).count()
    }

    // How many of the bytes in a vector stand before the first that is in the set.
    fn lanes_outside(&self, bytes: &[u8]) -> usize
        requires { LANES ≤ length bytes.now }
        ensures { result ≡ prefix_len (λ b. not (has_byte self.now b)) (take LANES bytes.now) }
    {
        let lanes = u8x16::from_slice(bytes);
        let common = self.by_low_half(lanes) & self.by_high_half(lanes);
        let mask = common.simd_ne(u8x16::splat(0)).to_bitmask();
        if mask == 0 {
            LANES
        } else {
            mask.trailing_zeros() as usize
        }
    }

    // The bits of the low half of each byte.
    #[inline(always)]
    fn by_low_half(&self, lanes: u8x16) -> u8x16
        ensures length { length result ≡ LANES }
        ensures bits { (k : ℕ) → k < LANES → slice_index result k
            ≡ slice_index self.now.low (bit_and (slice_index lanes k) 15) }
    {
        u8x16::from_array(self.low).swizzle_dyn(lanes & u8x16::splat(15))
    }

    // The bits of the high half of each byte.
    #[inline(always)]
    fn by_high_half(&self, lanes: u8x16) -> u8x16
        ensures length { length result ≡ LANES }
        ensures bits { (k : ℕ) → k < LANES → slice_index result k
            ≡ slice_index self.now.high (slice_index lanes k / 16) }
    {
        u8x16::from_array(self.high).swizzle_dyn(lanes >> u8x16::splat(4))
    }
}
