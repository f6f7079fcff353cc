//! A text that is searched for strings of backticks, and how many of its bytes that passes over.
ghost use Rattle.std.specs.Prelude.{ℕ, ◌≡◌, ◌≢◌, ◌+◌, ◌-◌, ◌<◌, ◌≤◌, ◌^◌, length, drop, slice_index, IfSome, IfNone};
ghost use Rattle.std.specs.List.{prefix_len};
ghost use Rattle.markdown_scanners_tree.specs.Ascii.{backtick};
ghost use Rattle.markdown_inlines.specs.CodeSpans.{IsBacktickString, HasNone, is_backtick};

use markdown_scanners_tree::scanners::scan_ch_repeat;
use memchr::memchr;
use std::marker::Model;

// A text whose bytes are reached by counted calls alone. No call lends them.
#[derive(Drop)]
pub(crate) struct Backticks<'a> {
    bytes: &'a [u8],
}

impl<'a> Model for Backticks<'a> {
    ghost use Rattle.std.specs.Prelude.{ℕ, List};

    ghost Value = { List ℕ };

    ghost view = { λ s. s.bytes.now };
}

impl<'a> Backticks<'a> {
    pub(crate) fn new(bytes: &'a [u8]) -> Backticks<'a>
        ensures text { result ≡ bytes.now }
        ensures fits_usize { length bytes.now < 2 ^ 64 }
    {
        Backticks { bytes }
    }

    // What stands from an offset on.
    pub(crate) fn after(&self, offset: usize) -> Backticks<'a>
        requires { offset ≤ length self.now }
        ensures { result ≡ drop offset self.now }
    {
        Backticks {
            bytes: &self.bytes[offset..],
        }
    }

    // How many backticks stand at the front. They are passed over.
    pub(crate) fn front_len(&self, passed: &mut u128) -> usize
        requires room { passed.old < 2 ^ 120 }
        ensures count { result ≡ prefix_len is_backtick self.now }
        ensures within { result ≤ length self.now }
        ensures counts { passed.new ≡ passed.old + result }
        ensures fits_usize { length self.now < 2 ^ 64 }
    {
        let run = scan_ch_repeat(self.bytes, b'`');
        *passed += run as u128;
        run
    }

    // The offset and the length of the first string of backticks from an offset on that cuts none. All
    // up to its end is passed over, or up to the end of the text where there is none.
    pub(crate) fn next_string(&self, from: usize, passed: &mut u128) -> Option<(usize, usize)>
        requires within { from ≤ length self.now }
        requires apart { 0 < from → slice_index self.now from ≢ backtick }
        requires room { passed.old < 2 ^ 120 }
        ensures found { IfSome result (λ r. (from ≤ r.0) × IsBacktickString self.now r.0 r.1
            × ((n : ℕ) → HasNone self.now n from r.0)) }
        ensures within { IfSome result (λ r. r.0 + r.1 ≤ length self.now) }
        ensures none { IfNone result ((n to : ℕ) → 0 < n → HasNone self.now n from to) }
        ensures counts { IfSome result (λ r. passed.new + from ≡ passed.old + r.0 + r.1) }
        ensures fits_usize { length self.now < 2 ^ 64 }
        ensures counts_all { IfNone result (passed.new + from ≡ passed.old + length self.now) }
    {
        let Some(offset) = memchr(b'`', &self.bytes[from..]) else {
            *passed += (self.bytes.len() - from) as u128;
            return None;
        };
        let start = from + offset;
        let run = scan_ch_repeat(&self.bytes[start..], b'`');
        *passed += (offset + run) as u128;
        Some((start, run))
    }
}
