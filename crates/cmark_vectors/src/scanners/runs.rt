//! Runs of bytes, by closures.
use crate::asserts::assert_answer;
use markdown_scanners_tree::scanners::{scan_ch, scan_rev_while, scan_while};
use std::process::Abort;

const FIRST_BYTES: [(&[u8], usize); 3] = [(b"ab", 1), (b"ba", 0), (b"", 0)];

#[test]
fn counts_a_byte_once(rt: HostRuntime) {
    for (bytes, count) in FIRST_BYTES {
        assert_answer(&rt, &bytes, scan_ch(bytes, b'a'), count);
    }
}

const FROM_THE_FRONT: [(&[u8], usize); 2] = [(b"aab", 2), (b"aaa", 3)];

const FROM_THE_BACK: [(&[u8], usize); 2] = [(b"baa", 2), (b"", 0)];

// A closure that accepts the first byte that it is asked about, and no other.
fn assert_one_accepted(rt: &impl Abort) {
    let mut asked = false;
    let accepts_one = |_: u8| {
        let first = !asked;
        asked = true;
        first
    };
    assert_answer(rt, &"one", scan_while(b"aaa", accepts_one), 1);
    assert_answer(rt, &"asked", asked, true);
}

#[test]
fn counts_bytes_that_a_closure_accepts(rt: HostRuntime) {
    for (bytes, count) in FROM_THE_FRONT {
        assert_answer(&rt, &bytes, scan_while(bytes, |b| b == b'a'), count);
    }
    for (bytes, count) in FROM_THE_BACK {
        assert_answer(&rt, &bytes, scan_rev_while(bytes, |b| b == b'a'), count);
    }
    assert_one_accepted(&rt);
}

// Counts by a closure of which no more is known than that it may always be called.
fn count_accepted<F: FnMut(u8) -> bool>(bytes: &[u8], accepts: F) -> usize
    requires { F.IsAlwaysCallable accepts }
{
    scan_while(bytes, accepts)
}

#[test]
fn passes_a_closure_on(rt: HostRuntime) {
    assert_answer(&rt, &"aab", count_accepted(b"aab", |b| b == b'a'), 2);
}

// Bytes, how many of them from one end a closure accepts that accepts each `a`, and about which
// bytes it is asked: the digits of a number after a first 1.
type Asked = (&'static [u8], usize, u64);

fn asked(bytes: &[u8]) -> (usize, u64) {
    let mut digits = 1_u64;
    let accepts = |b: u8| {
        digits = digits.wrapping_mul(256).wrapping_add(u64::from(b));
        b == b'a'
    };
    let count = scan_while(bytes, accepts);
    (count, digits)
}

// The same from the last byte on.
fn asked_back(bytes: &[u8]) -> (usize, u64) {
    let mut digits = 1_u64;
    let accepts = |b: u8| {
        digits = digits.wrapping_mul(256).wrapping_add(u64::from(b));
        b == b'a'
    };
    let count = scan_rev_while(bytes, accepts);
    (count, digits)
}

const ASKED: [Asked; 5] = [
    (b"aab", 2, 0x01_61_61_62),
    (b"aabaa", 2, 0x01_61_61_62),
    (b"aaa", 3, 0x01_61_61_61),
    (b"ba", 0, 0x01_62),
    (b"", 0, 0x01),
];

#[test]
fn asks_a_closure_once_for_each_byte(rt: HostRuntime) {
    for (bytes, count, digits) in ASKED {
        assert_answer(&rt, &bytes, asked(bytes), (count, digits));
    }
}

const ASKED_BACK: [Asked; 5] = [
    (b"baa", 2, 0x01_61_61_62),
    (b"aabaa", 2, 0x01_61_61_62),
    (b"aaa", 3, 0x01_61_61_61),
    (b"ab", 0, 0x01_62),
    (b"", 0, 0x01),
];

#[test]
fn asks_a_closure_from_the_last_byte_on(rt: HostRuntime) {
    for (bytes, count, digits) in ASKED_BACK {
        assert_answer(&rt, &bytes, asked_back(bytes), (count, digits));
    }
}
