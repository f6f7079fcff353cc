//! Options: each call said by bits alone, and the rows of their table.
ghost use Rattle.std.specs.Prelude.{◌≡◌, ◌-◌, ◌^◌, ◌==◌, ◌↔◌, ◌&&◌, not, if◌then◌else◌, IfSome, IsSome};
ghost use Rattle.std.specs.Int.RustNames.{bit_and, bit_or, bit_xor};

use crate::asserts::assert_same;
use bitflags::Flags;
use markdown_values::values::Options;
use std::process::Abort;

// What each call answers, by the bits of its arguments.
fn bits_of_empty() -> u32
    ensures { result ≡ 0 }
{
    Options::empty().bits()
}

#[tactic(auto, using(markdown_values::proofs::ForCallers::all_known))]
fn bits_of_all() -> u32
    ensures { result ≡ 65534 }
{
    Options::all().bits()
}

#[tactic(auto, using(markdown_values::proofs::ForCallers::all_known))]
fn bits_if_known(bits: u32) -> Option<u32>
    ensures value { IfSome result (λ b. b ≡ bits) }
    ensures known { IsSome result ↔ (bit_and bits 65534 ≡ bits) }
{
    match Options::from_bits(bits) {
        Some(options) => Some(options.bits()),
        None => None,
    }
}

#[tactic(auto, using(markdown_values::proofs::ForCallers::all_known))]
fn known_bits(bits: u32) -> u32
    ensures { result ≡ bit_and bits 65534 }
{
    Options::from_bits_truncate(bits).bits()
}

fn retained_bits(bits: u32) -> u32
    ensures { result ≡ bits }
{
    Options::from_bits_retain(bits).bits()
}

fn is_empty(bits: u32) -> bool
    ensures { result ≡ (bits == 0) }
{
    Options::from_bits_retain(bits).is_empty()
}

#[tactic(auto, using(markdown_values::proofs::ForCallers::all_known))]
fn is_all(bits: u32) -> bool
    ensures { result ≡ (bit_or 65534 bits == bits) }
{
    Options::from_bits_retain(bits).is_all()
}

fn contains(b: u32, c: u32) -> bool
    ensures { result ≡ (bit_and b c == c) }
{
    Options::from_bits_retain(b).contains(Options::from_bits_retain(c))
}

fn intersects(b: u32, c: u32) -> bool
    ensures { result ≡ not (bit_and b c == 0) }
{
    Options::from_bits_retain(b).intersects(Options::from_bits_retain(c))
}

fn union(b: u32, c: u32) -> u32
    ensures { result ≡ bit_or b c }
{
    Options::from_bits_retain(b)
        .union(Options::from_bits_retain(c))
        .bits()
}

fn insert(b: u32, c: u32) -> u32
    ensures { result ≡ bit_or b c }
{
    let mut options = Options::from_bits_retain(b);
    options.insert(Options::from_bits_retain(c));
    options.bits()
}

fn intersection(b: u32, c: u32) -> u32
    ensures { result ≡ bit_and b c }
{
    Options::from_bits_retain(b)
        .intersection(Options::from_bits_retain(c))
        .bits()
}

fn difference(b: u32, c: u32) -> u32
    ensures { result ≡ bit_and b (2 ^ 32 - 1 - c) }
{
    Options::from_bits_retain(b)
        .difference(Options::from_bits_retain(c))
        .bits()
}

fn remove(b: u32, c: u32) -> u32
    ensures { result ≡ bit_and b (2 ^ 32 - 1 - c) }
{
    let mut options = Options::from_bits_retain(b);
    options.remove(Options::from_bits_retain(c));
    options.bits()
}

fn symmetric_difference(b: u32, c: u32) -> u32
    ensures { result ≡ bit_xor b c }
{
    Options::from_bits_retain(b)
        .symmetric_difference(Options::from_bits_retain(c))
        .bits()
}

fn toggle(b: u32, c: u32) -> u32
    ensures { result ≡ bit_xor b c }
{
    let mut options = Options::from_bits_retain(b);
    options.toggle(Options::from_bits_retain(c));
    options.bits()
}

#[tactic(auto, using(markdown_values::proofs::ForCallers::all_known))]
fn complement(bits: u32) -> u32
    ensures { result ≡ bit_and (2 ^ 32 - 1 - bits) 65534 }
{
    Options::from_bits_retain(bits).complement().bits()
}

fn set(b: u32, c: u32, on: bool) -> u32
    ensures { result ≡ (if on then bit_or b c else bit_and b (2 ^ 32 - 1 - c)) }
{
    let mut options = Options::from_bits_retain(b);
    options.set(Options::from_bits_retain(c), on);
    options.bits()
}

fn has_gfm_footnotes(bits: u32) -> bool
    ensures { result ≡ (bit_and bits 4 == 4) && not (bit_and bits 516 == 516) }
{
    Options::from_bits_retain(bits).has_gfm_footnotes()
}

fn old_footnotes() -> u32
    ensures { result ≡ 516 }
{
    Options::ENABLE_OLD_FOOTNOTES.bits()
}

const BITS: &[(Options, u32)] = &[
    (Options::ENABLE_TABLES, 2),
    (Options::ENABLE_FOOTNOTES, 4),
    (Options::ENABLE_STRIKETHROUGH, 8),
    (Options::ENABLE_TASKLISTS, 16),
    (Options::ENABLE_SMART_PUNCTUATION, 32),
    (Options::ENABLE_HEADING_ATTRIBUTES, 64),
    (Options::ENABLE_YAML_STYLE_METADATA_BLOCKS, 128),
    (Options::ENABLE_PLUSES_DELIMITED_METADATA_BLOCKS, 256),
    (Options::ENABLE_OLD_FOOTNOTES, 516),
    (Options::ENABLE_MATH, 1024),
    (Options::ENABLE_GFM, 2048),
    (Options::ENABLE_DEFINITION_LIST, 4096),
    (Options::ENABLE_SUPERSCRIPT, 8192),
    (Options::ENABLE_SUBSCRIPT, 16384),
    (Options::ENABLE_WIKILINKS, 32768),
];

#[test]
fn options_have_the_bits_of_the_table(rt: HostRuntime) {
    for (options, bits) in BITS {
        assert_same(&rt, options.bits(), *bits);
    }
}

// The flag of this position has this name and these bits.
fn assert_flag(rt: &impl Abort, position: usize, name: &str, bits: u32) {
    match Options::flags().get(position) {
        Some(flag) => {
            assert_same(rt, flag.name(), name);
            assert_same(rt, flag.value().bits(), bits);
        }
        None => assert!(rt; false, "no {name}"),
    }
}

// By their positions.
const FLAGS: &[(&str, u32)] = &[
    ("ENABLE_TABLES", 2),
    ("ENABLE_FOOTNOTES", 4),
    ("ENABLE_STRIKETHROUGH", 8),
    ("ENABLE_TASKLISTS", 16),
    ("ENABLE_SMART_PUNCTUATION", 32),
    ("ENABLE_HEADING_ATTRIBUTES", 64),
    ("ENABLE_YAML_STYLE_METADATA_BLOCKS", 128),
    ("ENABLE_PLUSES_DELIMITED_METADATA_BLOCKS", 256),
    ("ENABLE_OLD_FOOTNOTES", 516),
    ("ENABLE_MATH", 1024),
    ("ENABLE_GFM", 2048),
    ("ENABLE_DEFINITION_LIST", 4096),
    ("ENABLE_SUPERSCRIPT", 8192),
    ("ENABLE_SUBSCRIPT", 16384),
    ("ENABLE_WIKILINKS", 32768),
];

#[test]
fn flags_have_the_names_and_bits_of_the_table(rt: HostRuntime) {
    assert_same(&rt, Options::flags().len(), 15);
    for (position, (name, bits)) in FLAGS.iter().enumerate() {
        assert_flag(&rt, position, name, *bits);
    }
}

#[test]
fn known_bits_are_those_of_the_table(rt: HostRuntime) {
    assert_same(&rt, bits_of_empty(), 0);
    assert_same(&rt, bits_of_all(), 65534);
    assert_same(&rt, bits_if_known(1), None);
    assert_same(&rt, bits_if_known(65534), Some(65534));
    assert_same(&rt, bits_if_known(512), Some(512));
    let holds_footnotes = Options::from_bits(512).map(|options| options.contains(
        Options::ENABLE_FOOTNOTES,
    ));
    assert_same(&rt, holds_footnotes, Some(false));
    assert_same(&rt, known_bits(65537), 0);
    assert_same(&rt, retained_bits(65537), 65537);
    assert!(rt; is_empty(0) && !is_empty(1));
    assert!(rt; is_all(65534) && is_all(65535) && !is_all(65532));
    assert_same(&rt, complement(6), 65528);
    assert_same(&rt, complement(1), 65534);
    assert_same(&rt, old_footnotes(), 516);
}

#[test]
fn options_are_sets_of_bits(rt: HostRuntime) {
    assert!(rt; contains(6, 4) && contains(6, 0) && !contains(4, 516));
    assert!(rt; intersects(4, 516) && !intersects(4, 512) && !intersects(4, 0));
    let tables_and_footnotes = Options::ENABLE_TABLES.union(Options::ENABLE_FOOTNOTES);
    assert_same(&rt, tables_and_footnotes.bits(), 6);
    assert_same(&rt, union(6, 12), 14);
    assert_same(&rt, insert(6, 12), 14);
    assert_same(&rt, intersection(6, 12), 4);
    assert_same(&rt, difference(516, 4), 512);
    let all_but_math = Options::all().difference(Options::ENABLE_MATH);
    assert_same(&rt, all_but_math.bits(), 64510);
    assert_same(&rt, remove(516, 4), 512);
    assert_same(&rt, symmetric_difference(6, 12), 10);
    assert_same(&rt, toggle(6, 12), 10);
    assert_same(&rt, set(6, 8, true), 14);
    assert_same(&rt, set(6, 4, false), 2);
}

#[test]
fn footnotes_are_of_github_unless_old(rt: HostRuntime) {
    assert!(rt; has_gfm_footnotes(4));
    assert!(rt; !has_gfm_footnotes(0));
    assert!(rt; !has_gfm_footnotes(512));
    assert!(rt; !has_gfm_footnotes(516));
    assert!(rt; !Options::ENABLE_OLD_FOOTNOTES.has_gfm_footnotes());
}
