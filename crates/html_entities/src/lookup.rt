//! Looking a name up: its hash leads to the one row that can have it.
ghost use Rattle.std.specs.Prelude.{◌≡◌, ◌+◌, ◌-◌, ◌<◌, ◌≤◌, ℕ, [], length, take, drop, get_or, slice_index, option_copied};
ghost use Rattle.std.specs.Str.{IsCharBoundary};
ghost use Rattle.html_entities.specs.Entities.{html_entity, html_rows, names_of, meanings_of};
ghost use Rattle.html_entities.specs.Parts.{AreParts};
ghost use Rattle.html_entities.specs.Places.{LeadToRows, hash_of, row_of};

use crate::meaning_text::{MEANING_STARTS, MEANINGS};
use crate::name_text::{NAME_STARTS, NAMES};
use crate::places::{PLACES, SEEDS};

/// The text of the entity with this name.
pub(crate) fn meaning_by_name(name: &[u8]) -> Option<&'static str>
    ensures { option_copied result ≡ html_entity name.now }
{
    let row = number_of_row(name);
    if name_at(row) == name {
        Some(meaning_at(row))
    } else {
        None
    }
}

// The number of the only row that can have the name.
fn number_of_row(name: &[u8]) -> usize
    ensures inside { result < 2125 }
    ensures leads { (k : ℕ) → k < 2125 → get_or (names_of html_rows) k [] ≡ name.now → result ≡ k }
{
    let (seeds, places) = tables();
    row_in_tables(seeds, places, name)
}

// The row to which these tables lead from the name.
fn row_in_tables(seeds: &[u16], places: &[u16], name: &[u8]) -> usize
    requires seeds { length seeds.now ≡ 1024 }
    requires places { length places.now ≡ 2125 }
    ensures { result ≡ row_of seeds.now places.now name.now }
{
    let hash = hash_of(name) as usize;
    let seed = seeds[hash % 1024] as usize;
    places[(hash / 1024 + seed) % 2125] as usize
}

// The hash of a name.
fn hash_of(name: &[u8]) -> u32
    ensures { result ≡ hash_of name.now }
{
    let mut hash: u32 = 0;
    for byte in name {
        hash = hash.wrapping_mul(31).wrapping_add(u32::from(*byte));
    }
    hash
}

// The name of a row.
fn name_at(row: usize) -> &'static [u8]
    requires { row < 2125 }
    ensures { result.now ≡ get_or (names_of html_rows) row [] }
{
    let (text, starts) = names();
    part_at(text, starts, row).as_bytes()
}

// The text that the entity of a row means.
fn meaning_at(row: usize) -> &'static str
    requires { row < 2125 }
    ensures { result.now ≡ get_or (meanings_of html_rows) row [] }
{
    let (text, starts) = meanings();
    part_at(text, starts, row)
}

// The part of the text from the start with this number to the next.
fn part_at<'a>(text: &'a str, starts: &[u16], number: usize) -> &'a str
    requires enough { number + 1 < length starts.now }
    requires in_order { slice_index starts.now number ≤ slice_index starts.now (number + 1) }
    requires starts { IsCharBoundary text.now (slice_index starts.now number) }
    requires ends { IsCharBoundary text.now (slice_index starts.now (number + 1)) }
    ensures { result.now ≡
        take (slice_index starts.now (number + 1) - slice_index starts.now number)
        (drop (slice_index starts.now number) text.now) }
{
    let start = starts[number] as usize;
    let end = starts[number + 1] as usize;
    &text[start..end]
}

// All names in one text, and where each begins.
fn names() -> (&'static str, &'static [u16])
    ensures { AreParts result.0.now result.1.now (names_of html_rows) }
{
    (NAMES, &NAME_STARTS)
}

// All meanings in one text, and where each begins.
fn meanings() -> (&'static str, &'static [u16])
    ensures { AreParts result.0.now result.1.now (meanings_of html_rows) }
{
    (MEANINGS, &MEANING_STARTS)
}

// The seeds, and the row at each place.
fn tables() -> (&'static [u16], &'static [u16])
    ensures { LeadToRows result.0.now result.1.now (names_of html_rows) }
{
    (&SEEDS, &PLACES)
}
