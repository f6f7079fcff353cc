//! The inlines of whole texts.

use crate::loops::{each_stretch, two};
use markdown_inlines::inlines::{Inline, InlineFinder, find_inlines};
use markdown_inlines::links::Labels;
use markdown_values::values::Extensions;
use std::alloc::{AllocError, Global};

// No label is defined.
struct NoLabels;

impl Labels for NoLabels {
    ghost use Rattle.std.specs.Prelude.{false};

    ghost known = { λ _ _. false };

    fn is_defined(&self, _label: &str) -> Result<bool, AllocError> {
        Ok(false)
    }
}

// Every label is defined.
struct AllLabels;

impl Labels for AllLabels {
    ghost use Rattle.std.specs.Prelude.{true};

    ghost known = { λ _ _. true };

    fn is_defined(&self, _label: &str) -> Result<bool, AllocError> {
        Ok(true)
    }
}

// What is counted of the inlines of a text.
fn counted(inlines: &[Inline]) -> u64 {
    let is_leaf = |inline: &&Inline| -> bool { matches!(inline, Inline::Leaf(_)) };
    let leaves = inlines.iter().filter(is_leaf).count();
    two(inlines.len(), leaves as u64)
}

// The sum of what a finder finds in each stretch of a text between two of the offsets; 0 for bytes
// that are no UTF-8.
fn found<L: Labels>(alloc: Global, text: &[u8], at: &[usize], rounds: usize, labels: &L) -> u64 {
    let Ok(text) = str::from_utf8(text) else {
        return 0;
    };
    let mut finder = InlineFinder::new(alloc);
    let mut sum: u64 = 0;
    for _ in 0..rounds {
        let mut from = 0;
        for offset in at {
            let to = *offset;
            if from <= to && text.is_char_boundary(from) && text.is_char_boundary(to) {
                sum = sum.wrapping_add(next(alloc, &mut finder, &text[from..to], labels));
            }
            from = to;
        }
    }
    sum
}

// What is counted of the next text.
fn next<L: Labels>(alloc: Global, finder: &mut InlineFinder, text: &str, labels: &L) -> u64 {
    match finder.find(alloc, text, labels, Extensions::none()) {
        Ok(()) => counted(finder.inlines()),
        Err(_) => 0,
    }
}

#[unsafe(no_mangle)]
pub extern "C" fn ours_inlines(alloc: Global, text: &[u8], at: &[usize], rounds: usize) -> u64 {
    found(alloc, text, at, rounds, &NoLabels)
}

// Where every label is defined.
#[unsafe(no_mangle)]
pub extern "C" fn ours_inlines_defined(
    alloc: Global,
    text: &[u8],
    at: &[usize],
    rounds: usize,
) -> u64 {
    found(alloc, text, at, rounds, &AllLabels)
}

// Each text alone, with memory of its own.
#[unsafe(no_mangle)]
pub extern "C" fn ours_inlines_once(
    alloc: Global,
    text: &[u8],
    at: &[usize],
    rounds: usize,
) -> u64 {
    let call = |text: &str| -> u64 {
        match find_inlines(alloc, text, &NoLabels, Extensions::none()) {
            Ok(found) => counted(&found.inlines),
            Err(_) => 0,
        }
    };
    each_stretch(text, at, rounds, &call)
}
