//! Link labels.
ghost use Rattle.std.specs.Prelude.{◌≡◌, Some};

use crate::loops::{bit, each_offset, each_stretch, two};
use markdown_scanners_tree::linklabel::{LinkLabel, scan_link_label_rest};
use markdown_values::strings::CowStr;
use std::alloc::{AllocError, Global};
use std::hash::{DefaultHasher, Hash, Hasher};

fn label_answer(alloc: Global, text: &str, offset: usize, is_in_table: bool) -> u64 {
    if !text.is_char_boundary(offset) {
        return 0;
    }
    let handler = |_rest: &[u8]| -> Option<usize>
        ensures { result ≡ Some 0 }
    { Some(0) };
    match scan_link_label_rest(alloc, &text[offset..], &handler, is_in_table) {
        Ok(Some((n, label))) => two(n, label.as_str().len() as u64)
            .wrapping_mul(2)
            .wrapping_add(bit(matches!(&label, CowStr::Borrowed(_)))),
        _ => 0,
    }
}

#[unsafe(no_mangle)]
pub extern "C" fn ours_label(alloc: Global, text: &[u8], at: &[usize], rounds: usize) -> u64 {
    let call = |text: &str, offset: usize| -> u64 { label_answer(alloc, text, offset, false) };
    each_offset(text, at, rounds, &call)
}

#[unsafe(no_mangle)]
pub extern "C" fn ours_label_table(alloc: Global, text: &[u8], at: &[usize], rounds: usize) -> u64 {
    let call = |text: &str, offset: usize| -> u64 { label_answer(alloc, text, offset, true) };
    each_offset(text, at, rounds, &call)
}

// Not inlined, so that the whole label is made.
#[inline(never)]
fn len_of(label: &LinkLabel) -> u64 {
    label.as_str().len() as u64
}

fn len_of_new(alloc: Global, text: &str) -> u64 {
    match LinkLabel::new(alloc, CowStr::from(text)) {
        Ok(label) => len_of(&label),
        Err(_) => 0,
    }
}

fn hash_of(label: &LinkLabel) -> u64 {
    let mut state = DefaultHasher::new();
    label.hash(&mut state);
    state.finish()
}

// A label for each stretch of the text between two of the offsets.
fn built<'a>(alloc: Global, text: &'a str, at: &[usize]) -> Result<Vec<LinkLabel<'a>>, AllocError> {
    let mut labels = Vec::new(alloc);
    let mut from = 0;
    for offset in at {
        let to = *offset;
        if from <= to && text.is_char_boundary(from) && text.is_char_boundary(to) {
            labels.push(LinkLabel::new(alloc, CowStr::from(&text[from..to]))?)?;
        }
        from = to;
    }
    Ok(labels)
}

#[unsafe(no_mangle)]
pub extern "C" fn ours_label_new(alloc: Global, text: &[u8], at: &[usize], rounds: usize) -> u64 {
    let call = |text: &str| -> u64 { len_of_new(alloc, text) };
    each_stretch(text, at, rounds, &call)
}

#[unsafe(no_mangle)]
pub extern "C" fn ours_label_hash(alloc: Global, text: &[u8], at: &[usize], rounds: usize) -> u64 {
    let Ok(text) = str::from_utf8(text) else {
        return 0;
    };
    let Ok(labels) = built(alloc, text, at) else {
        return 0;
    };
    let mut sum: u64 = 0;
    for _ in 0..rounds {
        for label in &labels {
            sum = sum.wrapping_add(hash_of(label));
        }
    }
    sum
}

// Each label with itself, made again.
#[unsafe(no_mangle)]
pub extern "C" fn ours_label_eq(alloc: Global, text: &[u8], at: &[usize], rounds: usize) -> u64 {
    let Ok(text) = str::from_utf8(text) else {
        return 0;
    };
    let Ok(labels) = built(alloc, text, at) else {
        return 0;
    };
    let Ok(again) = built(alloc, text, at) else {
        return 0;
    };
    let mut sum: u64 = 0;
    for _ in 0..rounds {
        for (one, other) in labels.iter().zip(again.iter()) {
            if *one == *other {
                sum = sum.wrapping_add(1);
            }
        }
    }
    sum
}
