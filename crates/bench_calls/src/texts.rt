//! Texts.
ghost use Rattle.std.specs.Prelude.{◌≡◌};

use crate::loops::two;
use markdown_values::strings::{CowStr, InlineStr};
use std::alloc::{AllocError, Global};

fn size(text: &CowStr) -> u64 {
    let kind = match text {
        CowStr::Boxed(_) => 1,
        CowStr::Borrowed(_) => 2,
        CowStr::Inlined(_) => 3,
    };
    two(text.as_str().len(), kind)
}

// Lent, in the value itself where it fits, or owned.
fn made<'a>(alloc: Global, text: &'a str, kind: usize) -> Result<CowStr<'a>, AllocError> {
    if kind == 0 {
        return Ok(CowStr::from(text));
    }
    if kind == 1 {
        if let Ok(text) = InlineStr::try_from(text) {
            return Ok(CowStr::Inlined(text));
        }
    }
    CowStr::from_string(alloc, String::from_str(alloc, text)?)
}

// A text for each stretch between two of the offsets.
fn built<'a>(
    alloc: Global,
    text: &'a str,
    at: &[usize],
    kind: usize,
) -> Result<Vec<CowStr<'a>>, AllocError> {
    let mut texts = Vec::new(alloc);
    let mut from = 0;
    for offset in at {
        let to = *offset;
        if from <= to && text.is_char_boundary(from) && text.is_char_boundary(to) {
            texts.push(made(alloc, &text[from..to], kind)?)?;
        }
        from = to;
    }
    Ok(texts)
}

fn copied(alloc: Global, texts: &[CowStr]) -> Result<u64, AllocError> {
    let mut copies = Vec::with_capacity(alloc, texts.len())?;
    for text in texts {
        copies.push(text.clone(alloc)?)?;
    }
    let mut sum: u64 = 0;
    for copy in &copies {
        sum = sum.wrapping_add(size(copy));
    }
    Ok(sum)
}

// All texts are cloned, `rounds` times.
fn cloned(alloc: Global, text: &[u8], at: &[usize], rounds: usize, kind: usize) -> u64 {
    let Ok(text) = str::from_utf8(text) else {
        return 0;
    };
    let Ok(texts) = built(alloc, text, at, kind) else {
        return 0;
    };
    let mut sum: u64 = 0;
    for _ in 0..rounds {
        if let Ok(n) = copied(alloc, &texts) {
            sum = sum.wrapping_add(n);
        }
    }
    sum
}

#[unsafe(no_mangle)]
pub extern "C" fn ours_clone_lent(alloc: Global, text: &[u8], at: &[usize], rounds: usize) -> u64 {
    cloned(alloc, text, at, rounds, 0)
}

#[unsafe(no_mangle)]
pub extern "C" fn ours_clone_inlined(
    alloc: Global,
    text: &[u8],
    at: &[usize],
    rounds: usize,
) -> u64 {
    cloned(alloc, text, at, rounds, 1)
}

#[unsafe(no_mangle)]
pub extern "C" fn ours_clone_boxed(alloc: Global, text: &[u8], at: &[usize], rounds: usize) -> u64 {
    cloned(alloc, text, at, rounds, 2)
}

// Each stretch of the text between two of the offsets, with nothing lent.
fn kept(alloc: Global, text: &str, at: &[usize]) -> Result<u64, AllocError> {
    let mut texts = Vec::with_capacity(alloc, at.len())?;
    let mut from = 0;
    for offset in at {
        let to = *offset;
        if from <= to && text.is_char_boundary(from) && text.is_char_boundary(to) {
            texts.push(CowStr::from(&text[from..to]).into_static(alloc)?)?;
        }
        from = to;
    }
    let mut sum: u64 = 0;
    for text in &texts {
        sum = sum.wrapping_add(size(text));
    }
    Ok(sum)
}

#[unsafe(no_mangle)]
pub extern "C" fn ours_static_lent(alloc: Global, text: &[u8], at: &[usize], rounds: usize) -> u64 {
    let Ok(text) = str::from_utf8(text) else {
        return 0;
    };
    let mut sum: u64 = 0;
    for _ in 0..rounds {
        if let Ok(n) = kept(alloc, text, at) {
            sum = sum.wrapping_add(n);
        }
    }
    sum
}
