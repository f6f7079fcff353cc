//! Texts.
use crate::printing::{
    MadeOf, print, print_made, print_made_two, print_ready, print_ready_consuming,
};
use crate::stop::Stop;
use crate::texts::{OF_30, Text, boxed, owned};
use markdown_values::strings::{CowStr, InlineStr};
use std::alloc::{AllocError, Global};
use std::hash::{BuildHasher, BuildHasherDefault, FoldHasher, Hash};
use std::io::{Stdout, Write};

const OF_15: &str = "0123456789abcde";

const OF_22: &str = "0123456789abcdefghijkl";

const OF_23: &str = "0123456789abcdefghijklm";

/// Texts that lie in the value itself, and copies of these and of borrowed ones.
pub(crate) fn run(alloc: Global, output: Stdout) -> Result<(), Stop> {
    print_ready(output)?;
    print_inlined(output, OF_22)?;
    print_inlined(output, OF_23)?;
    print_letter(output)?;
    print_copied(alloc, output, CowStr::from(OF_30))?;
    print_copied(alloc, output, CowStr::from('藏'))?;
    print_made_two(
        output,
        Text::made_of(alloc, CowStr::from('a')),
        Text::made_of(alloc, CowStr::from(OF_22)),
    )
}

fn print_copied(alloc: Global, output: Stdout, text: CowStr<'static>) -> Result<(), Stop> {
    print_made(output, copied(alloc, &text))
}

/// A copy of an owned text that fits in the value itself.
pub(crate) fn copied_short(alloc: Global, output: Stdout) -> Result<(), Stop> {
    let text = boxed(alloc, OF_22)?;
    print_ready(output)?;
    print_copied(alloc, output, text)
}

/// An owned text, which borrows nothing.
pub(crate) fn static_owned(alloc: Global, output: Stdout) -> Result<(), Stop> {
    print_ready_consuming::<CowStr<'static>, Text<'static>>(alloc, output, owned(alloc))
}

/// An owned text hands its memory on.
pub(crate) fn owned_string(alloc: Global, output: Stdout) -> Result<(), Stop> {
    let text = boxed(alloc, OF_15);
    print_ready_consuming::<CowStr<'static>, String>(alloc, output, text)
}

fn print_inlined(output: Stdout, text: &str) -> Result<(), Stop> {
    match InlineStr::try_from(text) {
        Ok(text) => print(output, (text.as_str(), text.copy() == text)),
        Err(_) => print(output, "too long"),
    }
}

fn print_letter(mut output: Stdout) -> Result<(), Stop> {
    let letter = InlineStr::from('🍔');
    let is_same_hash = hash_of(&letter) == hash_of(&letter.as_str());
    writeln!(output, "{letter} {is_same_hash}")?;
    Ok(())
}

/// The hash of a value.
pub(crate) fn hash_of<T: Hash>(value: &T) -> u64 {
    let hasher: BuildHasherDefault<FoldHasher> = BuildHasherDefault::default();
    hasher.hash_one(value)
}

// A copy, whether it is equal, and whether it has the same hash.
fn copied<'a>(alloc: Global, text: &CowStr<'a>) -> Result<(Text<'a>, bool, bool), AllocError> {
    match text.clone(alloc) {
        Ok(copy) => Ok(compared(copy, text)),
        Err(error) => Err(error),
    }
}

fn compared<'a>(copy: CowStr<'a>, text: &CowStr<'_>) -> (Text<'a>, bool, bool) {
    let is_same = copy == *text;
    let is_same_hash = hash_of(&copy) == hash_of(text);
    (Text(copy), is_same, is_same_hash)
}
