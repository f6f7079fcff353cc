//! The arguments of the command line, some of which take the word after them.
ghost use Rattle.std.specs.Prelude.{◌≡◌, ◌<◌, ◌≤◌, ◌++◌, [], ◌∷◌, IfOk, OnOk, codes, drop, length, map, string_bytes};
ghost use Rattle.page_programs.specs.Values.{joined, respelled, spelled, takes_value, with_value};

use crate::arguments::after;
use std::alloc::{AllocError, Global};

/// The arguments, where up to `--` each option that takes a value, `-e`, `--to` or `--root`, is one word
/// with it and a space between: of `-e` and `tables`, and of `-etables`, becomes `-e tables`. This is
/// what `run_program` takes.
///
/// # Errors
///
/// `AllocError` where memory is refused.
pub fn join_values(alloc: Global, arguments: &[String]) -> Result<Vec<String>, AllocError>
    ensures { IfOk result (λ made.
        map string_bytes made.items ≡ joined (map string_bytes arguments.now)) }
{
    let mut made = Vec::new(alloc);
    let mut at = 0;
    while at < arguments.len() {
        at += push_next(alloc, &mut made, &arguments[at..])?;
    }
    Ok(made)
}

// Adds the next of these arguments, with its value if it takes one; from `--` on, all of them. Answers
// how many they were.
fn push_next(
    alloc: Global,
    made: &mut Vec<String>,
    arguments: &[String],
) -> Result<usize, AllocError>
    requires { 0 < length arguments.now }
    ensures taken { IfOk result (λ taken. (0 < taken) × (taken ≤ length arguments.now)) }
    ensures made { IfOk result (λ taken.
        map string_bytes made.new.items ++ joined (map string_bytes (drop taken arguments.now))
        ≡ map string_bytes made.old.items ++ joined (map string_bytes arguments.now)) }
{
    let word = arguments[0].as_str();
    if word == "--" {
        push_all(made, arguments)?;
        return Ok(arguments.len());
    }
    if arguments.len() > 1 && takes_value(word) {
        made.push(with_value(alloc, word, arguments[1].as_str())?)?;
        return Ok(2);
    }
    push_word(alloc, made, word)?;
    Ok(1)
}

// Adds a word; where an option has its value in it, with a space between them.
fn push_word(alloc: Global, made: &mut Vec<String>, word: &str) -> Result<(), AllocError>
    ensures { OnOk result (map string_bytes made.new.items
        ≡ map string_bytes made.old.items ++ respelled word.now ∷ []) }
{
    made.push(respelled(alloc, word)?)?;
    Ok(())
}

// Adds all of these arguments.
fn push_all(made: &mut Vec<String>, arguments: &[String]) -> Result<(), AllocError>
    ensures { OnOk result (map string_bytes made.new.items
        ≡ map string_bytes made.old.items ++ map string_bytes arguments.now) }
{
    for word in arguments {
        made.push(word.clone()?)?;
    }
    Ok(())
}

// An option and its value in one word.
fn with_value(alloc: Global, option: &str, value: &str) -> Result<String, AllocError>
    ensures { IfOk result (λ word. string_bytes word ≡ with_value option.now value.now) }
{
    let mut word = String::new(alloc);
    word.push_str(option)?;
    word.push_str(" ")?;
    word.push_str(value)?;
    Ok(word)
}

// The word; where an option has any value in it, or one of its values, with a space between them.
fn respelled(alloc: Global, word: &str) -> Result<String, AllocError>
    ensures { IfOk result (λ made. string_bytes made ≡ respelled word.now) }
{
    if let Some(value) = after(word, "--root=") {
        return with_value(alloc, "--root", value);
    }
    String::from_str(alloc, spelled(word))
}

// The word; where an option has one of its values in it, with a space between them.
fn spelled(word: &str) -> &str
    ensures { result.now ≡ spelled word.now }
{
    match word {
        "--to=html" => "--to html",
        "--to=events" => "--to events",
        "--to=json" => "--to json",
        // packages/extensions
        "-etables" => "-e tables",
        "-efootnotes" => "-e footnotes",
        "-estrikethrough" => "-e strikethrough",
        "-etasks" => "-e tasks",
        "-edefinition-lists" => "-e definition-lists",
        "-ewikilinks" => "-e wikilinks",
        // end
        _ => word,
    }
}

// Whether an option takes the word after it.
fn takes_value(word: &str) -> bool
    ensures { result ≡ takes_value word.now }
{
    word == "-e" || word == "--to" || word == "--root"
}
