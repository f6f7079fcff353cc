//! The words of the command line.
ghost use Rattle.std.specs.Prelude.{◌≡◌, IfOk, is_some};
ghost use Rattle.std.specs.List.{list_all, filter_map};
ghost use Rattle.std.specs.Option.{option_map};
ghost use Rattle.cmark_scan.specs.words.Words.{number_of, call_of, are_calls, calls_of, request_of};
ghost use Rattle.cmark_scan.specs.words.Command.{texts, request_view};

use markdown_scanners_tree::line::LineCall;
use std::alloc::{AllocError, Global};

/// What the command line asks for.
#[derive(Clone, Copy)]
pub(crate) enum Command<'a> {
    Line(&'a [&'a str]),
    Html,
    Unescape,
    Label,
}

/// What the words ask for. Each word for a call is parsed here, and again by `parse_calls`: other
/// words are refused before any memory is taken, so that the want of memory hides no refusal.
#[tactic(auto, using(crate::proofs::words::Texts::are_calls_texts, crate::proofs::words::Texts::calls_of_texts, crate::proofs::words::Texts::length_texts))]
pub(crate) fn parse_command<'a>(words: &'a [&'a str]) -> Option<Command<'a>>
    ensures { option_map request_view result ≡ request_of (texts words.now) }
{
    let (first, others) = words.split_first()?;
    if *first == "line" && are_calls(others) {
        Some(Command::Line(others))
    } else if *first == "html" && others.is_empty() {
        Some(Command::Html)
    } else if *first == "unescape" && others.is_empty() {
        Some(Command::Unescape)
    } else if *first == "label" && others.is_empty() {
        Some(Command::Label)
    } else {
        None
    }
}

// Whether each word asks for a call.
fn are_calls(words: &[&str]) -> bool
    ensures { result ≡ list_all (λ word. is_some (call_of word.now)) words.now }
{
    words.iter().all(|word| parse_call(word).is_some())
}

/// The calls that the words ask for.
pub(crate) fn parse_calls(alloc: Global, words: &[&str]) -> Result<Vec<LineCall>, AllocError>
    ensures { IfOk result (λ calls. calls.items ≡ filter_map (λ word. call_of word.now) words.now) }
{
    words
        .iter()
        .filter_map(|word| parse_call(word))
        .collect(alloc)
}

// A number in decimal digits.
fn parse_number(digits: &str) -> Option<usize>
    ensures { result ≡ number_of digits.now }
{
    if digits.starts_with('+') {
        return None;
    }
    digits.parse::<usize>().ok()
}

// The call that a word asks for.
fn parse_call(word: &str) -> Option<LineCall>
    ensures { result ≡ call_of word.now }
{
    if word == "eol" {
        return Some(LineCall::Eol);
    }
    if word == "quote" {
        return Some(LineCall::Quote);
    }
    let (name, digits) = word.split_once(':')?;
    let n = parse_number(digits)?;
    if name == "space" {
        Some(LineCall::Space(n))
    } else if name == "upto" {
        Some(LineCall::Upto(n))
    } else if name == "list" {
        Some(LineCall::List(n))
    } else if name == "def" {
        Some(LineCall::Definition(n))
    } else {
        None
    }
}
