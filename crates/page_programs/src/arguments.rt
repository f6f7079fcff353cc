//! The arguments of the command line.
ghost use Rattle.std.specs.Prelude.{◌≡◌, ◌++◌, IfOk, OnOk};
ghost use Rattle.std.specs.Option.{option_map};
ghost use Rattle.page_programs.specs.Arguments.{after, all_options, is_named, is_option, is_known, is_this, operands, pages_of};
ghost use Rattle.page_programs.specs.Arguments.{request_of, takes_any, texts, unknown_of};

use std::alloc::{AllocError, Global};

/// What the command line asks for.
#[derive(Clone, Copy)]
pub enum Request {
    /// What is printed of each page.
    Pages,
    /// The help.
    Help,
    /// The name of the program and its version.
    Version,
}

/// The options of a program, beside those that each program has: its own, and those that ask for
/// extensions. One that ends with a space has any value after that.
#[derive(Clone, Copy)]
pub struct Options<'a> {
    pub own: &'a [&'a str],
    pub extensions: &'a [&'a str],
}

/// The first option before the word `--` that is neither one of these nor one that each program
/// has.
pub fn unknown_option<'a>(options: Options<'_>, arguments: &[&'a str]) -> Option<&'a str>
    ensures { result ≡ unknown_of (all_options options.entry) arguments.now }
{
    for word in arguments {
        if *word == "--" {
            return None;
        }
        if is_option(word) && !is_known(options, word) {
            return Some(*word);
        }
    }
    None
}

/// What the arguments ask for.
pub fn parse_request(arguments: &[&str]) -> Request
    ensures { result ≡ request_of arguments.now }
{
    for word in arguments {
        if *word == "--" {
            return Request::Pages;
        }
        if *word == "-h" || *word == "--help" {
            return Request::Help;
        }
        if *word == "--version" {
            return Request::Version;
        }
    }
    Request::Pages
}

// What stands in a word after this.
pub(crate) fn after<'a>(word: &'a str, front: &str) -> Option<&'a str>
    ensures { option_map (λ rest. rest.now) result ≡ after front.now word.now }
{
    word.strip_prefix(front)
}

/// The names of the pages: standard input, where no word names one.
pub fn name_pages<'a>(alloc: Global, arguments: &[&'a str]) -> Result<Vec<&'a str>, AllocError>
    ensures { IfOk result (λ names. texts names.items ≡ pages_of arguments.now) }
{
    let mut names = operands(alloc, arguments)?;
    if names.is_empty() {
        names.push("-")?;
    }
    Ok(names)
}

// The arguments that name pages.
fn operands<'a>(alloc: Global, arguments: &[&'a str]) -> Result<Vec<&'a str>, AllocError>
    ensures { IfOk result (λ names. names.items ≡ operands arguments.now) }
{
    let mut names = Vec::new(alloc);
    for i in 0..arguments.len() {
        if arguments[i] == "--" {
            push_words(&mut names, &arguments[i + 1..])?;
            return Ok(names);
        }
        if !is_option(arguments[i]) {
            names.push(arguments[i])?;
        }
    }
    Ok(names)
}

// Adds arguments.
fn push_words<'a>(names: &mut Vec<&'a str>, arguments: &[&'a str]) -> Result<(), AllocError>
    ensures { OnOk result (names.new.items ≡ names.old.items ++ arguments.now) }
{
    for word in arguments {
        names.push(*word)?;
    }
    Ok(())
}

// Whether a word is written as an option is: a hyphen, and more.
fn is_option(word: &str) -> bool
    ensures { result ≡ is_option word.now }
{
    let bytes = word.as_bytes();
    bytes.len() > 1 && bytes[0] == b'-'
}

// Whether it is one of these options, or one that each program has.
fn is_known(options: Options<'_>, word: &str) -> bool
    ensures { result ≡ is_known (all_options options.entry) word.now }
{
    word == "-h" || word == "--help" || word == "--version" || is_taken(options, word)
}

// Whether it is one of these options.
fn is_taken(options: Options<'_>, word: &str) -> bool
    ensures { result ≡ is_named (all_options options.entry) word.now }
{
    is_named(options.own, word) || is_named(options.extensions, word)
}

// Whether it is one of these options.
fn is_named(options: &[&str], word: &str) -> bool
    ensures { result ≡ is_named (texts options.now) word.now }
{
    for option in options {
        if is_this(option, word) {
            return true;
        }
    }
    false
}

// Whether a word is this option.
fn is_this(option: &str, word: &str) -> bool
    ensures { result ≡ is_this option.now word.now }
{
    if takes_any(option) {
        return word.as_bytes().starts_with(option.as_bytes());
    }
    word == option
}

// Whether an option has any value after it: it ends with a space.
fn takes_any(option: &str) -> bool
    ensures { result ≡ takes_any option.now }
{
    option.as_bytes().ends_with(b" ")
}
