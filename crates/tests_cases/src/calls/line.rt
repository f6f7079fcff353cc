//! Runs of calls on the start of a line.
use crate::arguments::{Arguments, parse_number};
use crate::printing::{NONE, OrNone};
use crate::stop::{CaseError, Unreadable};
use markdown_scanners_tree::line::{LARGEST_INDENT, LineStart};
use markdown_values::values::BlockQuoteKind;
use std::alloc::Global;
use std::fmt;

// Over how many bytes a rest is written at most.
const MOST_BYTES: usize = 64;

/// A call's answer, the bytes scanned and the space that remains, for each call of the list.
pub(crate) fn run(alloc: Global, arguments: &mut Arguments<'_>) -> Result<String, CaseError> {
    let bytes = arguments.bytes(alloc)?;
    let calls = arguments.word()?;
    let mut text = String::new(alloc);
    push_steps(&mut text, &bytes, calls)?;
    Ok(text)
}

fn push_steps(text: &mut String, bytes: &[u8], calls: &str) -> Result<(), CaseError> {
    let mut start = LineStart::new(bytes);
    for call in calls.split(',') {
        if !text.is_empty() {
            text.push(' ')?;
        }
        push_step(text, &mut start, call)?;
    }
    Ok(())
}

// Makes a call, and writes its answer and the offset after it.
fn push_step(text: &mut String, start: &mut LineStart<'_>, call: &str) -> Result<(), CaseError> {
    match call.split_once(':') {
        Some((name, digits)) => push_counted(text, start, name, parse_number(digits)?)?,
        None => push_plain(text, start, call)?,
    }
    let offset = start.bytes_scanned();
    let pending = start.remaining_space();
    write!(text, " @{offset}+{pending}")?;
    Ok(())
}

fn push_shown<T: fmt::Display>(text: &mut String, answer: &T) -> Result<(), CaseError> {
    write!(text, "{answer}")?;
    Ok(())
}

// The calls that take a number.
fn push_counted(
    text: &mut String,
    start: &mut LineStart<'_>,
    name: &str,
    n: usize,
) -> Result<(), CaseError> {
    if name == "space" {
        return push_shown(text, &start.scan_space(n));
    }
    if name == "upto" {
        return push_shown(text, &start.scan_space_upto(n));
    }
    if name == "rest" {
        return push_rest(text, start, n);
    }
    push_marker(text, start, name, n)
}

// What is left of the line, written over so many `#`: whether there was room for it, how many bytes
// it has, and what stands there then.
fn push_rest(text: &mut String, start: &LineStart<'_>, count: usize) -> Result<(), CaseError> {
    if count > MOST_BYTES {
        return Err(CaseError::Unreadable(Unreadable::TooLarge));
    }
    let mut bytes = [b'#'; MOST_BYTES];
    let buffer = &mut bytes[..count];
    match start.write_rest(buffer) {
        Ok(length) => write!(text, "ok/{length}/")?,
        Err(length) => write!(text, "err/{length}/")?,
    }
    for byte in buffer {
        write!(text, "{byte:02x}")?;
    }
    Ok(())
}

// The marker of a list item or of a definition, which is indented by so many columns.
fn push_marker(
    text: &mut String,
    start: &mut LineStart<'_>,
    name: &str,
    n: usize,
) -> Result<(), CaseError> {
    let is_list = name == "list";
    if !is_list && name != "def" {
        return Err(CaseError::Unreadable(Unreadable::UnknownLineCall));
    }
    if n > LARGEST_INDENT {
        return Err(CaseError::Unreadable(Unreadable::TooLarge));
    }
    if is_list {
        push_list_item(text, start.scan_list_marker_with_indent(n))
    } else {
        let indent = start.scan_definition_list_definition_marker_with_indent(n);
        push_shown(text, &OrNone(indent))
    }
}

fn push_list_item(text: &mut String, found: Option<(u8, u64, usize)>) -> Result<(), CaseError> {
    match found {
        Some((delimiter, first, indent)) => write!(text, "{delimiter}/{first}/{indent}")?,
        None => text.push_str(NONE)?,
    }
    Ok(())
}

// The calls that take none.
fn push_plain(text: &mut String, start: &mut LineStart<'_>, name: &str) -> Result<(), CaseError> {
    if name == "all" {
        start.scan_all_space();
        return push_shown(text, &'-');
    }
    if name == "eol" {
        return push_shown(text, &start.is_at_eol());
    }
    if name == "quote" {
        return push_shown(text, &start.scan_blockquote_marker());
    }
    if name == "restlen" {
        return push_shown(text, &start.rest_len());
    }
    push_tag(text, start, name)
}

// The tags of a task and of a block quote.
fn push_tag(text: &mut String, start: &mut LineStart<'_>, name: &str) -> Result<(), CaseError> {
    if name == "task" {
        return push_shown(text, &OrNone(start.scan_task_list_marker()));
    }
    if name == "tag" {
        return push_kind(text, start.scan_blockquote_tag());
    }
    Err(CaseError::Unreadable(Unreadable::UnknownLineCall))
}

fn push_kind(text: &mut String, found: Option<BlockQuoteKind>) -> Result<(), CaseError> {
    match found {
        Some(kind) => write!(text, "{kind:?}")?,
        None => text.push_str(NONE)?,
    }
    Ok(())
}
