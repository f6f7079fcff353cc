//! The start of a line.
use crate::printing::{print, print_ready, print_three, print_two};
use crate::stop::Stop;
use markdown_scanners_tree::line::{KnownBreaks, LineCall, LineStart};
use std::io::Stdout;

pub(crate) fn run(output: Stdout) -> Result<(), Stop> {
    print_ready(output)?;
    spaces(output)?;
    markers(output)?;
    definitions(output)?;
    tags(output)?;
    rests(output)?;
    resumed(output)?;
    called(output)
}

fn place(start: &LineStart<'_>) -> (usize, usize) {
    (start.bytes_scanned(), start.remaining_space())
}

fn spaces(output: Stdout) -> Result<(), Stop> {
    let mut start = LineStart::new(b"\t \tx");
    let spaces = (start.scan_space(3), start.is_at_eol());
    print_three(output, spaces, place(&start), start.scan_space_upto(2))?;
    if let Ok(copy) = start.clone() {
        print(output, place(&copy))?;
    }
    start.scan_all_space();
    print(output, place(&start))
}

fn markers(output: Stdout) -> Result<(), Stop> {
    let mut start = LineStart::new(b">\t\t- x");
    let quote = start.scan_blockquote_marker();
    print_two(output, quote, start.scan_space_upto(9))?;
    let item = start.scan_list_marker_with_indent(1);
    print_two(output, item, place(&start))
}

fn definitions(output: Stdout) -> Result<(), Stop> {
    let mut start = LineStart::new(b":\tx");
    let indent = start.scan_definition_list_definition_marker_with_indent(0);
    print_two(output, indent, place(&start))
}

fn tags(output: Stdout) -> Result<(), Stop> {
    let mut start = LineStart::new(b"\t[x] a");
    let task = start.scan_task_list_marker();
    print_two(output, task, place(&start))?;
    let mut start = LineStart::new(b"[!Note]  \nx");
    let tag = start.scan_blockquote_tag();
    print_two(output, tag, place(&start))
}

// What is left after the quote's marker, for which a buffer is too short, and another has room.
fn rests(output: Stdout) -> Result<(), Stop> {
    let mut start = LineStart::new(b">\tx");
    start.scan_blockquote_marker();
    let mut buffer = [b'#'; 4];
    let refused = start.write_rest(&mut buffer[..2]);
    print_three(output, start.rest_len(), refused, buffer)?;
    let written = start.write_rest(&mut buffer);
    print_two(output, written, buffer)
}

// After the quote's marker in `>\t- x`.
fn resumed(output: Stdout) -> Result<(), Stop> {
    let mut breaks = KnownBreaks::new();
    print(output, breaks.begins_break(b">\t- x", 2))?;
    let Some(mut start) = LineStart::resumed(b">\t- x", 2, 2, 0) else {
        return Ok(());
    };
    let space = (start.phase(), start.scan_space_upto(9));
    let item = start.scan_list_marker_with_breaks(1, &mut breaks);
    print_three(output, space, item, place(&start))
}

// Calls of a run, of which the second is refused.
fn called(output: Stdout) -> Result<(), Stop> {
    let mut breaks = KnownBreaks::new();
    let mut start = LineStart::new(b">\t- x");
    let calls = [
        LineCall::Quote,
        LineCall::Eol,
        LineCall::Upto(9),
        LineCall::List(1),
    ];
    for call in &calls {
        print(output, start.call_with_breaks(call, &mut breaks))?;
    }
    print(output, place(&start))
}
