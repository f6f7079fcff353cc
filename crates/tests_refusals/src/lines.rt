//! Runs of calls on a line, and delimiter rows.
use crate::printing::{MadeOf, print_reading};
use crate::stop::Stop;
use markdown_scanners_tree::line::{LineCall, LineRun, run_line};
use markdown_scanners_tree::scanners::scan_table_head;
use markdown_values::values::Alignment;
use std::alloc::{AllocError, Global};
use std::io::Stdout;

const LINE: &str = "> -\t1.\t:   x\ty";

const CALLS: [LineCall; 10] = [
    LineCall::Upto(3),
    LineCall::Quote,
    LineCall::List(0),
    LineCall::Space(1),
    LineCall::Eol,
    LineCall::List(4),
    LineCall::Space(2),
    LineCall::Definition(8),
    LineCall::Eol,
    LineCall::Upto(0),
];

impl MadeOf<&[LineCall]> for LineRun {
    fn made_of(alloc: Global, value: &[LineCall]) -> Result<LineRun, AllocError> {
        run_line(alloc, LINE.as_bytes(), value)
    }
}

/// Calls of each kind, more than a few answers, and a rest that is longer than what is left of the
/// line.
pub(crate) fn run(alloc: Global, output: Stdout) -> Result<(), Stop> {
    print_reading::<&[LineCall], LineRun>(alloc, output, LINE, &CALLS)
}

const ROW: &str = "|-|:-|-:|:-:|-|:-|-:|:-:|-|:-|-:|:-:|-|:-|-:|:-:|-|:-|\n";

// The length of a delimiter row and its columns.
type Row = (usize, Vec<Alignment>);

impl MadeOf<&[u8]> for Row {
    fn made_of(alloc: Global, value: &[u8]) -> Result<Row, AllocError> {
        scan_table_head(alloc, value)
    }
}

/// A row of eighteen columns.
pub(crate) fn table_head(alloc: Global, output: Stdout) -> Result<(), Stop> {
    let row = ROW.as_bytes();
    print_reading::<&[u8], Row>(alloc, output, "18 columns", row)
}
