//! Cases, a line each, and whether the library answers them as they want.
ghost use Rattle.std.specs.Prelude.{◌≤◌};

use crate::arguments::Arguments;
use crate::calls::answer;
use crate::stop::{CaseError, Stop, Unreadable};
use std::alloc::Global;
use std::io::{BufRead, BufReader, Read, Write};
use std::str::from_utf8;

// How many cases have been answered as they want, and how many otherwise.
#[derive(Clone, Copy)]
struct Tally {
    agree: u64,
    differ: u64,
}

/// Reads a case a line, makes its call, and writes a line for each answer that isn't the one that
/// the case expects: the number of its line, the case, the expected answer and the answer given, with
/// tabs between them. Then `N agree, M differ`.
///
/// A case is the call's name, its arguments, `=>` and the expected answer, with tabs between them.
/// The status is 0 where no answer differs and 1 where one does; 2 at the first line that can't be
/// read as a case, and 3 after a fault of the reader, of memory or of the writer, with a line on
/// `faults` that says why.
pub fn replay_cases<R: Read, W: Write, V: Write>(
    alloc: Global,
    input: &mut R,
    output: &mut W,
    faults: &mut V,
) -> u8
    ensures { result ≤ 3 }
{
    match compare_all(alloc, input, output) {
        Ok(Tally { differ: 0, .. }) => 0,
        Ok(_) => 1,
        Err(stop) => {
            // what becomes of this line changes no status
            let _ = writeln!(faults, "{stop}");
            match stop {
                Stop::Unreadable { .. } => 2,
                _ => 3,
            }
        }
    }
}

// Compares each case, and writes those that differ and how many there are.
fn compare_all<R: Read, W: Write>(
    alloc: Global,
    input: &mut R,
    output: &mut W,
) -> Result<Tally, Stop> {
    let mut reader = BufReader::new(alloc, input).map_err(|_| Stop::Memory)?;
    let mut line = Vec::new(alloc);
    compare_lines(alloc, &mut reader, &mut line, output)
}

// The same of a reader, whose lines are read in one offset.
fn compare_lines<B: BufRead, W: Write>(
    alloc: Global,
    reader: &mut B,
    line: &mut Vec<u8>,
    output: &mut W,
) -> Result<Tally, Stop> {
    let mut tally = Tally {
        agree: 0,
        differ: 0,
    };
    for number in 1..u64::MAX {
        if !read_line(reader, line)? {
            writeln!(output, "{} agree, {} differ", tally.agree, tally.differ).map_err(
                |_| Stop::Write,
            )?;
            return Ok(tally);
        }
        if write_difference(alloc, output, number, line)? {
            tally.differ += 1;
        } else {
            tally.agree += 1;
        }
    }
    Err(Stop::Read)
}

// Writes the line that tells of a case whose answer differs, and answers whether it does.
fn write_difference<W: Write>(
    alloc: Global,
    output: &mut W,
    number: u64,
    line: &[u8],
) -> Result<bool, Stop> {
    match difference(alloc, number, line) {
        Ok(None) => Ok(false),
        Ok(Some(text)) => match output.write_all(text.as_bytes()) {
            Ok(()) => Ok(true),
            Err(_) => Err(Stop::Write),
        },
        Err(error) => Err(Stop::at_line(number, error)),
    }
}

// Reads the next line in the place of the last, and answers whether there was one.
fn read_line<B: BufRead>(reader: &mut B, line: &mut Vec<u8>) -> Result<bool, Stop> {
    line.clear();
    let count = reader.read_until(b'\n', line).map_err(Stop::of_reader)?;
    Ok(count > 0)
}

// The line that tells of a case whose answer differs.
fn difference(alloc: Global, number: u64, line: &[u8]) -> Result<Option<String>, CaseError> {
    let line = from_utf8(line.strip_suffix(b"\n").unwrap_or(line)).map_err(
        |_| Unreadable::NotUtf8,
    )?;
    let (case, wanted) = line.split_once("\t=>\t").ok_or(Unreadable::NoAnswer)?;
    let given = answer_case(alloc, case)?;
    text_of_difference(alloc, number, case, wanted, given.as_str())
}

fn text_of_difference(
    alloc: Global,
    number: u64,
    case: &str,
    wanted: &str,
    given: &str,
) -> Result<Option<String>, CaseError> {
    if given == wanted {
        return Ok(None);
    }
    Ok(Some(format!(in alloc; "{number}\t{case}\twanted {wanted}\tgiven {given}\n")?))
}

// What the library answers.
fn answer_case(alloc: Global, case: &str) -> Result<String, CaseError> {
    let (name, rest) = match case.split_once('\t') {
        Some((name, rest)) => (name, Some(rest)),
        None => (case, None),
    };
    let mut arguments = Arguments::new(rest);
    let given = answer(alloc, name, &mut arguments)?;
    arguments.end()?;
    Ok(given)
}
