//! What the program does with its words, its input and its output.
ghost use Rattle.std.specs.Prelude.{◌≡◌, ◌≢◌, ◌⊎◌, IfOk, IfSome, IfErr, IsSome, IsNone};
ghost use Rattle.std.specs.Io.KnownBytes.{IsAtEnd};
ghost use Rattle.cmark_scan.specs.words.Words.{request_of};
ghost use Rattle.cmark_scan.specs.words.Command.{texts, request_view};
ghost use Rattle.cmark_scan.specs.printing.Printed.{IsOutcome, IsPrinted};
ghost use Rattle.cmark_scan.specs.program.Complaints.{usage_line, not_text_line};
ghost use Rattle.cmark_scan.specs.report.Report.{outcome_view, status_of};
ghost use Rattle.program_faults.specs.Faults.{AppendsPrefix, IsBeforeWriting, PrintsFault, fault_line};

use crate::html::html_report;
use crate::label::label_report;
use crate::line::line_report;
use crate::reading::read_all;
use crate::report::{Ended, Report};
use crate::unescaping::unescape_report;
use crate::words::{Command, parse_command};
use program_faults::{Fault, complain, report_fault};
use std::alloc::{AllocError, Global};
use std::io::{Read, Write};

const USAGE: &str = "usage: cmark_scan line CALL.. | html | label | unescape\n";

const NOT_TEXT: &str = "not UTF-8\n";

/// Runs the program on its words, without its name, and answers its status.
///
/// 0: done. 1: the run stopped before one of its calls, there is no label, or the input of
/// `unescape` or `label` isn't UTF-8. 2: other words, and the input is not read. 3: a fault of the
/// reader, of memory or of the writer. All output is built before any of it is written.
pub fn run_program<R: Read, W: Write, V: Write>(
    alloc: Global,
    words: &[&str],
    input: &mut R,
    output: &mut W,
    faults: &mut V,
) -> u8
    ensures other { IsNone (request_of (texts words.now)) →
        (result ≡ 2) × (input.new ≡ input.old) × (output.new ≡ output.old) }
    ensures status { result ≡ 2 → IsNone (request_of (texts words.now)) }

    ensures printed { result ≢ 3 → IfSome (request_of (texts words.now)) (λ request.
        IfSome (R.remaining input.old) (λ bytes.
        IsPrinted request bytes result (W.contents output.old) (W.contents output.new))) }
    ensures read { result ≢ 3 → IsSome (request_of (texts words.now)) →
        IsAtEnd (R.remaining input.new) }

    // After a read fault, or out of memory, nothing was written.
    ensures unread { PrintsFault Fault.Read (V.contents faults.old) (V.contents faults.new) →
        output.new ≡ output.old }
    ensures no_memory { PrintsFault Fault.Memory (V.contents faults.old) (V.contents faults.new) →
        output.new ≡ output.old }
    // Before a write fault all of the input was read.
    ensures unwritten { PrintsFault Fault.Write (V.contents faults.old) (V.contents faults.new) →
        IsAtEnd (R.remaining input.new) }

    // What is written to the faults, as far as they take it.
    ensures silent { result ≡ 0 → faults.new ≡ faults.old }
    ensures not_text { result ≡ 1 → (faults.new ≡ faults.old)
        ⊎ AppendsPrefix (V.contents faults.old) (V.contents faults.new) not_text_line }
    ensures usage { result ≡ 2 →
        AppendsPrefix (V.contents faults.old) (V.contents faults.new) usage_line }
    ensures fault { result ≡ 3 → (fault : Fault)
        × AppendsPrefix (V.contents faults.old) (V.contents faults.new) (fault_line fault) }
{
    let Some(command) = parse_command(words) else {
        complain(faults, USAGE);
        return 2;
    };
    let bytes = match read_all(alloc, input) {
        Ok(bytes) => bytes,
        Err(fault) => return report_fault(faults, fault),
    };
    match answer(alloc, command, &bytes, output) {
        Ok(Ended::Done) => 0,
        Ok(Ended::Stopped) => 1,
        Ok(Ended::NotText) => {
            complain(faults, NOT_TEXT);
            1
        }
        Err(fault) => report_fault(faults, fault),
    }
}

// Writes what the command prints for the input, and answers how it ends.
fn answer<W: Write>(
    alloc: Global,
    command: Command<'_>,
    bytes: &[u8],
    output: &mut W,
) -> Result<Ended, Fault>
    ensures printed { IfOk result (λ ended. IsPrinted (request_view command.entry) bytes.now
        (status_of ended) (W.contents output.old) (W.contents output.new)) }
    ensures unwritten { IfErr result (λ fault. IsBeforeWriting fault → output.new ≡ output.old) }
{
    let report = report_on(alloc, command, bytes)?;
    if output.write_all(report.text.as_str().as_bytes()).is_err() {
        return Err(Fault::Write);
    }
    Ok(report.ended)
}

// What the command comes to on the input.
fn report_on<'a>(
    alloc: Global,
    command: Command<'_>,
    bytes: &'a [u8],
) -> Result<Report<'a>, AllocError>
    ensures { IfOk result (λ report.
        IsOutcome (request_view command.entry) bytes.now (outcome_view report)) }
{
    match command {
        Command::Line(words) => line_report(alloc, words, bytes),
        Command::Html => html_report(alloc, bytes),
        Command::Unescape => unescape_report(alloc, bytes),
        Command::Label => label_report(alloc, bytes),
    }
}
