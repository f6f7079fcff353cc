//! The printed text of what the library answers.
ghost use Rattle.std.specs.Prelude.{◌≡◌, ◌++◌, IfOk, OnOk, string_bytes, codes};
ghost use Rattle.std.specs.List.{flat_map, zip};
ghost use Rattle.cmark_scan.specs.printing.Run.{run_view};
ghost use Rattle.cmark_scan.specs.printing.Printed.{run_text, answer_line, hex_byte, hex_text, stop_name, stop_line, call_name};

use markdown_scanners_tree::line::{LineAnswer, LineCall, LineRun, LineStop};
use std::alloc::{AllocError, Global};

/// The lines of a run of calls.
pub(crate) fn run_text(
    alloc: Global,
    calls: &[LineCall],
    run: &LineRun,
) -> Result<String, AllocError>
    ensures { IfOk result (λ text. string_bytes text ≡ run_text calls.now (run_view run.now)) }
{
    let mut text = String::new(alloc);
    push_answers(&mut text, calls, &run.answers)?;
    writeln!(text, "scanned {}", run.scanned)?;
    text.push_str("rest ")?;
    push_hex(&mut text, &run.rest)?;
    text.push_str("\n")?;
    push_stop(&mut text, &run.stop)?;
    Ok(text)
}

// A line for each call that has an answer.
fn push_answers(
    text: &mut String,
    calls: &[LineCall],
    answers: &[LineAnswer],
) -> Result<(), AllocError>
    ensures { OnOk result (string_bytes text.new ≡
        string_bytes text.old ++ flat_map answer_line (zip calls.now answers.now)) }
{
    for (call, answer) in calls.iter().zip(answers.iter()) {
        push_answer(text, call, answer)?;
    }
    Ok(())
}

fn push_answer(text: &mut String, call: &LineCall, answer: &LineAnswer) -> Result<(), AllocError>
    ensures { OnOk result (string_bytes text.new ≡
        string_bytes text.old ++ answer_line (call.now, answer.now)) }
{
    let name = call_name(call);
    match answer {
        LineAnswer::Flag(flag) => writeln!(text, "{name} {}", *flag),
        LineAnswer::Count(count) => writeln!(text, "{name} {}", *count),
        LineAnswer::List(Some((delimiter, start, indent))) => {
            let delimiter = char::from(*delimiter);
            writeln!(text, "{name} {delimiter} {} {}", *start, *indent)
        }
        LineAnswer::Definition(Some(indent)) => writeln!(text, "{name} {}", *indent),
        LineAnswer::List(None) | LineAnswer::Definition(None) => writeln!(text, "{name} none"),
    }
}

fn call_name(call: &LineCall) -> &'static str
    ensures { result.now ≡ call_name call.now }
{
    match call {
        LineCall::Space(_) => "space",
        LineCall::Upto(_) => "upto",
        LineCall::Eol => "eol",
        LineCall::Quote => "quote",
        LineCall::List(_) => "list",
        LineCall::Definition(_) => "def",
    }
}

fn stop_name(stop: &LineStop) -> &'static str
    ensures { result.now ≡ stop_name stop.now }
{
    match stop {
        LineStop::SpacePending => "SpacePending",
        LineStop::IndentTooLarge => "IndentTooLarge",
    }
}

fn push_stop(text: &mut String, stop: &Option<(usize, LineStop)>) -> Result<(), AllocError>
    ensures { OnOk result (string_bytes text.new ≡ string_bytes text.old ++ stop_line stop.now) }
{
    if let Some((index, stop)) = stop {
        let name = stop_name(stop);
        writeln!(text, "stop {} {name}", *index)?;
    }
    Ok(())
}

// The bytes as two hexadecimal digits each, or a hyphen where there is none.
fn push_hex(text: &mut String, bytes: &[u8]) -> Result<(), AllocError>
    ensures { OnOk result (string_bytes text.new ≡ string_bytes text.old ++ hex_text bytes.now) }
{
    if bytes.is_empty() {
        return text.push_str("-");
    }
    for byte in bytes {
        push_byte(text, *byte)?;
    }
    Ok(())
}

#[tactic(auto, using(std::proofs::lemmas::Fmt::hex_byte))]
fn push_byte(text: &mut String, byte: u8) -> Result<(), AllocError>
    ensures { OnOk result (string_bytes text.new ≡ string_bytes text.old ++ hex_byte byte) }
{
    write!(text, "{byte:02x}")
}
