//! What a command does with its arguments, its input and its output.
ghost use Rattle.std.specs.Prelude.{◌≡◌, ◌⊎◌, [], length};
ghost use Rattle.std.specs.Io.KnownBytes.{Appends};
ghost use Rattle.program_faults.specs.Faults.{AppendsPrefix};
ghost use Rattle.program_faults.specs.Steps.{AreGiven, CantWrite};
ghost use Rattle.program_faults.specs.declared.reasons.Reason.{Reason};
ghost use Rattle.page_programs.specs.Answers.{own_texts};
ghost use Rattle.page_programs.specs.Arguments.{all_options};
ghost use Rattle.page_programs.specs.Runs.{IsRun};
ghost use Rattle.page_programs.specs.Stops.{stop_parts};
ghost use Rattle.page_programs.specs.declared.stops.Stop.{Stop};

use crate::arguments::{Options, Request, parse_request, unknown_option};
use crate::came::status_of;
use crate::files::OpensFiles;
use crate::pages::DoesPages;
use crate::stops::{Stop, report_stop, report_unknown};
use crate::streams::{Outputs, Streams};
use crate::tries::try_operands;
use program_faults::{Reason, StepReader, StepWriter, write_whole};
use std::alloc::Global;

/// What a command says of itself, and its options.
#[derive(Clone, Copy)]
pub struct Command<'a> {
    /// What is written after an option that is not known: a line feed, and how the command is used.
    pub usage: &'static str,
    /// What `-h` and `--help` print.
    pub help: &'static str,
    /// What `--version` prints.
    pub version: &'static str,
    /// Its options, beside those that each command has.
    pub options: Options<'a>,
}

/// Runs a command that says this of itself, and does this with pages, on its arguments, without its name,
/// and answers its status.
///
/// 0: done. 1: something is found in pages that are checked. 2: an option that is not known, and
/// nothing is read. 3: a page that is not done, after which it goes on with the next; or output that
/// can't be written, where it stops.
pub fn run_command<T, R, F, W, V>(
    alloc: Global,
    says: Command<'_>,
    command: &T,
    arguments: &[&str],
    streams: &mut Streams<R, F, W, V>,
) -> u8
where
    T: DoesPages<F, W, V>,
    R: StepReader,
    F: OpensFiles,
    F::File: StepReader,
    W: StepWriter,
    V: StepWriter,
    ensures { IsRun (T.does command.now) R.remaining R.reads F.opens F.holds F.File.remaining
        F.File.reads W.writes V.writes W.contents
        (own_texts says.entry) (all_options says.entry.options)
        (T.checks command.now) (T.notes command.now) arguments.now result streams.old streams.new }
{
    if let Some(word) = unknown_option(says.options, arguments) {
        report_unknown(&mut streams.outputs.faults, word, says.usage);
        return 2;
    }
    match parse_request(arguments) {
        Request::Pages => status_of(try_operands(alloc, command, arguments, streams)),
        Request::Help => print_text(&mut streams.outputs, says.help),
        Request::Version => print_text(&mut streams.outputs, says.version),
    }
}

/// Prints a text that is no page's, and answers the status.
pub fn print_text<F, W: StepWriter, V: StepWriter>(outputs: &mut Outputs<F, W, V>, text: &str) -> u8
    ensures status { (result ≡ 0) ⊎ (result ≡ 3) }
    ensures written { result ≡ 0 → Appends (W.contents outputs.old.output)
        (W.contents outputs.new.output) text.now }
    ensures front { AppendsPrefix (W.contents outputs.old.output)
        (W.contents outputs.new.output) text.now }
    ensures silent { result ≡ 0 → outputs.new.faults ≡ outputs.old.faults }
    ensures refused { result ≡ 3 → (why : Reason)
        × AreGiven V.writes outputs.old.faults (stop_parts [] (Stop.Write why)) outputs.new.faults
        × CantWrite W.writes why outputs.new.output }
    ensures kept { outputs.new.files ≡ outputs.old.files }
{
    match write_whole(&mut outputs.output, text) {
        Ok(()) => 0,
        Err(reason) => {
            report_stop(&mut outputs.faults, "", Stop::Write(reason));
            3
        }
    }
}
