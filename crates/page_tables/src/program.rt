//! What the program does with its arguments, its input, its files and its output.
ghost use Rattle.std.specs.Prelude.{true};
ghost use Rattle.page_programs.specs.Answers.{texts_of};
ghost use Rattle.page_programs.specs.Asked.{flags_of};
ghost use Rattle.page_programs.specs.Runs.{IsRun};
ghost use Rattle.page_tables.specs.Arguments.{is_check, own_options, task_of};
ghost use Rattle.page_tables.specs.Runs.{IsHandled};

use crate::arguments::task_of;
use crate::files::ReplacesFiles;
use crate::handling::Tables;
use crate::help::{HELP, USAGE, VERSION};
use page_programs::arguments::Options;
use page_programs::asked::asked_options;
use page_programs::program::{Command, run_command};
use page_programs::streams::Streams;
use program_faults::{StepReader, StepWriter};
use std::alloc::Global;

/// Runs the program on its arguments, without its name, and answers its status.
///
/// 0: done. 1: `--check`, and a table is not laid out. 2: an option that is not known, and nothing is
/// read. 3: a page that can't be opened or read, memory that is refused, a file that is not replaced,
/// after which it goes on; or output that can't be written, where it stops. Each page is read whole
/// before anything is done with it.
pub fn run_program<R, F, W, V>(
    alloc: Global,
    arguments: &[&str],
    streams: &mut Streams<R, F, W, V>,
) -> u8
where
    R: StepReader,
    F: ReplacesFiles,
    F::File: StepReader,
    F::NewFile: StepWriter,
    W: StepWriter,
    V: StepWriter,
    ensures { IsRun (IsHandled W.contents V.writes F.refuses F.File.reads F.NewFile.writes F.holds
        F.is_beside (task_of (flags_of arguments.now)))
        R.remaining R.reads F.opens F.holds F.File.remaining F.File.reads W.writes V.writes W.contents
        (texts_of USAGE.now HELP.now VERSION.now) own_options
        (is_check (task_of (flags_of arguments.now))) true arguments.now result streams.old streams.new }
{
    let says = Command {
        usage: USAGE,
        help: HELP,
        version: VERSION,
        options: Options {
            own: &["--check", "--write"],
            extensions: &["--gfm"],
        },
    };
    let tables = Tables {
        task: task_of(asked_options(arguments).flags),
    };
    run_command(alloc, says, &tables, arguments, streams)
}
