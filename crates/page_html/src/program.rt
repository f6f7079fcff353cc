//! What the program does with its arguments, its input and its output.
ghost use Rattle.std.specs.Prelude.{◌≡◌, true, false};
ghost use Rattle.page_programs.specs.Answers.{texts_of};
ghost use Rattle.page_programs.specs.Arguments.{request_of};
ghost use Rattle.page_programs.specs.Runs.{IsRun};
ghost use Rattle.page_programs.specs.Wholes.{PrintsWhole};
ghost use Rattle.page_programs.specs.declared.arguments.Request.TheVariants.{Pages};
ghost use Rattle.page_html.specs.Asked.{asked_of, own_options};
ghost use Rattle.page_html.specs.declared.asked.Form.TheVariants.{Html};
ghost use Rattle.page_html.specs.Printed.{IsPrinted, PrintsSafely, mends};

use crate::asked::{Asked, asked_of, is_html};
use crate::help::{HELP, USAGE, VERSION};
use crate::page::output_of_page;
use page_programs::arguments::Options;
use page_programs::extensions::EVENT_OPTIONS;
use page_programs::files::OpensFiles;
use page_programs::program::{Command, run_command};
use page_programs::streams::Streams;
use page_programs::whole::{PrintsWholePages, Whole};
use program_faults::{StepReader, StepWriter};
use std::alloc::{AllocError, Global};

/// Runs the program on its arguments, without its name and as `join_values` gives them, and answers its
/// status.
///
/// 0: done. 2: an option that is not known, and nothing is read. 3: a page that can't be opened or
/// read, or is refused, or memory that is refused, after which it goes on with the next page; or
/// output that can't be written, where it stops. Each page is read whole before anything of it is
/// written.
pub fn run_program<R, F, W, V>(
    alloc: Global,
    arguments: &[&str],
    streams: &mut Streams<R, F, W, V>,
) -> u8
where
    R: StepReader,
    F: OpensFiles,
    F::File: StepReader,
    W: StepWriter,
    V: StepWriter,
    ensures run { IsRun (PrintsWhole (mends (asked_of arguments.now))
        (λ _. IsPrinted (asked_of arguments.now)) false W.contents)
        R.remaining R.reads F.opens F.holds F.File.remaining F.File.reads W.writes V.writes W.contents
        (texts_of USAGE.now HELP.now VERSION.now) own_options false false
        arguments.now result streams.old streams.new }

    // Nothing but safe HTML is written, at any status, unless other HTML is asked for.
    ensures safe { request_of arguments.now ≡ Pages → (asked_of arguments.now).form ≡ Html →
        (asked_of arguments.now).safe ≡ true →
        PrintsSafely (W.contents streams.old.outputs.output)
        (W.contents streams.new.outputs.output) }
{
    let says = Command {
        usage: USAGE,
        help: HELP,
        version: VERSION,
        options: Options {
            own: &[
                "--unsafe",
                "--strict",
                "--to html",
                "--to events",
                "--to json",
            ],
            extensions: EVENT_OPTIONS,
        },
    };
    let pages = Whole {
        printer: Printer {
            asked: asked_of(arguments),
        },
    };
    run_command(alloc, says, &pages, arguments, streams)
}

// What prints pages as it is asked for.
#[derive(Drop)]
struct Printer {
    asked: Asked,
}

impl PrintsWholePages for Printer {
    ghost use Rattle.std.specs.Prelude.{false};
    ghost use Rattle.page_html.specs.Printed.{IsPrinted, mends};

    ghost mends = { λ it. mends it.asked };

    ghost checks = { λ _. false };

    ghost is_printed = { λ it _. IsPrinted it.asked };

    fn mends_pages(&self) -> bool {
        is_html(self.asked.form) && !self.asked.strict
    }

    fn is_check(&self) -> bool {
        false
    }

    fn text_of_page(&self, alloc: Global, _name: &str, page: &str) -> Result<String, AllocError> {
        output_of_page(alloc, page, self.asked)
    }
}
