//! What the program does with its arguments, its input and its output.
ghost use Rattle.std.specs.Prelude.{false};
ghost use Rattle.page_programs.specs.Answers.{texts_of};
ghost use Rattle.page_programs.specs.Extensions.{extension_options, extensions_of};
ghost use Rattle.page_programs.specs.Runs.{IsRun};
ghost use Rattle.page_programs.specs.Wholes.{PrintsWhole};
ghost use Rattle.page_inlines.specs.Printed.{IsPrinted};

use crate::help::{HELP, USAGE, VERSION};
use crate::page::lines_of_page;
use markdown_values::values::Extensions;
use page_programs::arguments::Options;
use page_programs::asked::asked_options;
use page_programs::extensions::EXTENSION_OPTIONS;
use page_programs::files::OpensFiles;
use page_programs::program::{Command, run_command};
use page_programs::streams::Streams;
use page_programs::whole::{PrintsWholePages, Whole};
use program_faults::{StepReader, StepWriter};
use std::alloc::{AllocError, Global};

/// Runs the program on its arguments, without its name, and answers its status.
///
/// 0: done. 2: an option that is not known, and nothing is read. 3: a page that can't be opened or
/// read, or is refused, or memory that is refused, after which it goes on with the next page; or
/// output that can't be written, where it stops. Each page is read whole before its lines are
/// written.
pub fn run_program<R, F, W, V>(
    alloc: Global,
    arguments: &[&str],
    streams: &mut Streams<R, F, W, V>,
) -> u8
where
    R: StepReader,
    F: OpensFiles,
    F::File: StepReader,
    W: StepWriter,
    V: StepWriter,
    ensures { IsRun (PrintsWhole false (λ _. IsPrinted (extensions_of arguments.now)) false W.contents)
        R.remaining R.reads F.opens F.holds F.File.remaining F.File.reads W.writes V.writes W.contents
        (texts_of USAGE.now HELP.now VERSION.now) extension_options false false
        arguments.now result streams.old streams.new }
{
    let says = Command {
        usage: USAGE,
        help: HELP,
        version: VERSION,
        options: Options {
            own: &[],
            extensions: EXTENSION_OPTIONS,
        },
    };
    let inlines = Whole {
        printer: Inlines {
            asked: asked_options(arguments).extensions,
        },
    };
    run_command(alloc, says, &inlines, arguments, streams)
}

// What prints the inlines of pages that are read with these extensions.
#[derive(Drop)]
struct Inlines {
    asked: Extensions,
}

impl PrintsWholePages for Inlines {
    ghost use Rattle.std.specs.Prelude.{false};
    ghost use Rattle.page_inlines.specs.Printed.{IsPrinted};

    ghost mends = { λ _. false };

    ghost checks = { λ _. false };

    ghost is_printed = { λ it _. IsPrinted it.asked };

    fn mends_pages(&self) -> bool {
        false
    }

    fn is_check(&self) -> bool {
        false
    }

    fn text_of_page(&self, alloc: Global, _name: &str, page: &str) -> Result<String, AllocError> {
        lines_of_page(alloc, page.as_bytes(), self.asked)
    }
}
