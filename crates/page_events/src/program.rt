//! What the program does with its arguments, its input and its output.
ghost use Rattle.std.specs.Prelude.{false};
ghost use Rattle.page_programs.specs.Answers.{texts_of};
ghost use Rattle.page_programs.specs.Extensions.{event_options, extensions_of};
ghost use Rattle.page_programs.specs.Runs.{IsRun};
ghost use Rattle.page_programs.specs.Wholes.{PrintsWhole};
ghost use Rattle.page_events.specs.Texts.{help_of, usage_of};
ghost use Rattle.page_events.specs.Printed.{AreEventLines};

use crate::help::{VERSION, help_of, usage_of};
use crate::page::{EventForm, lines_of_page};
use markdown_values::values::Extensions;
use page_programs::arguments::Options;
use page_programs::asked::asked_options;
use page_programs::extensions::EVENT_OPTIONS;
use page_programs::files::OpensFiles;
use page_programs::program::{Command, run_command};
use page_programs::streams::Streams;
use page_programs::whole::{PrintsWholePages, Whole};
use program_faults::{StepReader, StepWriter};
use std::alloc::{AllocError, Global};

/// Runs the command that prints events in this form on its arguments, without its name, and answers its
/// status.
///
/// 0: done. 2: an option that is not known, and nothing is read. 3: a page that can't be opened or
/// read, or is refused, or memory that is refused, after which it goes on with the next page; or
/// output that can't be written, where it stops. Each page is read whole before its lines are
/// written.
pub fn run_program<R, F, W, V>(
    alloc: Global,
    form: EventForm,
    arguments: &[&str],
    streams: &mut Streams<R, F, W, V>,
) -> u8
where
    R: StepReader,
    F: OpensFiles,
    F::File: StepReader,
    W: StepWriter,
    V: StepWriter,
    ensures { IsRun (PrintsWhole false (λ _. AreEventLines form (extensions_of arguments.now))
        false W.contents)
        R.remaining R.reads F.opens F.holds F.File.remaining F.File.reads W.writes V.writes W.contents
        (texts_of (usage_of form) (help_of form) VERSION.now) event_options false false
        arguments.now result streams.old streams.new }
{
    let says = Command {
        usage: usage_of(form),
        help: help_of(form),
        version: VERSION,
        options: Options {
            own: &[],
            extensions: EVENT_OPTIONS,
        },
    };
    let events = Whole {
        printer: Events {
            form,
            setting: asked_options(arguments).extensions,
        },
    };
    run_command(alloc, says, &events, arguments, streams)
}

// What prints the events of pages in this form, which are read in this way.
#[derive(Drop)]
struct Events {
    form: EventForm,
    setting: Extensions,
}

impl PrintsWholePages for Events {
    ghost use Rattle.std.specs.Prelude.{false};
    ghost use Rattle.page_events.specs.Printed.{AreEventLines};

    ghost mends = { λ _. false };

    ghost checks = { λ _. false };

    ghost is_printed = { λ it _. AreEventLines it.form it.setting };

    fn mends_pages(&self) -> bool {
        false
    }

    fn is_check(&self) -> bool {
        false
    }

    fn text_of_page(&self, alloc: Global, _name: &str, page: &str) -> Result<String, AllocError> {
        lines_of_page(alloc, page, self.setting, self.form)
    }
}
