//! What the program does with its arguments, its input and its output.
ghost use Rattle.std.specs.Prelude.{false};
ghost use Rattle.page_programs.specs.Answers.{texts_of};
ghost use Rattle.page_programs.specs.Asked.{flags_of, root_of};
ghost use Rattle.page_programs.specs.Extensions.{extensions_of};
ghost use Rattle.page_programs.specs.Runs.{IsRun};
ghost use Rattle.page_programs.specs.Wholes.{PrintsWhole};
ghost use Rattle.page_links.specs.arguments.Arguments.{form_of, own_options};
ghost use Rattle.page_links.specs.page.Printed.{IsPrinted};

use crate::arguments::{OPTIONS, form_of};
use crate::checks::{Checks, FindsFiles};
use crate::help::{HELP, USAGE, VERSION};
use crate::page::{check_of_page, list_of_page, name_in};
use page_programs::asked::asked_options;
use page_programs::files::OpensFiles;
use page_programs::program::{Command, run_command};
use page_programs::streams::Streams;
use page_programs::whole::{PrintsWholePages, Whole};
use program_faults::{StepReader, StepWriter};
use std::alloc::{AllocError, Global};

/// Runs the program on its arguments, without its name, and answers its status.
///
/// 0: done. 1: `--check`, and something is printed. 2: an option that is not known, and nothing is
/// read. 3: a page that can't be opened or read, or is refused, or memory that is refused, after which
/// it goes on with the next page; or output that can't be written, where it stops. Each page is read
/// whole before its lines are written.
pub fn run_program<L, R, F, W, V>(
    alloc: Global,
    finder: &L,
    arguments: &[&str],
    streams: &mut Streams<R, F, W, V>,
) -> u8
where
    L: FindsFiles,
    R: StepReader,
    F: OpensFiles,
    F::File: StepReader,
    W: StepWriter,
    V: StepWriter,
    ensures { IsRun (PrintsWhole false (IsPrinted (flags_of arguments.now).check (L.reads finder.now)
        (extensions_of arguments.now) (L.finds finder.now) (root_of arguments.now)
        (form_of (flags_of arguments.now))) (flags_of arguments.now).check W.contents)
        R.remaining R.reads F.opens F.holds F.File.remaining F.File.reads W.writes V.writes W.contents
        (texts_of USAGE.now HELP.now VERSION.now) own_options (flags_of arguments.now).check false
        arguments.now result streams.old streams.new }
{
    let says = Command {
        usage: USAGE,
        help: HELP,
        version: VERSION,
        options: OPTIONS,
    };
    let asked = asked_options(arguments);
    let links = Whole {
        printer: Links {
            checks: Checks {
                finder,
                root: asked.root,
                form: form_of(asked.flags),
                setting: asked.extensions,
            },
            is_check: asked.flags.check,
        },
    };
    run_command(alloc, says, &links, arguments, streams)
}

// What prints the links of pages, or what is found where they are checked.
#[derive(Drop)]
struct Links<'l, L> {
    checks: Checks<'l, L>,
    is_check: bool,
}

impl<L: FindsFiles> PrintsWholePages for Links<'_, L> {
    ghost use Rattle.std.specs.Prelude.{false};
    ghost use Rattle.page_links.specs.checks.Checks.{given};
    ghost use Rattle.page_links.specs.page.Printed.{IsPrinted};

    ghost mends = { λ _. false };

    ghost checks = { λ it. it.is_check };

    ghost is_printed = { λ it. IsPrinted it.is_check (L.reads it.checks.finder.now)
        it.checks.setting (L.finds it.checks.finder.now) (given it.checks.root) it.checks.form };

    fn mends_pages(&self) -> bool {
        false
    }

    fn is_check(&self) -> bool {
        self.is_check
    }

    fn text_of_page(&self, alloc: Global, name: &str, page: &str) -> Result<String, AllocError> {
        if self.is_check {
            return check_of_page(alloc, &self.checks, name, page);
        }
        let (form, setting) = (self.checks.form, self.checks.setting);
        let called = name_in(alloc, form, name)?;
        list_of_page(alloc, called.as_str(), page, setting, form)
    }
}
