//! What is done with a page.
ghost use Rattle.std.specs.Prelude.{◌≡◌, true, IfOk, IfErr, not};
ghost use Rattle.std.specs.Str.{bytes_eq};
ghost use Rattle.program_faults.specs.Steps.{CantWrite};
ghost use Rattle.page_programs.specs.Stops.{IfWrite};
ghost use Rattle.page_tables.specs.Arguments.{is_check};
ghost use Rattle.page_tables.specs.Files.{IsUnreplaced, IsReplaced};
ghost use Rattle.page_tables.specs.Looks.{becomes_other, made_text};
ghost use Rattle.page_tables.specs.Runs.{IsUsed};

use crate::arguments::{Task, is_check, task_for};
use crate::files::ReplacesFiles;
use crate::looks::{Look, look_at_page};
use crate::replacing::replace_file;
use page_programs::came::is_reported;
use page_programs::names::shown;
use page_programs::pages::DoesPages;
use page_programs::stops::{Refusal, Stop};
use page_programs::streams::Outputs;
use page_programs::texts::read_text;
use program_faults::{StepReader, StepWriter, complain, write_bytes, write_whole};
use std::alloc::Global;

/// What does this with pages.
#[derive(Drop)]
pub(crate) struct Tables {
    pub(crate) task: Task,
}

impl<F: ReplacesFiles, W: StepWriter, V: StepWriter> DoesPages<F, W, V> for Tables
where
    F::File: StepReader,
    F::NewFile: StepWriter,
{
    ghost use Rattle.std.specs.Prelude.{true};
    ghost use Rattle.page_tables.specs.Arguments.{is_check};
    ghost use Rattle.page_tables.specs.Runs.{IsHandled};

    ghost does = { λ it. IsHandled W.contents V.writes F.refuses F.File.reads F.NewFile.writes
        F.holds F.is_beside it.task };

    ghost checks = { λ it. is_check it.task };

    ghost notes = { λ _. true };

    fn do_page<R: StepReader>(
        &self,
        alloc: Global,
        _pages: usize,
        name: &str,
        input: &mut R,
        outputs: &mut Outputs<F, W, V>,
    ) -> Result<bool, Stop> {
        let page = read_text(alloc, input)?;
        let task = task_for(self.task, name);
        use_page(alloc, task, name, page.as_str(), outputs)
    }
}

// Does this with a page of this name, and answers whether a check finds something.
fn use_page<F: ReplacesFiles, W: StepWriter, V: StepWriter>(
    alloc: Global,
    task: Task,
    name: &str,
    page: &str,
    outputs: &mut Outputs<F, W, V>,
) -> Result<bool, Stop>
    ensures used { IsUsed W.contents V.writes F.refuses F.File.reads F.NewFile.writes
        F.holds F.is_beside task name.now page.now outputs.old outputs.new result }
    ensures refused { IfErr result (λ stop.
        IfWrite stop (λ why. CantWrite W.writes why outputs.new.output)) }
{
    let Ok(called) = shown(alloc, name) else {
        return Err(Stop::Memory);
    };
    let Ok(look) = look_at_page(alloc, called.as_str(), page, is_check(task)) else {
        return Err(Stop::Memory);
    };
    complain(&mut outputs.faults, look.notes.as_str());
    match task {
        Task::Print => match write_bytes(&mut outputs.output, look.text(page.as_bytes())) {
            Ok(()) => Ok(false),
            Err(reason) => Err(Stop::Write(reason)),
        },
        Task::Check => match write_whole(&mut outputs.output, look.lines.as_str()) {
            Ok(()) => Ok(is_reported(look.lines.as_str())),
            Err(reason) => Err(Stop::Write(reason)),
        },
        Task::Replace => {
            match replace_with(alloc, &look, name, page.as_bytes(), &mut outputs.files) {
                Ok(()) => Ok(false),
                Err(refusal) => Err(Stop::NotReplaced(refusal)),
            }
        }
    }
}

// Replaces the file of this name by what the page becomes, where it changes.
fn replace_with<F: ReplacesFiles>(
    alloc: Global,
    look: &Look,
    name: &str,
    page: &[u8],
    files: &mut F,
) -> Result<(), Refusal>
    requires { becomes_other look.now.made
        ≡ not (bytes_eq (made_text page.now look.now.made) page.now) }
    ensures replaced { IfOk result (λ _.
        IsReplaced F.holds name.now page.now
        (made_text page.now look.now.made) files.old files.new) }
    ensures refused { IfErr result (IsUnreplaced F.refuses F.File.reads F.NewFile.writes
        F.holds F.is_beside name.now page.now files.old files.new) }
{
    if !look.changes() {
        return Ok(());
    }
    replace_file(alloc, files, name, page, look.text(page))
}
