//! Pages that are tried one after another: each is opened, and then done.
ghost use Rattle.std.specs.Prelude.{◌≡◌, ◌⊎◌, true, false, ℕ, List, IfOk, IfErr, length};
ghost use Rattle.program_faults.specs.Steps.{CantWrite};
ghost use Rattle.page_programs.specs.Arguments.{pages_of, texts};
ghost use Rattle.page_programs.specs.Came.{Ends};
ghost use Rattle.page_programs.specs.Stops.{IfWrite};
ghost use Rattle.page_programs.specs.Tried.{AreHandled, AreTried, IsHandled, IsTried};

use crate::arguments::name_pages;
use crate::came::{Came, came_at, came_of, has_no_output, worse};
use crate::files::OpensFiles;
use crate::names::shown_name;
use crate::pages::DoesPages;
use crate::stops::{Stop, report_stop};
use crate::streams::Streams;
use program_faults::{StepReader, StepWriter};
use std::alloc::Global;

/// Tries the pages that the arguments name, and answers what came of them. After one that is not done it
/// goes on, unless the output can't be written.
pub(crate) fn try_operands<T, R, F, W, V>(
    alloc: Global,
    command: &T,
    arguments: &[&str],
    streams: &mut Streams<R, F, W, V>,
) -> Came
where
    T: DoesPages<F, W, V>,
    R: StepReader,
    F: OpensFiles,
    F::File: StepReader,
    W: StepWriter,
    V: StepWriter,
    ensures handled { AreHandled (T.does command.now (length (pages_of arguments.now)))
        R.remaining R.reads F.opens F.holds F.File.remaining F.File.reads W.writes V.writes
        (pages_of arguments.now) streams.old streams.new result }
    ensures ends { Ends (T.checks command.now ≡ true) result
        (T.notes command.now ≡ false → streams.new.outputs.faults ≡ streams.old.outputs.faults) }
{
    match name_pages(alloc, arguments) {
        Ok(names) => try_pages(alloc, command, &names, streams),
        Err(_) => {
            report_stop(&mut streams.outputs.faults, "", Stop::Memory);
            Came::IsNotDone
        }
    }
}

// Tries the pages of these names.
fn try_pages<T, R, F, W, V>(
    alloc: Global,
    command: &T,
    names: &[&str],
    streams: &mut Streams<R, F, W, V>,
) -> Came
where
    T: DoesPages<F, W, V>,
    R: StepReader,
    F: OpensFiles,
    F::File: StepReader,
    W: StepWriter,
    V: StepWriter,
    ensures tried { AreTried (T.does command.now (length (texts names.now)))
        R.remaining R.reads F.opens F.holds F.File.remaining F.File.reads W.writes V.writes
        (texts names.now) streams.old streams.new result }
    ensures ends { Ends (T.checks command.now ≡ true) result
        (T.notes command.now ≡ false → streams.new.outputs.faults ≡ streams.old.outputs.faults) }
{
    let mut came = Came::Done;
    for name in names {
        let one = try_named(alloc, command, names.len(), name, streams);
        came = worse(came, one);
        if has_no_output(one) {
            return came;
        }
    }
    came
}

// Tries the page of this name, of so many pages, and tells why it is not done.
fn try_named<T, R, F, W, V>(
    alloc: Global,
    command: &T,
    pages: usize,
    name: &str,
    streams: &mut Streams<R, F, W, V>,
) -> Came
where
    T: DoesPages<F, W, V>,
    R: StepReader,
    F: OpensFiles,
    F::File: StepReader,
    W: StepWriter,
    V: StepWriter,
    ensures tried { IsTried (T.does command.now pages) R.remaining R.reads F.opens F.holds
        F.File.remaining F.File.reads W.writes V.writes name.now streams.old streams.new result }
    ensures ends { Ends (T.checks command.now ≡ true) result
        (T.notes command.now ≡ false → streams.new.outputs.faults ≡ streams.old.outputs.faults) }
{
    let Ok(called) = shown_name(alloc, name) else {
        report_stop(&mut streams.outputs.faults, "", Stop::Memory);
        return Came::IsNotDone;
    };
    match do_named(alloc, command, pages, name, streams) {
        Ok(found) => came_of(found),
        Err(stop) => {
            report_stop(&mut streams.outputs.faults, called.as_str(), stop);
            came_at(stop)
        }
    }
}

// Opens the page of this name, of so many pages, and does it; answers whether a check finds something.
fn do_named<T, R, F, W, V>(
    alloc: Global,
    command: &T,
    pages: usize,
    name: &str,
    streams: &mut Streams<R, F, W, V>,
) -> Result<bool, Stop>
where
    T: DoesPages<F, W, V>,
    R: StepReader,
    F: OpensFiles,
    F::File: StepReader,
    W: StepWriter,
    V: StepWriter,
    ensures handled { IsHandled (T.does command.now pages) R.remaining R.reads F.opens F.holds
        F.File.remaining F.File.reads name.now streams.old streams.new result }
    ensures refused { IfErr result (λ stop.
        IfWrite stop (λ why. CantWrite W.writes why streams.new.outputs.output)) }
    ensures found { IfOk result (λ found. found ≡ true → T.checks command.now ≡ true) }
    ensures silent { IfOk result (λ _. T.notes command.now ≡ false →
        streams.new.outputs.faults ≡ streams.old.outputs.faults) }
{
    if name == "-" {
        return command.do_page(alloc, pages, name, &mut streams.input, &mut streams.outputs);
    }
    let mut file = match streams.outputs.files.open_named(name) {
        Ok(file) => file,
        Err(reason) => return Err(Stop::Read(reason)),
    };
    command.do_page(alloc, pages, name, &mut file, &mut streams.outputs)
}
