//! Why a page is not done, and how the program says so.
ghost use Rattle.std.specs.Prelude.{◌≡◌};
ghost use Rattle.program_faults.specs.Steps.{AreGiven};
ghost use Rattle.page_programs.specs.Stops.{parts_for, refusal_parts, unknown_parts, write_parts};

use itoa::Buffer;
use program_faults::{Reason, StepWriter, complain};
use std::alloc::AllocError;

/// The name of the program, which stands before what it says of a stop.
const PROGRAM: &str = "fillaqut";

/// Why a page is not done.
#[derive(Clone, Copy)]
pub enum Stop {
    /// The page can't be opened, or not be read.
    Read(Reason),
    /// The page is not UTF-8, and is refused: so many bytes stand before the first that is wrong.
    NotText(usize),
    /// The output can't be written.
    Write(Reason),
    /// Memory is refused.
    Memory,
    /// The file that it was read from is not replaced.
    NotReplaced(Refusal),
}

/// Why a file is not replaced, and what it holds then.
#[derive(Clone, Copy)]
pub enum Refusal {
    /// A step is refused, and it stands as it was.
    Stands(Reason),
    /// It has changed since it was read, and stands as it is.
    HasChanged,
    /// It can neither be written nor be written back. What it held is in the copy beside it.
    IsCopied(Reason),
}

impl From<AllocError> for Stop {
    ghost use Rattle.page_programs.specs.declared.stops.Stop.TheVariants.{Memory};

    ghost from_gives = { λ _ stop. stop ≡ Memory };

    fn from(_error: AllocError) -> Stop {
        Stop::Memory
    }
}

/// Tells of a stop at the page that is called so.
pub fn report_stop<V: StepWriter>(faults: &mut V, called: &str, stop: Stop)
    ensures { AreGiven V.writes faults.old (parts_for called.now stop) faults.new }
{
    match stop {
        Stop::Read(reason) => {
            complain(faults, PROGRAM);
            complain(faults, ": ");
            complain(faults, called);
            complain(faults, reason.line());
        }
        Stop::NotText(offset) => {
            complain(faults, PROGRAM);
            complain(faults, ": ");
            complain(faults, called);
            complain(faults, ": not UTF-8: wrong byte at offset ");
            complain(faults, Buffer::new().format(offset));
            complain(faults, "\n");
        }
        Stop::Write(reason) => report_write(faults, reason),
        Stop::Memory => {
            complain(faults, PROGRAM);
            complain(faults, ": out of memory\n");
        }
        Stop::NotReplaced(refusal) => {
            complain(faults, "fillaqut: ");
            complain(faults, called);
            report_refusal(faults, refusal);
        }
    }
}

// Tells why the output can't be written, unless its reader has left.
fn report_write<V: StepWriter>(faults: &mut V, reason: Reason)
    ensures { AreGiven V.writes faults.old (write_parts reason) faults.new }
{
    match reason {
        Reason::NotRead => {}
        _ => {
            complain(faults, PROGRAM);
            complain(faults, ": write error");
            complain(faults, reason.line());
        }
    }
}

// Tells why a file is not replaced, after its name.
fn report_refusal<V: StepWriter>(faults: &mut V, refusal: Refusal)
    ensures { AreGiven V.writes faults.old (refusal_parts refusal) faults.new }
{
    match refusal {
        Refusal::Stands(reason) => {
            complain(faults, ": not replaced");
            complain(faults, reason.line());
        }
        Refusal::HasChanged => {
            complain(faults, ": not replaced: it has changed since it was read\n");
        }
        Refusal::IsCopied(reason) => {
            complain(
                faults,
                ": written in part; what it held is in a file beside it",
            );
            complain(faults, reason.line());
        }
    }
}

/// Tells of an option that is not known, and how the command is used.
pub(crate) fn report_unknown<V: StepWriter>(faults: &mut V, option: &str, usage: &str)
    ensures { AreGiven V.writes faults.old (unknown_parts option.now usage.now) faults.new }
{
    complain(faults, PROGRAM);
    complain(faults, ": unknown option ");
    complain(faults, option);
    complain(faults, usage);
}
