//! What can go wrong in a program that reads, asks for memory and writes, and how it tells so.
#![tactic(auto)]

ghost use Rattle.std.specs.Prelude.{◌≡◌, codes};
ghost use Rattle.program_faults.specs.Faults.{fault_line, AppendsPrefix};
ghost use Rattle.program_faults.specs.Steps.{IsGiven};

mod reasons;
mod steps;
mod writing;

pub use reasons::{Reason, reason_of, reason_of_error};
use std::alloc::AllocError;
pub use steps::{StepReader, StepWriter};
pub use writing::{write_bytes, write_whole};

/// Why the program printed nothing, or not all of it.
#[derive(Clone, Copy, Debug, PartialEq, Eq)]
pub enum Fault {
    /// The input can't be read.
    Read,
    /// The output can't be written.
    Write,
    /// Memory is refused.
    Memory,
}

impl From<AllocError> for Fault {
    ghost use Rattle.program_faults.specs.declared.Fault.TheVariants.{Memory};

    ghost from_gives = { λ _ fault. fault ≡ Memory };

    fn from(_error: AllocError) -> Fault {
        Fault::Memory
    }
}

impl Fault {
    // The line that tells of it.
    fn line(self) -> &'static str
        ensures { result.now ≡ fault_line self }
    {
        match self {
            Fault::Read => "read fault\n",
            Fault::Write => "write fault\n",
            Fault::Memory => "out of memory\n",
        }
    }
}

/// Tells of a fault, and answers the status that it ends the program with.
pub fn report_fault<V: StepWriter>(faults: &mut V, fault: Fault) -> u8
    ensures status { result ≡ 3 }
    ensures given { IsGiven V.writes faults.old (fault_line fault) faults.new }
    ensures line { AppendsPrefix (V.contents faults.old) (V.contents faults.new)
        (fault_line fault) }
{
    complain(faults, fault.line());
    3
}

/// Writes a line to the faults, as far as they take it. What becomes of it changes no status.
pub fn complain<V: StepWriter>(faults: &mut V, line: &str)
    ensures given { IsGiven V.writes faults.old line.now faults.new }
    ensures prefix { AppendsPrefix (V.contents faults.old) (V.contents faults.new) line.now }
{
    let mut rest = line.as_bytes();
    while !rest.is_empty() {
        let Ok(count) = faults.write_once(rest) else {
            return;
        };
        if count == 0 {
            return;
        }
        rest = &rest[count..];
    }
}
