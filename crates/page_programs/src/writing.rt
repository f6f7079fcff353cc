//! Writing to the output.
ghost use Rattle.std.specs.Prelude.{IfOk, IfErr};
ghost use Rattle.std.specs.Io.KnownBytes.{Appends};
ghost use Rattle.program_faults.specs.Faults.{AppendsPrefix};
ghost use Rattle.program_faults.specs.Steps.{CantWrite};
ghost use Rattle.page_programs.specs.Stops.{IfWrite, IsWrite};

use crate::stops::Stop;
use program_faults::{StepWriter, write_whole};

/// Writes a text whole, as `write_whole` does.
pub fn write_text<W: StepWriter>(output: &mut W, text: &str) -> Result<(), Stop>
    ensures written { IfOk result (λ _.
        Appends (W.contents output.old) (W.contents output.new) text.now) }
    ensures front { AppendsPrefix (W.contents output.old) (W.contents output.new) text.now }
    ensures write { IfErr result IsWrite }
    ensures refused { IfErr result (λ stop.
        IfWrite stop (λ why. CantWrite W.writes why output.new)) }
{
    match write_whole(output, text) {
        Ok(()) => Ok(()),
        Err(reason) => Err(Stop::Write(reason)),
    }
}
