//! Writing bytes whole.
ghost use Rattle.std.specs.Prelude.{IfErr, OnOk};
ghost use Rattle.std.specs.Io.KnownBytes.{Appends};
ghost use Rattle.program_faults.specs.Faults.{AppendsPrefix};
ghost use Rattle.program_faults.specs.Steps.{CantWrite};

use crate::reasons::Reason;
use crate::steps::StepWriter;

/// Writes a text whole, as `write_bytes` does its bytes.
pub fn write_whole<W: StepWriter>(output: &mut W, text: &str) -> Result<(), Reason>
    ensures written { OnOk result (Appends (W.contents output.old)
        (W.contents output.new) text.now) }
    ensures front { AppendsPrefix (W.contents output.old) (W.contents output.new) text.now }
    ensures refused { IfErr result (λ reason. CantWrite W.writes reason output.new) }
{
    write_bytes(output, text.as_bytes())
}

/// Writes bytes whole, or answers why it can't; then the writer has taken a part at their front. A
/// write that a signal interrupts is made again.
pub fn write_bytes<W: StepWriter>(output: &mut W, bytes: &[u8]) -> Result<(), Reason>
    ensures written { OnOk result (Appends (W.contents output.old)
        (W.contents output.new) bytes.now) }
    ensures front { AppendsPrefix (W.contents output.old) (W.contents output.new) bytes.now }
    ensures refused { IfErr result (λ reason. CantWrite W.writes reason output.new) }
{
    let mut rest = bytes;
    for _round in 0..u64::MAX {
        if rest.is_empty() {
            return Ok(());
        }
        match output.write_once(rest) {
            Ok(count) => {
                if count == 0 {
                    return Err(Reason::Other);
                }
                rest = &rest[count..];
            }
            Err(reason) => {
                if reason != Reason::Interrupted {
                    return Err(reason);
                }
            }
        }
    }
    Err(Reason::Interrupted)
}
