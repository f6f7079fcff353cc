//! Reading all of the input.
ghost use Rattle.std.specs.Prelude.{◌≡◌, IfOk, IfErr, IfSome, OnOk};
ghost use Rattle.std.specs.Io.KnownBytes.{Consumes, IsAtEnd};
ghost use Rattle.program_faults.specs.Faults.{IsBeforeWriting};

use program_faults::Fault;
use std::alloc::Global;
use std::io::Read;

const READS: usize = 1_048_576;

const READ_SIZE: usize = 4_096;

/// All that the reader has left. At most `READS` reads are made, and the last of them gives no
/// byte.
pub(crate) fn read_all<R: Read>(alloc: Global, input: &mut R) -> Result<Vec<u8>, Fault>
    ensures bytes { IfOk result (λ text.
        IfSome (R.remaining input.old) (λ bytes. text.items ≡ bytes)) }
    ensures end { OnOk result (IsAtEnd (R.remaining input.new)) }
    ensures fault { IfErr result IsBeforeWriting }
{
    let mut text = Vec::new(alloc);
    let mut buffer = [0u8; READ_SIZE];
    for _ in 0..READS {
        let count = match input.read(&mut buffer) {
            Ok(count) => count,
            Err(_) => return Err(Fault::Read),
        };
        if count == 0 {
            return Ok(text);
        }
        text.extend_from_slice(&buffer[..count])?;
    }
    Err(Fault::Read)
}
