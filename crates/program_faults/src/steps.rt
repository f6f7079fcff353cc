//! Readers and writers whose reads and writes a contract can follow, one by one.
ghost use Rattle.std.specs.Prelude.{◌≡◌, ◌<◌, ◌≤◌, ℕ, List, Result, IfOk, OnErr, length, take};
ghost use Rattle.std.specs.Io.KnownBytes.{Appends, Consumes, IsAtEnd, Keeps};
ghost use Rattle.program_faults.specs.Steps.{bytes_read};
ghost use Rattle.program_faults.specs.declared.reasons.Reason.{Reason};

use crate::reasons::{Reason, reason_of_error};
use std::io::{Read, Write};

/// A reader, by what a read does to it. Every `Read` is one: a contract over all of them can say how
/// often a function reads, and why a read failed.
pub trait StepReader: Read {
    // From one state to the other by a read that gives these bytes, or fails for this reason.
    ghost reads: { Self → Result (List ℕ) Reason → Self → Type 0 };

    /// Reads once, and answers how many bytes were read, or why the reader fails.
    fn read_once(&mut self, buffer: &mut [u8]) -> Result<usize, Reason>
        ensures step { reads self.old (bytes_read result buffer.new) self.new }
        ensures within { IfOk result (λ count. count ≤ length buffer.new) }
        ensures bytes { IfOk result (λ count.
            Consumes (Self.remaining self.old) (Self.remaining self.new) (take count buffer.new)) }
        ensures end { IfOk result (λ count. count ≡ 0 → 0 < length buffer.new
            → IsAtEnd (Self.remaining self.new)) }
        ensures kept { OnErr result (Keeps (Self.remaining self.old) (Self.remaining self.new)) };
}

impl<R: Read> StepReader for R {
    ghost reads = { λ old given new.
        IfOk given (λ bytes. Consumes (R.remaining old) (R.remaining new) bytes) };

    fn read_once(&mut self, buffer: &mut [u8]) -> Result<usize, Reason> {
        match self.read(buffer) {
            Ok(count) => Ok(count),
            Err(error) => Err(reason_of_error(&error)),
        }
    }
}

/// A writer, by what a write does to it. Every `Write` is one: a contract over all of them can say
/// what a function writes as far as the writer takes it, and why a write failed.
pub trait StepWriter: Write {
    // From one state to the other by a write of these bytes, of which so many are taken, or which
    // fails for this reason.
    ghost writes: { Self → List ℕ → Result ℕ Reason → Self → Type 0 };

    /// Writes once, and answers how many bytes were taken, or why the writer fails.
    fn write_once(&mut self, bytes: &[u8]) -> Result<usize, Reason>
        ensures step { writes self.old bytes.now result self.new }
        ensures within { IfOk result (λ count. count ≤ length bytes.now) }
        ensures bytes { IfOk result (λ count.
            Appends (Self.contents self.old) (Self.contents self.new) (take count bytes.now)) }
        ensures kept { OnErr result (Keeps (Self.contents self.old) (Self.contents self.new)) };
}

impl<W: Write> StepWriter for W {
    ghost writes = { λ old bytes given new.
        IfOk given (λ count. Appends (W.contents old) (W.contents new) (take count bytes)) };

    fn write_once(&mut self, bytes: &[u8]) -> Result<usize, Reason> {
        match self.write(bytes) {
            Ok(count) => Ok(count),
            Err(error) => Err(reason_of_error(&error)),
        }
    }
}
