//! Reading the input, a part at a time or whole.
ghost use Rattle.std.specs.Prelude.{◌≡◌, ◌≢◌, ◌⊎◌, ◌<◌, ◌≤◌, ◌+◌, ◌*◌, ◌++◌, [], List, ℕ, length, drop, IsTrue, IfOk, IfErr, OnOk, IfSome};
ghost use Rattle.std.specs.Io.KnownBytes.{Consumes, IsAtEnd};
ghost use Rattle.program_faults.specs.Steps.{AreReads, HasEnded, HasFailed};
ghost use Rattle.program_faults.specs.declared.reasons.Reason.{Reason};
ghost use Rattle.page_programs.specs.declared.stops.Refusal.{Refusal};

use crate::stops::Stop;
use program_faults::{Reason, StepReader};
use std::alloc::Global;

/// How many reads are made at most: more than a page can have, and the last of them gives no byte.
pub const READS: usize = 281_474_976_710_655;

/// How many bytes a read gives at most.
pub const READ_SIZE: usize = 65_536;

/// The bytes that are read and not yet printed, and how many reads may still be made.
#[derive(Drop)]
pub struct Unread {
    pub text: Vec<u8>,
    pub reads: usize,
}

impl Unread {
    /// Nothing is read.
    pub fn new(alloc: Global) -> Unread
        ensures text { result.text.items ≡ [] }
        ensures reads { result.reads ≡ READS }
    {
        Unread {
            text: Vec::new(alloc),
            reads: READS,
        }
    }

    /// Reads until there is at least a byte more and twice the text, or the input has ended.
    /// Answers whether it has.
    pub fn read_more<R: StepReader>(&mut self, input: &mut R) -> Result<bool, Stop>
        ensures read { (bytes : List ℕ)
            × Consumes (R.remaining input.old) (R.remaining input.new) bytes
            × OnOk result (self.new.text.items ≡ self.old.text.items ++ bytes) }
        ensures end { IfOk result (λ has_ended. IsTrue has_ended →
            IsAtEnd (R.remaining input.new)) }
        ensures more { IfOk result (λ has_ended. ¬ IsTrue has_ended →
            (length self.old.text.items < length self.new.text.items)
            × (2 * length self.old.text.items ≤ length self.new.text.items)) }
        ensures fewer { OnOk result (self.new.reads < self.old.reads) }
        ensures room { OnOk result (length self.new.text.items + READ_SIZE * self.new.reads
            ≤ length self.old.text.items + READ_SIZE * self.old.reads) }
        ensures unwritten { IfErr result (λ stop. (why : Reason) → stop ≢ Stop.Write why) }
        ensures taken { IfErr result (λ stop. (offset : ℕ) → stop ≢ Stop.NotText offset) }
        ensures unreplaced { IfErr result (λ stop. (refusal : Refusal) →
            stop ≢ Stop.NotReplaced refusal) }
        ensures reads { (count : ℕ) × (self.new.reads + count ≡ self.old.reads)
            × AreReads R.reads count input.old input.new }
        ensures ended { IfOk result (λ has_ended. IsTrue has_ended →
            HasEnded R.reads input.new) }
        ensures failed { IfErr result (λ stop. (why : Reason) → stop ≡ Stop.Read why →
            HasFailed R.reads why input.new ⊎ (self.new.reads ≡ 0)) }
    {
        let mut buffer = [0u8; READ_SIZE];
        let before = self.text.len();
        while self.reads > 0 {
            self.reads -= 1;
            let count = match input.read_once(&mut buffer) {
                Ok(count) => count,
                Err(reason) => return Err(Stop::Read(reason)),
            };
            if count == 0 {
                return Ok(true);
            }
            self.text.extend_from_slice(&buffer[..count])?;
            if self.text.len() - before >= before {
                return Ok(false);
            }
        }
        Err(Stop::Read(Reason::Other))
    }

    /// Takes bytes off the front, which are printed.
    pub fn drop_front(&mut self, count: usize)
        requires { count ≤ length self.old.text.items }
        ensures text { self.new.text.items ≡ drop count self.old.text.items }
        ensures reads { self.new.reads ≡ self.old.reads }
    {
        let left = self.text.len() - count;
        self.text.copy_within(count.., 0);
        self.text.truncate(left);
    }
}

/// The bytes of the input, up to its end.
pub fn read_to_end<R: StepReader>(alloc: Global, input: &mut R) -> Result<Vec<u8>, Stop>
    ensures page { IfOk result (λ page.
        IfSome (R.remaining input.old) (λ bytes. page.items ≡ bytes)) }
    ensures read { IfOk result (λ _. IsAtEnd (R.remaining input.new)) }
    ensures ended { IfOk result (λ _. HasEnded R.reads input.new) }
    ensures unwritten { IfErr result (λ stop. (why : Reason) → stop ≢ Stop.Write why) }
    ensures taken { IfErr result (λ stop. (offset : ℕ) → stop ≢ Stop.NotText offset) }
    ensures unreplaced { IfErr result (λ stop. (refusal : Refusal) →
        stop ≢ Stop.NotReplaced refusal) }
    ensures reads { (count : ℕ) × AreReads R.reads count input.old input.new }
    ensures failed { IfErr result (λ stop. (why : Reason) → stop ≡ Stop.Read why →
        HasFailed R.reads why input.new ⊎ AreReads R.reads 281474976710655 input.old input.new) }
{
    let mut unread = Unread::new(alloc);
    loop {
        let has_ended = unread.read_more(input)?;
        if has_ended {
            let Unread { text, .. } = unread;
            return Ok(text);
        }
    }
}
