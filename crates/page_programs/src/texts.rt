//! What a page is read as that may not be UTF-8.
ghost use Rattle.std.specs.Prelude.{◌≡◌, ◌≢◌, ◌⊎◌, false, ℕ, IfErr, IfOk, IfSome, string_bytes};
ghost use Rattle.std.specs.Io.KnownBytes.{IsAtEnd};
ghost use Rattle.program_faults.specs.Steps.{AreReads, HasEnded, HasFailed};
ghost use Rattle.program_faults.specs.declared.reasons.Reason.{Reason};
ghost use Rattle.page_programs.specs.declared.stops.Refusal.{Refusal};
ghost use Rattle.page_programs.specs.Cuts.{RefusesAllOf};
ghost use Rattle.page_programs.specs.Texts.{IsReadAs, IsRefused};

use crate::reading::read_to_end;
use crate::stops::Stop;
use program_faults::StepReader;
use std::alloc::Global;

/// The text that a page is read as. Where it is not UTF-8 it is refused; or, if that is mended, each
/// part that is wrong is U+FFFD.
pub fn text_of(alloc: Global, page: Vec<u8>, mends: bool) -> Result<String, Stop>
    ensures text { IfOk result (λ text. IsReadAs mends page.items (string_bytes text)) }
    ensures refused { IfErr result (λ stop. (offset : ℕ) → stop ≡ Stop.NotText offset →
        IsRefused mends page.items offset) }
    ensures unread { IfErr result (λ stop. (why : Reason) → stop ≢ Stop.Read why) }
    ensures unwritten { IfErr result (λ stop. (why : Reason) → stop ≢ Stop.Write why) }
    ensures unreplaced { IfErr result (λ stop. (refusal : Refusal) →
        stop ≢ Stop.NotReplaced refusal) }
{
    match std::str::from_utf8(&page) {
        Ok(text) => Ok(String::from_str(alloc, text)?),
        Err(_) if mends => Ok(String::from_utf8_lossy(alloc, &page)?),
        Err(error) => Err(Stop::NotText(error.valid_up_to())),
    }
}

/// The text of the input, up to its end. It is refused where it is not UTF-8.
pub fn read_text<R: StepReader>(alloc: Global, input: &mut R) -> Result<String, Stop>
    ensures page { IfOk result (λ text.
        IfSome (R.remaining input.old) (λ bytes. string_bytes text ≡ bytes)) }
    ensures read { IfOk result (λ _. IsAtEnd (R.remaining input.new)) }
    ensures ended { IfOk result (λ _. HasEnded R.reads input.new) }
    ensures refused { IfErr result (λ stop. (offset : ℕ) → stop ≡ Stop.NotText offset →
        RefusesAllOf (IsRefused false) (R.remaining input.old) offset
        × HasEnded R.reads input.new) }
    ensures unwritten { IfErr result (λ stop. (why : Reason) → stop ≢ Stop.Write why) }
    ensures unreplaced { IfErr result (λ stop. (refusal : Refusal) →
        stop ≢ Stop.NotReplaced refusal) }
    ensures reads { (count : ℕ) × AreReads R.reads count input.old input.new }
    ensures failed { IfErr result (λ stop. (why : Reason) → stop ≡ Stop.Read why →
        HasFailed R.reads why input.new ⊎ AreReads R.reads 281474976710655 input.old input.new) }
{
    let bytes = read_to_end(alloc, input)?;
    text_of(alloc, bytes, false)
}
