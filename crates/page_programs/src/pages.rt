//! What a command does with a page.
ghost use Rattle.std.specs.Prelude.{◌≡◌, true, false, Bool, ℕ, List, Option, Result, IfOk, IfErr};
ghost use Rattle.program_faults.specs.Steps.{CantWrite};
ghost use Rattle.page_programs.specs.Reads.{IsRead};
ghost use Rattle.page_programs.specs.Stops.{IfWrite};
ghost use Rattle.page_programs.specs.declared.stops.Stop.{Stop};
ghost use Rattle.page_programs.specs.declared.streams.Outputs.{Outputs};

use crate::stops::Stop;
use crate::streams::Outputs;
use program_faults::{StepReader, StepWriter};
use std::alloc::Global;

/// What does something with a page. `Whole` is one of what reads a page whole, and prints a text.
pub trait DoesPages<F, W: StepWriter, V> {
    // What is done with the page of this name, of so many pages, of which this was left to read at
    // first, and this in the end, between these outputs; or how far it is done where it stops.
    ghost does: { Self → ℕ → List ℕ → Option (List ℕ) → Option (List ℕ)
        → Outputs F W V → Outputs F W V → Result Bool Stop → Type 0 };

    // It checks pages, in which something may be found.
    ghost checks: { Self → Bool };

    // Of a page that is done something may be said to the faults.
    ghost notes: { Self → Bool };

    /// Does this with the page of this name, of so many pages, that the input has, and answers
    /// whether a check finds something.
    fn do_page<R: StepReader>(
        &self,
        alloc: Global,
        pages: usize,
        name: &str,
        input: &mut R,
        outputs: &mut Outputs<F, W, V>,
    ) -> Result<bool, Stop>
        ensures done { does self.now pages name.now (R.remaining input.old) (R.remaining input.new)
            outputs.old outputs.new result }
        ensures read { IsRead R.remaining R.reads input.old input.new result }
        ensures refused { IfErr result (λ stop.
            IfWrite stop (λ why. CantWrite W.writes why outputs.new.output)) }
        ensures found { IfOk result (λ found. found ≡ true → checks self.now ≡ true) }
        ensures silent { IfOk result (λ _. notes self.now ≡ false →
            outputs.new.faults ≡ outputs.old.faults) };
}
