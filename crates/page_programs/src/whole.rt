//! Pages that are read whole before anything is printed of them.
ghost use Rattle.std.specs.Prelude.{◌≡◌, Bool, ℕ, List, IfOk, string_bytes};

use crate::came::is_reported;
use crate::pages::DoesPages;
use crate::reading::read_to_end;
use crate::stops::Stop;
use crate::streams::Outputs;
use crate::texts::text_of;
use crate::writing::write_text;
use program_faults::{StepReader, StepWriter};
use std::alloc::{AllocError, Global};

/// What says of a whole page what is printed of it.
pub trait PrintsWholePages {
    // A page that is not UTF-8 is read as text all the same, with U+FFFD for what is wrong.
    ghost mends: { Self → Bool };

    // What is printed of a page is what a check finds in it.
    ghost checks: { Self → Bool };

    // This text is what is printed of a page of this name that is read as this text.
    ghost is_printed: { Self → List ℕ → List ℕ → List ℕ → Type 0 };

    /// Whether a page that is not UTF-8 is read as text all the same.
    fn mends_pages(&self) -> bool
        ensures { result ≡ mends self.now };

    /// Whether what is printed of a page is what a check finds in it.
    fn is_check(&self) -> bool
        ensures { result ≡ checks self.now };

    /// What is printed of the page of this name.
    fn text_of_page(&self, alloc: Global, name: &str, page: &str) -> Result<String, AllocError>
        ensures { IfOk result (λ text. is_printed self.now name.now page.now (string_bytes text)) };
}

/// Prints of each page what this says, after all of it is read. Where it stops and no write has
/// failed nothing of the page is written.
#[derive(Drop)]
pub struct Whole<P> {
    pub printer: P,
}

impl<P: PrintsWholePages, F, W: StepWriter, V> DoesPages<F, W, V> for Whole<P> {
    ghost use Rattle.std.specs.Prelude.{false};
    ghost use Rattle.page_programs.specs.Wholes.{PrintsWhole};

    ghost does = { λ it. PrintsWhole (P.mends it.printer) (P.is_printed it.printer)
        (P.checks it.printer) W.contents };

    ghost checks = { λ it. P.checks it.printer };

    ghost notes = { λ _. false };

    fn do_page<R: StepReader>(
        &self,
        alloc: Global,
        _pages: usize,
        name: &str,
        input: &mut R,
        outputs: &mut Outputs<F, W, V>,
    ) -> Result<bool, Stop> {
        let bytes = read_to_end(alloc, input)?;
        let page = text_of(alloc, bytes, self.printer.mends_pages())?;
        let text = self.printer.text_of_page(alloc, name, page.as_str())?;
        write_text(&mut outputs.output, text.as_str())?;
        Ok(self.printer.is_check() && is_reported(text.as_str()))
    }
}
