//! Files that are opened by their names.
ghost use Rattle.std.specs.Prelude.{◌≡◌, ℕ, List, Option, Result, IfOk};
ghost use Rattle.program_faults.specs.declared.reasons.Reason.{Reason};
ghost use Rattle.page_programs.specs.Files.{AreKept};

pub use program_faults::Reason;
use program_faults::StepReader;

/// What opens the files that the command line names. Two names are those of two files here: what a
/// name that leads to the same file as another holds is not said.
pub trait OpensFiles {
    /// An open file.
    type File: StepReader + Drop;

    // What the file of a name holds, where that is known.
    ghost holds: { Self → List ℕ → Option (List ℕ) };

    // From one state to the other by opening the file of this name, or by not opening it for this
    // reason.
    ghost opens: { Self → List ℕ → Result Self.File Reason → Self → Type 0 };

    /// Opens the file of this name to be read from its front, or answers why it can't.
    fn open_named(&mut self, name: &str) -> Result<Self::File, Reason>
        ensures step { opens self.old name.now result self.new }
        ensures bytes { IfOk result (λ file.
            Self.File.remaining file ≡ holds self.old name.now) }
        ensures kept { AreKept holds self.old self.new };
}
