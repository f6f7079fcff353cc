//! Files that are replaced by their names.
ghost use Rattle.std.specs.Prelude.{◌≡◌, ℕ, List, [], Option, Some, None, Result, IfOk, IfErr, IfSome};
ghost use Rattle.program_faults.specs.declared.reasons.Reason.{Reason};
ghost use Rattle.page_programs.specs.Files.{AreKept};
ghost use Rattle.page_tables.specs.Files.{AreOthersKept};

use page_programs::files::OpensFiles;
use program_faults::{Reason, StepWriter};

/// What reads the files that the command line names, and writes over them.
pub trait ReplacesFiles: OpensFiles {
    /// A new file, whose name nothing else has. It can't be let go: it is removed, or left where it
    /// is.
    type NewFile: StepWriter;

    // From one state to the other by a step that is refused for this reason: a file is not made, not
    // opened, not written over, or not brought to the disk.
    ghost refuses: { Self → Reason → Self → Type 0 };

    // All that was written to it is on the disk.
    ghost is_synced: { Self.NewFile → Type 0 };

    // Beside the file of this name is one that holds these bytes, all of it on the disk.
    ghost is_beside: { Self → List ℕ → List ℕ → Type 0 };

    /// Opens the file of this name to be read from its front, and to be written over.
    fn open_over(&mut self, name: &str) -> Result<Self::File, Reason>
        ensures bytes { IfOk result (λ file.
            Self.File.remaining file ≡ Self.holds self.old name.now) }
        ensures refused { IfErr result (λ why. refuses self.old why self.new) }
        ensures kept { AreKept Self.holds self.old self.new };

    /// Makes a new file beside the one of this name, which its owner alone may read.
    fn create_beside(&mut self, name: &str) -> Result<Self::NewFile, Reason>
        ensures empty { IfOk result (λ file. IfSome (Self.holds self.old name.now) (λ _.
            Self.NewFile.contents file ≡ Some [])) }
        ensures refused { IfErr result (λ why. refuses self.old why self.new) }
        ensures kept { AreKept Self.holds self.old self.new };

    /// Brings all that was written to the new file to the disk.
    fn sync(&mut self, file: &mut Self::NewFile) -> Result<(), Reason>
        ensures synced { IfOk result (λ _. is_synced file.new) }
        ensures refused { IfErr result (λ why. refuses self.old why self.new) }
        ensures bytes { Self.NewFile.contents file.new ≡ Self.NewFile.contents file.old }
        ensures kept { AreKept Self.holds self.old self.new };

    /// Writes these bytes over all that the file of this name holds, of which there is a copy, and
    /// brings them to the disk. Where that is refused it isn't known what the file holds then.
    fn write_over(
        &mut self,
        file: &mut Self::File,
        name: &str,
        copy: &Self::NewFile,
        bytes: &[u8],
    ) -> Result<(), Reason>
        requires synced { is_synced copy.now }
        requires copied { IfSome (Self.holds self.old name.now) (λ before.
            Self.NewFile.contents copy.now ≡ Some before) }
        ensures written { IfOk result (λ _. IfSome (Self.NewFile.contents copy.now) (λ _.
            Self.holds self.new name.now ≡ Some bytes.now)) }
        ensures unknown { IfErr result (λ _. Self.holds self.new name.now ≡ None) }
        ensures refused { IfErr result (λ why. refuses self.old why self.new) }
        ensures others { AreOthersKept Self.holds name.now self.old self.new };

    /// Removes a new file.
    fn remove(&mut self, file: Self::NewFile)
        ensures { AreKept Self.holds self.old self.new };

    /// Leaves a new file where it is, beside the file of this name.
    fn leave(&mut self, file: Self::NewFile, name: &str)
        requires { is_synced file }
        ensures beside { IfSome (Self.NewFile.contents file) (λ bytes.
            is_beside self.new name.now bytes) }
        ensures kept { AreKept Self.holds self.old self.new };
}
