//! The files that pages are read from, and that links lead to.

use page_links::checks::{FileState, FindsFiles};
use page_programs::files::OpensFiles;
use program_faults::{Reason, reason_of_error};
use std::alloc::AllocError;
use std::fs::{self, File};
use std::io::ErrorKind;

/// The files of the system. No clause says what they hold.
#[derive(Drop)]
pub struct PageFiles<'a>(pub &'a HostRuntime);

impl OpensFiles for PageFiles<'_> {
    ghost use Rattle.std.specs.Prelude.{⊤, None};

    type File = File;

    ghost holds = { λ _ _. None };

    ghost opens = { λ _ _ _ _. ⊤ };

    fn open_named(&mut self, name: &str) -> Result<File, Reason> {
        match File::open(self.0, name) {
            Ok(file) => Ok(file),
            Err(error) => Err(reason_of_error(&error)),
        }
    }
}

impl FindsFiles for PageFiles<'_> {
    ghost use Rattle.std.specs.Prelude.{⊤};

    ghost finds = { λ _ _ _. ⊤ };

    ghost reads = { λ _ _ _. ⊤ };

    fn look_for(&self, path: &str) -> Result<FileState, AllocError> {
        match fs::exists(self.0, path) {
            Ok(true) => Ok(FileState::There),
            Ok(false) => Ok(FileState::Missing),
            Err(error) => unseen_state(error.kind()),
        }
    }

    fn real_path(&self, path: &str) -> Result<String, AllocError> {
        match fs::canonicalize(self.0, path) {
            Ok(real) => Ok(real.into_string()),
            Err(_) => String::from_str(self.0.alloc(), path),
        }
    }

    fn read_file(&self, path: &str) -> Result<Vec<u8>, Reason> {
        match fs::read(self.0, path) {
            Ok(bytes) => Ok(bytes),
            Err(error) => Err(reason_of_error(&error)),
        }
    }
}

// The state of a file that can't be looked at for a reason of this kind: where no file can have its
// path, it is not there.
fn unseen_state(kind: ErrorKind) -> Result<FileState, AllocError> {
    match kind {
        ErrorKind::OutOfMemory => Err(AllocError),
        ErrorKind::PermissionDenied => Ok(FileState::Denied),
        _ => Ok(FileState::Missing),
    }
}
