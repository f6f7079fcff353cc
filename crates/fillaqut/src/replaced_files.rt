//! The files that tables are laid out in.

use crate::page_files::PageFiles;
use page_tables::files::ReplacesFiles;
use program_faults::{Reason, reason_of_error};
use std::fs::{self, File, OpenOptions};
use std::io::{self, ErrorKind, Write};
use std::os::unix::fs::{FileExt, OpenOptionsExt};

// How many names are tried for a new file.
const NAMES: u8 = 100;

// A new file may be read by its owner alone, whoever may read the one that it is beside.
const OWNER_ALONE: u32 = 0o600;

/// A new file, the folder that it is in, and its path.
pub struct NewFile {
    file: File,
    folder: String,
    path: String,
}

impl Write for NewFile {
    fn write(&mut self, bytes: &[u8]) -> io::Result<usize> {
        self.file.write(bytes)
    }

    fn flush(&mut self) -> io::Result<()> {
        self.file.flush()
    }
}

impl ReplacesFiles for PageFiles<'_> {
    ghost use Rattle.std.specs.Prelude.{⊤};

    type NewFile = NewFile;

    ghost refuses = { λ _ _ _. ⊤ };

    ghost is_synced = { λ _. ⊤ };

    ghost is_beside = { λ _ _ _. ⊤ };

    fn open_over(&mut self, name: &str) -> Result<File, Reason> {
        reasoned(open_over(self.0, name))
    }

    fn create_beside(&mut self, name: &str) -> Result<NewFile, Reason> {
        reasoned(create_beside(self.0, name))
    }

    fn sync(&mut self, file: &mut NewFile) -> Result<(), Reason> {
        reasoned(sync_named(self.0, file))
    }

    fn write_over(
        &mut self,
        file: &mut File,
        _name: &str,
        _copy: &NewFile,
        bytes: &[u8],
    ) -> Result<(), Reason> {
        reasoned(write_over(file, bytes))
    }

    fn remove(&mut self, file: NewFile) {
        let NewFile { file, folder, path } = file;
        drop((file, folder));
        let _ = fs::remove_file(self.0, path.as_str());
    }

    fn leave(&mut self, file: NewFile, _name: &str) {
        drop_new(file);
    }
}

// What a call answers, with the reason of its error.
fn reasoned<T>(answer: io::Result<T>) -> Result<T, Reason> {
    match answer {
        Ok(found) => Ok(found),
        Err(error) => Err(reason_of_error(&error)),
    }
}

// Lets a new file go.
fn drop_new(file: NewFile) {
    let NewFile { file, folder, path } = file;
    drop((file, folder, path));
}

// Opens a file, which is no device or pipe, to be read and to be written over.
fn open_over(rt: &HostRuntime, path: &str) -> io::Result<File> {
    let file = OpenOptions::new().read(true).write(true).open(rt, path)?;
    if !file.metadata()?.is_file() {
        return Err(io::Error::from(ErrorKind::InvalidInput));
    }
    Ok(file)
}

// Makes a new file beside the one that this name leads to, which must be one that may be written.
fn create_beside(rt: &HostRuntime, name: &str) -> io::Result<NewFile> {
    let target = fs::canonicalize(rt, name)?.into_string();
    drop(open_over(rt, target.as_str())?);
    let Some((folder, last)) = target.rsplit_once('/') else {
        return Err(io::Error::from(ErrorKind::InvalidInput));
    };
    let folder = format!(in rt.alloc(); "{folder}/")?;
    let (file, path) = create_new(rt, folder.as_str(), last)?;
    Ok(NewFile { file, folder, path })
}

// Makes a file in this folder of a name that nothing has, which begins with a dot.
fn create_new(rt: &HostRuntime, folder: &str, name: &str) -> io::Result<(File, String)> {
    let mut options = OpenOptions::new();
    options.write(true).create_new(true).mode(OWNER_ALONE);
    for number in 0..NAMES {
        let path = format!(in rt.alloc(); "{folder}.{name}.{number}.old")?;
        match options.open(rt, path.as_str()) {
            Ok(file) => return Ok((file, path)),
            Err(error) if error.kind() == ErrorKind::AlreadyExists => {}
            Err(error) => return Err(error),
        }
    }
    Err(io::Error::from(ErrorKind::AlreadyExists))
}

// Brings a new file and its name to the disk.
fn sync_named(rt: &HostRuntime, file: &NewFile) -> io::Result<()> {
    file.file.sync_all()?;
    File::open(rt, file.folder.as_str())?.sync_all()
}

// Writes these bytes over all that a file holds, and brings them to the disk.
fn write_over(file: &File, bytes: &[u8]) -> io::Result<()> {
    file.write_all_at(bytes, 0)?;
    file.set_len(bytes.len() as u64)?;
    file.sync_all()
}
