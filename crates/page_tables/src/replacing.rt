//! Replacing what a file holds, while a copy of that is beside it.
ghost use Rattle.std.specs.Prelude.{◌≡◌, ◌≢◌, ◌⊎◌, Some, None, IfOk, IfErr, IfSome};
ghost use Rattle.page_programs.specs.Files.{AreKept};
ghost use Rattle.page_programs.specs.declared.stops.Refusal.{Refusal};
ghost use Rattle.page_tables.specs.Files.{AreOthersKept, HeldPage, HoldsNow, IsUnreplaced, WasRefused};

use crate::files::ReplacesFiles;
use page_programs::reading::read_to_end;
use page_programs::stops::{Refusal, Stop};
use program_faults::{Reason, write_bytes};
use std::alloc::Global;

/// Replaces what the file of this name holds, which is this page, by these bytes. They are written over
/// it, so that all else of it stays. First a copy beside it is on the disk, and the file holds the page
/// still; the copy is removed when all of the bytes are on the disk. Where the file can't be written
/// the page is written back.
///
/// # Errors
///
/// Why it is not replaced, and what it holds then.
pub fn replace_file<F: ReplacesFiles>(
    alloc: Global,
    files: &mut F,
    name: &str,
    page: &[u8],
    bytes: &[u8],
) -> Result<(), Refusal>
    ensures held { IfOk result (λ _. HeldPage F.holds name.now page.now files.old) }
    ensures replaced { IfOk result (λ _.
        HoldsNow F.holds name.now bytes.now files.old files.new) }
    ensures others { AreOthersKept F.holds name.now files.old files.new }
    ensures refused { IfErr result (IsUnreplaced F.refuses F.File.reads F.NewFile.writes
        F.holds F.is_beside name.now page.now files.old files.new) }
{
    let copy = match copy_beside(files, name, page) {
        Ok(copy) => copy,
        Err(reason) => return Err(Refusal::Stands(reason)),
    };
    let mut file = match open_same(alloc, files, name, page) {
        Ok(Some(file)) => file,
        Ok(None) => {
            files.remove(copy);
            return Err(Refusal::HasChanged);
        }
        Err(reason) => {
            files.remove(copy);
            return Err(Refusal::Stands(reason));
        }
    };
    write_guarded(files, &mut file, name, copy, page, bytes)
}

// Makes a new file beside the one of this name that holds this page, all of it on the disk.
fn copy_beside<F: ReplacesFiles>(
    files: &mut F,
    name: &str,
    page: &[u8],
) -> Result<F::NewFile, Reason>
    ensures synced { IfOk result F.is_synced }
    ensures bytes { IfOk result (λ copy. IfSome (F.holds files.old name.now) (λ _.
        F.NewFile.contents copy ≡ Some page.now)) }
    ensures kept { AreKept F.holds files.old files.new }
    ensures refused { IfErr result (WasRefused F.refuses F.File.reads F.NewFile.writes) }
{
    let mut copy = match files.create_beside(name) {
        Ok(copy) => copy,
        Err(reason) => return Err(reason),
    };
    if let Err(reason) = write_bytes(&mut copy, page) {
        files.remove(copy);
        return Err(reason);
    }
    if let Err(reason) = files.sync(&mut copy) {
        files.remove(copy);
        return Err(reason);
    }
    Ok(copy)
}

// Opens the file of this name to be written over, if it holds this page.
fn open_same<F: ReplacesFiles>(
    alloc: Global,
    files: &mut F,
    name: &str,
    page: &[u8],
) -> Result<Option<F::File>, Reason>
    ensures same { IfOk result (λ found. IfSome found (λ _.
        HeldPage F.holds name.now page.now files.old)) }
    ensures changed { IfOk result (λ found. found ≡ None →
        IfSome (F.holds files.old name.now) (λ held. held ≢ page.now)) }
    ensures kept { AreKept F.holds files.old files.new }
    ensures refused { IfErr result (WasRefused F.refuses F.File.reads F.NewFile.writes) }
{
    let mut file = match files.open_over(name) {
        Ok(file) => file,
        Err(reason) => return Err(reason),
    };
    match read_to_end(alloc, &mut file) {
        Ok(held) => {
            if *held != *page {
                return Ok(None);
            }
            Ok(Some(file))
        }
        Err(Stop::Read(reason) | Stop::Write(reason)) => Err(reason),
        Err(Stop::Memory) => Err(Reason::Memory),
        Err(Stop::NotText(_) | Stop::NotReplaced(_)) => unreachable!(),
    }
}

// Writes these bytes over a file that holds this page, as its copy does.
fn write_guarded<F: ReplacesFiles>(
    files: &mut F,
    file: &mut F::File,
    name: &str,
    copy: F::NewFile,
    page: &[u8],
    bytes: &[u8],
) -> Result<(), Refusal>
    requires synced { F.is_synced copy }
    requires held { HeldPage F.holds name.now page.now files.old }
    requires copied { IfSome (F.holds files.old name.now) (λ _.
        F.NewFile.contents copy ≡ Some page.now) }
    ensures replaced { IfOk result (λ _.
        HoldsNow F.holds name.now bytes.now files.old files.new) }
    ensures others { AreOthersKept F.holds name.now files.old files.new }
    ensures refused { IfErr result (IsUnreplaced F.refuses F.File.reads F.NewFile.writes
        F.holds F.is_beside name.now page.now files.old files.new) }
{
    match files.write_over(file, name, &copy, bytes) {
        Ok(()) => {
            files.remove(copy);
            Ok(())
        }
        Err(reason) => Err(write_back(files, file, name, copy, page, reason)),
    }
}

// Writes the page back over a file that could not be written for this reason, and answers what it
// holds then.
fn write_back<F: ReplacesFiles>(
    files: &mut F,
    file: &mut F::File,
    name: &str,
    copy: F::NewFile,
    page: &[u8],
    reason: Reason,
) -> Refusal
    requires synced { F.is_synced copy }
    requires unknown { F.holds files.old name.now ≡ None }
    ensures others { AreOthersKept F.holds name.now files.old files.new }
    ensures end { ((result ≡ Refusal.Stands reason)
        × IfSome (F.NewFile.contents copy) (λ _. F.holds files.new name.now ≡ Some page.now))
        ⊎ ((result ≡ Refusal.IsCopied reason)
        × IfSome (F.NewFile.contents copy) (F.is_beside files.new name.now)) }
{
    match files.write_over(file, name, &copy, page) {
        Ok(()) => {
            files.remove(copy);
            Refusal::Stands(reason)
        }
        Err(_) => {
            files.leave(copy, name);
            Refusal::IsCopied(reason)
        }
    }
}
