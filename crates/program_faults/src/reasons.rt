//! Why a call on a file, a reader or a writer fails, and how a program says so.
ghost use Rattle.std.specs.Prelude.{◌≡◌};
ghost use Rattle.program_faults.specs.Reasons.{error_reason, reason_of, reason_line};

use std::io::{Error, ErrorKind};

/// Why it fails, as far as a program tells one reason from another.
#[derive(Clone, Copy, Debug, PartialEq, Eq)]
pub enum Reason {
    /// There is no such file or folder.
    NotFound,
    /// It may not be opened.
    Denied,
    /// It is a folder.
    Folder,
    /// A part of its path is no folder.
    NotFolder,
    /// Its path has too many symbolic links.
    Links,
    /// Its name is too long.
    LongName,
    /// The program has as many files open as it may.
    TooManyFiles,
    /// A signal came between.
    Interrupted,
    /// It would have to wait.
    Waits,
    /// The device is full.
    Full,
    /// Its user has no more room on the device.
    Quota,
    /// It would be larger than a file may be.
    TooLarge,
    /// Its device can't be written.
    ReadOnly,
    /// It is in use.
    Busy,
    /// It is a program that runs.
    Runs,
    /// It is there already.
    Exists,
    /// It is on another device.
    OtherDevice,
    /// Nobody reads what is written.
    NotRead,
    /// It can't be used in this way.
    Invalid,
    /// Memory is refused.
    Memory,
    /// Any other reason.
    Other,
}

impl Reason {
    /// What is said of it after a name, with a line feed.
    pub fn line(self) -> &'static str
        ensures { result.now ≡ reason_line self }
    {
        match self {
            Reason::NotFound => ": No such file or directory\n",
            Reason::Denied => ": Permission denied\n",
            Reason::Folder => ": Is a directory\n",
            Reason::NotFolder => ": Not a directory\n",
            Reason::Links => ": Too many levels of symbolic links\n",
            Reason::LongName => ": File name too long\n",
            Reason::TooManyFiles => ": Too many open files\n",
            Reason::Interrupted => ": Interrupted system call\n",
            Reason::Waits => ": Resource temporarily unavailable\n",
            Reason::Full => ": No space left on device\n",
            Reason::Quota => ": Disk quota exceeded\n",
            Reason::TooLarge => ": File too large\n",
            Reason::ReadOnly => ": Read-only file system\n",
            Reason::Busy => ": Device or resource busy\n",
            Reason::Runs => ": Text file busy\n",
            Reason::Exists => ": File exists\n",
            Reason::OtherDevice => ": Invalid cross-device link\n",
            Reason::NotRead => ": Broken pipe\n",
            Reason::Invalid => ": Invalid argument\n",
            Reason::Memory => ": Cannot allocate memory\n",
            Reason::Other => ": Input/output error\n",
        }
    }
}

// The number of `EMFILE` on Linux, which has no `ErrorKind`.
const TOO_MANY_FILES: i32 = 24;

/// The reason of an error.
pub fn reason_of_error(error: &Error) -> Reason
    ensures { result ≡ error_reason error.now }
{
    match error.raw_os_error() {
        Some(TOO_MANY_FILES) => Reason::TooManyFiles,
        _ => reason_of(error.kind()),
    }
}

/// The reason of an error of this kind.
pub fn reason_of(kind: ErrorKind) -> Reason
    ensures { result ≡ reason_of kind }
{
    match kind {
        ErrorKind::NotFound => Reason::NotFound,
        ErrorKind::PermissionDenied => Reason::Denied,
        ErrorKind::IsADirectory => Reason::Folder,
        ErrorKind::NotADirectory => Reason::NotFolder,
        ErrorKind::FilesystemLoop => Reason::Links,
        ErrorKind::InvalidFilename => Reason::LongName,
        ErrorKind::Interrupted => Reason::Interrupted,
        ErrorKind::WouldBlock => Reason::Waits,
        ErrorKind::StorageFull => Reason::Full,
        ErrorKind::QuotaExceeded => Reason::Quota,
        ErrorKind::FileTooLarge => Reason::TooLarge,
        ErrorKind::ReadOnlyFilesystem => Reason::ReadOnly,
        ErrorKind::ResourceBusy => Reason::Busy,
        ErrorKind::ExecutableFileBusy => Reason::Runs,
        ErrorKind::AlreadyExists => Reason::Exists,
        ErrorKind::CrossesDevices => Reason::OtherDevice,
        ErrorKind::BrokenPipe => Reason::NotRead,
        ErrorKind::InvalidInput => Reason::Invalid,
        ErrorKind::OutOfMemory => Reason::Memory,
        _ => Reason::Other,
    }
}
