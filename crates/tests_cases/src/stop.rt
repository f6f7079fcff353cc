//! Why a run ends before its last case.
use std::alloc::AllocError;
use std::fmt;
use std::io::{Error, ErrorKind};

/// Why a line can't be read as a case.
#[derive(Clone, Copy)]
pub(crate) enum Unreadable {
    NotUtf8,
    NoAnswer,
    UnknownCall,
    MissingArgument,
    SpareArgument,
    NotHexadecimal,
    NotText,
    NotNumber,
    NotByte,
    NotFlag,
    UnknownLineCall,
    UnknownHandler,
    UnknownKind,
    NotPlace,
    NoBytes,
    TooLarge,
}

impl fmt::Display for Unreadable {
    fn fmt<W: fmt::Write>(&self, f: &mut fmt::Formatter<W>) -> fmt::Result {
        f.write_str(match self {
            Unreadable::NotUtf8 => "the line is not UTF-8",
            Unreadable::NoAnswer => "no answer after `=>`",
            Unreadable::UnknownCall => "no such call",
            Unreadable::MissingArgument => "too few arguments",
            Unreadable::SpareArgument => "too many arguments",
            Unreadable::NotHexadecimal => "bytes that are not pairs of hexadecimal digits",
            Unreadable::NotText => "a text that is not UTF-8",
            Unreadable::NotNumber => "an argument that is not a number",
            Unreadable::NotByte => "an argument that is not the number of a byte",
            Unreadable::NotFlag => "an argument that is not 0 or 1",
            Unreadable::UnknownLineCall => "no such call on a line",
            Unreadable::UnknownHandler => "no such handler",
            Unreadable::UnknownKind => "no such kind of HTML block",
            Unreadable::NotPlace => "an offset that is not between two characters of the text",
            Unreadable::NoBytes => "no byte for a call that wants one",
            Unreadable::TooLarge => "a number above the limit of the call",
        })
    }
}

/// Why a case has no answer.
#[derive(Clone, Copy)]
pub(crate) enum CaseError {
    Unreadable(Unreadable),
    Memory,
}

impl From<Unreadable> for CaseError {
    fn from(why: Unreadable) -> CaseError {
        CaseError::Unreadable(why)
    }
}

impl From<AllocError> for CaseError {
    fn from(_error: AllocError) -> CaseError {
        CaseError::Memory
    }
}

/// Why a run ends before its last case: a line by its number, counted from 1, or a fault.
#[derive(Clone, Copy)]
pub(crate) enum Stop {
    Unreadable { line: u64, why: Unreadable },
    Read,
    Write,
    Memory,
}

impl Stop {
    /// What a case that has no answer comes to at this line.
    pub(crate) fn at_line(line: u64, error: CaseError) -> Stop {
        match error {
            CaseError::Unreadable(why) => Stop::Unreadable { line, why },
            CaseError::Memory => Stop::Memory,
        }
    }

    /// What an error of the reader comes to.
    pub(crate) fn of_reader(error: Error) -> Stop {
        match error.kind() {
            ErrorKind::OutOfMemory => Stop::Memory,
            _ => Stop::Read,
        }
    }
}

impl fmt::Display for Stop {
    fn fmt<W: fmt::Write>(&self, f: &mut fmt::Formatter<W>) -> fmt::Result {
        match self {
            Stop::Unreadable { line, why } => write!(f, "line {line}: {why}"),
            Stop::Read => f.write_str("read fault"),
            Stop::Write => f.write_str("write fault"),
            Stop::Memory => f.write_str("out of memory"),
        }
    }
}
