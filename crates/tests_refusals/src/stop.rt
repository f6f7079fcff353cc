//! Why a case ends before its answer.
use std::alloc::AllocError;
use std::io::Error;

/// A refusal that the case doesn't print, a write that failed, or a name that no case has.
#[derive(Clone, Copy)]
pub(crate) enum Stop {
    Memory,
    Write,
    Unknown,
}

impl From<AllocError> for Stop {
    fn from(_error: AllocError) -> Stop {
        Stop::Memory
    }
}

impl From<Error> for Stop {
    fn from(_error: Error) -> Stop {
        Stop::Write
    }
}
