//! What came of pages.
ghost use Rattle.std.specs.Prelude.{◌≡◌, ◌↔◌, IsTrue};
ghost use Rattle.page_programs.specs.Came.{came_at, came_of, is_reported, status_of, worse};
ghost use Rattle.page_programs.specs.declared.came.Came.TheVariants.{HasNoOutput};

use crate::stops::Stop;

/// What came of a page, or of several.
#[derive(Clone, Copy)]
pub enum Came {
    /// It is done.
    Done,
    /// It is checked, and something is found.
    Found,
    /// It is not done.
    IsNotDone,
    /// It is not done, as the output can't be written; no more is done then.
    HasNoOutput,
}

/// What came of a page that is done, by whether a check found something.
pub fn came_of(found: bool) -> Came
    ensures { result ≡ came_of found }
{
    if found {
        return Came::Found;
    }
    Came::Done
}

/// Whether a check that prints this text finds something.
pub fn is_reported(text: &str) -> bool
    ensures { result ≡ is_reported text.now }
{
    !text.is_empty()
}

/// What came of a page that is not done.
pub fn came_at(stop: Stop) -> Came
    ensures { result ≡ came_at stop }
{
    match stop {
        Stop::Write(_) => Came::HasNoOutput,
        Stop::Read(_) | Stop::NotText(_) | Stop::Memory | Stop::NotReplaced(_) => Came::IsNotDone,
    }
}

/// The worse of two.
pub fn worse(one: Came, other: Came) -> Came
    ensures { result ≡ worse one other }
{
    match (one, other) {
        (Came::HasNoOutput, _) | (_, Came::HasNoOutput) => Came::HasNoOutput,
        (Came::IsNotDone, _) | (_, Came::IsNotDone) => Came::IsNotDone,
        (Came::Found, _) | (_, Came::Found) => Came::Found,
        (Came::Done, Came::Done) => Came::Done,
    }
}

/// Whether the output can't be written.
pub fn has_no_output(came: Came) -> bool
    ensures { IsTrue result ↔ (came ≡ HasNoOutput) }
{
    matches!(came, Came::HasNoOutput)
}

/// The status of a run.
pub fn status_of(came: Came) -> u8
    ensures { result ≡ status_of came }
{
    match came {
        Came::Done => 0,
        Came::Found => 1,
        Came::IsNotDone | Came::HasNoOutput => 3,
    }
}
