//! What a page is read with, by options.
ghost use Rattle.std.specs.Prelude.{◌≡◌, IfErr, IfOk};
ghost use Rattle.markdown_values.specs.values.Extensions.{asked_by, bits_of};
ghost use Rattle.markdown_events.specs.page.Settings.{Explains, built, not_built};

use bitflags::Flags;
use markdown_values::values::{Extensions, Options};
use std::alloc::AllocError;

/// Why the events of a page can't be given.
#[derive(Clone, Copy, Debug)]
pub enum NewError {
    /// These of the options are not built.
    Unsupported(Options),
    /// Memory was refused.
    Refused(AllocError),
}

/// Those of the options that are not built, as footnotes are not: events of a page can't be given by
/// them.
pub fn not_built(options: Options) -> Options
    ensures { bits_of result ≡ not_built options }
{
    options.difference(built(Extensions::of(options)).options())
}

/// Those of the extensions that events are built of: without footnotes and definition lists.
pub fn built(asked: Extensions) -> Extensions
    ensures { result ≡ built asked }
{
    Extensions {
        footnotes: false,
        definition_lists: false,
        ..asked
    }
}

/// What the options ask for, if all of them are built.
pub fn setting_of(options: Options) -> Result<Extensions, NewError>
    ensures setting { IfOk result (λ setting. setting ≡ asked_by options) }
    ensures built { IfOk result (λ _. not_built options ≡ 0) }
    ensures refused { IfErr result (Explains options) }
{
    let left = not_built(options);
    if !left.is_empty() {
        return Err(NewError::Unsupported(left));
    }
    Ok(Extensions::of(options))
}
