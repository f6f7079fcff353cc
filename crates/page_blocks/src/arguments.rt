//! The arguments of the command line.
ghost use Rattle.std.specs.Prelude.{◌≡◌};
ghost use Rattle.page_blocks.specs.Arguments.{form_of};

use page_programs::asked::Flags;

/// How a block is printed.
#[derive(Clone, Copy)]
pub(crate) enum Form {
    /// In words.
    Words,
    /// As JSON.
    Json,
}

/// How these options ask for blocks to be printed.
pub(crate) fn form_of(flags: Flags) -> Form
    ensures { result ≡ form_of flags }
{
    if flags.json {
        return Form::Json;
    }
    Form::Words
}
