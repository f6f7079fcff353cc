//! The arguments of the command line.
ghost use Rattle.std.specs.Prelude.{◌≡◌};
ghost use Rattle.page_links.specs.arguments.Arguments.{form_of};

use crate::printing::LinkForm;
use page_programs::arguments::Options;
use page_programs::asked::{Flags, ROOT};
use page_programs::extensions::EVENT_OPTIONS;

/// The options of the program.
pub(crate) const OPTIONS: Options = Options {
    own: &["--json", "--check", ROOT],
    extensions: EVENT_OPTIONS,
};

/// The form that these options ask for.
pub(crate) fn form_of(flags: Flags) -> LinkForm
    ensures { result ≡ form_of flags }
{
    if flags.json {
        return LinkForm::Json;
    }
    LinkForm::Words
}
