//! What is printed of a page, as the arguments of the command line ask for it.
ghost use Rattle.std.specs.Prelude.{◌≡◌};
ghost use Rattle.page_html.specs.Asked.{asked_of, form_of, is_html};

use markdown_values::values::Extensions;
use page_programs::asked::{Flags, asked_options};

/// What is printed of a page.
#[derive(Clone, Copy)]
pub enum Form {
    /// Its HTML.
    Html,
    /// Its events, as `fillaqut events` prints them.
    Events,
    /// Its events as JSON objects, one a line.
    Json,
}

/// What is printed, and with what a page is read.
#[derive(Clone, Copy)]
pub struct Asked {
    /// What is printed of the page.
    pub form: Form,
    /// Whether its HTML is that of `safe_setting` of `markdown_html`, with http, https, mailto and tel,
    /// as it is unless another is asked for.
    pub safe: bool,
    /// Whether a page that is not UTF-8 is refused in this form too.
    pub strict: bool,
    /// With what it is read.
    pub setting: Extensions,
}

/// What the arguments ask for.
pub(crate) fn asked_of(arguments: &[&str]) -> Asked
    ensures { result ≡ asked_of arguments.now }
{
    let asked = asked_options(arguments);
    Asked {
        form: form_of(asked.flags),
        safe: !asked.flags.unsafe_html,
        strict: asked.flags.strict,
        setting: asked.extensions,
    }
}

// In which form a page is printed.
fn form_of(flags: Flags) -> Form
    ensures { result ≡ form_of flags }
{
    if flags.to_events {
        return Form::Events;
    }
    if flags.to_json {
        return Form::Json;
    }
    Form::Html
}

/// Whether a page is printed as HTML.
pub(crate) fn is_html(form: Form) -> bool
    ensures { result ≡ is_html form }
{
    matches!(form, Form::Html)
}
