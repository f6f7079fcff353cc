//! What the words of the command line ask for, which are gone through once.
ghost use Rattle.std.specs.Prelude.{◌≡◌};
ghost use Rattle.std.specs.Option.{option_map};
ghost use Rattle.page_programs.specs.Asked.{both_flags, flags_by, flags_of, root_of};
ghost use Rattle.page_programs.specs.Extensions.{extensions_of};

use crate::arguments::after;
use crate::extensions::with_extensions;
use markdown_values::values::Extensions;

/// The option that has a folder after it, as it is listed.
pub const ROOT: &str = "--root ";

// packages/program
/// Which options are asked for that commands have of their own, `--root` aside.
#[derive(Clone, Copy)]
pub struct Flags {
    pub unsafe_html: bool,
    pub strict: bool,
    pub to_events: bool,
    pub to_json: bool,
    pub json: bool,
    pub check: bool,
    pub write: bool,
}

const NO_FLAGS: Flags = Flags {
    unsafe_html: false,
    strict: false,
    to_events: false,
    to_json: false,
    json: false,
    check: false,
    write: false,
};

// Those, and those that a word asks for.
fn with_flags(flags: Flags, word: &str) -> Flags
    ensures { result ≡ both_flags (flags_by word.now) flags }
{
    Flags {
        unsafe_html: word == "--unsafe" || flags.unsafe_html,
        strict: word == "--strict" || flags.strict,
        to_events: word == "--to events" || flags.to_events,
        to_json: word == "--to json" || flags.to_json,
        json: word == "--json" || flags.json,
        check: word == "--check" || flags.check,
        write: word == "--write" || flags.write,
    }
}
// end

/// What is asked for before the word `--`.
#[derive(Clone, Copy)]
pub struct AskedOptions<'a> {
    pub flags: Flags,
    pub extensions: Extensions,
    /// What stands after `--root`, the last one where it stands several times.
    pub root: Option<&'a str>,
}

/// What the arguments ask for. An option and its value are one word, as `join_values` makes them.
pub fn asked_options<'a>(arguments: &[&'a str]) -> AskedOptions<'a>
    ensures flags { result.flags ≡ flags_of arguments.now }
    ensures extensions { result.extensions ≡ extensions_of arguments.now }
    ensures root { option_map (λ root. root.now) result.root ≡ root_of arguments.now }
{
    let mut asked = AskedOptions {
        flags: NO_FLAGS,
        extensions: Extensions::none(),
        root: None,
    };
    for word in arguments {
        if *word == "--" {
            return asked;
        }
        asked = AskedOptions {
            flags: with_flags(asked.flags, word),
            extensions: with_extensions(asked.extensions, word),
            root: after(word, ROOT).or(asked.root),
        };
    }
    asked
}
