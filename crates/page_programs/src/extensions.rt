//! The options that ask for extensions.
ghost use Rattle.std.specs.Prelude.{◌≡◌};
ghost use Rattle.page_programs.specs.Extensions.{both, extensions_by};

use markdown_values::values::Extensions;

// packages/extensions
/// The options that ask for extensions of which events are built.
pub const EVENT_OPTIONS: &[&str] = &[
    "-e tables",
    "-e strikethrough",
    "-e tasks",
    "-e wikilinks",
    "--gfm",
];

/// Those that ask for any extension.
pub const EXTENSION_OPTIONS: &[&str] = &[
    "-e footnotes",
    "-e definition-lists",
    "-e tables",
    "-e strikethrough",
    "-e tasks",
    "-e wikilinks",
    "--gfm",
];

/// These extensions, and those that a word asks for: one by `-e` and its name, and those of GitHub
/// Flavored Markdown by `--gfm`. An option and its value are one word, as `join_values` makes them.
pub(crate) fn with_extensions(asked: Extensions, word: &str) -> Extensions
    ensures { result ≡ both (extensions_by word.now) asked }
{
    let gfm = word == "--gfm";
    Extensions {
        tables: gfm || word == "-e tables" || asked.tables,
        footnotes: word == "-e footnotes" || asked.footnotes,
        strikethrough: gfm || word == "-e strikethrough" || asked.strikethrough,
        tasks: gfm || word == "-e tasks" || asked.tasks,
        definition_lists: word == "-e definition-lists" || asked.definition_lists,
        wikilinks: word == "-e wikilinks" || asked.wikilinks,
    }
}
// end
