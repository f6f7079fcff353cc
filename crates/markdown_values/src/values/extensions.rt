//! Which extensions of the syntax are on.
ghost use Rattle.std.specs.Prelude.{⊤, ◌≡◌, ◌==◌, ◌≤◌, ◌&&◌, not};
ghost use Rattle.std.specs.Int.RustNames.{bit_and};
ghost use Rattle.markdown_values.specs.values.Extensions.{asked_by, bits_if, bits_of, commonmark, extension_bits, extension_table};

use bitflags::{Flag, Flags};

/// Which extensions of the syntax are on, as a set of bits.
///
/// The calls on sets, as `union` and `contains`, are those of the trait `Flags` of `bitflags`. Bits
/// that no extension has are kept by `from_bits_retain` alone.
#[derive(Clone, Copy, Debug, PartialEq, Eq, PartialOrd, Ord, Hash)]
pub struct Options(u32);

impl Options {
    /// Tables of rows and cells. (GFM, section 4.10)
    pub const ENABLE_TABLES: Options = Options(2);

    /// Footnotes, by the rules of GitHub.
    pub const ENABLE_FOOTNOTES: Options = Options(4);

    /// Text struck through, between tildes. (GFM, section 6.5)
    pub const ENABLE_STRIKETHROUGH: Options = Options(8);

    /// List items that begin with a box. (GFM, section 5.3)
    pub const ENABLE_TASKLISTS: Options = Options(16);

    /// Curly quotes, dashes and ellipses for their plain forms.
    pub const ENABLE_SMART_PUNCTUATION: Options = Options(32);

    /// An identifier, classes and attributes in braces after a heading.
    pub const ENABLE_HEADING_ATTRIBUTES: Options = Options(64);

    /// Metadata between lines of three hyphens.
    pub const ENABLE_YAML_STYLE_METADATA_BLOCKS: Options = Options(128);

    /// Metadata between lines of three plus signs.
    pub const ENABLE_PLUSES_DELIMITED_METADATA_BLOCKS: Options = Options(256);

    /// Footnotes in their old form. Its bits include those of `ENABLE_FOOTNOTES`.
    pub const ENABLE_OLD_FOOTNOTES: Options = Options(516);

    /// Mathematics between dollar signs.
    pub const ENABLE_MATH: Options = Options(1024);

    /// What else GitHub adds, as block quotes with a kind.
    pub const ENABLE_GFM: Options = Options(2048);

    /// Lists of terms and their definitions.
    pub const ENABLE_DEFINITION_LIST: Options = Options(4096);

    /// Text set higher, between carets.
    pub const ENABLE_SUPERSCRIPT: Options = Options(8192);

    /// Text set lower, between tildes.
    pub const ENABLE_SUBSCRIPT: Options = Options(16384);

    /// Links in two pairs of brackets.
    pub const ENABLE_WIKILINKS: Options = Options(32768);

    // The names and values, in the order of the constants.
    const FLAGS: &'static [Flag<Options>] = &[
        Flag {
            name: "ENABLE_TABLES",
            value: Options::ENABLE_TABLES,
        },
        Flag {
            name: "ENABLE_FOOTNOTES",
            value: Options::ENABLE_FOOTNOTES,
        },
        Flag {
            name: "ENABLE_STRIKETHROUGH",
            value: Options::ENABLE_STRIKETHROUGH,
        },
        Flag {
            name: "ENABLE_TASKLISTS",
            value: Options::ENABLE_TASKLISTS,
        },
        Flag {
            name: "ENABLE_SMART_PUNCTUATION",
            value: Options::ENABLE_SMART_PUNCTUATION,
        },
        Flag {
            name: "ENABLE_HEADING_ATTRIBUTES",
            value: Options::ENABLE_HEADING_ATTRIBUTES,
        },
        Flag {
            name: "ENABLE_YAML_STYLE_METADATA_BLOCKS",
            value: Options::ENABLE_YAML_STYLE_METADATA_BLOCKS,
        },
        Flag {
            name: "ENABLE_PLUSES_DELIMITED_METADATA_BLOCKS",
            value: Options::ENABLE_PLUSES_DELIMITED_METADATA_BLOCKS,
        },
        Flag {
            name: "ENABLE_OLD_FOOTNOTES",
            value: Options::ENABLE_OLD_FOOTNOTES,
        },
        Flag {
            name: "ENABLE_MATH",
            value: Options::ENABLE_MATH,
        },
        Flag {
            name: "ENABLE_GFM",
            value: Options::ENABLE_GFM,
        },
        Flag {
            name: "ENABLE_DEFINITION_LIST",
            value: Options::ENABLE_DEFINITION_LIST,
        },
        Flag {
            name: "ENABLE_SUPERSCRIPT",
            value: Options::ENABLE_SUPERSCRIPT,
        },
        Flag {
            name: "ENABLE_SUBSCRIPT",
            value: Options::ENABLE_SUBSCRIPT,
        },
        Flag {
            name: "ENABLE_WIKILINKS",
            value: Options::ENABLE_WIKILINKS,
        },
    ];

    /// Whether footnotes follow the rules of GitHub: they are on, and not in their old form.
    pub fn has_gfm_footnotes(&self) -> bool
        ensures { result
            ≡ (bit_and (bits_of self.now) 4 == 4) && not (bit_and (bits_of self.now) 516 == 516) }
    {
        self.contains(Options::ENABLE_FOOTNOTES) && !self.contains(Options::ENABLE_OLD_FOOTNOTES)
    }
}

impl Flags for Options {
    type Bits = u32;

    ghost exact = { ⊤ };

    ghost table = { extension_table };

    ghost set_of = { bits_of };

    fn flags<'a>() -> &'a [Flag<Options>] {
        Options::FLAGS
    }

    fn bits(&self) -> u32 {
        self.0
    }

    fn from_bits_retain(bits: u32) -> Options {
        Options(bits)
    }
}

/// Which extensions of CommonMark a page is read with. None is on unless it is asked for.
///
/// One setting is for blocks, inlines, events and HTML alike: what a call has no use for changes
/// nothing that it answers.
#[derive(Clone, Copy, Debug, PartialEq, Eq)]
pub struct Extensions {
    /// Tables of rows and cells. (GFM, section 4.10)
    pub tables: bool,
    /// Footnote definitions: `[^label]:`, and what stands after it or is indented by four columns.
    /// (GitHub Docs, footnotes)
    pub footnotes: bool,
    /// Text between `~` and `~`, or between `~~` and `~~`, is struck through. (GFM, section 6.5)
    pub strikethrough: bool,
    /// List items that begin with a box. (GFM, section 5.3)
    pub tasks: bool,
    /// Definition lists: after a paragraph, which is the term, `:`, and what stands after that or is
    /// indented as that is.
    pub definition_lists: bool,
    /// `[[target]]` and `[[target|text]]` are links, and `![[target]]` and `![[target|text]]` images.
    /// A target has some bytes, and no bracket, pipe or line ending. (Obsidian's internal links)
    pub wikilinks: bool,
}

impl Extensions {
    /// CommonMark alone.
    pub const fn none() -> Extensions
        ensures { result ≡ commonmark }
    {
        Extensions {
            tables: false,
            footnotes: false,
            strikethrough: false,
            tasks: false,
            definition_lists: false,
            wikilinks: false,
        }
    }

    /// Those that the options ask for. Options that have no field here are passed over.
    pub fn of(options: Options) -> Extensions
        ensures { result ≡ asked_by options }
    {
        Extensions {
            tables: options.contains(Options::ENABLE_TABLES),
            footnotes: options.contains(Options::ENABLE_FOOTNOTES),
            strikethrough: options.contains(Options::ENABLE_STRIKETHROUGH),
            tasks: options.contains(Options::ENABLE_TASKLISTS),
            definition_lists: options.contains(Options::ENABLE_DEFINITION_LIST),
            wikilinks: options.contains(Options::ENABLE_WIKILINKS),
        }
    }

    /// The options that ask for these, and for nothing else.
    pub fn options(self) -> Options
        ensures bits { bits_of result ≡ extension_bits self }
        ensures back { asked_by result ≡ self }
    {
        Options(
            bits_if(self.tables, Options::ENABLE_TABLES)
                + bits_if(self.footnotes, Options::ENABLE_FOOTNOTES)
                + bits_if(self.strikethrough, Options::ENABLE_STRIKETHROUGH)
                + bits_if(self.tasks, Options::ENABLE_TASKLISTS)
                + bits_if(self.definition_lists, Options::ENABLE_DEFINITION_LIST)
                + bits_if(self.wikilinks, Options::ENABLE_WIKILINKS),
        )
    }
}

// The bits of an option, if it is on.
fn bits_if(is_on: bool, option: Options) -> u32
    ensures bits { result ≡ bits_if is_on (bits_of option) }
    ensures bound { result ≤ bits_of option }
{
    if is_on { option.0 } else { 0 }
}
