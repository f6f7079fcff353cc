//! Events, tags and options, and what they are made of.
ghost use Rattle.std.specs.Prelude.{◌≡◌, ◌↔◌, ◌⊎◌, ◌<◌, ◌≤◌, IsTrue, IfOk, IsSome, Some, MatchResult, is_some, is_none};
ghost use Rattle.markdown_values.specs.values.Alerts.{alert_number};
ghost use Rattle.markdown_values.specs.values.Alignments.{alignment_number};
ghost use Rattle.markdown_values.specs.values.Headings.{heading_number, heading_name};
ghost use Rattle.markdown_values.specs.values.Links.{unknown_kind};
ghost use Rattle.markdown_values.specs.values.Tags.{info_view};
ghost use Rattle.markdown_values.specs.strings.Text.{cow_text, storage_of, clone_storage, static_storage};

mod events;
mod extensions;
mod tag_parts;
mod tags;

use crate::strings::CowStr;
pub use events::Event;
pub use extensions::{Extensions, Options};
use std::alloc::{AllocError, Global};
use std::fmt;
pub use tags::{Tag, TagEnd};

/// The kind of a code block.
#[derive(Debug, PartialEq, Drop)]
pub enum CodeBlockKind<'a> {
    /// By four columns of space. (CommonMark 0.31.2, section 4.4)
    Indented,
    /// Between fences, with the info string of the first. (CommonMark 0.31.2, section 4.5)
    Fenced(CowStr<'a>),
}

impl<'a> CodeBlockKind<'a> {
    /// Whether the block is indented.
    pub fn is_indented(&self) -> bool
        ensures { result ≡ is_none (info_view cow_text self.now) }
    {
        matches!(self, CodeBlockKind::Indented)
    }

    /// Whether the block is fenced.
    pub fn is_fenced(&self) -> bool
        ensures { result ≡ is_some (info_view cow_text self.now) }
    {
        matches!(self, CodeBlockKind::Fenced(_))
    }

    /// The same kind again, with its text as `CowStr::clone` gives it.
    ///
    /// # Errors
    ///
    /// `AllocError` where memory for the text is refused.
    pub fn clone(&self, alloc: Global) -> Result<CodeBlockKind<'a>, AllocError>
        ensures same { IfOk result (λ kind. info_view cow_text kind ≡ info_view cow_text self.now) }
        ensures storage { IfOk result (λ kind.
            info_view storage_of kind ≡ info_view clone_storage self.now) }
        ensures equal { IfOk result (λ kind.
            IsTrue (⟦<CodeBlockKind<'a> as PartialEq>⟧.eq kind self.now)) }
    {
        match self {
            CodeBlockKind::Indented => Ok(CodeBlockKind::Indented),
            CodeBlockKind::Fenced(info) => Ok(CodeBlockKind::Fenced(info.clone(alloc)?)),
        }
    }

    /// The same kind with nothing borrowed, its text as `CowStr::into_static` gives it.
    ///
    /// # Errors
    ///
    /// `AllocError` where memory for the text is refused; the kind is dropped then.
    pub fn into_static(self, alloc: Global) -> Result<CodeBlockKind<'static>, AllocError>
        ensures same { IfOk result (λ kind.
            info_view cow_text kind ≡ info_view cow_text self.entry) }
        ensures storage { IfOk result (λ kind.
            info_view storage_of kind ≡ info_view static_storage self.entry) }
        ensures equal { IfOk result (λ kind.
            IsTrue (⟦<CodeBlockKind<'a> as PartialEq>⟧.eq kind self.entry)) }
    {
        match self {
            CodeBlockKind::Indented => Ok(CodeBlockKind::Indented),
            CodeBlockKind::Fenced(info) => Ok(CodeBlockKind::Fenced(info.into_static(alloc)?)),
        }
    }
}

/// The kind of an alert: a block quote that begins with a line as `[!NOTE]`, in any case. Needs
/// `ENABLE_GFM`.
#[derive(Clone, Copy, Debug, PartialEq, Eq, PartialOrd, Ord, Hash)]
pub enum BlockQuoteKind {
    /// `[!NOTE]`
    Note,
    /// `[!TIP]`
    Tip,
    /// `[!IMPORTANT]`
    Important,
    /// `[!WARNING]`
    Warning,
    /// `[!CAUTION]`
    Caution,
}

impl BlockQuoteKind {
    /// The number of the kind, from 1 to 5 in the order that the kinds have here. It is for callers
    /// that keep kinds as numbers, as C does; no specification gives one.
    pub fn number(self) -> u8
        ensures { result ≡ alert_number self }
    {
        self as u8 + 1
    }

    /// The kind of this number, and None where no kind has it.
    pub fn from_number(number: u8) -> Option<BlockQuoteKind>
        ensures { (kind : BlockQuoteKind) → (result ≡ Some kind) ↔ (alert_number kind ≡ number) }
    {
        match number {
            1 => Some(BlockQuoteKind::Note),
            2 => Some(BlockQuoteKind::Tip),
            3 => Some(BlockQuoteKind::Important),
            4 => Some(BlockQuoteKind::Warning),
            5 => Some(BlockQuoteKind::Caution),
            _ => None,
        }
    }
}

/// The kind of a metadata block, by the lines that enclose it.
#[derive(Clone, Copy, Debug, PartialEq, Eq, PartialOrd, Ord, Hash)]
pub enum MetadataBlockKind {
    /// Three hyphens. Needs `ENABLE_YAML_STYLE_METADATA_BLOCKS`.
    YamlStyle,
    /// Three plus signs. Needs `ENABLE_PLUSES_DELIMITED_METADATA_BLOCKS`.
    PlusesStyle,
}

/// The level of a heading. (CommonMark 0.31.2, sections 4.2 and 4.3)
#[derive(Clone, Copy, Debug, PartialEq, Eq, PartialOrd, Ord, Hash)]
pub enum HeadingLevel {
    /// The highest: one `#`, or an underline of `=`.
    H1 = 1,
    /// Two `#`, or an underline of `-`.
    H2,
    /// Three `#`.
    H3,
    /// Four `#`.
    H4,
    /// Five `#`.
    H5,
    /// The lowest: six `#`.
    H6,
}

impl HeadingLevel {
    /// The number of the level, from 1 to 6.
    pub fn number(self) -> usize
        ensures number { result ≡ heading_number self }
        ensures positive { 0 < result }
        ensures within { result ≤ 6 }
    {
        self as usize
    }
}

impl TryFrom<usize> for HeadingLevel {
    type Error = InvalidHeadingLevel;

    ghost try_from_gives = { λ number r. MatchResult r (λ level. heading_number level ≡ number)
        (λ e. (e.0 ≡ number) × ((number ≡ 0) ⊎ (6 < number))) };

    fn try_from(number: usize) -> Result<HeadingLevel, InvalidHeadingLevel> {
        match number {
            1 => Ok(HeadingLevel::H1),
            2 => Ok(HeadingLevel::H2),
            3 => Ok(HeadingLevel::H3),
            4 => Ok(HeadingLevel::H4),
            5 => Ok(HeadingLevel::H5),
            6 => Ok(HeadingLevel::H6),
            _ => Err(InvalidHeadingLevel(number)),
        }
    }
}

/// The name alone, whatever width a hole asks for.
impl fmt::Display for HeadingLevel {
    ghost output = { λ level. Some (heading_name level) };

    ghost styled_output = { λ level _. Some (heading_name level) };

    fn fmt<W: fmt::Write>(&self, f: &mut fmt::Formatter<W>) -> fmt::Result {
        f.write_str(match self {
            HeadingLevel::H1 => "h1",
            HeadingLevel::H2 => "h2",
            HeadingLevel::H3 => "h3",
            HeadingLevel::H4 => "h4",
            HeadingLevel::H5 => "h5",
            HeadingLevel::H6 => "h6",
        })
    }
}

/// A number that is no level of a heading: 0, or above 6.
#[derive(Clone, Copy, Debug, PartialEq, Eq, PartialOrd, Ord, Hash)]
pub struct InvalidHeadingLevel(pub usize);

/// The alignment of a table's column. (GFM, section 4.10)
#[derive(Clone, Copy, Debug, PartialEq)]
pub enum Alignment {
    /// The delimiter row gives none.
    None,
    /// A colon at the left of the delimiter cell.
    Left,
    /// A colon at each side.
    Center,
    /// A colon at the right.
    Right,
}

impl Alignment {
    /// The number of the alignment, from 0 to 3 in the order that the alignments have here. It is
    /// for callers that keep alignments as numbers, as C does; no specification gives one.
    pub fn number(self) -> u8
        ensures { result ≡ alignment_number self }
    {
        self as u8
    }

    /// The alignment of this number, and None where no alignment has it.
    pub fn from_number(number: u8) -> Option<Alignment>
        ensures { (alignment : Alignment) → (result ≡ Some alignment)
            ↔ (alignment_number alignment ≡ number) }
    {
        match number {
            0 => Some(Alignment::None),
            1 => Some(Alignment::Left),
            2 => Some(Alignment::Center),
            3 => Some(Alignment::Right),
            _ => None,
        }
    }
}

/// How a link or an image was written. (CommonMark 0.31.2, sections 6.3 to 6.5)
#[derive(Clone, Copy, Debug, PartialEq)]
pub enum LinkType {
    /// `[text](destination)`
    Inline,
    /// `[text][label]`
    Reference,
    /// A reference whose label has no definition.
    ReferenceUnknown,
    /// `[label][]`
    Collapsed,
    /// A collapsed reference whose label has no definition.
    CollapsedUnknown,
    /// `[label]`
    Shortcut,
    /// A shortcut whose label has no definition.
    ShortcutUnknown,
    /// `<scheme:address>`
    Autolink,
    /// `<name@host>`
    Email,
    /// `[[page]]`. Needs `ENABLE_WIKILINKS`.
    WikiLink {
        /// Whether a text stands after a pipe, as in `[[page|text]]`.
        has_pothole: bool,
    },
}

impl LinkType {
    /// The same kind of reference, to a label that has no definition. Only a `Reference`,
    /// `Collapsed` or `Shortcut` has one.
    pub fn to_unknown(self) -> LinkType
        requires { IsSome (unknown_kind self) }
        ensures { unknown_kind self ≡ Some result }
    {
        match self {
            LinkType::Reference => LinkType::ReferenceUnknown,
            LinkType::Collapsed => LinkType::CollapsedUnknown,
            LinkType::Shortcut => LinkType::ShortcutUnknown,
            _ => unreachable!(),
        }
    }
}
