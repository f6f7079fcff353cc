//! Tags: what opens and closes a part of a document.
ghost use Rattle.std.specs.Prelude.{◌≡◌, IsTrue, IfOk};
ghost use Rattle.markdown_values.specs.values.Tags.{tag_view, end_of};
ghost use Rattle.markdown_values.specs.strings.Text.{cow_text, storage_of, clone_storage, static_storage};

use crate::strings::CowStr;
use crate::values::tag_parts::{
    clone_alignments, clone_attributes, clone_optional, clone_texts, static_attributes,
    static_optional, static_texts,
};
use crate::values::{
    Alignment, BlockQuoteKind, CodeBlockKind, HeadingLevel, LinkType, MetadataBlockKind,
};
use std::alloc::{AllocError, Global};

/// What opens a part of a document. Each has the end that `to_end` gives. (Sections are of
/// CommonMark 0.31.2.)
#[derive(Debug, PartialEq, Drop)]
pub enum Tag<'a> {
    /// A paragraph. (4.8)
    Paragraph,
    /// A heading. (4.2, 4.3) What stands in braces after it needs `ENABLE_HEADING_ATTRIBUTES`.
    Heading {
        /// Its level.
        level: HeadingLevel,
        /// The identifier, without its `#`.
        id: Option<CowStr<'a>>,
        /// The classes, each without its dot.
        classes: Vec<CowStr<'a>>,
        /// The other attributes, with or without a value.
        attrs: Vec<(CowStr<'a>, Option<CowStr<'a>>)>,
    },
    /// A block quote, with its kind where it is an alert. (5.1)
    BlockQuote(Option<BlockQuoteKind>),
    /// A code block. (4.4, 4.5)
    CodeBlock(CodeBlockKind<'a>),
    /// An HTML block. (4.6)
    HtmlBlock,
    /// A list; the number of the first item where the list is ordered. (5.3)
    List(Option<u64>),
    /// A list item. (5.2)
    Item,
    /// A footnote, with its label. Needs `ENABLE_FOOTNOTES` or `ENABLE_OLD_FOOTNOTES`.
    FootnoteDefinition(CowStr<'a>),
    /// A list of terms and definitions. Needs `ENABLE_DEFINITION_LIST`.
    DefinitionList,
    /// A term.
    DefinitionListTitle,
    /// A definition of the terms before it.
    DefinitionListDefinition,
    /// A table, with the alignment of each column. Needs `ENABLE_TABLES`.
    Table(Vec<Alignment>),
    /// The first row of a table, which has its headings.
    TableHead,
    /// Each later row.
    TableRow,
    /// A cell of a row.
    TableCell,
    /// Emphasis. (6.2)
    Emphasis,
    /// Strong emphasis. (6.2)
    Strong,
    /// Text struck through. Needs `ENABLE_STRIKETHROUGH`.
    Strikethrough,
    /// Text set higher. Needs `ENABLE_SUPERSCRIPT`.
    Superscript,
    /// Text set lower. Needs `ENABLE_SUBSCRIPT`.
    Subscript,
    /// A link. (6.3, 6.5)
    Link {
        /// How it was written.
        link_type: LinkType,
        /// The destination, its escapes and references resolved.
        dest_url: CowStr<'a>,
        /// The title; empty where there is none.
        title: CowStr<'a>,
        /// The label of a reference; empty for an inline link.
        id: CowStr<'a>,
    },
    /// An image, written as a link is. (6.4)
    Image {
        /// How it was written.
        link_type: LinkType,
        /// The offset of the image.
        dest_url: CowStr<'a>,
        /// The title; empty where there is none.
        title: CowStr<'a>,
        /// The label of a reference; empty for an inline image.
        id: CowStr<'a>,
    },
    /// Metadata at the start of a document.
    MetadataBlock(MetadataBlockKind),
}

impl<'a> Tag<'a> {
    /// The end that closes this tag.
    pub fn to_end(&self) -> TagEnd
        ensures { result ≡ end_of self.now }
    {
        match self {
            Tag::Paragraph => TagEnd::Paragraph,
            Tag::Heading { level, .. } => TagEnd::Heading(*level),
            Tag::BlockQuote(kind) => TagEnd::BlockQuote(*kind),
            Tag::CodeBlock(_) => TagEnd::CodeBlock,
            Tag::HtmlBlock => TagEnd::HtmlBlock,
            Tag::List(start) => TagEnd::List(start.is_some()),
            Tag::Item => TagEnd::Item,
            Tag::FootnoteDefinition(_) => TagEnd::FootnoteDefinition,
            Tag::DefinitionList => TagEnd::DefinitionList,
            Tag::DefinitionListTitle => TagEnd::DefinitionListTitle,
            Tag::DefinitionListDefinition => TagEnd::DefinitionListDefinition,
            Tag::Table(_) => TagEnd::Table,
            Tag::TableHead => TagEnd::TableHead,
            Tag::TableRow => TagEnd::TableRow,
            Tag::TableCell => TagEnd::TableCell,
            Tag::Emphasis => TagEnd::Emphasis,
            Tag::Strong => TagEnd::Strong,
            Tag::Strikethrough => TagEnd::Strikethrough,
            Tag::Superscript => TagEnd::Superscript,
            Tag::Subscript => TagEnd::Subscript,
            Tag::Link { .. } => TagEnd::Link,
            Tag::Image { .. } => TagEnd::Image,
            Tag::MetadataBlock(kind) => TagEnd::MetadataBlock(*kind),
        }
    }

    /// The same tag again, with each text as `CowStr::clone` gives it.
    ///
    /// # Errors
    ///
    /// `AllocError` where memory for a text or a list is refused.
    pub fn clone(&self, alloc: Global) -> Result<Tag<'a>, AllocError>
        ensures same { IfOk result (λ tag. tag_view cow_text tag ≡ tag_view cow_text self.now) }
        ensures storage { IfOk result (λ tag.
            tag_view storage_of tag ≡ tag_view clone_storage self.now) }
        ensures equal { IfOk result (λ tag. IsTrue (⟦<Tag<'a> as PartialEq>⟧.eq tag self.now)) }
    {
        match self {
            Tag::Paragraph => Ok(Tag::Paragraph),
            Tag::Heading {
                level,
                id,
                classes,
                attrs,
            } => Ok(Tag::Heading {
                level: *level,
                id: clone_optional(alloc, id)?,
                classes: clone_texts(alloc, classes)?,
                attrs: clone_attributes(alloc, attrs)?,
            }),
            Tag::BlockQuote(kind) => Ok(Tag::BlockQuote(*kind)),
            Tag::CodeBlock(kind) => Ok(Tag::CodeBlock(kind.clone(alloc)?)),
            Tag::HtmlBlock => Ok(Tag::HtmlBlock),
            Tag::List(start) => Ok(Tag::List(*start)),
            Tag::Item => Ok(Tag::Item),
            Tag::FootnoteDefinition(label) => Ok(Tag::FootnoteDefinition(label.clone(alloc)?)),
            Tag::DefinitionList => Ok(Tag::DefinitionList),
            Tag::DefinitionListTitle => Ok(Tag::DefinitionListTitle),
            Tag::DefinitionListDefinition => Ok(Tag::DefinitionListDefinition),
            Tag::Table(alignments) => Ok(Tag::Table(clone_alignments(alloc, alignments)?)),
            Tag::TableHead => Ok(Tag::TableHead),
            Tag::TableRow => Ok(Tag::TableRow),
            Tag::TableCell => Ok(Tag::TableCell),
            Tag::Emphasis => Ok(Tag::Emphasis),
            Tag::Strong => Ok(Tag::Strong),
            Tag::Strikethrough => Ok(Tag::Strikethrough),
            Tag::Superscript => Ok(Tag::Superscript),
            Tag::Subscript => Ok(Tag::Subscript),
            Tag::Link {
                link_type,
                dest_url,
                title,
                id,
            } => Ok(Tag::Link {
                link_type: *link_type,
                dest_url: dest_url.clone(alloc)?,
                title: title.clone(alloc)?,
                id: id.clone(alloc)?,
            }),
            Tag::Image {
                link_type,
                dest_url,
                title,
                id,
            } => Ok(Tag::Image {
                link_type: *link_type,
                dest_url: dest_url.clone(alloc)?,
                title: title.clone(alloc)?,
                id: id.clone(alloc)?,
            }),
            Tag::MetadataBlock(kind) => Ok(Tag::MetadataBlock(*kind)),
        }
    }

    /// The same tag with nothing borrowed, each text as `CowStr::into_static` gives it.
    ///
    /// # Errors
    ///
    /// `AllocError` where memory for a text or a list is refused; the tag is dropped then.
    pub fn into_static(self, alloc: Global) -> Result<Tag<'static>, AllocError>
        ensures same { IfOk result (λ tag. tag_view cow_text tag ≡ tag_view cow_text self.entry) }
        ensures storage { IfOk result (λ tag.
            tag_view storage_of tag ≡ tag_view static_storage self.entry) }
        ensures equal { IfOk result (λ tag. IsTrue (⟦<Tag<'a> as PartialEq>⟧.eq tag self.entry)) }
    {
        match self {
            Tag::Paragraph => Ok(Tag::Paragraph),
            Tag::Heading {
                level,
                id,
                classes,
                attrs,
            } => Ok(Tag::Heading {
                level,
                id: static_optional(alloc, id)?,
                classes: static_texts(alloc, classes)?,
                attrs: static_attributes(alloc, attrs)?,
            }),
            Tag::BlockQuote(kind) => Ok(Tag::BlockQuote(kind)),
            Tag::CodeBlock(kind) => Ok(Tag::CodeBlock(kind.into_static(alloc)?)),
            Tag::HtmlBlock => Ok(Tag::HtmlBlock),
            Tag::List(start) => Ok(Tag::List(start)),
            Tag::Item => Ok(Tag::Item),
            Tag::FootnoteDefinition(label) => Ok(Tag::FootnoteDefinition(label.into_static(
                alloc,
            )?)),
            Tag::DefinitionList => Ok(Tag::DefinitionList),
            Tag::DefinitionListTitle => Ok(Tag::DefinitionListTitle),
            Tag::DefinitionListDefinition => Ok(Tag::DefinitionListDefinition),
            Tag::Table(alignments) => Ok(Tag::Table(alignments)),
            Tag::TableHead => Ok(Tag::TableHead),
            Tag::TableRow => Ok(Tag::TableRow),
            Tag::TableCell => Ok(Tag::TableCell),
            Tag::Emphasis => Ok(Tag::Emphasis),
            Tag::Strong => Ok(Tag::Strong),
            Tag::Strikethrough => Ok(Tag::Strikethrough),
            Tag::Superscript => Ok(Tag::Superscript),
            Tag::Subscript => Ok(Tag::Subscript),
            Tag::Link {
                link_type,
                dest_url,
                title,
                id,
            } => Ok(Tag::Link {
                link_type,
                dest_url: dest_url.into_static(alloc)?,
                title: title.into_static(alloc)?,
                id: id.into_static(alloc)?,
            }),
            Tag::Image {
                link_type,
                dest_url,
                title,
                id,
            } => Ok(Tag::Image {
                link_type,
                dest_url: dest_url.into_static(alloc)?,
                title: title.into_static(alloc)?,
                id: id.into_static(alloc)?,
            }),
            Tag::MetadataBlock(kind) => Ok(Tag::MetadataBlock(kind)),
        }
    }
}

/// What closes a part of a document: the end of the tag of the same name.
#[derive(Clone, Copy, Debug, PartialEq, Eq, PartialOrd, Ord, Hash)]
pub enum TagEnd {
    /// Of a paragraph.
    Paragraph,
    /// Of a heading, with its level.
    Heading(HeadingLevel),
    /// Of a block quote, with its kind.
    BlockQuote(Option<BlockQuoteKind>),
    /// Of a code block of either kind.
    CodeBlock,
    /// Of an HTML block.
    HtmlBlock,
    /// Of a list: true where it is ordered.
    List(bool),
    /// Of a list item.
    Item,
    /// Of a footnote.
    FootnoteDefinition,
    /// Of a list of terms and definitions.
    DefinitionList,
    /// Of a term.
    DefinitionListTitle,
    /// Of a definition.
    DefinitionListDefinition,
    /// Of a table.
    Table,
    /// Of the first row.
    TableHead,
    /// Of a later row.
    TableRow,
    /// Of a cell.
    TableCell,
    /// Of emphasis.
    Emphasis,
    /// Of strong emphasis.
    Strong,
    /// Of text struck through.
    Strikethrough,
    /// Of text set higher.
    Superscript,
    /// Of text set lower.
    Subscript,
    /// Of a link.
    Link,
    /// Of an image.
    Image,
    /// Of metadata, with its kind.
    MetadataBlock(MetadataBlockKind),
}

impl<'a> From<Tag<'a>> for TagEnd {
    ghost from_gives = { λ tag end. end ≡ end_of tag };

    fn from(tag: Tag<'a>) -> TagEnd {
        tag.to_end()
    }
}
