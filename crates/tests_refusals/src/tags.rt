//! Kinds of code blocks, and tags, with all that owns memory in them.
use crate::printing::{Copied, MadeOf, print_consuming, print_copy};
use crate::stop::Stop;
use crate::texts::{Held, Holding, OF_30};
use markdown_values::strings::CowStr;
use markdown_values::values::{Alignment, CodeBlockKind, HeadingLevel, LinkType, Tag};
use std::alloc::{AllocError, Global};
use std::io::Stdout;

/// The tags that own memory.
#[derive(Clone, Copy)]
pub(crate) enum TagKind {
    Heading,
    CodeBlock,
    Footnote,
    Table,
    Link,
    Image,
}

#[derive(Clone, Copy)]
pub(crate) enum TagCase {
    KindClone,
    KindIntoStatic,
    Clone(TagKind),
    IntoStatic(TagKind),
}

pub(crate) fn run(alloc: Global, output: Stdout, case: TagCase) -> Result<(), Stop> {
    match case {
        TagCase::KindClone => print_copy(alloc, output, fenced(alloc, Holding::Owned)),
        TagCase::KindIntoStatic => kind_into_static(alloc, output),
        TagCase::Clone(kind) => print_copy(alloc, output, tag(alloc, kind, Holding::Owned)),
        TagCase::IntoStatic(kind) => into_static(alloc, output, kind),
    }
}

fn kind_into_static(alloc: Global, output: Stdout) -> Result<(), Stop> {
    print_consuming::<CodeBlockKind<'static>, CodeBlockKind<'static>>(
        alloc,
        output,
        OF_30,
        fenced(alloc, Holding::Lent),
        fenced(alloc, Holding::Lent),
    )
}

fn into_static(alloc: Global, output: Stdout, kind: TagKind) -> Result<(), Stop> {
    print_consuming::<Tag<'static>, Tag<'static>>(
        alloc,
        output,
        OF_30,
        tag(alloc, kind, Holding::Lent),
        tag(alloc, kind, Holding::Lent),
    )
}

impl Copied for CodeBlockKind<'static> {
    fn copied(&self, alloc: Global) -> Result<CodeBlockKind<'static>, AllocError> {
        self.clone(alloc)
    }
}

impl MadeOf<CodeBlockKind<'static>> for CodeBlockKind<'static> {
    fn made_of(
        alloc: Global,
        value: CodeBlockKind<'static>,
    ) -> Result<CodeBlockKind<'static>, AllocError> {
        value.into_static(alloc)
    }
}

impl Copied for Tag<'static> {
    fn copied(&self, alloc: Global) -> Result<Tag<'static>, AllocError> {
        self.clone(alloc)
    }
}

impl MadeOf<Tag<'static>> for Tag<'static> {
    fn made_of(alloc: Global, value: Tag<'static>) -> Result<Tag<'static>, AllocError> {
        value.into_static(alloc)
    }
}

/// A tag of this kind, whose texts are held in this way.
pub(crate) fn tag(
    alloc: Global,
    kind: TagKind,
    holding: Holding,
) -> Result<Tag<'static>, AllocError> {
    match kind {
        TagKind::Heading => Ok(heading_of(heading_texts(alloc, holding)?)),
        TagKind::CodeBlock => Ok(Tag::CodeBlock(fenced(alloc, holding)?)),
        TagKind::Footnote => Ok(Tag::FootnoteDefinition(CowStr::held(alloc, holding)?)),
        TagKind::Table => table(alloc),
        TagKind::Link => Ok(link_of(link_texts(alloc, holding)?)),
        TagKind::Image => Ok(image_of(link_texts(alloc, holding)?)),
    }
}

fn table(alloc: Global) -> Result<Tag<'static>, AllocError> {
    Ok(Tag::Table(two(alloc, Alignment::None, Alignment::Center)?))
}

/// The kind of a fenced code block.
pub(crate) fn fenced(
    alloc: Global,
    holding: Holding,
) -> Result<CodeBlockKind<'static>, AllocError> {
    Ok(CodeBlockKind::Fenced(CowStr::held(alloc, holding)?))
}

fn two<T: Drop>(alloc: Global, first: T, second: T) -> Result<Vec<T>, AllocError> {
    let mut values = Vec::new(alloc);
    values.push(first)?;
    values.push(second)?;
    Ok(values)
}

// What owns memory in a heading: an identifier, two classes and two attributes.
#[derive(Drop)]
struct HeadingTexts<T> {
    id: T,
    classes: Vec<T>,
    attrs: Vec<(T, Option<T>)>,
}

fn heading_texts<T: Held + Drop>(
    alloc: Global,
    holding: Holding,
) -> Result<HeadingTexts<T>, AllocError> {
    let id = T::held(alloc, holding)?;
    let classes = classes(alloc, holding)?;
    let attrs = attributes(alloc, holding)?;
    Ok(HeadingTexts { id, classes, attrs })
}

fn classes<T: Held + Drop>(alloc: Global, holding: Holding) -> Result<Vec<T>, AllocError> {
    let first = T::held(alloc, holding)?;
    let second = T::held(alloc, holding)?;
    two(alloc, first, second)
}

fn attributes<T: Held + Drop>(
    alloc: Global,
    holding: Holding,
) -> Result<Vec<(T, Option<T>)>, AllocError> {
    let first = named_and_valued(alloc, holding)?;
    let second = T::held(alloc, holding)?;
    two(alloc, first, (second, None))
}

fn named_and_valued<T: Held + Drop>(
    alloc: Global,
    holding: Holding,
) -> Result<(T, Option<T>), AllocError> {
    let name = T::held(alloc, holding)?;
    let value = T::held(alloc, holding)?;
    Ok((name, Some(value)))
}

fn heading_of(texts: HeadingTexts<CowStr<'static>>) -> Tag<'static> {
    Tag::Heading {
        level: HeadingLevel::H2,
        id: Some(texts.id),
        classes: texts.classes,
        attrs: texts.attrs,
    }
}

// What owns memory in a link or an image.
#[derive(Drop)]
struct LinkTexts<T> {
    dest_url: T,
    title: T,
    id: T,
}

fn link_texts<T: Held + Drop>(alloc: Global, holding: Holding) -> Result<LinkTexts<T>, AllocError> {
    let dest_url = T::held(alloc, holding)?;
    let title = T::held(alloc, holding)?;
    let id = T::held(alloc, holding)?;
    Ok(LinkTexts {
        dest_url,
        title,
        id,
    })
}

fn link_of(texts: LinkTexts<CowStr<'static>>) -> Tag<'static> {
    Tag::Link {
        link_type: LinkType::Inline,
        dest_url: texts.dest_url,
        title: texts.title,
        id: texts.id,
    }
}

fn image_of(texts: LinkTexts<CowStr<'static>>) -> Tag<'static> {
    Tag::Image {
        link_type: LinkType::Email,
        dest_url: texts.dest_url,
        title: texts.title,
        id: texts.id,
    }
}
