//! The link reference definitions of a page. (CommonMark 0.31.2, section 4.7)
ghost use Rattle.std.specs.Prelude.{◌≡◌, IfErr, IfNone, IfOk, IfSome, None, Some};
ghost use Rattle.std.specs.Str.{IsUtf8};
ghost use Rattle.markdown_values.specs.strings.Text.{cow_text};
ghost use Rattle.markdown_blocks.specs.link_definitions.LinkDefinitions.{known_as};
ghost use Rattle.markdown_blocks.specs.link_definitions.Listed.{AreListed};
ghost use Rattle.markdown_events.specs.Meanings.{IsTargetMeaning};
ghost use Rattle.markdown_events.specs.Targets.{or_else, seen_target};

use crate::definitions::{Definitions, Target};
use crate::parts::{meaning_of, text_of, title_meaning};
use markdown_blocks::link_definitions::{KnownDefinitions, LinkDefinition, LinkDefinitions};
use markdown_values::strings::CowStr;
use std::alloc::{AllocError, Global};
use std::marker::Model;
use std::str::from_utf8;

/// The link reference definitions of a page, by their labels: of each label the first. What of them
/// is a run of the page is lent from it. `find` answers where a label leads as it is written, and
/// `get` what is meant by that.
#[derive(Drop)]
pub struct PageDefinitions<'a> {
    alloc: Global,
    known: LinkDefinitions<'a>,
}

impl<'a> Model for PageDefinitions<'a> {
    ghost use Rattle.markdown_blocks.specs.link_definitions.LinkDefinitions.{Known};

    ghost Value = { Known };

    ghost view = { λ d. d.known };
}

impl<'a> PageDefinitions<'a> {
    /// The definitions that are known of a page.
    pub(crate) fn new(alloc: Global, known: LinkDefinitions<'a>) -> PageDefinitions<'a>
        ensures { result ≡ known.entry }
    {
        PageDefinitions { alloc, known }
    }

    /// Where a label leads, if it is defined: the destination and the title of its first definition,
    /// their backslash escapes and character references resolved. Each run of white space in the
    /// label is one space, and none stands at its ends; its case doesn't matter.
    ///
    /// Memory is asked for the case folding of a label that is not ASCII or longer than 32 bytes, and for a
    /// text that isn't a run of the page.
    ///
    /// # Errors
    ///
    /// `AllocError` where memory is refused.
    pub fn get(&self, label: &str) -> Result<Option<Target<'a>>, AllocError>
        ensures found { IfOk result (λ found. IfSome found (λ target.
            IsTargetMeaning (known_as self.now label.now) (seen_target target))) }
        ensures none { IfOk result (λ found. IfNone found (known_as self.now label.now ≡ None)) }
    {
        match self.find(label)? {
            Some(written) => Ok(Some(target_meaning(self.alloc, written)?)),
            None => Ok(None),
        }
    }

    /// The definitions of the page, of each label the first, with the case folding of its label, in the
    /// order of these foldings. The texts of a definition are as they are written.
    pub fn iter(&self) -> KnownDefinitions<'_, 'a>
        ensures all { result ≡ self.now }
        ensures listed { AreListed self.now }
    {
        self.known.iter()
    }
}

// What is meant by where a definition leads.
fn target_meaning<'a>(alloc: Global, written: Target<'a>) -> Result<Target<'a>, AllocError>
    ensures { IfOk result (λ target.
        IsTargetMeaning (Some (seen_target written.entry)) (seen_target target)) }
{
    let destination = meaning_of(alloc, written.destination)?;
    let title = match written.title {
        Some(title) => Some(title_meaning(alloc, title)?),
        None => None,
    };
    Ok(Target { destination, title })
}

impl<'a> Definitions<'a> for PageDefinitions<'a> {
    ghost targets = { known_as };

    fn find(&self, label: &str) -> Result<Option<Target<'a>>, AllocError> {
        match self.known.get(label)? {
            Some(definition) => Ok(Some(target_of(self.alloc, definition)?)),
            None => Ok(None),
        }
    }

    fn is_defined(&self, label: &str) -> Result<bool, AllocError> {
        Ok(self.known.get(label)?.is_some())
    }
}

/// The definitions of a page, and of labels that it doesn't define those of `broken`.
#[derive(Drop)]
pub(crate) struct WithBrokenLinks<'a, 'd, 'b, B> {
    page: &'d PageDefinitions<'a>,
    broken: &'b B,
}

impl<'a, 'd, 'b, B: Definitions<'a>> WithBrokenLinks<'a, 'd, 'b, B> {
    /// The definitions of a page before these.
    pub(crate) fn new(
        page: &'d PageDefinitions<'a>,
        broken: &'b B,
    ) -> WithBrokenLinks<'a, 'd, 'b, B>
        ensures page { result.page.now ≡ page.now }
        ensures broken { result.broken.now ≡ broken.now }
    {
        WithBrokenLinks { page, broken }
    }
}

impl<'a, 'd, 'b, B: Definitions<'a>> Definitions<'a> for WithBrokenLinks<'a, 'd, 'b, B> {
    ghost targets = { λ it. or_else (known_as it.page.now) (B.targets it.broken.now) };

    fn find(&self, label: &str) -> Result<Option<Target<'a>>, AllocError> {
        match self.page.find(label)? {
            Some(target) => Ok(Some(target)),
            None => self.broken.find(label),
        }
    }

    fn is_defined(&self, label: &str) -> Result<bool, AllocError> {
        if self.page.is_defined(label)? {
            return Ok(true);
        }
        self.broken.is_defined(label)
    }
}

// Where a definition leads.
fn target_of<'a>(alloc: Global, definition: &LinkDefinition<'a>) -> Result<Target<'a>, AllocError>
    ensures { IfOk result (λ target. seen_target target ≡ definition.now.target) }
{
    let destination = match definition.lent_destination() {
        Some(lent) => CowStr::from(text_in(lent)?),
        None => copy_of(alloc, definition.destination())?,
    };
    let title = match (definition.lent_title(), definition.title()) {
        (Some(lent), _) => Some(CowStr::from(text_in(lent)?)),
        (None, Some(title)) => Some(copy_of(alloc, title)?),
        (None, None) => None,
    };
    Ok(Target { destination, title })
}

// A copy of a text.
fn copy_of(alloc: Global, bytes: &[u8]) -> Result<CowStr<'static>, AllocError>
    ensures { IfOk result (λ copy. cow_text copy ≡ bytes.now) }
{
    CowStr::from(text_in(bytes)?).into_static(alloc)
}

// The text that bytes of a definition are.
fn text_in(bytes: &[u8]) -> Result<&str, AllocError>
    ensures text { IfOk result (λ text. text.now ≡ bytes.now) }
    ensures refused { IfErr result (λ _. ¬ (IsUtf8 bytes.now)) }
{
    // Most texts are ASCII, of which it costs little to tell.
    if bytes.is_ascii() {
        return Ok(text_of(bytes));
    }
    match from_utf8(bytes) {
        Ok(text) => Ok(text),
        // Not reached: the page is UTF-8, and definitions are cut at ASCII bytes.
        Err(_) => Err(AllocError),
    }
}
