//! Which link reference definition of a page a label finds. (CommonMark 0.31.2, sections 4.7 and 6.3)
ghost use Rattle.std.specs.Prelude.{◌≡◌, ◌<◌, ◌≤◌, [], ◌∷◌, false, List, ℕ, length, option_map, take};
ghost use Rattle.std.specs.Prelude.{is_none, is_some, IsAscii, IfOk, IfErr, IfNone, IfSome, OnOk, Some};
ghost use Rattle.std.specs.Cow.{cow_slice_items};
ghost use Rattle.std.specs.Iterator.{at_most};
ghost use Rattle.std.specs.Map.Iter.{TakesFirst, deref_pair};
ghost use Rattle.std.specs.Option.{option_copied};
ghost use Rattle.markdown_values.specs.strings.Text.{cow_text};
ghost use Rattle.markdown_scanners_tree.specs.NoSkips.{SkipsNothing};
ghost use Rattle.markdown_scanners_tree.specs.SomeExactly.{SomeExactly};
ghost use Rattle.markdown_scanners_tree.specs.linklabel.Key.{key_bytes};
ghost use Rattle.markdown_scanners_tree.specs.linklabel.Label.{Label, IsLabelInBytes};
ghost use Rattle.markdown_values.specs.values.Extensions.{commonmark};
ghost use Rattle.markdown_blocks.specs.definitions.Definitions.{IsDefinition};
ghost use Rattle.markdown_blocks.specs.link_definitions.Lent.{from_byte, is_lent, is_run_in, is_some_such, lent_target};
ghost use Rattle.markdown_blocks.specs.link_definitions.LinkDefinitions.{Named, LentTarget, Known, HasDefinitions, Names, IsNamed};
ghost use Rattle.markdown_blocks.specs.link_definitions.LinkDefinitions.{AreAddedUpTo, first_of, known_as, known_before, slice, target_in};
ghost use Rattle.markdown_blocks.specs.link_definitions.Listed.{AreListed};
ghost use Rattle.markdown_blocks.specs.taken.Lines.{IsTaken};
ghost use Rattle.markdown_scanners_tree.specs.declared.scanners.reference_definitions.ReferenceDefinition.{ReferenceDefinition};
ghost use Rattle.markdown_scanners_tree.specs.scanners.TextLines.{lines_of};

use crate::byte_order_mark::text_start;
use crate::definitions::{count_lines, scan_definition};
use crate::foldings::{Folding, SHORT};
use crate::taken::Extent;
use crate::walk::Walk;
use caseless::default_case_fold_str;
use markdown_scanners_tree::linklabel::scan_link_label_bytes;
use markdown_scanners_tree::scanners::{ReferenceDefinition, scan_line};
use markdown_values::strings::CowStr;
use markdown_values::values::Extensions;
use std::alloc::{AllocError, Global};
use std::borrow::CowSlice;
use std::collections::BTreeMap;
use std::collections::btree_map::{self, Entry};
use std::marker::Model;
use std::ops::Range;

/// Where a link reference definition leads. Its texts are as they are written: `unescape` decodes
/// their backslash escapes and character references. They are lent from the page where they are
/// one run of it, and else, as a title over the lines of a block quote, have memory of their own.
#[derive(Drop)]
pub struct LinkDefinition<'a> {
    destination: CowSlice<'a, u8>,
    title: Option<CowSlice<'a, u8>>,
}

impl<'a> Model for LinkDefinition<'a> {
    ghost Value = { LentTarget };

    ghost view = { λ d. record {
      target = record {
        destination = cow_slice_items d.destination;
        title = option_map cow_slice_items d.title;
      };
      is_destination_lent = is_lent d.destination;
      is_title_lent = is_some_such is_lent d.title;
    } };
}

impl<'a> LinkDefinition<'a> {
    /// The definition at the front of this content, as `scan_definition` finds it. Each line of the
    /// content is the end of one of these lines, in their order, as `add_content` and
    /// `Walk::next_block` gather it from them. A text is lent where it stands in the lines so, one byte
    /// directly after another, and else it is copied.
    ///
    /// # Errors
    ///
    /// `AllocError` where memory for a copy is refused.
    pub fn new(
        alloc: Global,
        content: &[u8],
        definition: &ReferenceDefinition,
        lines: &'a [u8],
    ) -> Result<LinkDefinition<'a>, AllocError>
        requires within { definition.now.len ≤ length content.now }
        requires destination { (definition.now.destination.start ≤ definition.now.destination.end)
            × (definition.now.destination.end ≤ definition.now.len) }
        requires title { IfSome definition.now.title (λ title. (title.start ≤ title.end)
            × (title.end < definition.now.len)) }
        ensures { IfOk result (λ made.
            made ≡ lent_target lines.now content.now definition.now) }
    {
        let destination = read_range(alloc, content, &definition.destination, lines)?;
        let title = match &definition.title {
            Some(title) => Some(read_range(alloc, content, title, lines)?),
            None => None,
        };
        Ok(LinkDefinition { destination, title })
    }

    /// Its destination, without the angle brackets that it may have.
    pub fn destination(&self) -> &[u8]
        ensures { result.now ≡ self.now.target.destination }
    {
        self.destination.as_slice()
    }

    /// Its title, without the quotes or parentheses around it.
    pub fn title(&self) -> Option<&[u8]>
        ensures { option_map (λ title. title.now) result ≡ self.now.target.title }
    {
        match &self.title {
            Some(title) => Some(title.as_slice()),
            None => None,
        }
    }

    /// Its destination, where that is lent from the page.
    pub fn lent_destination(&self) -> Option<&'a [u8]>
        ensures some { IfSome result (λ bytes. bytes.now ≡ self.now.target.destination) }
        ensures lent { is_some result ≡ self.now.is_destination_lent }
    {
        lent(&self.destination)
    }

    /// Its title, where it has one that is lent from the page.
    pub fn lent_title(&self) -> Option<&'a [u8]>
        ensures some { IfSome result (λ bytes. self.now.target.title ≡ Some bytes.now) }
        ensures lent { is_some result ≡ self.now.is_title_lent }
    {
        match &self.title {
            Some(title) => lent(title),
            None => None,
        }
    }
}

// The bytes, where they are lent.
fn lent<'a>(bytes: &CowSlice<'a, u8>) -> Option<&'a [u8]>
    ensures some { IfSome result (λ lent. lent.now ≡ cow_slice_items bytes.now) }
    ensures lent { is_some result ≡ is_lent bytes.now }
{
    match bytes {
        CowSlice::Borrowed(lent) => Some(*lent),
        CowSlice::Owned(_) => None,
    }
}

/// The link reference definitions that are known, by their labels: of each label the first.
///
/// They are kept in the order of their case foldings, so that neither labels that are many nor
/// labels that are made to collide take more than a search in a tree.
#[derive(Drop)]
pub struct LinkDefinitions<'a> {
    alloc: Global,
    by_key: BTreeMap<Folding, LinkDefinition<'a>>,
}

impl<'a> Model for LinkDefinitions<'a> {
    ghost use Rattle.std.specs.List.{All};
    ghost use Rattle.std.specs.Map.{keys_of};
    ghost use Rattle.markdown_blocks.specs.link_definitions.LinkDefinitions.{Known};
    ghost use Rattle.markdown_blocks.specs.link_definitions.Listed.{IsFolding};

    ghost Value = { Known };

    ghost view = { λ d. d.by_key.entries };

    ghost invariant = { λ d. All IsFolding (keys_of d.by_key.entries) };
}

impl<'a> LinkDefinitions<'a> {
    /// None.
    pub fn new(alloc: Global) -> LinkDefinitions<'a>
        ensures none { result ≡ [] }
    {
        LinkDefinitions {
            alloc,
            by_key: BTreeMap::new(alloc),
        }
    }

    /// Those of a page, in one pass over it.
    pub fn of_page(alloc: Global, page: &'a [u8]) -> Result<LinkDefinitions<'a>, AllocError>
        ensures first { IfOk result (λ known. (named : List Named)
            × HasDefinitions commonmark page.now named
            × ((label : List ℕ) → known_as known label ≡ first_of label named)) }
    {
        LinkDefinitions::of_page_ext(alloc, page, Extensions::none())
    }

    /// The same with these extensions on.
    pub fn of_page_ext(
        alloc: Global,
        page: &'a [u8],
        extensions: Extensions,
    ) -> Result<LinkDefinitions<'a>, AllocError>
        ensures first { IfOk result (λ known. (named : List Named)
            × HasDefinitions extensions page.now named
            × ((label : List ℕ) → known_as known label ≡ first_of label named)) }
    {
        let mut known = LinkDefinitions::new(alloc);
        let mut walk = Walk::new_ext(alloc, extensions);
        let mut content = Vec::new(alloc);
        let mut before = text_start(page);
        while let Some(step) = walk.next_block(alloc, &mut content, &page[before..], true)? {
            known.add_content(&content, step.lines)?;
            before += step.block.taken.bytes;
        }
        Ok(known)
    }

    /// The first definition whose label matches this one, if there is one. The label is as
    /// `scan_link_label_rest` reads it, with each run of white space as one space.
    ///
    /// Memory is asked for the label's case folding, where any definition is known and the label is not
    /// ASCII, or longer than 32 bytes.
    pub fn get(&self, label: &str) -> Result<Option<&LinkDefinition<'a>>, AllocError>
        ensures { IfOk result (λ found.
            option_map target_in (option_copied found) ≡ known_as self.now label.now) }
    {
        if self.by_key.is_empty() {
            return Ok(None);
        }
        let key = key_of(self.alloc, label)?;
        Ok(self.by_key.get(&key))
    }

    /// The definitions that are known, each with the case folding of its label, in the order of these
    /// foldings.
    pub fn iter(&self) -> KnownDefinitions<'_, 'a>
        ensures all { result ≡ self.now }
        ensures listed { AreListed self.now }
    {
        KnownDefinitions {
            entries: self.by_key.iter(),
        }
    }

    /// Adds the definition of a label, unless the label has one. Answers whether it is added. The
    /// label is as `get` has it.
    pub fn add(&mut self, label: &str, definition: LinkDefinition<'a>) -> Result<bool, AllocError>
        ensures added { OnOk result ((asked : List ℕ) → known_as self.new asked
            ≡ known_before self.old
            (record { label = label.now; target = definition.entry.target } ∷ []) asked) }
        ensures is_first { IfOk result (λ is_added.
            is_added ≡ is_none (known_as self.old label.now)) }
        ensures refused { IfErr result (λ _. self.new ≡ self.old) }
    {
        let key = key_of(self.alloc, label)?;
        let entry = self.by_key.entry(key)?;
        let is_first = match entry {
            Entry::Vacant(_) => true,
            Entry::Occupied(_) => false,
        };
        entry.or_insert(definition);
        Ok(is_first)
    }

    /// Adds the definitions that a block's content begins with, in order. The content is as
    /// `Walk::next_block` and `definitions::add_content` gather it from these lines.
    ///
    /// After a refusal some of them are added. To add them all again then is no different from
    /// adding them at first.
    pub fn add_content(&mut self, content: &[u8], lines: &'a [u8]) -> Result<(), AllocError>
        ensures added { OnOk result ((named : List Named) × Names content.now named
            × ((asked : List ℕ) → known_as self.new asked ≡ known_before self.old named asked)) }
        ensures refused { IfErr result (λ _. (offset : ℕ)
            × AreAddedUpTo offset content.now self.old self.new) }
    {
        // Most blocks begin with no definition, and have no content gathered.
        if content.is_empty() {
            return Ok(());
        }
        let mut used = 0;
        let mut rest = lines;
        while let Some(definition) = scan_definition(&content[used..]) {
            let text = &content[used..];
            self.add_first(text, &definition, rest)?;
            rest = offset_in(rest, text, definition.len);
            used += definition.len;
        }
        Ok(())
    }

    /// Adds the definition at the front of the content of these lines, if one stands there. Answers how
    /// many bytes and lines it has.
    pub(crate) fn add_next(
        &mut self,
        content: &[u8],
        lines: &'a [u8],
    ) -> Result<Option<Extent>, AllocError>
        ensures found { IfOk result (λ found. IfSome found (λ taken.
            (definition : ReferenceDefinition) × IsDefinition content.now definition
            × (taken.bytes ≡ definition.len)
            × IsTaken content.now taken (lines_of (take definition.len content.now)))) }
        ensures none { IfOk result (λ found. IfNone found ((definition : ReferenceDefinition)
            → ¬ IsDefinition content.now definition)) }
        ensures some { IfOk result (λ found. IfSome found (λ taken. 0 < taken.bytes)) }
        ensures within { IfOk result (λ found.
            IfSome found (λ taken. taken.bytes ≤ length content.now)) }
        ensures added { IfOk result (λ found. IfSome found (λ taken.
            AreAddedUpTo taken.bytes content.now self.old self.new)) }
        ensures unchanged { IfOk result (λ found. IfNone found (self.new ≡ self.old)) }
        ensures refused { IfErr result (λ _. self.new ≡ self.old) }
    {
        if content.is_empty() {
            return Ok(None);
        }
        let Some(definition) = scan_definition(content) else {
            return Ok(None);
        };
        self.add_first(content, &definition, lines)?;
        Ok(Some(count_lines(&content[..definition.len])))
    }

    // Adds the definition at the front of the text, which is the content of these lines.
    fn add_first(
        &mut self,
        text: &[u8],
        definition: &ReferenceDefinition,
        lines: &'a [u8],
    ) -> Result<(), AllocError>
        requires definition { IsDefinition text.now definition.now }
        requires within { definition.now.len ≤ length text.now }
        requires destination { (definition.now.destination.start ≤ definition.now.destination.end)
            × (definition.now.destination.end ≤ definition.now.len) }
        requires title { IfSome definition.now.title (λ title. (title.start ≤ title.end)
            × (title.end < definition.now.len)) }
        ensures added { OnOk result ((named : List Named) × IsNamed text.now definition.now named
            × ((asked : List ℕ) → known_as self.new asked ≡ known_before self.old named asked)) }
        ensures refused { IfErr result (λ _. self.new ≡ self.old) }
    {
        let Some(label) = read_label(self.alloc, &text[definition.label.start..])? else {
            return Ok(());
        };
        let target = LinkDefinition::new(self.alloc, text, definition, lines)?;
        self.add(label.as_str(), target)?;
        Ok(())
    }
}

/// Definitions that are known, one after another, each with the case folding of its label.
#[derive(Drop)]
pub struct KnownDefinitions<'d, 'a> {
    entries: btree_map::Iter<'d, Folding, LinkDefinition<'a>>,
}

impl<'d, 'a> Model for KnownDefinitions<'d, 'a> {
    ghost use Rattle.markdown_blocks.specs.link_definitions.LinkDefinitions.{Known};

    ghost Value = { Known };

    ghost view = { λ d. d.entries };
}

impl<'d, 'a> Iterator for KnownDefinitions<'d, 'a> {
    type Item = (&'d str, &'d LinkDefinition<'a>);

    ghost next_gives = { TakesFirst deref_pair };

    ghost remaining = { λ d. at_most (length d) };

    fn next(&mut self) -> Option<(&'d str, &'d LinkDefinition<'a>)> {
        match self.entries.next() {
            Some((key, definition)) => Some((key.as_str(), definition)),
            None => None,
        }
    }
}

// The key of a label.
fn key_of(alloc: Global, label: &str) -> Result<Folding, AllocError>
    ensures { IfOk result (λ key. key ≡ key_bytes label.now) }
{
    // Most labels are ASCII, and are folded where they are copied to.
    if label.is_ascii() {
        return ascii_key(alloc, label);
    }
    Ok(Folding::new(default_case_fold_str(alloc, label)?))
}

// The key of a label of ASCII, which is in lower case. Most labels are short, and take no memory.
fn ascii_key(alloc: Global, label: &str) -> Result<Folding, AllocError>
    requires { IsAscii label.now }
    ensures { IfOk result (λ key. key ≡ key_bytes label.now) }
{
    if label.len() <= SHORT {
        return Ok(Folding::lower(label));
    }
    Ok(Folding::new(label.to_ascii_lowercase(alloc)?))
}

/// The label whose opening bracket stands directly before these bytes, if one ends in them. It is as
/// `LinkDefinitions::get` has it: each run of white space is one space, and none stands at its ends. It
/// is lent where it stands so in the bytes, and else has memory of its own. Bytes that aren't UTF-8 have
/// no characters that another label could match, and are no label.
///
/// # Errors
///
/// `AllocError` where memory is refused.
pub fn read_label<'t>(alloc: Global, text: &'t [u8]) -> Result<Option<CowStr<'t>>, AllocError>
    ensures { IfOk result (λ found. SomeExactly (λ bytes. (label : Label)
        × IsLabelInBytes SkipsNothing text.now false label × (label.text ≡ bytes))
        (option_map cow_text found)) }
{
    let skips_nothing = |_rest: &[u8]| -> Option<usize>
        ensures { result ≡ Some 0 }
    { Some(0) };
    match scan_link_label_bytes(alloc, text, &skips_nothing, false)? {
        Some((_, label)) => Ok(Some(label)),
        None => Ok(None),
    }
}

// The text in the range, lent from the lines where it stands in them.
fn read_range<'a>(
    alloc: Global,
    text: &[u8],
    range: &Range<usize>,
    lines: &'a [u8],
) -> Result<CowSlice<'a, u8>, AllocError>
    requires begins { range.now.start ≤ range.now.end }
    requires ends { range.now.end ≤ length text.now }
    ensures bytes { IfOk result (λ found. cow_slice_items found ≡ slice range.now text.now) }
    ensures lent { IfOk result (λ found.
        is_lent found ≡ is_run_in lines.now text.now range.now) }
{
    let bytes = &text[range.start..range.end];
    let there = offset_in(lines, text, range.start);
    if there.starts_with(bytes) {
        return Ok(CowSlice::Borrowed(&there[..bytes.len()]));
    }
    let mut copy = Vec::new(alloc);
    copy.extend_from_slice(bytes)?;
    Ok(CowSlice::Owned(copy))
}

// What of the lines begins with the byte at the offset of a text whose lines are the ends of these.
fn offset_in<'a>(lines: &'a [u8], text: &[u8], offset: usize) -> &'a [u8]
    ensures { result.now ≡ from_byte offset (lines_of text.now) (lines_of lines.now) }
{
    let mut left = text;
    let mut further = offset;
    let mut rest = lines;
    while !left.is_empty() {
        let length = scan_line(left);
        let line = scan_line(rest);
        if further < length {
            return &rest[line.saturating_sub(length - further)..];
        }
        further -= length;
        left = &left[length..];
        rest = &rest[line..];
    }
    rest
}
