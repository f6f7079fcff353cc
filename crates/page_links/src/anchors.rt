//! The anchors of a page: what its headings make by GitHub's rule, and what its raw HTML makes.
ghost use Rattle.std.specs.Prelude.{◌≡◌, ◌++◌, ◌+◌, ◌<◌, ◌^◌, [], ◌∷◌, List, ℕ, length, map, IfOk, OnOk, string_bytes};
ghost use Rattle.std.specs.BTreeMap.{get_by_text};
ghost use Rattle.std.specs.Map.{count_at};
ghost use Rattle.std.specs.Option.{option_map};
ghost use Rattle.std.specs.Str.Lossy.{utf8_lossy};
ghost use Rattle.html_attributes.specs.StartTags.{seen_tag};
ghost use Rattle.page_links.specs.anchors.Anchors.{AreOfTag, AreOfTags, AreOfValue, name_of};
ghost use Rattle.page_links.specs.anchors.Anchors.{AreAnchorsOf, HasAnchors, anchor_of, anchors_of, counted, is_among};
ghost use Rattle.page_links.specs.anchors.private.Counts.{AreCounts};

use crate::headings::slugs_of_page;
use crate::html::html_of_page;
use html_attributes::tags::{StartTag, start_tags};
use html_attributes::values::meaning_of;
use html_entities::HtmlEntities;
use markdown_values::values::Extensions;
use std::alloc::{AllocError, Global};
use std::collections::{BTreeMap, BTreeSet};
use std::marker::Model;

/// The anchors of a page.
///
/// Each takes a few searches in a tree of anchors, however many the page has.
#[derive(Drop)]
pub struct Anchors {
    texts: BTreeSet<String>,
}

impl Model for Anchors {
    ghost use Rattle.std.specs.Prelude.{List, ℕ, map, string_bytes};

    ghost Value = { List (List ℕ) };

    ghost view = { λ anchors. map string_bytes anchors.texts.keys };
}

impl Anchors {
    /// What the headings of a page make, as `slugs_of_page` does, where one that was made before has
    /// `-1` after it, then `-2`, and so on; and what its raw HTML makes: the `id` of each element, and
    /// the `name` of each `a`, with their character references decoded.
    ///
    /// # Errors
    ///
    /// `AllocError` where memory is refused.
    pub fn of_page(alloc: Global, page: &str, setting: Extensions) -> Result<Anchors, AllocError>
        ensures { IfOk result (λ kept. (anchors : List (List ℕ))
            × AreAnchorsOf page.now setting anchors × HasAnchors kept anchors) }
    {
        let slugs = slugs_of_page(alloc, page, setting)?;
        let mut anchors = Anchors::of_slugs(alloc, &slugs)?;
        let html = html_of_page(alloc, page, setting)?;
        let tags = start_tags(alloc, &html)?;
        anchors.add_tags(alloc, &tags)?;
        Ok(anchors)
    }

    /// The same of a page of these bytes, where what is not UTF-8 is U+FFFD.
    ///
    /// # Errors
    ///
    /// `AllocError` where memory is refused.
    pub fn of_bytes(alloc: Global, page: &[u8], setting: Extensions) -> Result<Anchors, AllocError>
        ensures { IfOk result (λ kept. (anchors : List (List ℕ))
            × AreAnchorsOf (utf8_lossy page.now) setting anchors × HasAnchors kept anchors) }
    {
        let text = String::from_utf8_lossy(alloc, page)?;
        Anchors::of_page(alloc, text.as_str(), setting)
    }

    /// Whether a text is one of them.
    pub fn contains(&self, text: &str) -> bool
        ensures { result ≡ is_among self.now text.now }
    {
        self.texts.contains(text)
    }

    // None.
    fn new(alloc: Global) -> Anchors
        ensures { result ≡ [] }
    {
        Anchors {
            texts: BTreeSet::new(alloc),
        }
    }

    // Those of headings that make these.
    fn of_slugs(alloc: Global, slugs: &[String]) -> Result<Anchors, AllocError>
        ensures { IfOk result (λ kept.
            HasAnchors kept (anchors_of [] (map string_bytes slugs.now))) }
    {
        let mut anchors = Anchors::new(alloc);
        let mut counts = BTreeMap::new(alloc);
        for slug in slugs {
            let count = count_one(alloc, &mut counts, slug.as_str())?;
            let anchor = anchor_of(alloc, slug.as_str(), count)?;
            anchors.add(anchor)?;
        }
        Ok(anchors)
    }

    // Adds those that start tags make.
    fn add_tags(&mut self, alloc: Global, tags: &[StartTag]) -> Result<(), AllocError>
        ensures { OnOk result ((made : List (List ℕ)) × AreOfTags (map seen_tag tags.now) made
            × ((anchors : List (List ℕ)) → HasAnchors self.old anchors
            → HasAnchors self.new (anchors ++ made))) }
    {
        for tag in tags {
            self.add_tag(alloc, tag)?;
        }
        Ok(())
    }

    // Adds those that a start tag makes.
    fn add_tag(&mut self, alloc: Global, tag: &StartTag) -> Result<(), AllocError>
        ensures { OnOk result ((made : List (List ℕ)) × AreOfTag (seen_tag tag.now) made
            × ((anchors : List (List ℕ)) → HasAnchors self.old anchors
            → HasAnchors self.new (anchors ++ made))) }
    {
        self.add_value(alloc, tag.value_of(b"id"))?;
        self.add_value(alloc, name_of(tag))?;
        Ok(())
    }

    // Adds the one that a value makes, if there is one.
    fn add_value(&mut self, alloc: Global, value: Option<&[u8]>) -> Result<(), AllocError>
        ensures { OnOk result ((made : List (List ℕ))
            × AreOfValue (option_map (λ value. value.now) value.entry) made
            × ((anchors : List (List ℕ)) → HasAnchors self.old anchors
            → HasAnchors self.new (anchors ++ made))) }
    {
        let Some(value) = value else {
            return Ok(());
        };
        let anchor = meaning_of(alloc, value, &HtmlEntities)?;
        self.add(anchor)?;
        Ok(())
    }

    // Adds one.
    fn add(&mut self, anchor: String) -> Result<(), AllocError>
        ensures { OnOk result ((anchors : List (List ℕ)) → HasAnchors self.old anchors
            → HasAnchors self.new (anchors ++ string_bytes anchor ∷ [])) }
    {
        self.texts.insert(anchor)?;
        Ok(())
    }
}

// The value of the attribute `name` of an `a`.
fn name_of<'a>(tag: &StartTag<'a>) -> Option<&'a [u8]>
    ensures { option_map (λ value. value.now) result ≡ name_of (seen_tag tag.now) }
{
    if tag.is_named(b"a") {
        return tag.value_of(b"name");
    }
    None
}

// How often a slug is counted.
fn count_of(counts: &BTreeMap<String, u64>, slug: &str) -> u64
    ensures { result ≡ count_at (get_by_text counts.now) slug.now }
{
    counts.get(slug).copied().unwrap_or(0)
}

// The same, and it is counted once more.
fn count_one(
    alloc: Global,
    counts: &mut BTreeMap<String, u64>,
    slug: &str,
) -> Result<u64, AllocError>
    ensures { IfOk result (λ count. (before : List (List ℕ)) → AreCounts counts.old before
        → length before + 1 < 2 ^ 64
        → (count ≡ counted before slug.now) × AreCounts counts.new (before ++ slug.now ∷ [])) }
{
    let count = count_of(counts, slug);
    let key = String::from_str(alloc, slug)?;
    counts.insert(key, count.saturating_add(1))?;
    Ok(count)
}

// The anchor of a heading that makes this, as so many before it do.
fn anchor_of(alloc: Global, slug: &str, count: u64) -> Result<String, AllocError>
    ensures { IfOk result (λ anchor. string_bytes anchor ≡ anchor_of slug.now count) }
{
    if count == 0 {
        return String::from_str(alloc, slug);
    }
    let mut anchor = String::new(alloc);
    write!(anchor, "{slug}-{count}")?;
    Ok(anchor)
}
