//! What the headings of a page make of their texts, by GitHub's rule.
ghost use Rattle.std.specs.Prelude.{◌≡◌, ◌++◌, map, IfOk, OnOk, string_bytes};
ghost use Rattle.markdown_events.specs.InlineEvents.{seen_event};
ghost use Rattle.page_links.specs.headings.Headings.{AreSlugsOf, ended, is_word, is_word_category, kept, none_read};
ghost use Rattle.page_links.specs.headings.Headings.{passed, seen_headings, slug_of, with_words};

use markdown_events::event_reader::EventReader;
use markdown_values::values::{Event, Extensions, Tag, TagEnd};
use std::alloc::{AllocError, Global};
use std::ops::Range;
use ucd_category::{GeneralCategory, GeneralCategoryGroup};

/// What the headings of a page make of their texts, in order: the text in lower case, in which each
/// space is a hyphen, and of which else alphabetic characters, marks, digits, hyphens and underscores
/// are kept.
/// The text of an image is left out.
///
/// # Errors
///
/// `AllocError` where memory is refused.
pub(crate) fn slugs_of_page(
    alloc: Global,
    page: &str,
    setting: Extensions,
) -> Result<Vec<String>, AllocError>
    ensures { IfOk result (λ slugs.
        AreSlugsOf page.now setting (map string_bytes slugs.items)) }
{
    let mut reader = EventReader::with_setting(alloc, page, setting)?;
    let mut headings = Headings::new(alloc);
    while let Some(event) = reader.next()? {
        headings.pass(alloc, event.0, event.1)?;
    }
    Ok(headings.slugs)
}

// What is read of headings: what those make that have ended; whether one is open, and its text; and
// where the last image ends.
#[derive(Drop)]
struct Headings {
    slugs: Vec<String>,
    is_open: bool,
    words: String,
    images_end: usize,
}

impl Headings {
    // None.
    fn new(alloc: Global) -> Headings
        ensures { seen_headings result ≡ none_read }
    {
        Headings {
            slugs: Vec::new(alloc),
            is_open: false,
            words: String::new(alloc),
            images_end: 0,
        }
    }

    // Passes an event.
    fn pass(&mut self, alloc: Global, event: Event, range: Range<usize>) -> Result<(), AllocError>
        ensures { OnOk result (seen_headings self.new
            ≡ passed (seen_event (event.entry, range)) (seen_headings self.old)) }
    {
        match event {
            Event::Start(Tag::Heading { .. }) => {
                self.is_open = true;
                self.words.clear();
                Ok(())
            }
            Event::End(TagEnd::Heading(_)) => self.end(alloc),
            Event::Start(Tag::Image { .. }) => {
                self.images_end = self.images_end.max(range.end);
                Ok(())
            }
            Event::Text(words) | Event::Code(words) => self.add(words.as_str(), range),
            _ => Ok(()),
        }
    }

    // The heading that is open ends.
    fn end(&mut self, alloc: Global) -> Result<(), AllocError>
        ensures { OnOk result (seen_headings self.new ≡ ended (seen_headings self.old)) }
    {
        let slug = slug_of(alloc, self.words.as_str())?;
        self.slugs.push(slug)?;
        self.is_open = false;
        Ok(())
    }

    // Adds a text to the heading that is open, unless it stands in an image.
    fn add(&mut self, words: &str, range: Range<usize>) -> Result<(), AllocError>
        ensures { OnOk result (seen_headings self.new
            ≡ with_words words.now range (seen_headings self.old)) }
    {
        if self.is_open && range.start >= self.images_end {
            return self.words.push_str(words);
        }
        Ok(())
    }
}

// What a heading of this text makes.
fn slug_of(alloc: Global, words: &str) -> Result<String, AllocError>
    ensures { IfOk result (λ slug. string_bytes slug ≡ slug_of words.now) }
{
    let lower = words.to_lowercase(alloc)?;
    let mut slug = String::new(alloc);
    for c in lower.as_str().chars() {
        push_kept(&mut slug, c)?;
    }
    Ok(slug)
}

// Adds what is kept of a character.
fn push_kept(slug: &mut String, c: char) -> Result<(), AllocError>
    ensures { OnOk result (string_bytes slug.new ≡ string_bytes slug.old ++ kept c) }
{
    if c == ' ' {
        return slug.push('-');
    }
    if c == '-' || is_word(c) {
        return slug.push(c);
    }
    Ok(())
}

// Whether it is alphabetic, a mark, a digit, or an underscore or its like.
fn is_word(c: char) -> bool
    ensures { result ≡ is_word c }
{
    c.is_alphabetic() || is_word_category(GeneralCategory::for_char(c))
}

// Whether characters of a category are marks, digits, or underscores and their like.
fn is_word_category(category: GeneralCategory) -> bool
    ensures { result ≡ is_word_category category }
{
    match category {
        GeneralCategory::DecimalNumber | GeneralCategory::ConnectorPunctuation => true,
        _ => GeneralCategoryGroup::Mark.contains(category),
    }
}
