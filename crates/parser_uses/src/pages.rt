//! What the events of a page are read for: its links, its headings, its words and its code.
ghost use Rattle.std.specs.Prelude.{◌≡◌};
ghost use Rattle.markdown_values.specs.strings.Text.{cow_text};
ghost use Rattle.markdown_values.specs.values.Events.{event_view};
ghost use Rattle.parser_uses.specs.Breaks.{hardened};

use markdown_events::parser::Parser;
use markdown_values::strings::CowStr;
use markdown_values::values::{CodeBlockKind, Event, HeadingLevel, Tag, TagEnd};
use std::alloc::{AllocError, Global};

/// The links of a page in order, each with the line that it begins in, the page's first being 0, and
/// where it leads. Images are none.
pub fn link_lines<'a>(
    alloc: Global,
    page: &'a str,
) -> Result<Vec<(usize, CowStr<'a>)>, AllocError> {
    let mut links = Vec::new(alloc);
    let mut line: usize = 0;
    let mut offset = 0;
    for item in Parser::new(alloc, page)?.into_offset_iter() {
        let (event, range) = item?;
        let Some(destination) = destination_of(event) else {
            continue;
        };
        let passed = page.as_bytes().get(offset..range.start).unwrap_or(&[]);
        line = line.saturating_add(lines_ended(passed));
        offset = range.start;
        links.push((line, destination))?;
    }
    Ok(links)
}

// Where the link leads that begins with an event, if one does.
fn destination_of(event: Event<'_>) -> Option<CowStr<'_>> {
    match event {
        Event::Start(Tag::Link { dest_url, .. }) => Some(dest_url),
        _ => None,
    }
}

// How many lines end in a part of a page: with a line feed, or with a carriage return, after which
// a line feed belongs to the same line ending.
fn lines_ended(part: &[u8]) -> usize {
    let mut count: usize = 0;
    let mut last = 0;
    for byte in part {
        if *byte == b'\r' || (*byte == b'\n' && last != b'\r') {
            count = count.saturating_add(1);
        }
        last = *byte;
    }
    count
}

/// The headings of a page in order, each with its level and its text, in which a line ending is a
/// space.
pub fn headings(alloc: Global, page: &str) -> Result<Vec<(HeadingLevel, String)>, AllocError> {
    let mut headings = Vec::new(alloc);
    let mut text = None;
    for event in Parser::new(alloc, page)? {
        match event? {
            Event::Start(Tag::Heading { .. }) => text = Some(String::new(alloc)),
            Event::End(TagEnd::Heading(level)) => {
                if let Some(text) = text.take() {
                    headings.push((level, text))?;
                }
            }
            inner => {
                if let Some(text) = &mut text {
                    push_text(text, inner)?;
                }
            }
        }
    }
    Ok(headings)
}

// Adds the text of an event of inlines, if it has one. A line ending is a space.
fn push_text(text: &mut String, event: Event) -> Result<(), AllocError> {
    match event {
        Event::Text(words) => text.push_str(words.as_str()),
        Event::Code(words) => text.push_str(words.as_str()),
        Event::SoftBreak => text.push(' '),
        Event::HardBreak => text.push(' '),
        _ => Ok(()),
    }
}

/// The words of a page in order, without its markup: what white space parts, or a block.
pub fn words(alloc: Global, page: &str) -> Result<Vec<String>, AllocError> {
    split_words(alloc, text_of(alloc, page)?.as_str())
}

// The text of a page, in which spaces part what are not parts of one word.
fn text_of(alloc: Global, page: &str) -> Result<String, AllocError> {
    let mut text = String::new(alloc);
    for event in Parser::new(alloc, page)? {
        push_event(&mut text, event?)?;
    }
    Ok(text)
}

// Adds the text of an event of a page.
fn push_event(text: &mut String, event: Event) -> Result<(), AllocError> {
    match event {
        Event::Start(tag) => part_words(text, tag.to_end()),
        Event::End(end) => part_words(text, end),
        inner => push_text(text, inner),
    }
}

// What white space parts.
fn split_words(alloc: Global, text: &str) -> Result<Vec<String>, AllocError> {
    let mut words = Vec::new(alloc);
    for word in text.split_whitespace() {
        words.push(String::from_str(alloc, word)?)?;
    }
    Ok(words)
}

// Adds a space where an element begins or ends that is no part of a word.
fn part_words(text: &mut String, end: TagEnd) -> Result<(), AllocError> {
    match end {
        TagEnd::Emphasis | TagEnd::Strong | TagEnd::Link | TagEnd::Image => Ok(()),
        _ => text.push(' '),
    }
}

/// A code block: the first word of its info string, which names its language, and its text.
#[derive(Debug, Drop)]
pub struct CodeBlock {
    /// The language; empty where none is named.
    pub language: String,
    /// Its lines, each with its line ending.
    pub text: String,
}

/// The code blocks of a page in order.
pub fn code_blocks(alloc: Global, page: &str) -> Result<Vec<CodeBlock>, AllocError> {
    let mut blocks = CodeBlocks {
        ended: Vec::new(alloc),
        begun: None,
    };
    for event in Parser::new(alloc, page)? {
        blocks.take(alloc, event?)?;
    }
    Ok(blocks.ended)
}

// The code blocks that have ended, and the one that has not.
#[derive(Drop)]
struct CodeBlocks {
    ended: Vec<CodeBlock>,
    begun: Option<CodeBlock>,
}

impl CodeBlocks {
    // Takes the next event of the page.
    fn take(&mut self, alloc: Global, event: Event) -> Result<(), AllocError> {
        match event {
            Event::Start(tag) => self.begun = begun_code(alloc, tag)?,
            Event::End(_) => return self.end(),
            inner => return self.push(inner),
        }
        Ok(())
    }

    // Ends the code block that has begun, if one has.
    fn end(&mut self) -> Result<(), AllocError> {
        if let Some(block) = self.begun.take() {
            self.ended.push(block)?;
        }
        Ok(())
    }

    // Adds the text of an event to the code block that has begun, if one has.
    fn push(&mut self, event: Event) -> Result<(), AllocError> {
        match &mut self.begun {
            Some(block) => push_text(&mut block.text, event),
            None => Ok(()),
        }
    }
}

// The code block that begins with a tag, if one does, without lines.
fn begun_code(alloc: Global, tag: Tag) -> Result<Option<CodeBlock>, AllocError> {
    let Tag::CodeBlock(kind) = tag else {
        return Ok(None);
    };
    Ok(Some(CodeBlock {
        language: language_of(alloc, kind)?,
        text: String::new(alloc),
    }))
}

// The language of a code block of this kind.
fn language_of(alloc: Global, kind: CodeBlockKind) -> Result<String, AllocError> {
    match kind {
        CodeBlockKind::Fenced(info) => {
            let word = info.as_str().split_whitespace().next();
            String::from_str(alloc, word.unwrap_or(""))
        }
        CodeBlockKind::Indented => Ok(String::new(alloc)),
    }
}

/// The event, but a line ending of a paragraph is one that is kept.
pub fn hardened(event: Event<'_>) -> Event<'_>
    ensures { event_view cow_text result ≡ hardened (event_view cow_text event.entry) }
{
    match event {
        Event::SoftBreak => Event::HardBreak,
        other => other,
    }
}

/// The events of a page whose line endings in paragraphs are kept, as a poem's are.
pub fn poem_events<'a>(alloc: Global, page: &'a str) -> Result<Vec<Event<'a>>, AllocError> {
    let mut events = Vec::new(alloc);
    for event in Parser::new(alloc, page)? {
        events.push(hardened(event?))?;
    }
    Ok(events)
}

/// How many elements of a page stand in each other where they are most.
pub fn deepest(alloc: Global, page: &str) -> Result<usize, AllocError> {
    let mut depth: usize = 0;
    let mut deepest = 0;
    for event in Parser::new(alloc, page)? {
        match event? {
            Event::Start(_) => {
                depth = depth.saturating_add(1);
                deepest = depth.max(deepest);
            }
            Event::End(_) => depth = depth.saturating_sub(1),
            _ => {}
        }
    }
    Ok(deepest)
}
