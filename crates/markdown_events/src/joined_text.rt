//! A text to which the texts that follow it are joined.
ghost use Rattle.std.specs.Prelude.{◌≡◌, ◌++◌, Some, string_bytes, IfErr, IfOk, IsOk, OnOk};
ghost use Rattle.markdown_values.specs.strings.Text.{cow_text};
ghost use Rattle.markdown_events.specs.InlineEvents.{seen_event};
ghost use Rattle.markdown_events.specs.JoinedWords.{words_text};
ghost use Rattle.markdown_events.specs.TextMerge.{text_event, with_text};

use markdown_values::strings::CowStr;
use markdown_values::values::Event;
use std::alloc::{AllocError, Global};
use std::marker::Model;
use std::ops::Range;

/// A text, and the range of its source.
#[derive(Drop)]
pub(crate) struct JoinedText<'a> {
    words: Words<'a>,
    range: Range<usize>,
}

// The words of a text.
#[derive(Drop)]
pub(crate) enum Words<'a> {
    // Those of one event.
    Alone(CowStr<'a>),
    // Those of several, in memory of their own.
    Own(String),
}

impl<'a> Model for JoinedText<'a> {
    ghost use Rattle.markdown_events.specs.TextMerge.{RangedText};
    ghost use Rattle.markdown_events.specs.JoinedWords.{words_text};

    ghost Value = { RangedText };

    ghost view = { λ t. (words_text t.words, t.range) };
}

impl<'a> JoinedText<'a> {
    /// One text.
    pub(crate) fn new(words: CowStr<'a>, range: Range<usize>) -> JoinedText<'a>
        ensures { result ≡ (cow_text words.entry, range) }
    {
        JoinedText {
            words: Words::Alone(words),
            range,
        }
    }

    /// Joins the text that follows.
    pub(crate) fn push(
        &mut self,
        alloc: Global,
        more: &str,
        range: &Range<usize>,
    ) -> Result<(), AllocError>
        ensures joined { OnOk result (self.new ≡ with_text (Some self.old) (more.now, range.now)) }
        ensures refused { IfErr result (λ _. self.new ≡ self.old) }
    {
        self.words.push(alloc, more)?;
        self.range.end = range.end;
        Ok(())
    }

    /// The event of the text. No memory is asked for, so none is refused.
    pub(crate) fn into_event(self, alloc: Global) -> Result<(Event<'a>, Range<usize>), AllocError>
        ensures event { IfOk result (λ event. seen_event event ≡ text_event self.entry) }
        ensures given { IsOk result }
    {
        let words = self.words.into_cow(alloc)?;
        Ok((Event::Text(words), self.range))
    }
}

impl<'a> Words<'a> {
    // The text.
    fn as_str(&self) -> &str
        ensures { result.now ≡ words_text self.now }
    {
        match self {
            Words::Alone(words) => words.as_str(),
            Words::Own(words) => words.as_str(),
        }
    }

    // Adds the text that follows.
    fn push(&mut self, alloc: Global, more: &str) -> Result<(), AllocError>
        ensures joined { OnOk result (words_text self.new ≡ words_text self.old ++ more.now) }
        ensures refused { IfErr result (λ _. words_text self.new ≡ words_text self.old) }
    {
        if let Words::Own(words) = self {
            return words.push_str(more);
        }
        let both = both(alloc, self.as_str(), more)?;
        *self = Words::Own(both);
        Ok(())
    }

    // The text as one of an event.
    fn into_cow(self, alloc: Global) -> Result<CowStr<'a>, AllocError>
        ensures text { IfOk result (λ text. cow_text text ≡ words_text self.entry) }
        ensures given { IsOk result }
    {
        match self {
            Words::Alone(words) => Ok(words),
            Words::Own(words) => CowStr::from_string(alloc, words),
        }
    }
}

// Two texts as one.
fn both(alloc: Global, words: &str, more: &str) -> Result<String, AllocError>
    ensures { IfOk result (λ both. string_bytes both ≡ words.now ++ more.now) }
{
    let mut both = String::from_str(alloc, words)?;
    both.push_str(more)?;
    Ok(both)
}
