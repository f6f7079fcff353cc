//! Members of objects, strings and arrays.
ghost use Rattle.std.specs.Prelude.{List, ℕ, ◌≡◌, ◌++◌, OnOk, codes, option_map, string_bytes};
ghost use Rattle.std.specs.List.{flat_map};
ghost use Rattle.markdown_values.specs.strings.Text.{cow_text};
ghost use Rattle.page_events.specs.Json.{array_member, member, text_json, text_member, text_member_if, value_json, word_json};

use crate::elements::alignment_name;
use markdown_values::strings::CowStr;
use markdown_values::values::Alignment;
use page_blocks::info::push_json_text;
use std::alloc::{AllocError, Global};

/// Adds a text as a member of this name.
pub(crate) fn push_text(
    alloc: Global,
    text: &mut String,
    name: &str,
    words: &CowStr,
) -> Result<(), AllocError>
    ensures { OnOk result (string_bytes text.new
        ≡ string_bytes text.old ++ text_member name.now (cow_text words.now)) }
{
    write!(text, ",\"{name}\":")?;
    push_string(alloc, text, words)
}

/// The same of a text that may be missing.
pub(crate) fn push_text_if(
    alloc: Global,
    text: &mut String,
    name: &str,
    words: &Option<CowStr>,
) -> Result<(), AllocError>
    ensures { OnOk result (string_bytes text.new
        ≡ string_bytes text.old ++ text_member_if name.now (option_map cow_text words.now)) }
{
    match words {
        Some(words) => push_text(alloc, text, name, words),
        None => Ok(()),
    }
}

/// Adds a value that is no text as a member of this name.
pub(crate) fn push_plain(text: &mut String, name: &str, value: &str) -> Result<(), AllocError>
    ensures { OnOk result (string_bytes text.new
        ≡ string_bytes text.old ++ member name.now value.now) }
{
    write!(text, ",\"{name}\":{value}")
}

/// Adds a word that needs no escape as a member of this name.
///
/// # Errors
///
/// `AllocError` where memory is refused.
pub fn push_word(text: &mut String, name: &str, word: &str) -> Result<(), AllocError>
    ensures { OnOk result (string_bytes text.new
        ≡ string_bytes text.old ++ member name.now (word_json word.now)) }
{
    write!(text, ",\"{name}\":\"{word}\"")
}

// Adds a text as a string.
fn push_string(alloc: Global, text: &mut String, words: &CowStr) -> Result<(), AllocError>
    ensures { OnOk result (string_bytes text.new
        ≡ string_bytes text.old ++ text_json (cow_text words.now)) }
{
    text.push_str("\"")?;
    push_json_text(alloc, text, words.as_str().as_bytes())?;
    text.push_str("\"")
}

/// What can stand in an array.
pub(crate) trait Item {
    ghost json: { Self → List ℕ };

    /// Adds it.
    fn push_item(&self, alloc: Global, text: &mut String) -> Result<(), AllocError>
        ensures { OnOk result (string_bytes text.new ≡ string_bytes text.old ++ json self.now) };
}

impl<'a> Item for CowStr<'a> {
    ghost use Rattle.markdown_values.specs.strings.Text.{cow_text};
    ghost use Rattle.page_events.specs.Json.{text_json};

    ghost json = { λ it. text_json (cow_text it) };

    fn push_item(&self, alloc: Global, text: &mut String) -> Result<(), AllocError> {
        push_string(alloc, text, self)
    }
}

// An attribute of a heading, with its value if it has one.
impl<'a> Item for (CowStr<'a>, Option<CowStr<'a>>) {
    ghost use Rattle.markdown_values.specs.strings.Text.{cow_text};
    ghost use Rattle.markdown_values.specs.values.Tags.{attribute_view};
    ghost use Rattle.page_events.specs.Json.{attribute_json};

    ghost json = { λ it. attribute_json (attribute_view cow_text it) };

    fn push_item(&self, alloc: Global, text: &mut String) -> Result<(), AllocError> {
        text.push_str("[")?;
        push_string(alloc, text, &self.0)?;
        text.push_str(",")?;
        push_value(alloc, text, &self.1)?;
        text.push_str("]")
    }
}

impl Item for Alignment {
    ghost use Rattle.page_events.specs.Json.{alignment_json};

    ghost json = { alignment_json };

    fn push_item(&self, _: Global, text: &mut String) -> Result<(), AllocError> {
        write!(text, "\"{}\"", alignment_name(*self))
    }
}

// Adds the value of an attribute, if it has one.
fn push_value(alloc: Global, text: &mut String, value: &Option<CowStr>) -> Result<(), AllocError>
    ensures { OnOk result (string_bytes text.new
        ≡ string_bytes text.old ++ value_json (option_map cow_text value.now)) }
{
    match value {
        Some(value) => push_string(alloc, text, value),
        None => text.push_str("null"),
    }
}

/// Adds an array as a member of this name, unless it is empty.
pub(crate) fn push_array<T: Item>(
    alloc: Global,
    text: &mut String,
    name: &str,
    items: &[T],
) -> Result<(), AllocError>
    ensures { OnOk result (string_bytes text.new
        ≡ string_bytes text.old ++ array_member name.now T.json items.now) }
{
    let Some((first, later)) = items.split_first() else {
        return Ok(());
    };
    write!(text, ",\"{name}\":[")?;
    first.push_item(alloc, text)?;
    push_later(alloc, text, later)?;
    text.push_str("]")
}

// Adds the items after the first.
fn push_later<T: Item>(alloc: Global, text: &mut String, later: &[T]) -> Result<(), AllocError>
    ensures { OnOk result (string_bytes text.new
        ≡ string_bytes text.old ++ flat_map (λ item. codes "," ++ T.json item) later.now) }
{
    for item in later {
        push_next(alloc, text, item)?;
    }
    Ok(())
}

// Adds the next item.
fn push_next<T: Item>(alloc: Global, text: &mut String, item: &T) -> Result<(), AllocError>
    ensures { OnOk result (string_bytes text.new
        ≡ string_bytes text.old ++ (codes "," ++ T.json item.now)) }
{
    text.push_str(",")?;
    item.push_item(alloc, text)
}
