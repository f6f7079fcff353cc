//! HTML that is appended to a string, of events that an iterator gives.
ghost use Rattle.std.specs.Prelude.{◌≡◌, IfOk, IsOk, OnErr, OnOk, map, string_bytes};
ghost use Rattle.std.specs.Iterator.{IsFinite};
ghost use Rattle.markdown_values.specs.strings.Text.{cow_text};
ghost use Rattle.markdown_values.specs.values.Events.{event_view};
ghost use Rattle.markdown_html.specs.Html.{after_event};
ghost use Rattle.markdown_html.specs.PushedHtml.{AppendsFew, AppendsHtml, AppendsSafeHtml};
ghost use Rattle.markdown_html.specs.PushedHtml.{IsHtmlOfItems};
ghost use Rattle.markdown_html.specs.Settings.{plain_setting, seen_setting};

use crate::schemes::safe_setting;
use crate::setting::{AllowedAddresses, HtmlSetting, plain_setting};
use crate::writer::HtmlWriter;
use markdown_values::values::Event;
use std::alloc::{AllocError, Global};

/// Appends the HTML of the events that an iterator gives, as the examples of CommonMark write it:
/// `push_html(alloc, &mut html, parser)`. Raw HTML is kept, and addresses are written whatever their
/// scheme.
///
/// # Errors
///
/// `AllocError` where the iterator gives one, or memory is refused.
pub fn push_html<'a, I: Iterator<Item = Result<Event<'a>, AllocError>> + Drop>(
    alloc: Global,
    html: &mut String,
    events: I,
) -> Result<(), AllocError>
    requires can { I.can_next events }
    requires ends { IsFinite (I.remaining events) }
    ensures html { OnOk result (AppendsHtml I.next_gives events plain_setting
        (string_bytes html.old) (string_bytes html.new)) }
    ensures few { OnOk result (AppendsFew I.next_gives events
        (string_bytes html.old) (string_bytes html.new)) }
    ensures refused { OnErr result (string_bytes html.new ≡ string_bytes html.old) }
{
    push_html_with(alloc, html, &plain_setting(), events)
}

/// The same for text by people who are not trusted: raw HTML is written as text, addresses only
/// where they are relative or have one of these schemes, as `DEFAULT_SCHEMES`, and links say
/// `rel="nofollow noopener"`.
///
/// # Errors
///
/// `AllocError` where the iterator gives one, or memory is refused.
pub fn push_safe_html<'a, I: Iterator<Item = Result<Event<'a>, AllocError>> + Drop>(
    alloc: Global,
    html: &mut String,
    events: I,
    schemes: &[&str],
) -> Result<(), AllocError>
    requires can { I.can_next events }
    requires ends { IsFinite (I.remaining events) }
    ensures html { OnOk result (AppendsSafeHtml I.next_gives events
        (map (λ scheme. scheme.now) schemes.now) (string_bytes html.old) (string_bytes html.new)) }
    ensures few { OnOk result (AppendsFew I.next_gives events
        (string_bytes html.old) (string_bytes html.new)) }
    ensures refused { OnErr result (string_bytes html.new ≡ string_bytes html.old) }
{
    push_html_with(alloc, html, &safe_setting(schemes), events)
}

/// The same with a setting of the caller's.
///
/// # Errors
///
/// `AllocError` where the iterator gives one, or memory is refused.
pub fn push_html_with<'a, A, I>(
    alloc: Global,
    html: &mut String,
    setting: &HtmlSetting<A>,
    events: I,
) -> Result<(), AllocError>
where
    A: AllowedAddresses,
    I: Iterator<Item = Result<Event<'a>, AllocError>> + Drop,
    requires can { I.can_next events }
    requires ends { IsFinite (I.remaining events) }
    ensures html { OnOk result (AppendsHtml I.next_gives events
        (seen_setting A.allows setting.now) (string_bytes html.old) (string_bytes html.new)) }
    ensures few { OnOk result (AppendsFew I.next_gives events
        (string_bytes html.old) (string_bytes html.new)) }
    ensures refused { OnErr result (string_bytes html.new ≡ string_bytes html.old) }
{
    let more = html_of_items(alloc, setting, events)?;
    html.push_str(more.as_str())
}

// The HTML of the events that an iterator gives.
fn html_of_items<'a, A, I>(
    alloc: Global,
    setting: &HtmlSetting<A>,
    events: I,
) -> Result<String, AllocError>
where
    A: AllowedAddresses,
    I: Iterator<Item = Result<Event<'a>, AllocError>> + Drop,
    requires can { I.can_next events }
    requires ends { IsFinite (I.remaining events) }
    ensures { IfOk result (λ html. IsHtmlOfItems I.next_gives events
        (seen_setting A.allows setting.now) (string_bytes html)) }
{
    let mut writer = HtmlWriter::new(alloc);
    for item in events {
        push_item(&mut writer, setting, item)?;
    }
    Ok(writer.into_string())
}

// Adds the HTML of an item, which is lent to the writer where it stands.
#[inline(always)]
fn push_item<'a, A: AllowedAddresses>(
    writer: &mut HtmlWriter<'a>,
    setting: &HtmlSetting<A>,
    item: Result<Event<'a>, AllocError>,
) -> Result<(), AllocError>
    ensures given { OnOk result (IsOk item.entry) }
    ensures html { OnOk result (IfOk item.entry (λ event. writer.new
        ≡ after_event (seen_setting A.allows setting.now) (event_view cow_text event) writer.old)) }
{
    match &item {
        Ok(event) => writer.push_lent(setting, event),
        Err(refused) => Err(*refused),
    }
}
