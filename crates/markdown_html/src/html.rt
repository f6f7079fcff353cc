//! The HTML of a list of events.
ghost use Rattle.std.specs.Prelude.{◌≡◌, IfOk, map, string_bytes};
ghost use Rattle.markdown_values.specs.strings.Text.{cow_text};
ghost use Rattle.markdown_values.specs.values.Events.{event_view};
ghost use Rattle.markdown_events.specs.Nesting.{AreNested};
ghost use Rattle.markdown_html.specs.Content.{content};
ghost use Rattle.markdown_html.specs.Html.{html_of};
ghost use Rattle.markdown_html.specs.HtmlSizes.{FitsEvents};
ghost use Rattle.markdown_html.specs.ReadHtml.{Reads};
ghost use Rattle.markdown_html.specs.SafeSetting.{IsSafeWith};
ghost use Rattle.markdown_html.specs.Settings.{seen_setting};

use crate::setting::{AllowedAddresses, HtmlSetting};
use crate::writer::HtmlWriter;
use markdown_values::values::Event;
use std::alloc::{AllocError, Global};

/// The HTML of these events, as those of a page or of a part of it that a caller has chosen or
/// changed.
///
/// # Errors
///
/// `AllocError` where memory is refused.
#[tactic(auto, using(crate::proofs::SafePages::nested_html_is_safe))]
pub fn html_of_events<'a, A: AllowedAddresses>(
    alloc: Global,
    setting: &HtmlSetting<A>,
    events: Vec<Event<'a>>,
) -> Result<String, AllocError>
    ensures html { IfOk result (λ html. string_bytes html
        ≡ html_of (seen_setting A.allows setting.now)
        (map (event_view cow_text) events.entry.items)) }
    ensures safe { IfOk result (λ html. AreNested (map (event_view cow_text) events.entry.items)
        → IsSafeWith (seen_setting A.allows setting.now) (string_bytes html)) }
    ensures reads { IfOk result (λ html. AreNested (map (event_view cow_text) events.entry.items)
        → Reads (string_bytes html)
        (content (seen_setting A.allows setting.now)
        (map (event_view cow_text) events.entry.items))) }
    ensures few { IfOk result (λ html.
        FitsEvents (map (event_view cow_text) events.entry.items) (string_bytes html)) }
{
    html_of_list(alloc, setting, events)
}

// The HTML of these events, by its definition alone.
fn html_of_list<'a, A: AllowedAddresses>(
    alloc: Global,
    setting: &HtmlSetting<A>,
    events: Vec<Event<'a>>,
) -> Result<String, AllocError>
    ensures { IfOk result (λ html. string_bytes html
        ≡ html_of (seen_setting A.allows setting.now)
        (map (event_view cow_text) events.entry.items)) }
{
    let mut writer = HtmlWriter::new(alloc);
    for event in events {
        writer.push(setting, event)?;
    }
    Ok(writer.into_string())
}
