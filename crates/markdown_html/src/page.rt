//! The HTML of a page.
ghost use Rattle.std.specs.Prelude.{◌≡◌, IfErr, IfOk, string_bytes};
ghost use Rattle.markdown_values.specs.values.Extensions.{asked_by, commonmark};
ghost use Rattle.markdown_events.specs.page.Settings.{Explains, not_built};
ghost use Rattle.markdown_events.specs.InsecureCharacters.{replace_nul};
ghost use Rattle.markdown_html.specs.HtmlSizes.{FitsPage};
ghost use Rattle.markdown_html.specs.PageHtml.{HoldsPage, IsHtmlFrom, IsHtmlOf};
ghost use Rattle.markdown_html.specs.SafeSetting.{IsSafeWith};
ghost use Rattle.markdown_html.specs.Settings.{seen_setting};

use crate::setting::{AllowedAddresses, HtmlSetting};
use crate::writer::HtmlWriter;
use markdown_events::event_reader::{EventReader, NewError};
use markdown_events::insecure_characters::replace_nul;
use markdown_events::settings::setting_of;
use markdown_values::values::{Extensions, Options};
use std::alloc::{AllocError, Global};

/// The HTML of a page of CommonMark, without extensions.
///
/// # Errors
///
/// `AllocError` where memory is refused.
pub fn html_of_page<A: AllowedAddresses>(
    alloc: Global,
    page: &str,
    setting: &HtmlSetting<A>,
) -> Result<String, AllocError>
    ensures html { IfOk result (λ html. IsHtmlOf page.now commonmark
        (seen_setting A.allows setting.now) (string_bytes html)) }
    ensures safe { IfOk result (λ html. IsSafeWith
        (seen_setting A.allows setting.now) (string_bytes html)) }
    ensures reads { IfOk result (λ html.
        HoldsPage page.now commonmark
        (seen_setting A.allows setting.now) (string_bytes html)) }
    ensures few { IfOk result (λ html. FitsPage (replace_nul page.now) (string_bytes html)) }
{
    html_of_page_with(alloc, page, Extensions::none(), setting)
}

/// The HTML of a page that is read with these extensions. Footnotes and definition lists are text.
///
/// # Errors
///
/// `AllocError` where memory is refused.
pub fn html_of_page_with<A: AllowedAddresses>(
    alloc: Global,
    page: &str,
    asked: Extensions,
    setting: &HtmlSetting<A>,
) -> Result<String, AllocError>
    ensures html { IfOk result (λ html. IsHtmlOf page.now asked
        (seen_setting A.allows setting.now) (string_bytes html)) }
    ensures safe { IfOk result (λ html. IsSafeWith
        (seen_setting A.allows setting.now) (string_bytes html)) }
    ensures reads { IfOk result (λ html.
        HoldsPage page.now asked (seen_setting A.allows setting.now) (string_bytes html)) }
    ensures few { IfOk result (λ html. FitsPage (replace_nul page.now) (string_bytes html)) }
{
    let text = replace_nul(alloc, page)?;
    let reader = EventReader::with_setting(alloc, text.as_str(), asked)?;
    html_of_reader(alloc, reader, setting)
}

/// The HTML of a page with these options.
///
/// # Errors
///
/// `Unsupported` with those of the options that are not built, where one is, and `Refused` where memory
/// is refused.
pub fn html_of_page_ext<A: AllowedAddresses>(
    alloc: Global,
    page: &str,
    options: Options,
    setting: &HtmlSetting<A>,
) -> Result<String, NewError>
    ensures html { IfOk result (λ html. IsHtmlOf page.now (asked_by options)
        (seen_setting A.allows setting.now) (string_bytes html)) }
    ensures safe { IfOk result (λ html. IsSafeWith
        (seen_setting A.allows setting.now) (string_bytes html)) }
    ensures reads { IfOk result (λ html.
        HoldsPage page.now (asked_by options)
        (seen_setting A.allows setting.now) (string_bytes html)) }
    ensures few { IfOk result (λ html. FitsPage (replace_nul page.now) (string_bytes html)) }
    ensures built { IfOk result (λ _. not_built options ≡ 0) }
    ensures refused { IfErr result (Explains options) }
{
    let asked = setting_of(options)?;
    match html_of_page_with(alloc, page, asked, setting) {
        Ok(html) => Ok(html),
        Err(refused) => Err(NewError::Refused(refused)),
    }
}

// The HTML of the events that a reader has left.
fn html_of_reader<A: AllowedAddresses>(
    alloc: Global,
    mut reader: EventReader<'_>,
    setting: &HtmlSetting<A>,
) -> Result<String, AllocError>
    ensures { IfOk result (λ html. IsHtmlFrom reader.entry
        (seen_setting A.allows setting.now) (string_bytes html)) }
{
    let mut writer = HtmlWriter::new(alloc);
    loop {
        reader.fill()?;
        let Some((event, _)) = reader.first() else {
            return Ok(writer.into_string());
        };
        writer.push_lent(setting, event)?;
        reader.pass_first();
    }
}
