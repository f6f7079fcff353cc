//! The HTML of a page, written into a buffer of the caller's.
ghost use Rattle.std.specs.Prelude.{◌≡◌, IfNone, IfOk, IfSome, string_bytes, take};
ghost use Rattle.std.specs.Str.{IsUtf8};
ghost use Rattle.std.specs.Str.Lossy.{utf8_lossy};
ghost use Rattle.markdown_events.specs.InsecureCharacters.{replace_nul};
ghost use Rattle.markdown_html.specs.HtmlSizes.{FitsPage};
ghost use Rattle.markdown_html.specs.PageHtml.{IsHtmlOf};
ghost use Rattle.markdown_html.specs.SafeHtml.{IsSafeHtml};
ghost use Rattle.markdown_html.specs.SafeSetting.{IsSafeWith, default_schemes, safe_setting};
ghost use Rattle.markdown_html.specs.Settings.{plain_setting, seen_setting};
ghost use Rattle.markdown_values.specs.strings.Text.{cow_text};
ghost use Rattle.markdown_scanners_c.specs.Extensions.{extensions_of};
ghost use Rattle.markdown_scanners_c.specs.HtmlSettings.{allowed_schemes, setting_of};
ghost use Rattle.markdown_scanners_c.specs.KnownLabels.{AreTexts};
ghost use Rattle.markdown_scanners_c.specs.PageHtml.{HasFewBytes, IsAskedHtmlReturned, IsHtmlAnswer};
ghost use Rattle.markdown_scanners_c.specs.PageHtml.{IsHtmlReturned, IsRead, IsRefusedAt};
ghost use Rattle.markdown_scanners_c.specs.Status.{not_utf8, ok};

use crate::extensions::{are_built, extensions_of};
use crate::html_settings::{AskedHtml, allowed_schemes, is_known, setting_of};
use crate::known_labels::are_texts;
use crate::status::{BAD_KIND, NO_MEMORY, NONE, NOT_UTF8};
use crate::texts::{Text, no_text, write_text};
use markdown_html::page::html_of_page_with;
use markdown_html::schemes::{DEFAULT_SCHEMES, safe_setting};
use markdown_html::setting::{AllowedAddresses, HtmlSetting, plain_setting};
use markdown_values::strings::CowStr;
use std::alloc::{AllocError, Global};

/// Writes the HTML of a page, with the raw HTML and the addresses that stand in it.
#[unsafe(no_mangle)]
pub extern "C" fn mds_html_unsafe(
    alloc: Global,
    text: &[u8],
    extensions: u32,
    buffer: &mut [u8],
) -> Text
    ensures html { IsHtmlReturned text.now extensions plain_setting
        buffer.old buffer.new result }
    ensures few { HasFewBytes text.now result }
    ensures utf8 { result.status ≡ ok → IsUtf8 (take result.length buffer.new) }
{
    html_of_text(alloc, text, extensions, &plain_setting(), buffer)
}

/// Writes the HTML of a page by people who are not trusted: raw HTML as text, and of links and images
/// only addresses of the usual schemes.
#[unsafe(no_mangle)]
pub extern "C" fn mds_html(alloc: Global, text: &[u8], extensions: u32, buffer: &mut [u8]) -> Text
    ensures html { IsHtmlReturned text.now extensions (safe_setting default_schemes)
        buffer.old buffer.new result }
    ensures safe { result.status ≡ ok
        → IsSafeHtml default_schemes (take result.length buffer.new) }
    ensures few { HasFewBytes text.now result }
    ensures utf8 { result.status ≡ ok → IsUtf8 (take result.length buffer.new) }
{
    let setting = safe_setting(DEFAULT_SCHEMES);
    html_of_text(alloc, text, extensions, &setting, buffer)
}

/// The same by what the caller asks for: which schemes addresses may have, what is written of raw
/// HTML and of images, what links say, and whether a page that is not UTF-8 is refused.
#[tactic(auto, unfolding(crate::specs::PageHtml::IsAskedHtmlReturned))]
#[unsafe(no_mangle)]
pub extern "C" fn mds_html_with(
    alloc: Global,
    text: &[u8],
    extensions: u32,
    asked: &AskedHtml<'_>,
    buffer: &mut [u8],
) -> Text
    ensures html { IsAskedHtmlReturned text.now extensions asked.now
        buffer.old buffer.new result }
    ensures safe { result.status ≡ ok → IsSafeHtml
        (allowed_schemes asked.now.schemes.now) (take result.length buffer.new) }
    ensures few { HasFewBytes text.now result }
    ensures utf8 { result.status ≡ ok → IsUtf8 (take result.length buffer.new) }
{
    if !are_built(extensions) || !is_known(asked) {
        return no_text(BAD_KIND);
    }
    if let Some(taken) = refused_at(text, asked) {
        return not_utf8(taken);
    }
    asked_html(alloc, text, extensions, asked, buffer)
}

// The HTML of a page that is read with these extensions, by what the caller asks for, in the buffer.
fn asked_html(
    alloc: Global,
    text: &[u8],
    extensions: u32,
    asked: &AskedHtml<'_>,
    buffer: &mut [u8],
) -> Text
    requires { AreTexts asked.now.schemes.now }
    ensures html { IsHtmlAnswer text.now extensions (setting_of asked.now)
        buffer.old buffer.new result }
    ensures safe { result.status ≡ ok → IsSafeHtml
        (allowed_schemes asked.now.schemes.now) (take result.length buffer.new) }
    ensures few { HasFewBytes text.now result }
    ensures utf8 { result.status ≡ ok → IsUtf8 (take result.length buffer.new) }
{
    let Ok(schemes) = allowed_schemes(alloc, asked.schemes) else {
        return no_text(NO_MEMORY);
    };
    let setting = setting_of(asked, &schemes);
    page_html(alloc, text, extensions, &setting, buffer)
}

// No HTML, as what is given is not UTF-8.
fn not_utf8(taken: usize) -> Text
    ensures { result ≡ record { status = not_utf8; taken = taken; length = 0 } }
{
    Text {
        status: NOT_UTF8,
        taken,
        length: 0,
    }
}

// Where the page is refused the offset of its first byte that is wrong, and `NONE` where a scheme is.
fn refused_at(page: &[u8], asked: &AskedHtml<'_>) -> Option<usize>
    ensures refused { IfSome result (IsRefusedAt page.now asked.now) }
    ensures read { IfNone result (IsRead page.now asked.now × AreTexts asked.now.schemes.now) }
{
    if asked.strict == 1 {
        if let Err(error) = str::from_utf8(page) {
            return Some(error.valid_up_to());
        }
    }
    if are_texts(asked.schemes) {
        None
    } else {
        Some(NONE)
    }
}

// The HTML of a page that is read with these extensions, by this setting, in the buffer.
#[tactic(auto, unfolding(crate::specs::PageHtml::IsHtmlReturned))]
fn html_of_text<A: AllowedAddresses>(
    alloc: Global,
    text: &[u8],
    extensions: u32,
    setting: &HtmlSetting<A>,
    buffer: &mut [u8],
) -> Text
    ensures html { IsHtmlReturned text.now extensions (seen_setting A.allows setting.now)
        buffer.old buffer.new result }
    ensures safe { result.status ≡ ok → IsSafeWith
        (seen_setting A.allows setting.now) (take result.length buffer.new) }
    ensures few { HasFewBytes text.now result }
    ensures utf8 { result.status ≡ ok → IsUtf8 (take result.length buffer.new) }
{
    if !are_built(extensions) {
        return no_text(BAD_KIND);
    }
    page_html(alloc, text, extensions, setting, buffer)
}

// The HTML of a page by this setting, in the buffer.
fn page_html<A: AllowedAddresses>(
    alloc: Global,
    page: &[u8],
    extensions: u32,
    setting: &HtmlSetting<A>,
    buffer: &mut [u8],
) -> Text
    ensures html { IsHtmlAnswer page.now extensions (seen_setting A.allows setting.now)
        buffer.old buffer.new result }
    ensures safe { result.status ≡ ok → IsSafeWith
        (seen_setting A.allows setting.now) (take result.length buffer.new) }
    ensures few { HasFewBytes page.now result }
    ensures utf8 { result.status ≡ ok → IsUtf8 (take result.length buffer.new) }
{
    match html_of_bytes(alloc, page, extensions, setting) {
        Ok(html) => write_text(html.as_str().as_bytes(), page.len(), buffer),
        Err(_) => no_text(NO_MEMORY),
    }
}

// The HTML of a page, which is read with U+FFFD where it is not UTF-8.
fn html_of_bytes<A: AllowedAddresses>(
    alloc: Global,
    page: &[u8],
    extensions: u32,
    setting: &HtmlSetting<A>,
) -> Result<String, AllocError>
    ensures html { IfOk result (λ html. IsHtmlOf (utf8_lossy page.now) (extensions_of extensions)
        (seen_setting A.allows setting.now) (string_bytes html)) }
    ensures safe { IfOk result (λ html. IsSafeWith
        (seen_setting A.allows setting.now) (string_bytes html)) }
    ensures few { IfOk result (λ html.
        FitsPage (replace_nul (utf8_lossy page.now)) (string_bytes html)) }
{
    let text = text_of(alloc, page)?;
    html_of_page_with(alloc, text.as_str(), extensions_of(extensions), setting)
}

// The text that a page is read as, which is lent where it is UTF-8.
#[tactic(auto, using(crate::proofs::PageTexts::lossy_text))]
fn text_of<'a>(alloc: Global, page: &'a [u8]) -> Result<CowStr<'a>, AllocError>
    ensures { IfOk result (λ text. cow_text text ≡ utf8_lossy page.now) }
{
    match str::from_utf8(page) {
        Ok(text) => Ok(CowStr::from(text)),
        Err(_) => CowStr::from_string(alloc, String::from_utf8_lossy(alloc, page)?),
    }
}
