//! What C callers ask of the HTML of a page.
ghost use Rattle.std.specs.Prelude.{◌≡◌, ◌==◌, ◌||◌, true, IfOk, map};
ghost use Rattle.std.specs.List.{list_all};
ghost use Rattle.std.specs.Str.{is_utf8};
ghost use Rattle.markdown_html.specs.SafeSetting.{IsSafeSetting};
ghost use Rattle.markdown_html.specs.Settings.{seen_setting};
ghost use Rattle.markdown_scanners_c.specs.HtmlSettings.{allowed_schemes, is_known, setting_of};
ghost use Rattle.markdown_scanners_c.specs.KnownLabels.{AreTexts};

use crate::known_labels::View;
use markdown_html::schemes::AllowedSchemes;
use markdown_html::setting::{AllowedAddresses, HtmlSetting, RawHtml};
use std::alloc::{AllocError, Global};

/// Raw HTML is written as text.
const ESCAPED: u32 = 0;
/// Raw HTML is left out.
const OMITTED: u32 = 1;
/// Links say `rel="nofollow noopener"`.
const NOFOLLOW: u32 = 0;
/// Links have no `rel`.
const NO_REL: u32 = 1;

/// `struct mds_html_setting` of C. All of it is 0 by default.
#[repr(C)]
#[derive(Clone, Copy)]
pub struct AskedHtml<'a> {
    /// The schemes that addresses may have; none for the usual ones.
    pub schemes: &'a [View<'a>],
    /// What is written of raw HTML.
    pub raw_html: u32,
    /// What links say of where they lead.
    pub rel: u32,
    /// 1 where images are written as links, and else 0.
    pub images_as_links: u32,
    /// 1 where a page that is not UTF-8 is refused, and else 0.
    pub strict: u32,
    /// What has no meaning yet.
    pub reserved: [u32; 8],
}

/// Whether each number has a meaning, and what is reserved is 0.
pub(crate) fn is_known(asked: &AskedHtml<'_>) -> bool
    ensures { result ≡ is_known asked.now }
{
    is_either(asked.raw_html, ESCAPED, OMITTED)
        && is_either(asked.rel, NOFOLLOW, NO_REL)
        && is_either(asked.images_as_links, 0, 1)
        && is_either(asked.strict, 0, 1)
        && are_zero(&asked.reserved)
}

// Whether it is one of two numbers.
fn is_either(number: u32, one: u32, other: u32) -> bool
    ensures { result ≡ (number == one || number == other) }
{
    number == one || number == other
}

fn are_zero(numbers: &[u32]) -> bool
    ensures { result ≡ list_all (λ number. number == 0) numbers.now }
{
    numbers.iter().all(|number| *number == 0)
}

/// What HTML is then written with, where these are the schemes that addresses may have.
#[tactic(auto, using(crate::proofs::HtmlSettings::asked_is_safe))]
pub(crate) fn setting_of<'a>(
    asked: &AskedHtml<'_>,
    schemes: &'a [&'a str],
) -> HtmlSetting<AllowedSchemes<'a>>
    requires { map (λ scheme. scheme.now) schemes.now ≡ allowed_schemes asked.now.schemes.now }
    ensures setting { seen_setting ⟦<AllowedSchemes<'a> as AllowedAddresses>⟧.allows result
        ≡ setting_of asked.now }
    ensures safe { IsSafeSetting (allowed_schemes asked.now.schemes.now)
        (seen_setting ⟦<AllowedSchemes<'a> as AllowedAddresses>⟧.allows result) }
{
    let raw = if asked.raw_html == OMITTED {
        RawHtml::LeftOut
    } else {
        RawHtml::Escaped
    };
    HtmlSetting {
        raw,
        addresses: AllowedSchemes { schemes },
        images_as_links: asked.images_as_links == 1,
        rel: asked.rel == NOFOLLOW,
    }
}

/// The schemes that addresses may have: those of the caller, or the usual ones where there are none.
pub(crate) fn allowed_schemes<'a>(
    alloc: Global,
    schemes: &[View<'a>],
) -> Result<Vec<&'a str>, AllocError>
    requires { AreTexts schemes.now }
    ensures { IfOk result (λ texts. map (λ text. text.now) texts.items
        ≡ allowed_schemes schemes.now) }
{
    if schemes.is_empty() {
        return Ok(vec![in alloc; "http", "https", "mailto", "tel"]?);
    }
    let mut texts = Vec::new(alloc);
    for scheme in schemes {
        texts.push(scheme_text(scheme))?;
    }
    Ok(texts)
}

// The text of a scheme.
fn scheme_text<'a>(scheme: &View<'a>) -> &'a str
    requires { is_utf8 scheme.now.text.now ≡ true }
    ensures { result.now ≡ scheme.now.text.now }
{
    match str::from_utf8(scheme.text) {
        Ok(text) => text,
        Err(_) => "",
    }
}
