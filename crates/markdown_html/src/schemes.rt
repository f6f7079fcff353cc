//! The setting by which HTML is safe: no raw HTML, and addresses by their schemes.
ghost use Rattle.std.specs.Prelude.{◌≡◌, map};
ghost use Rattle.markdown_html.specs.Addresses.{is_allowed_address};
ghost use Rattle.markdown_html.specs.SafeSetting.{IsSafeSetting, default_schemes, safe_setting};
ghost use Rattle.markdown_html.specs.Settings.{seen_setting};

use crate::addresses::is_allowed_address;
use crate::setting::{AllowedAddresses, HtmlSetting, RawHtml};

/// Addresses whose scheme is one of these, without regard to case, and relative addresses. They are
/// read as `is_allowed_address` reads them.
#[derive(Clone, Copy, Debug)]
pub struct AllowedSchemes<'a> {
    /// The schemes, without their colons.
    pub schemes: &'a [&'a str],
}

impl<'a> AllowedAddresses for AllowedSchemes<'a> {
    ghost use Rattle.std.specs.Prelude.{map};
    ghost use Rattle.markdown_html.specs.Addresses.{is_allowed_address};

    ghost allows = { λ it address.
        is_allowed_address (map (λ scheme. scheme.now) it.schemes.now) address };

    fn allows(&self, address: &str) -> bool {
        is_allowed_address(address.as_bytes(), self.schemes)
    }
}

/// Schemes that pages for comments may allow: http, https, mailto and tel (clause `defaults` of
/// `safe_setting`).
pub const DEFAULT_SCHEMES: &[&str] = &["http", "https", "mailto", "tel"];

/// The setting for text by people who are not trusted: raw HTML is written as text, links and images
/// lead to addresses of these schemes alone, and links say `rel="nofollow noopener"`. A caller who
/// needs something else changes its fields, as `images_as_links`.
pub fn safe_setting<'a>(schemes: &'a [&'a str]) -> HtmlSetting<AllowedSchemes<'a>>
    ensures safe { IsSafeSetting (map (λ scheme. scheme.now) schemes.now)
        (seen_setting ⟦<AllowedSchemes<'a> as AllowedAddresses>⟧.allows result) }
    ensures setting { seen_setting ⟦<AllowedSchemes<'a> as AllowedAddresses>⟧.allows result
        ≡ safe_setting (map (λ scheme. scheme.now) schemes.now) }

    // The schemes that are allowed where a caller names none.
    ensures defaults { map (λ scheme. scheme.now) DEFAULT_SCHEMES.now ≡ default_schemes }
{
    HtmlSetting {
        raw: RawHtml::Escaped,
        addresses: AllowedSchemes { schemes },
        images_as_links: false,
        rel: true,
    }
}
