//! What is written of raw HTML, of addresses and of images.
ghost use Rattle.std.specs.Prelude.{Bool, List, ℕ, ◌≡◌, true};
ghost use Rattle.markdown_html.specs.Settings.{plain_setting, seen_setting};

use std::marker::Model;

/// What is written of the HTML that stands in a page, in blocks of its own or among other inlines.
/// (CommonMark 0.31.2, sections 4.6 and 6.6)
#[derive(Clone, Copy, Debug, PartialEq, Eq)]
pub enum RawHtml {
    /// The HTML itself.
    Kept,
    /// Its text, with references for what would be HTML.
    Escaped,
    /// Nothing.
    LeftOut,
}

/// Where links and images may lead.
pub trait AllowedAddresses {
    ghost allows: { Self → List ℕ → Bool };

    /// Whether a link or an image may lead to this address, which is a text of the page with its
    /// escapes and references resolved. One that is not allowed is written as an empty one.
    fn allows(&self, address: &str) -> bool
        ensures { result ≡ allows self.now address.now };
}

/// Every address.
#[derive(Clone, Copy, Debug)]
pub struct AnyAddress;

impl AllowedAddresses for AnyAddress {
    ghost allows = { λ _ _. true };

    fn allows(&self, _: &str) -> bool {
        true
    }
}

/// What HTML is written with.
#[derive(Clone, Copy, Debug)]
pub struct HtmlSetting<A> {
    /// What is written of raw HTML.
    pub raw: RawHtml,
    /// Where links and images may lead.
    pub addresses: A,
    /// Whether an image is written as a link to it, whose text is the image's description.
    pub images_as_links: bool,
    /// Whether links say `rel="nofollow noopener"`.
    pub rel: bool,
}

/// The setting by which the examples of CommonMark are written: raw HTML is kept, and links and
/// images lead to each address.
pub fn plain_setting() -> HtmlSetting<AnyAddress>
    ensures { seen_setting ⟦<AnyAddress as AllowedAddresses>⟧.allows result ≡ plain_setting }
{
    HtmlSetting {
        raw: RawHtml::Kept,
        addresses: AnyAddress,
        images_as_links: false,
        rel: false,
    }
}
