//! The HTML of links and images.
ghost use Rattle.std.specs.Prelude.{◌≡◌, ◌∷◌, ◌++◌, [], IfOk, None, OnOk, Option, Some, codes, drop, if◌then◌else◌, option_map, string_bytes};
ghost use Rattle.markdown_values.specs.strings.Text.{cow_text};
ghost use Rattle.markdown_html.specs.Inlines.{address, after_image, before_image, image_ended, image_started, link_ended, link_started};
ghost use Rattle.markdown_html.specs.Inlines.{link_tag, rel_attribute, target, title_attribute, unless_in_link};
ghost use Rattle.markdown_html.specs.Settings.{seen_setting};
ghost use Rattle.markdown_html.specs.States.{is_in_image, written};

use crate::escapes::{push_address, push_escaped};
use crate::setting::{AllowedAddresses, HtmlSetting};
use crate::writer::HtmlWriter;
use markdown_values::strings::CowStr;
use markdown_values::values::LinkType;
use std::alloc::{AllocError, Global};

impl<'a> HtmlWriter<'a> {
    /// Begins a link.
    pub(crate) fn start_link<A: AllowedAddresses>(
        &mut self,
        setting: &HtmlSetting<A>,
        kind: LinkType,
        destination: &str,
        title: &str,
    ) -> Result<(), AllocError>
        ensures { OnOk result (self.new ≡ link_started (seen_setting A.allows setting.now)
            (target kind destination.now) title.now self.old) }
    {
        self.write_link_tag(setting, kind, destination, title)?;
        self.links.push(None)?;
        Ok(())
    }

    // Writes the tag of a link.
    fn write_link_tag<A: AllowedAddresses>(
        &mut self,
        setting: &HtmlSetting<A>,
        kind: LinkType,
        destination: &str,
        title: &str,
    ) -> Result<(), AllocError>
        ensures { OnOk result (self.new ≡ written (link_tag (seen_setting A.allows setting.now)
            (target kind destination.now) title.now) self.old) }
    {
        self.write("<a href=\"")?;
        push_target(self.alloc, &mut self.output, setting, kind, destination)?;
        self.write("\"")?;
        push_title(&mut self.output, title)?;
        self.write_rel(setting.rel)?;
        self.write(">")
    }

    // Writes the attribute of links that says how they are related, if it is asked for.
    fn write_rel(&mut self, rel: bool) -> Result<(), AllocError>
        ensures { OnOk result (self.new ≡ written (rel_attribute rel) self.old) }
    {
        if rel {
            self.write(" rel=\"nofollow noopener\"")
        } else {
            self.write("")
        }
    }

    /// Ends the innermost link.
    pub(crate) fn end_link(&mut self) -> Result<(), AllocError>
        ensures { OnOk result (self.new ≡ link_ended self.old) }
    {
        self.write("</a>")?;
        self.links.pop();
        Ok(())
    }

    /// Begins an image outside of images.
    pub(crate) fn start_image<A: AllowedAddresses>(
        &mut self,
        setting: &HtmlSetting<A>,
        kind: LinkType,
        destination: &str,
        title: &CowStr<'a>,
    ) -> Result<(), AllocError>
        ensures { OnOk result (self.new ≡ image_started (seen_setting A.allows setting.now)
            (target kind destination.now) (cow_text title.now) self.old) }
    {
        self.write_before_image(setting, kind, destination, title.as_str())?;
        self.open_image(title)
    }

    // Writes what stands before the text of an image.
    fn write_before_image<A: AllowedAddresses>(
        &mut self,
        setting: &HtmlSetting<A>,
        kind: LinkType,
        destination: &str,
        title: &str,
    ) -> Result<(), AllocError>
        ensures { OnOk result (self.new ≡ written (before_image
            (seen_setting A.allows setting.now) (target kind destination.now) title.now
            self.old.links) self.old) }
    {
        if setting.images_as_links {
            if self.links.is_empty() {
                return self.write_link_tag(setting, kind, destination, title);
            }
            return self.write("");
        }
        self.write("<img src=\"")?;
        push_target(self.alloc, &mut self.output, setting, kind, destination)?;
        self.write("\" alt=\"")
    }

    /// Begins an image with this title, of which nothing is written.
    pub(crate) fn open_image(&mut self, title: &CowStr<'a>) -> Result<(), AllocError>
        ensures { OnOk result
            (self.new ≡ record self.old { links = Some (cow_text title.now) ∷ self.old.links }) }
    {
        let title = title.clone(self.alloc)?;
        self.links.push(Some(title))?;
        Ok(())
    }

    /// Ends the innermost image.
    pub(crate) fn end_image<A: AllowedAddresses>(
        &mut self,
        setting: &HtmlSetting<A>,
    ) -> Result<(), AllocError>
        ensures { OnOk result (self.new
            ≡ image_ended (seen_setting A.allows setting.now) self.old.links self.old) }
    {
        match self.links.pop() {
            Some(Some(title)) => self.write_after_image(setting, title.as_str()),
            Some(None) | None => Ok(()),
        }
    }

    // Writes what stands after the text of an image, after which these links are open.
    fn write_after_image<A: AllowedAddresses>(
        &mut self,
        setting: &HtmlSetting<A>,
        title: &str,
    ) -> Result<(), AllocError>
        ensures { OnOk result (self.new ≡ written (if is_in_image self.old.links then []
            else after_image (seen_setting A.allows setting.now) title.now self.old.links)
            self.old) }
    {
        if self.is_in_image() {
            return self.write("");
        }
        if setting.images_as_links {
            if self.links.is_empty() {
                return self.write("</a>");
            }
            return self.write("");
        }
        self.write("\"")?;
        push_title(&mut self.output, title)?;
        self.write(" />")
    }
}

// Appends the address of a link or an image, if it is allowed.
fn push_target<A: AllowedAddresses>(
    alloc: Global,
    out: &mut String,
    setting: &HtmlSetting<A>,
    kind: LinkType,
    destination: &str,
) -> Result<(), AllocError>
    ensures { OnOk result (string_bytes out.new ≡ string_bytes out.old
        ++ address (seen_setting A.allows setting.now) (target kind destination.now)) }
{
    match kind {
        LinkType::Email => {
            let address = email_target(alloc, destination)?;
            push_allowed(out, setting, address.as_str())
        }
        _ => push_allowed(out, setting, destination),
    }
}

// Where a link to an e-mail address leads.
fn email_target(alloc: Global, address: &str) -> Result<String, AllocError>
    ensures { IfOk result (λ target. string_bytes target ≡ codes "mailto:" ++ address.now) }
{
    let mut target = String::from_str(alloc, "mailto:")?;
    target.push_str(address)?;
    Ok(target)
}

// Appends an address, if it is allowed.
fn push_allowed<A: AllowedAddresses>(
    out: &mut String,
    setting: &HtmlSetting<A>,
    to: &str,
) -> Result<(), AllocError>
    ensures { OnOk result (string_bytes out.new
        ≡ string_bytes out.old ++ address (seen_setting A.allows setting.now) to.now) }
{
    if setting.addresses.allows(to) {
        return push_address(out, to);
    }
    Ok(())
}

// Appends the attribute that has a title, if it isn't empty.
fn push_title(out: &mut String, title: &str) -> Result<(), AllocError>
    ensures { OnOk result
        (string_bytes out.new ≡ string_bytes out.old ++ title_attribute title.now) }
{
    if title.is_empty() {
        return Ok(());
    }
    out.push_str(" title=\"")?;
    push_escaped(out, title)?;
    out.push_str("\"")
}
