//! The HTML of events that are given one after another.
ghost use Rattle.std.specs.Prelude.{◌≡◌, [], ◌∷◌, List, ℕ, OnErr, OnOk, Option, codes, false, string_bytes};
ghost use Rattle.markdown_values.specs.strings.Text.{cow_text};
ghost use Rattle.markdown_values.specs.values.Events.{event_view};
ghost use Rattle.markdown_values.specs.values.Tags.{tag_view};
ghost use Rattle.markdown_html.specs.Blocks.{task_box};
ghost use Rattle.markdown_html.specs.Escapes.{escaped};
ghost use Rattle.markdown_html.specs.Html.{after_event, ended, started, with_event, with_text_of};
ghost use Rattle.markdown_html.specs.Inlines.{code_element, raw_html, raw_text};
ghost use Rattle.markdown_html.specs.Settings.{seen_setting};
ghost use Rattle.markdown_html.specs.States.{ended_line, is_begun, is_in_image, last_byte, nothing_written, on_line, spent, written};

use crate::escapes::push_escaped;
use crate::setting::{AllowedAddresses, HtmlSetting, RawHtml};
use markdown_values::strings::CowStr;
use markdown_values::values::{Alignment, Event, Tag, TagEnd};
use std::alloc::{AllocError, Global};
use std::marker::Model;

/// The HTML of the events that were given so far, and what of it is open.
#[derive(Drop)]
pub struct HtmlWriter<'a> {
    pub(crate) alloc: Global,
    pub(crate) output: String,
    // The links and images that are open, the innermost at the end: an image by its title.
    pub(crate) links: Vec<Option<CowStr<'a>>>,
    // The columns of the table that is open, or was last, and the next of its row's cells.
    pub(crate) columns: Vec<Alignment>,
    pub(crate) cell: usize,
    pub(crate) is_head: bool,
    pub(crate) has_body: bool,
    // Whether memory was refused.
    is_spent: bool,
}

impl<'a> Model for HtmlWriter<'a> {
    ghost use Rattle.std.specs.Prelude.{drop, map, option_map, reverse, string_bytes};
    ghost use Rattle.markdown_values.specs.strings.Text.{cow_text};
    ghost use Rattle.markdown_html.specs.States.{HtmlState};

    ghost Value = { HtmlState };

    ghost view = { λ w. record {
      output = string_bytes w.output;
      links = map (option_map cow_text) (reverse w.links.items);
      columns = w.columns.items;
      cells = drop w.cell w.columns.items;
      is_head = w.is_head;
      has_body = w.has_body;
      is_spent = w.is_spent;
    } };
}

impl<'a> HtmlWriter<'a> {
    /// Nothing is written. No memory is asked for.
    pub fn new(alloc: Global) -> HtmlWriter<'a>
        ensures { result ≡ nothing_written }
    {
        HtmlWriter {
            alloc,
            output: String::new(alloc),
            links: Vec::new(alloc),
            columns: Vec::new(alloc),
            cell: 0,
            is_head: false,
            has_body: false,
            is_spent: false,
        }
    }

    /// What is written, and nothing where a call of `push` was refused.
    pub fn into_string(self) -> String
        ensures { string_bytes result ≡ self.entry.output }
    {
        self.output
    }

    /// Adds the HTML of the next event.
    ///
    /// # Errors
    ///
    /// `AllocError` where memory is refused. The writer is spent then: what it had written is given
    /// back, and it refuses each later event. Another one writes the events again, from the first on.
    pub fn push<A: AllowedAddresses>(
        &mut self,
        setting: &HtmlSetting<A>,
        event: Event<'a>,
    ) -> Result<(), AllocError>
        ensures html { OnOk result (self.new ≡ after_event (seen_setting A.allows setting.now)
            (event_view cow_text event.entry) self.old) }
        ensures unspent { OnOk result (self.old.is_spent ≡ false) }
        ensures refused { OnErr result (self.new ≡ spent) }
    {
        self.push_lent(setting, &event)
    }

    /// The same of an event that is lent: of an image its title is copied, of a table how its columns
    /// are aligned.
    ///
    /// # Errors
    ///
    /// `AllocError` as for `push`.
    pub fn push_lent<A: AllowedAddresses>(
        &mut self,
        setting: &HtmlSetting<A>,
        event: &Event<'a>,
    ) -> Result<(), AllocError>
        ensures html { OnOk result (self.new ≡ after_event (seen_setting A.allows setting.now)
            (event_view cow_text event.now) self.old) }
        ensures unspent { OnOk result (self.old.is_spent ≡ false) }
        ensures refused { OnErr result (self.new ≡ spent) }
    {
        match self.push_unless_spent(setting, event) {
            Ok(()) => Ok(()),
            Err(refused) => {
                self.spend();
                Err(refused)
            }
        }
    }

    // Adds an event, and leaves a part of it where memory is refused.
    fn push_unless_spent<A: AllowedAddresses>(
        &mut self,
        setting: &HtmlSetting<A>,
        event: &Event<'a>,
    ) -> Result<(), AllocError>
        ensures html { OnOk result (self.new ≡ after_event (seen_setting A.allows setting.now)
            (event_view cow_text event.now) self.old) }
        ensures unspent { OnOk result (self.old.is_spent ≡ false) }
    {
        if self.is_spent {
            return Err(AllocError);
        }
        if self.is_in_image() {
            return self.push_in_image(setting, event);
        }
        self.push_outside_images(setting, event)
    }

    // Gives back what is written, after which no event is taken.
    fn spend(&mut self)
        ensures { self.new ≡ spent }
    {
        *self = HtmlWriter::new(self.alloc);
        self.is_spent = true;
    }

    /// Whether an image is open.
    pub(crate) fn is_in_image(&self) -> bool
        ensures { result ≡ is_in_image self.now.links }
    {
        matches!(self.links.last(), Some(Some(_)))
    }

    // Adds an event outside of images.
    fn push_outside_images<A: AllowedAddresses>(
        &mut self,
        setting: &HtmlSetting<A>,
        event: &Event<'a>,
    ) -> Result<(), AllocError>
        ensures { OnOk result (self.new ≡ with_event (seen_setting A.allows setting.now)
            (event_view cow_text event.now) self.old) }
    {
        match event {
            Event::Start(tag) => self.start(setting, tag),
            Event::End(tag) => self.end(*tag),
            Event::Text(words)
            | Event::InlineMath(words)
            | Event::DisplayMath(words)
            | Event::FootnoteReference(words) => self.write_escaped(words.as_str()),
            Event::Code(words) => self.write_code(words.as_str()),
            Event::Html(words) | Event::InlineHtml(words) => {
                self.write_raw(setting.raw, words.as_str())
            }
            Event::SoftBreak => self.write("\n"),
            Event::HardBreak => self.write("<br />\n"),
            Event::Rule => self.write_on_line("<hr />\n"),
            Event::TaskListMarker(is_checked) => self.write_task_box(*is_checked),
        }
    }

    // Adds an event in an image.
    fn push_in_image<A: AllowedAddresses>(
        &mut self,
        setting: &HtmlSetting<A>,
        event: &Event<'a>,
    ) -> Result<(), AllocError>
        ensures { OnOk result (self.new ≡ with_text_of (seen_setting A.allows setting.now)
            (event_view cow_text event.now) self.old) }
    {
        match event {
            Event::Start(Tag::Image { title, .. }) => self.open_image(title),
            Event::Start(_) => Ok(()),
            Event::End(TagEnd::Image) => self.end_image(setting),
            Event::End(_) => Ok(()),
            Event::Text(words) => self.write_escaped(words.as_str()),
            Event::Code(words) => self.write_escaped(words.as_str()),
            Event::InlineMath(words) => self.write_escaped(words.as_str()),
            Event::DisplayMath(words) => self.write_escaped(words.as_str()),
            Event::Html(words) => self.write_raw_text(setting.raw, words.as_str()),
            Event::InlineHtml(words) => self.write_raw_text(setting.raw, words.as_str()),
            Event::FootnoteReference(words) => self.write_escaped(words.as_str()),
            Event::SoftBreak => self.write(" "),
            Event::HardBreak => self.write(" "),
            Event::Rule => Ok(()),
            Event::TaskListMarker(_) => Ok(()),
        }
    }

    // Begins an element.
    fn start<A: AllowedAddresses>(
        &mut self,
        setting: &HtmlSetting<A>,
        tag: &Tag<'a>,
    ) -> Result<(), AllocError>
        ensures { OnOk result (self.new ≡ started (seen_setting A.allows setting.now)
            (tag_view cow_text tag.now) self.old) }
    {
        match tag {
            Tag::Paragraph => self.write_on_line("<p>"),
            Tag::Heading { level, .. } => self.start_heading(*level),
            Tag::BlockQuote(_) => self.write_on_line("<blockquote>\n"),
            Tag::CodeBlock(kind) => self.start_code(kind),
            Tag::HtmlBlock => self.write_on_line(""),
            Tag::List(first) => self.start_list(*first),
            Tag::Item => self.write_on_line("<li>"),
            Tag::Table(columns) => self.start_table(columns),
            Tag::TableHead => self.start_head(),
            Tag::TableRow => self.start_row(),
            Tag::TableCell => self.start_cell(),
            Tag::Emphasis => self.write("<em>"),
            Tag::Strong => self.write("<strong>"),
            Tag::Strikethrough => self.write("<del>"),
            Tag::Superscript => self.write("<sup>"),
            Tag::Subscript => self.write("<sub>"),
            Tag::Link {
                link_type,
                dest_url,
                title,
                ..
            } => self.start_link(setting, *link_type, dest_url.as_str(), title.as_str()),
            Tag::Image {
                link_type,
                dest_url,
                title,
                ..
            } => self.start_image(setting, *link_type, dest_url.as_str(), title),
            Tag::FootnoteDefinition(_)
            | Tag::DefinitionList
            | Tag::DefinitionListTitle
            | Tag::DefinitionListDefinition
            | Tag::MetadataBlock(_) => Ok(()),
        }
    }

    // Ends an element.
    fn end(&mut self, tag: TagEnd) -> Result<(), AllocError>
        ensures { OnOk result (self.new ≡ ended tag self.old) }
    {
        match tag {
            TagEnd::Paragraph => self.write("</p>\n"),
            TagEnd::Heading(level) => self.end_heading(level),
            TagEnd::BlockQuote(_) => self.write_on_line("</blockquote>\n"),
            TagEnd::CodeBlock => self.end_code(),
            TagEnd::HtmlBlock => self.write_on_line(""),
            TagEnd::List(is_numbered) => self.end_list(is_numbered),
            TagEnd::Item => self.write("</li>\n"),
            TagEnd::Table => self.end_table(),
            TagEnd::TableHead => self.write("</tr>\n</thead>\n"),
            TagEnd::TableRow => self.write("</tr>\n"),
            TagEnd::TableCell => self.end_cell(),
            TagEnd::Emphasis => self.write("</em>"),
            TagEnd::Strong => self.write("</strong>"),
            TagEnd::Strikethrough => self.write("</del>"),
            TagEnd::Superscript => self.write("</sup>"),
            TagEnd::Subscript => self.write("</sub>"),
            TagEnd::Link => self.end_link(),
            TagEnd::Image
            | TagEnd::FootnoteDefinition
            | TagEnd::DefinitionList
            | TagEnd::DefinitionListTitle
            | TagEnd::DefinitionListDefinition
            | TagEnd::MetadataBlock(_) => Ok(()),
        }
    }

    /// Writes more.
    pub(crate) fn write(&mut self, more: &str) -> Result<(), AllocError>
        ensures { OnOk result (self.new ≡ written more.now self.old) }
    {
        self.output.push_str(more)
    }

    /// Writes more on a line of its own.
    pub(crate) fn write_on_line(&mut self, more: &str) -> Result<(), AllocError>
        ensures { OnOk result (self.new ≡ on_line more.now self.old) }
    {
        self.end_line()?;
        self.write(more)
    }

    // Ends the line that has begun, if one has.
    fn end_line(&mut self) -> Result<(), AllocError>
        ensures { OnOk result
            (self.new ≡ record self.old { output = ended_line self.old.output }) }
    {
        if self.has_begun_line() {
            return self.output.push('\n');
        }
        Ok(())
    }

    // Whether a line has begun.
    fn has_begun_line(&self) -> bool
        ensures { result ≡ is_begun (last_byte self.now.output) }
    {
        match self.output.as_bytes().last() {
            Some(last) => *last != b'\n',
            None => false,
        }
    }

    /// Writes a text.
    pub(crate) fn write_escaped(&mut self, text: &str) -> Result<(), AllocError>
        ensures { OnOk result (self.new ≡ written (escaped text.now) self.old) }
    {
        push_escaped(&mut self.output, text)
    }

    // Writes a code span.
    fn write_code(&mut self, content: &str) -> Result<(), AllocError>
        ensures { OnOk result (self.new ≡ written (code_element content.now) self.old) }
    {
        self.write("<code>")?;
        self.write_escaped(content)?;
        self.write("</code>")
    }

    // Writes raw HTML.
    fn write_raw(&mut self, raw: RawHtml, html: &str) -> Result<(), AllocError>
        ensures { OnOk result (self.new ≡ written (raw_html raw html.now) self.old) }
    {
        match raw {
            RawHtml::Kept => self.write(html),
            RawHtml::Escaped => self.write_escaped(html),
            RawHtml::LeftOut => self.write(""),
        }
    }

    // Writes raw HTML that is in an image.
    fn write_raw_text(&mut self, raw: RawHtml, html: &str) -> Result<(), AllocError>
        ensures { OnOk result (self.new ≡ written (raw_text raw html.now) self.old) }
    {
        match raw {
            RawHtml::Kept | RawHtml::Escaped => self.write_escaped(html),
            RawHtml::LeftOut => self.write(""),
        }
    }

    // Writes the box of a task.
    fn write_task_box(&mut self, is_checked: bool) -> Result<(), AllocError>
        ensures { OnOk result (self.new ≡ written (task_box is_checked) self.old) }
    {
        if is_checked {
            self.write("<input checked=\"\" disabled=\"\" type=\"checkbox\"> ")
        } else {
            self.write("<input disabled=\"\" type=\"checkbox\"> ")
        }
    }
}
