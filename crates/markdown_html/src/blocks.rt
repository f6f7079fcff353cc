//! The HTML of blocks.
ghost use Rattle.std.specs.Prelude.{◌≡◌, ◌≢◌, OnOk, Option, Some, codes, drop, not, option_map, string_bytes, take};
ghost use Rattle.std.specs.Fmt.{decimal};
ghost use Rattle.std.specs.List.{prefix_len};
ghost use Rattle.markdown_values.specs.strings.Text.{cow_text};
ghost use Rattle.markdown_values.specs.values.Tags.{info_view};
ghost use Rattle.markdown_scanners_tree.specs.Bytes.{is_white_space};
ghost use Rattle.markdown_html.specs.Blocks.{align_attribute, cell_align, cell_end, cell_name, cell_started, code_ended, code_start, head_started};
ghost use Rattle.markdown_html.specs.Blocks.{heading_end, heading_start, language, language_start, list_end};
ghost use Rattle.markdown_html.specs.Blocks.{list_start, named_start, row_started, table_end, table_started};
ghost use Rattle.markdown_html.specs.States.{ended_text, is_text_begun, last_byte, on_line, written};

use crate::writer::HtmlWriter;
use markdown_scanners_tree::scanners::is_ascii_whitespace;
use markdown_values::values::{Alignment, CodeBlockKind, HeadingLevel};
use std::alloc::AllocError;

impl<'a> HtmlWriter<'a> {
    /// Begins a heading.
    pub(crate) fn start_heading(&mut self, level: HeadingLevel) -> Result<(), AllocError>
        ensures { OnOk result (self.new ≡ on_line (heading_start level) self.old) }
    {
        match level {
            HeadingLevel::H1 => self.write_on_line("<h1>"),
            HeadingLevel::H2 => self.write_on_line("<h2>"),
            HeadingLevel::H3 => self.write_on_line("<h3>"),
            HeadingLevel::H4 => self.write_on_line("<h4>"),
            HeadingLevel::H5 => self.write_on_line("<h5>"),
            HeadingLevel::H6 => self.write_on_line("<h6>"),
        }
    }

    /// Ends it.
    pub(crate) fn end_heading(&mut self, level: HeadingLevel) -> Result<(), AllocError>
        ensures { OnOk result (self.new ≡ written (heading_end level) self.old) }
    {
        match level {
            HeadingLevel::H1 => self.write("</h1>\n"),
            HeadingLevel::H2 => self.write("</h2>\n"),
            HeadingLevel::H3 => self.write("</h3>\n"),
            HeadingLevel::H4 => self.write("</h4>\n"),
            HeadingLevel::H5 => self.write("</h5>\n"),
            HeadingLevel::H6 => self.write("</h6>\n"),
        }
    }

    /// Begins a code block.
    pub(crate) fn start_code(&mut self, kind: &CodeBlockKind) -> Result<(), AllocError>
        ensures { OnOk result
            (self.new ≡ on_line (code_start (info_view cow_text kind.now)) self.old) }
    {
        match kind {
            CodeBlockKind::Indented => self.start_language(""),
            CodeBlockKind::Fenced(info) => self.start_language(language_of(info.as_str())),
        }
    }

    // Begins code in this language, or in none.
    fn start_language(&mut self, name: &str) -> Result<(), AllocError>
        ensures { OnOk result (self.new ≡ on_line (language_start name.now) self.old) }
    {
        if name.is_empty() {
            return self.write_on_line("<pre><code>");
        }
        self.start_named(name)
    }

    // Begins code in this language.
    fn start_named(&mut self, name: &str) -> Result<(), AllocError>
        ensures { OnOk result (self.new ≡ on_line (named_start name.now) self.old) }
    {
        self.write_on_line("<pre><code class=\"language-")?;
        self.write_escaped(name)?;
        self.write("\">")
    }

    /// Ends a code block.
    pub(crate) fn end_code(&mut self) -> Result<(), AllocError>
        ensures { OnOk result (self.new ≡ code_ended self.old) }
    {
        if self.has_begun_text() {
            self.write("\n")?;
        }
        self.write("</code></pre>\n")
    }

    // Whether a line of a text has begun.
    fn has_begun_text(&self) -> bool
        ensures { result ≡ is_text_begun (last_byte self.now.output) }
    {
        match self.output.as_bytes().last() {
            Some(last) => *last != b'\n' && *last != b'>',
            None => false,
        }
    }

    /// Begins a list whose items are numbered from so many on, or have bullets.
    pub(crate) fn start_list(&mut self, first: Option<u64>) -> Result<(), AllocError>
        ensures { OnOk result (self.new ≡ on_line (list_start first) self.old) }
    {
        match first {
            None => self.write_on_line("<ul>\n"),
            Some(first) => self.start_numbered(first),
        }
    }

    // Begins a list whose items are numbered from so many on.
    fn start_numbered(&mut self, first: u64) -> Result<(), AllocError>
        ensures { OnOk result (self.new ≡ on_line (list_start (Some first)) self.old) }
    {
        if first == 1 {
            return self.write_on_line("<ol>\n");
        }
        self.write_on_line("<ol start=\"")?;
        self.write_number(first)?;
        self.write("\">\n")
    }

    // Writes a number.
    fn write_number(&mut self, number: u64) -> Result<(), AllocError>
        ensures { OnOk result (self.new ≡ written (decimal number) self.old) }
    {
        write!(self.output, "{number}")
    }

    /// Ends a list.
    pub(crate) fn end_list(&mut self, is_numbered: bool) -> Result<(), AllocError>
        ensures { OnOk result (self.new ≡ written (list_end is_numbered) self.old) }
    {
        if is_numbered {
            self.write("</ol>\n")
        } else {
            self.write("</ul>\n")
        }
    }

    /// Begins a table.
    pub(crate) fn start_table(&mut self, columns: &[Alignment]) -> Result<(), AllocError>
        ensures { OnOk result (self.new ≡ table_started columns.now self.old) }
    {
        self.write_on_line("<table>\n")?;
        self.columns.clear();
        self.columns.extend_from_slice(columns)?;
        self.cell = 0;
        self.has_body = false;
        Ok(())
    }

    /// Begins the head of a table.
    pub(crate) fn start_head(&mut self) -> Result<(), AllocError>
        ensures { OnOk result (self.new ≡ head_started self.old) }
    {
        self.write_on_line("<thead>\n<tr>\n")?;
        self.cell = 0;
        self.is_head = true;
        Ok(())
    }

    /// Begins a row of a table.
    pub(crate) fn start_row(&mut self) -> Result<(), AllocError>
        ensures { OnOk result (self.new ≡ row_started self.old) }
    {
        if self.has_body {
            self.write_on_line("<tr>\n")?;
        } else {
            self.write_on_line("<tbody>\n<tr>\n")?;
        }
        self.cell = 0;
        self.is_head = false;
        self.has_body = true;
        Ok(())
    }

    /// Begins a cell of a row.
    pub(crate) fn start_cell(&mut self) -> Result<(), AllocError>
        ensures { OnOk result (self.new ≡ cell_started self.old) }
    {
        if self.is_head {
            self.write("<th")?;
        } else {
            self.write("<td")?;
        }
        self.write_alignment(self.next_alignment())?;
        self.write(">")?;
        self.pass_cell();
        Ok(())
    }

    // How the next cell is aligned.
    fn next_alignment(&self) -> Alignment
        ensures { align_attribute result ≡ cell_align self.now.cells }
    {
        if self.cell < self.columns.len() {
            return self.columns[self.cell];
        }
        Alignment::None
    }

    // Writes how a cell is aligned.
    fn write_alignment(&mut self, alignment: Alignment) -> Result<(), AllocError>
        ensures { OnOk result (self.new ≡ written (align_attribute alignment) self.old) }
    {
        match alignment {
            Alignment::None => self.write(""),
            Alignment::Left => self.write(" align=\"left\""),
            Alignment::Center => self.write(" align=\"center\""),
            Alignment::Right => self.write(" align=\"right\""),
        }
    }

    // Passes the next cell.
    fn pass_cell(&mut self)
        ensures { self.new ≡ record self.old { cells = drop 1 self.old.cells } }
    {
        if self.cell < self.columns.len() {
            self.cell += 1;
        }
    }

    /// Ends a cell of a row.
    pub(crate) fn end_cell(&mut self) -> Result<(), AllocError>
        ensures { OnOk result (self.new ≡ written (cell_end self.old.is_head) self.old) }
    {
        if self.is_head {
            self.write("</th>\n")
        } else {
            self.write("</td>\n")
        }
    }

    /// Ends a table.
    pub(crate) fn end_table(&mut self) -> Result<(), AllocError>
        ensures { OnOk result (self.new ≡ written (table_end self.old.has_body) self.old) }
    {
        if self.has_body {
            self.write("</tbody>\n</table>\n")
        } else {
            self.write("</table>\n")
        }
    }
}

// The first word of an info string.
fn language_of(info: &str) -> &str
    ensures { result.now ≡ language info.now }
{
    &info[..word_len(info.as_bytes())]
}

// How many bytes at the front are no white space.
fn word_len(bytes: &[u8]) -> usize
    ensures { result ≡ prefix_len (λ b. not (is_white_space b)) bytes.now }
{
    bytes
        .iter()
        .take_while(|b| !is_ascii_whitespace(**b))
        .count()
}
