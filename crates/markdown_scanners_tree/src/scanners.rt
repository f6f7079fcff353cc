//! Scanners of the fragments that lines and inline texts are made of.
mod breaks;
mod classes;
mod destinations;
mod entities;
mod entity_table;
mod escapes;
mod fences;
mod headings;
mod html_block;
mod html_kinds;
mod html_tag;
mod indent;
mod interrupts;
mod lines;
mod links;
mod list_items;
mod metadata;
mod numbers;
mod reference_definitions;
mod runs;
mod tables;
mod tag_state;
mod text_lines;
mod titles;
mod unescaping;

pub use breaks::scan_hrule;
pub(crate) use classes::is_line_ending;
pub use classes::{is_ascii_punctuation, is_ascii_whitespace, is_ascii_whitespace_no_nl};
pub use destinations::scan_link_dest_ahead;
pub use entities::{Entities, scan_entity};
pub use entity_table::EntityTable;
pub use fences::{scan_closing_code_fence, scan_code_fence};
pub use headings::{scan_atx_heading, scan_setext_heading};
pub use html_block::starts_html_block_type_6;
pub use html_kinds::{HtmlBlockKind, ends_html_block, scan_html_block_start};
pub use html_tag::{scan_html_block_inner, scan_html_type_7};
pub use indent::calc_indent;
pub use interrupts::interrupts_paragraph;
pub use lines::{
    line_head, scan_blank_line, scan_blockquote_start, scan_eol, scan_line, scan_nextline,
};
pub use links::{
    scan_autolink, scan_autolink_bytes, scan_link_dest, scan_link_dest_bytes, scan_wikilink_pipe,
    scan_wikilink_pipe_bytes,
};
pub use list_items::scan_listitem;
pub(crate) use list_items::scan_marker;
pub use metadata::{scan_closing_metadata_block, scan_metadata_block};
pub use reference_definitions::{
    ReferenceDefinition, scan_reference_definition, scan_reference_definition_ahead,
    scan_separated_title,
};
pub use runs::{
    scan_ch, scan_ch_repeat, scan_rev_while, scan_spaces_and_tabs, scan_while,
    scan_whitespace_no_nl,
};
pub use tables::scan_table_head;
pub use text_lines::{TextLines, scan_lines};
pub use titles::scan_link_title;
pub use unescaping::unescape;
