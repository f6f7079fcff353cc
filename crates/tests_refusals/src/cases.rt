//! The cases by their names.
ghost use Rattle.std.specs.Prelude.{◌≤◌};

use crate::events::{self, EventCase};
use crate::no_memory::{self, NoMemoryCase};
use crate::stop::Stop;
use crate::tags::{self, TagCase, TagKind};
use crate::texts::{self, TextCase};
use crate::trees::{self, TreeCase};
use crate::{inline_html, labels, lines, unescaping};
use std::alloc::Global;
use std::io::{Stdout, Write};

#[derive(Clone, Copy)]
enum ScanCase {
    RunLine,
    TableHead,
    Unescape,
    Unescape900,
    HtmlBlockInner,
    HtmlBlockInner900,
    LinkLabelRest,
    LinkLabelRest900,
    LinkLabelBytes,
    LinkLabelNew,
    RunInlineHtml,
}

// A case, by what its calls are about.
#[derive(Clone, Copy)]
enum Case {
    Text(TextCase),
    Tag(TagCase),
    Event(EventCase),
    Scan(ScanCase),
    Tree(TreeCase),
    NoMemory(NoMemoryCase),
}

const CASES: &[(&str, Case)] = &[
    ("text_from_string", Case::Text(TextCase::FromString)),
    ("text_clone", Case::Text(TextCase::Clone)),
    ("text_into_string", Case::Text(TextCase::IntoString)),
    ("text_into_static", Case::Text(TextCase::IntoStatic)),
    ("code_block_kind_clone", Case::Tag(TagCase::KindClone)),
    (
        "code_block_kind_into_static",
        Case::Tag(TagCase::KindIntoStatic),
    ),
    ("heading_clone", Case::Tag(TagCase::Clone(TagKind::Heading))),
    (
        "heading_into_static",
        Case::Tag(TagCase::IntoStatic(TagKind::Heading)),
    ),
    (
        "code_block_clone",
        Case::Tag(TagCase::Clone(TagKind::CodeBlock)),
    ),
    (
        "code_block_into_static",
        Case::Tag(TagCase::IntoStatic(TagKind::CodeBlock)),
    ),
    (
        "footnote_clone",
        Case::Tag(TagCase::Clone(TagKind::Footnote)),
    ),
    (
        "footnote_into_static",
        Case::Tag(TagCase::IntoStatic(TagKind::Footnote)),
    ),
    ("table_clone", Case::Tag(TagCase::Clone(TagKind::Table))),
    ("link_clone", Case::Tag(TagCase::Clone(TagKind::Link))),
    (
        "link_into_static",
        Case::Tag(TagCase::IntoStatic(TagKind::Link)),
    ),
    ("image_clone", Case::Tag(TagCase::Clone(TagKind::Image))),
    (
        "image_into_static",
        Case::Tag(TagCase::IntoStatic(TagKind::Image)),
    ),
    ("event_clone", Case::Event(EventCase::Clone)),
    ("event_into_static", Case::Event(EventCase::IntoStatic)),
    ("start_clone", Case::Event(EventCase::StartClone)),
    ("start_into_static", Case::Event(EventCase::StartIntoStatic)),
    ("run_line", Case::Scan(ScanCase::RunLine)),
    ("scan_table_head", Case::Scan(ScanCase::TableHead)),
    ("unescape", Case::Scan(ScanCase::Unescape)),
    ("unescape_900", Case::Scan(ScanCase::Unescape900)),
    (
        "scan_html_block_inner",
        Case::Scan(ScanCase::HtmlBlockInner),
    ),
    (
        "scan_html_block_inner_900",
        Case::Scan(ScanCase::HtmlBlockInner900),
    ),
    ("scan_link_label_rest", Case::Scan(ScanCase::LinkLabelRest)),
    (
        "scan_link_label_rest_900",
        Case::Scan(ScanCase::LinkLabelRest900),
    ),
    (
        "scan_link_label_bytes",
        Case::Scan(ScanCase::LinkLabelBytes),
    ),
    ("link_label_new", Case::Scan(ScanCase::LinkLabelNew)),
    ("run_inline_html", Case::Scan(ScanCase::RunInlineHtml)),
    ("tree_with_capacity", Case::Tree(TreeCase::WithCapacity)),
    ("tree_append", Case::Tree(TreeCase::Append)),
    ("tree_create_node", Case::Tree(TreeCase::CreateNode)),
    ("tree_push", Case::Tree(TreeCase::Push)),
    ("tree_clone", Case::Tree(TreeCase::Clone)),
    ("tree_in_order", Case::Tree(TreeCase::InOrder)),
    ("no_memory_texts", Case::NoMemory(NoMemoryCase::Texts)),
    (
        "no_memory_copied_short_text",
        Case::NoMemory(NoMemoryCase::CopiedShortText),
    ),
    (
        "no_memory_static_owned_text",
        Case::NoMemory(NoMemoryCase::StaticOwnedText),
    ),
    (
        "no_memory_owned_string",
        Case::NoMemory(NoMemoryCase::OwnedString),
    ),
    ("no_memory_values", Case::NoMemory(NoMemoryCase::Values)),
    (
        "no_memory_static_table",
        Case::NoMemory(NoMemoryCase::StaticTable),
    ),
    ("no_memory_options", Case::NoMemory(NoMemoryCase::Options)),
    ("no_memory_lines", Case::NoMemory(NoMemoryCase::Lines)),
    ("no_memory_scanners", Case::NoMemory(NoMemoryCase::Scanners)),
    ("no_memory_inline", Case::NoMemory(NoMemoryCase::Inline)),
    (
        "no_memory_inline_html",
        Case::NoMemory(NoMemoryCase::InlineHtml),
    ),
    ("no_memory_labels", Case::NoMemory(NoMemoryCase::Labels)),
    (
        "no_memory_tree_index",
        Case::NoMemory(NoMemoryCase::TreeIndex),
    ),
    ("no_memory_tree", Case::NoMemory(NoMemoryCase::Tree)),
    (
        "no_memory_remove_node",
        Case::NoMemory(NoMemoryCase::RemoveNode),
    ),
    (
        "no_memory_truncate_siblings",
        Case::NoMemory(NoMemoryCase::TruncateSiblings),
    ),
];

/// Makes the cases of these names in turn, or with no name all of them, and answers the status: 0,
/// or 2 at a name that no case has, or 3 where memory is refused to what a case is made of or a
/// write fails.
pub(crate) fn run_cases(alloc: Global, names: &[String], output: Stdout) -> u8
    ensures { result ≤ 3 }
{
    let outcome = if names.is_empty() {
        run_all(alloc, output)
    } else {
        run_named(alloc, names, output)
    };
    match outcome {
        Ok(()) => 0,
        Err(Stop::Unknown) => 2,
        Err(_) => 3,
    }
}

fn run_all(alloc: Global, output: Stdout) -> Result<(), Stop> {
    for (name, case) in CASES {
        run_case(alloc, output, name, *case)?;
    }
    Ok(())
}

fn run_named(alloc: Global, names: &[String], output: Stdout) -> Result<(), Stop> {
    for name in names {
        match case_named(name.as_str()) {
            Some(case) => run_case(alloc, output, name.as_str(), case)?,
            None => return Err(Stop::Unknown),
        }
    }
    Ok(())
}

fn case_named(name: &str) -> Option<Case> {
    for (known, case) in CASES {
        if *known == name {
            return Some(*case);
        }
    }
    None
}

fn run_case(alloc: Global, mut output: Stdout, name: &str, case: Case) -> Result<(), Stop> {
    writeln!(output, "case {name}")?;
    match case {
        Case::Text(case) => texts::run(alloc, output, case),
        Case::Tag(case) => tags::run(alloc, output, case),
        Case::Event(case) => events::run(alloc, output, case),
        Case::Scan(case) => run_scan(alloc, output, case),
        Case::Tree(case) => trees::run(alloc, output, case),
        Case::NoMemory(case) => no_memory::run(alloc, output, case),
    }
}

fn run_scan(alloc: Global, output: Stdout, case: ScanCase) -> Result<(), Stop> {
    match case {
        ScanCase::RunLine => lines::run(alloc, output),
        ScanCase::TableHead => lines::table_head(alloc, output),
        ScanCase::Unescape => unescaping::short(alloc, output),
        ScanCase::Unescape900 => unescaping::of_900_bytes(alloc, output),
        ScanCase::HtmlBlockInner => inline_html::tag(alloc, output),
        ScanCase::HtmlBlockInner900 => inline_html::tag_of_900_bytes(alloc, output),
        ScanCase::LinkLabelRest => labels::short(alloc, output),
        ScanCase::LinkLabelRest900 => labels::of_900_bytes(alloc, output),
        ScanCase::LinkLabelBytes => labels::in_bytes(alloc, output),
        ScanCase::LinkLabelNew => labels::new(alloc, output),
        ScanCase::RunInlineHtml => inline_html::run(alloc, output),
    }
}
