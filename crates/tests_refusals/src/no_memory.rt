//! Each call that takes no memory. What it is called on is made before `ready`, and all requests
//! may be refused from there on.
pub(crate) mod inline;
pub(crate) mod inline_html;
pub(crate) mod lines;
pub(crate) mod options;
pub(crate) mod scanners;
pub(crate) mod texts;
pub(crate) mod trees;
pub(crate) mod values;

use crate::labels;
use crate::stop::Stop;
use std::alloc::Global;
use std::io::Stdout;

#[derive(Clone, Copy)]
pub(crate) enum NoMemoryCase {
    Texts,
    CopiedShortText,
    StaticOwnedText,
    OwnedString,
    Values,
    StaticTable,
    Options,
    Lines,
    Scanners,
    Inline,
    InlineHtml,
    Labels,
    TreeIndex,
    Tree,
    RemoveNode,
    TruncateSiblings,
}

pub(crate) fn run(alloc: Global, output: Stdout, case: NoMemoryCase) -> Result<(), Stop> {
    match case {
        NoMemoryCase::Texts => texts::run(alloc, output),
        NoMemoryCase::CopiedShortText => texts::copied_short(alloc, output),
        NoMemoryCase::StaticOwnedText => texts::static_owned(alloc, output),
        NoMemoryCase::OwnedString => texts::owned_string(alloc, output),
        NoMemoryCase::Values => values::run(alloc, output),
        NoMemoryCase::StaticTable => values::static_table(alloc, output),
        NoMemoryCase::Options => options::run(output),
        NoMemoryCase::Lines => lines::run(output),
        NoMemoryCase::Scanners => scanners::run(output),
        NoMemoryCase::Inline => inline::run(alloc, output),
        NoMemoryCase::InlineHtml => inline_html::run(output),
        NoMemoryCase::Labels => labels::compared(alloc, output),
        NoMemoryCase::TreeIndex => trees::indices(alloc, output),
        NoMemoryCase::Tree => trees::run(alloc, output),
        NoMemoryCase::RemoveNode => trees::remove_node(alloc, output),
        NoMemoryCase::TruncateSiblings => trees::truncate_siblings(alloc, output),
    }
}
