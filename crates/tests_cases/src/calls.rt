//! Each call that a case may name: its arguments are read, it is made, and its answer is written.
pub(crate) mod blocks;
pub(crate) mod html_blocks;
pub(crate) mod inline;
pub(crate) mod inline_html;
pub(crate) mod line;
pub(crate) mod lines;
pub(crate) mod linklabel;
pub(crate) mod tags;

use crate::arguments::Arguments;
use crate::stop::{CaseError, Unreadable};
use std::alloc::Global;

// The calls on a line.
#[derive(Clone, Copy)]
enum LineCall {
    Run,
    Eol,
    BlankLine,
    LineLength,
    LineHead,
    NextLine,
    WhiteSpace,
    SpacesAndTabs,
    Repeated,
    Indent,
    QuoteStart,
}

// The calls on what begins or ends a block.
#[derive(Clone, Copy)]
enum BlockCall {
    ThematicBreak,
    AtxHeading,
    SetextHeading,
    CodeFence,
    ClosingFence,
    MetadataBlock,
    ClosingMetadata,
    ListItem,
    DelimiterRow,
    Interruption,
}

// The calls on inline text.
#[derive(Clone, Copy)]
enum InlineCall {
    CharacterReference,
    Unescaped,
    WikilinkPipe,
    LinkDestination,
    LinkTitle,
    Autolink,
    Label,
}

// The calls on HTML.
#[derive(Clone, Copy)]
enum HtmlCall {
    BlockName,
    TagAlone,
    BlockStart,
    BlockEnd,
    Tag,
    Finds,
}

// A call, by what it is about.
#[derive(Clone, Copy)]
enum Call {
    Line(LineCall),
    Block(BlockCall),
    Inline(InlineCall),
    Html(HtmlCall),
}

const CALLS: &[(&str, Call)] = &[
    ("line", Call::Line(LineCall::Run)),
    ("eol", Call::Line(LineCall::Eol)),
    ("blank", Call::Line(LineCall::BlankLine)),
    ("linelength", Call::Line(LineCall::LineLength)),
    ("linehead", Call::Line(LineCall::LineHead)),
    ("nextline", Call::Line(LineCall::NextLine)),
    ("wsnonl", Call::Line(LineCall::WhiteSpace)),
    ("spacestabs", Call::Line(LineCall::SpacesAndTabs)),
    ("chrepeat", Call::Line(LineCall::Repeated)),
    ("indent", Call::Line(LineCall::Indent)),
    ("bqstart", Call::Line(LineCall::QuoteStart)),
    ("hrule", Call::Block(BlockCall::ThematicBreak)),
    ("atx", Call::Block(BlockCall::AtxHeading)),
    ("setext", Call::Block(BlockCall::SetextHeading)),
    ("fence", Call::Block(BlockCall::CodeFence)),
    ("closefence", Call::Block(BlockCall::ClosingFence)),
    ("meta", Call::Block(BlockCall::MetadataBlock)),
    ("closemeta", Call::Block(BlockCall::ClosingMetadata)),
    ("listitem", Call::Block(BlockCall::ListItem)),
    ("tablehead", Call::Block(BlockCall::DelimiterRow)),
    ("interrupts", Call::Block(BlockCall::Interruption)),
    ("entity", Call::Inline(InlineCall::CharacterReference)),
    ("unescape", Call::Inline(InlineCall::Unescaped)),
    ("wikilink", Call::Inline(InlineCall::WikilinkPipe)),
    ("linkdest", Call::Inline(InlineCall::LinkDestination)),
    ("linktitle", Call::Inline(InlineCall::LinkTitle)),
    ("autolink", Call::Inline(InlineCall::Autolink)),
    ("type6", Call::Html(HtmlCall::BlockName)),
    ("type7", Call::Html(HtmlCall::TagAlone)),
    ("htmlstart", Call::Html(HtmlCall::BlockStart)),
    ("htmlends", Call::Html(HtmlCall::BlockEnd)),
    ("htmlinner", Call::Html(HtmlCall::Tag)),
    ("inlinehtml", Call::Html(HtmlCall::Finds)),
    ("label", Call::Inline(InlineCall::Label)),
];

/// Makes the call of this name on the arguments, and writes its answer.
pub(crate) fn answer(
    alloc: Global,
    name: &str,
    arguments: &mut Arguments<'_>,
) -> Result<String, CaseError> {
    match call_named(name) {
        Some(Call::Line(call)) => line_answer(alloc, call, arguments),
        Some(Call::Block(call)) => block_answer(alloc, call, arguments),
        Some(Call::Inline(call)) => inline_answer(alloc, call, arguments),
        Some(Call::Html(call)) => html_answer(alloc, call, arguments),
        None => Err(CaseError::Unreadable(Unreadable::UnknownCall)),
    }
}

fn call_named(name: &str) -> Option<Call> {
    for (known, call) in CALLS {
        if *known == name {
            return Some(*call);
        }
    }
    None
}

fn line_answer(
    alloc: Global,
    call: LineCall,
    arguments: &mut Arguments<'_>,
) -> Result<String, CaseError> {
    match call {
        LineCall::Run => line::run(alloc, arguments),
        LineCall::Eol => lines::eol(alloc, arguments),
        LineCall::BlankLine => lines::blank_line(alloc, arguments),
        LineCall::LineLength => lines::line_length(alloc, arguments),
        LineCall::LineHead => lines::head(alloc, arguments),
        LineCall::NextLine => lines::next_line(alloc, arguments),
        LineCall::WhiteSpace => lines::white_space(alloc, arguments),
        LineCall::SpacesAndTabs => lines::spaces_and_tabs(alloc, arguments),
        LineCall::Repeated => lines::repeated(alloc, arguments),
        LineCall::Indent => lines::indent(alloc, arguments),
        LineCall::QuoteStart => lines::quote_start(alloc, arguments),
    }
}

fn block_answer(
    alloc: Global,
    call: BlockCall,
    arguments: &mut Arguments<'_>,
) -> Result<String, CaseError> {
    match call {
        BlockCall::ThematicBreak => blocks::thematic_break(alloc, arguments),
        BlockCall::AtxHeading => blocks::atx_heading(alloc, arguments),
        BlockCall::SetextHeading => blocks::setext_heading(alloc, arguments),
        BlockCall::CodeFence => blocks::code_fence(alloc, arguments),
        BlockCall::ClosingFence => blocks::closing_fence(alloc, arguments),
        BlockCall::MetadataBlock => blocks::metadata_block(alloc, arguments),
        BlockCall::ClosingMetadata => blocks::closing_metadata(alloc, arguments),
        BlockCall::ListItem => blocks::list_item(alloc, arguments),
        BlockCall::DelimiterRow => blocks::delimiter_row(alloc, arguments),
        BlockCall::Interruption => blocks::interruption(alloc, arguments),
    }
}

fn inline_answer(
    alloc: Global,
    call: InlineCall,
    arguments: &mut Arguments<'_>,
) -> Result<String, CaseError> {
    match call {
        InlineCall::CharacterReference => inline::character_reference(alloc, arguments),
        InlineCall::Unescaped => inline::unescaped(alloc, arguments),
        InlineCall::WikilinkPipe => inline::wikilink_pipe(alloc, arguments),
        InlineCall::LinkDestination => inline::link_destination(alloc, arguments),
        InlineCall::LinkTitle => inline::link_title(alloc, arguments),
        InlineCall::Autolink => inline::autolink(alloc, arguments),
        InlineCall::Label => linklabel::label(alloc, arguments),
    }
}

fn html_answer(
    alloc: Global,
    call: HtmlCall,
    arguments: &mut Arguments<'_>,
) -> Result<String, CaseError> {
    match call {
        HtmlCall::BlockName => tags::block_name(alloc, arguments),
        HtmlCall::TagAlone => tags::tag_alone(alloc, arguments),
        HtmlCall::BlockStart => html_blocks::start(alloc, arguments),
        HtmlCall::BlockEnd => html_blocks::end(alloc, arguments),
        HtmlCall::Tag => tags::tag(alloc, arguments),
        HtmlCall::Finds => inline_html::finds(alloc, arguments),
    }
}
