//! Pages whose memory is refused. `rt try --test --fail-alloc N -- memory` refuses each test its N-th
//! request for memory: a call that is refused is made again, and gives what it would have given.
use markdown_events::event_reader::EventReader;
use markdown_values::values::{Event, Extensions, Tag, TagEnd};
use std::alloc::Global;
use std::ops::Range;
use std::process::Abort;

// An event: where its source begins and ends, what it is, and its element or text.
type Row = (usize, usize, &'static str, &'static str);

const SETTING: Extensions = Extensions {
    tables: true,
    footnotes: false,
    strikethrough: true,
    tasks: true,
    definition_lists: false,
    wikilinks: true,
};

// Containers, and the leaf blocks that ask for memory. (CommonMark 0.31.2, 4.5, 4.6, 5.1 to 5.3)
const BLOCKS: &str = "> - # a\n>   ~~~ b&amp;\n>   c\n\n<p>\n";

const OF_BLOCKS: &[Row] = &[
    (0, 29, "start", "block quote"),
    (2, 29, "start", "list"),
    (2, 29, "start", "item"),
    (4, 8, "start", "heading"),
    (6, 7, "text", "a"),
    (4, 8, "end", "heading"),
    (12, 29, "start", "code block"),
    (27, 29, "text", "c\n"),
    (12, 29, "end", "code block"),
    (2, 29, "end", "item"),
    (2, 29, "end", "list"),
    (0, 29, "end", "block quote"),
    (30, 34, "start", "html block"),
    (30, 34, "html", "<p>\n"),
    (30, 34, "end", "html block"),
];

// Inlines, and a link to a definition. (CommonMark 0.31.2, 2.4, 2.5, 4.7, 6.1 to 6.6)
const INLINES: &str = "[a]: /b&amp; 'c'\n*d* `e\nf` [g][A] &lt; <h@i> <j>\n";

const OF_INLINES: &[Row] = &[
    (17, 49, "start", "paragraph"),
    (17, 20, "start", "emphasis"),
    (18, 19, "text", "d"),
    (17, 20, "end", "emphasis"),
    (20, 21, "text", " "),
    (21, 26, "code", "e f"),
    (26, 27, "text", " "),
    (27, 33, "start", "/b&"),
    (28, 29, "text", "g"),
    (27, 33, "end", "link"),
    (33, 34, "text", " "),
    (34, 38, "text", "<"),
    (38, 39, "text", " "),
    (39, 44, "start", "h@i"),
    (40, 43, "text", "h@i"),
    (39, 44, "end", "link"),
    (44, 45, "text", " "),
    (45, 48, "inline html", "<j>"),
    (17, 49, "end", "paragraph"),
];

// A table. (GitHub Flavored Markdown 0.29, 4.10)
const TABLE: &str = "a|b\n-|-\n~~c~~|\n";

const OF_A_TABLE: &[Row] = &[
    (0, 15, "start", "table"),
    (0, 3, "start", "table head"),
    (0, 1, "start", "table cell"),
    (0, 1, "text", "a"),
    (0, 1, "end", "table cell"),
    (2, 3, "start", "table cell"),
    (2, 3, "text", "b"),
    (2, 3, "end", "table cell"),
    (0, 3, "end", "table head"),
    (8, 14, "start", "table row"),
    (8, 13, "start", "table cell"),
    (8, 13, "start", "strikethrough"),
    (10, 11, "text", "c"),
    (8, 13, "end", "strikethrough"),
    (8, 13, "end", "table cell"),
    (14, 14, "start", "table cell"),
    (14, 14, "end", "table cell"),
    (8, 14, "end", "table row"),
    (0, 15, "end", "table"),
];

#[test]
fn blocks_are_read_where_memory_is_refused(rt: HostRuntime) {
    assert_given(&rt, rt.alloc(), BLOCKS, OF_BLOCKS);
}

#[test]
fn inlines_are_read_where_memory_is_refused(rt: HostRuntime) {
    assert_given(&rt, rt.alloc(), INLINES, OF_INLINES);
}

#[test]
fn a_table_is_read_where_memory_is_refused(rt: HostRuntime) {
    assert_given(&rt, rt.alloc(), TABLE, OF_A_TABLE);
}

// A page has these events, and no other.
fn assert_given(rt: &impl Abort, alloc: Global, page: &str, expected: &[Row]) {
    let mut reader = reader_of(rt, alloc, page);
    for row in expected {
        let (event, range) = next(rt, &mut reader).expect(rt, "an event");
        assert_eq!(rt;
            (range.start, range.end, kind_of(&event), words_of(&event)),
            *row
        );
    }
    assert!(rt; next(rt, &mut reader).is_none());
}

// The events of a page. Where memory is refused, they are asked for again.
fn reader_of<'a>(rt: &impl Abort, alloc: Global, page: &'a str) -> EventReader<'a> {
    match EventReader::with_setting(alloc, page, SETTING) {
        Ok(reader) => reader,
        Err(_) => EventReader::with_setting(alloc, page, SETTING).expect(rt, "memory"),
    }
}

// The next event. Where memory is refused, it is asked for again.
fn next<'a>(rt: &impl Abort, reader: &mut EventReader<'a>) -> Option<(Event<'a>, Range<usize>)> {
    match reader.next() {
        Ok(found) => found,
        Err(_) => reader.next().expect(rt, "memory"),
    }
}

fn kind_of(event: &Event) -> &'static str {
    match event {
        Event::Start(_) => "start",
        Event::End(_) => "end",
        Event::Text(_) => "text",
        Event::Code(_) => "code",
        Event::Html(_) => "html",
        Event::InlineHtml(_) => "inline html",
        _ => "?",
    }
}

// The element, of the start of a link where it leads, or the text.
fn words_of<'e>(event: &'e Event) -> &'e str {
    match event {
        Event::Start(Tag::Link { dest_url, .. }) => dest_url.as_str(),
        Event::Start(tag) => element_name(tag.to_end()),
        Event::End(tag) => element_name(*tag),
        Event::Text(text) | Event::Code(text) | Event::Html(text) | Event::InlineHtml(text) => {
            text.as_str()
        }
        _ => "?",
    }
}

fn element_name(tag: TagEnd) -> &'static str {
    match tag {
        TagEnd::Paragraph => "paragraph",
        TagEnd::Heading(_) => "heading",
        TagEnd::BlockQuote(_) => "block quote",
        TagEnd::CodeBlock => "code block",
        TagEnd::HtmlBlock => "html block",
        TagEnd::List(_) => "list",
        TagEnd::Item => "item",
        TagEnd::Table => "table",
        TagEnd::TableHead => "table head",
        TagEnd::TableRow => "table row",
        TagEnd::TableCell => "table cell",
        TagEnd::Emphasis => "emphasis",
        TagEnd::Strikethrough => "strikethrough",
        TagEnd::Link => "link",
        _ => "?",
    }
}
