//! Calls of `markdown_events` that no program makes: a caller's definitions, and texts that are lent. What programs print of events is in
//! `tests/rows`.
ghost use Rattle.std.specs.Prelude.{◌≡◌, ◌≤◌, find, option_map};
ghost use Rattle.std.specs.Str.{bytes_eq};
ghost use Rattle.markdown_values.specs.strings.Text.{cow_text};
ghost use Rattle.markdown_blocks.specs.link_definitions.LinkDefinitions.{Target};

use crate::asserts::{assert_same, made};
use markdown_events::definitions::{Definitions, Target};
use markdown_events::event_reader::EventReader;
use markdown_events::inline_events::inline_events;
use markdown_values::strings::CowStr;
use markdown_values::values::{Event, Extensions, Tag};
use std::alloc::{AllocError, Global};
use std::process::Abort;

// A label, and where it leads.
type Row = (&'static str, &'static str, Option<&'static str>);

// The link reference definitions that a caller has.
#[derive(Drop)]
struct Given {
    rows: &'static [Row],
}

impl<'a> Definitions<'a> for Given {
    ghost targets = { λ it label. option_map
        (λ row. record { destination = row.1.now; title = option_map (λ title. title.now) row.2 })
        (find (λ row. bytes_eq row.0.now label) it.rows.now) };

    fn find(&self, label: &str) -> Result<Option<Target<'a>>, AllocError> {
        match self.rows.iter().find(|row| row.0 == label) {
            Some(row) => Ok(Some(Target {
                destination: CowStr::from(row.1),
                title: title_of(row.2),
            })),
            None => Ok(None),
        }
    }

    fn is_defined(&self, label: &str) -> Result<bool, AllocError> {
        Ok(self.find(label)?.is_some())
    }
}

// The title of a definition, if it has one.
fn title_of(title: Option<&'static str>) -> Option<CowStr<'static>>
    ensures { option_map cow_text result ≡ option_map (λ title. title.now) title.entry }
{
    match title {
        Some(title) => Some(CowStr::from(title)),
        None => None,
    }
}

const GIVEN: Given = Given {
    rows: &[("bar", "/b\\*r*", Some("ti\\*tle &copy;"))],
};

// The start of the link by which a text begins has this destination and this title.
fn assert_leads(rt: &impl Abort, event: &Event, expected: (&str, &str)) {
    let Event::Start(
        Tag::Link {
            dest_url,
            title,
            ..
        },
    ) = event
    else {
        return assert_same(rt, true, false);
    };
    assert_same(rt, (dest_url.as_str(), title.as_str()), expected);
}

// CommonMark 0.31.2, example 527
#[test]
fn labels_of_texts_lead_where_a_caller_says(rt: HostRuntime) {
    let asked = Extensions::none();
    let events = made(&rt, inline_events(rt.alloc(), "[x][bar]", &GIVEN, asked));
    let (event, _) = events.first().expect(&rt, "an event");
    assert_leads(&rt, event, ("/b*r*", "ti*tle \u{a9}"));
}

// The next event, where labels lead where the caller says.
fn next_given<'a>(rt: &impl Abort, reader: &mut EventReader<'a>) -> Event<'a> {
    let (event, _) = made(rt, reader.next_with(&GIVEN)).expect(rt, "an event");
    event
}

// CommonMark 0.31.2, example 202
#[test]
fn labels_of_pages_lead_where_a_caller_says(rt: HostRuntime) {
    let page = "[bar] [foo]\n\n[foo]: /url\n";
    let mut reader = made(&rt, EventReader::new(rt.alloc(), page));
    let paragraph = next_given(&rt, &mut reader);
    assert!(rt; matches!(paragraph, Event::Start(Tag::Paragraph)));
    let link = next_given(&rt, &mut reader);
    assert_leads(&rt, &link, ("/b*r*", "ti*tle \u{a9}"));
}

#[test]
fn labels_lead_where_a_page_says(rt: HostRuntime) {
    let page = "[foo]: /url\\bar\\*baz \"foo\\\"bar\\baz\"\n\n[foo]\n";
    let reader = made(&rt, EventReader::new(rt.alloc(), page));
    let target = made(&rt, reader.reference_definitions().get("foo")).expect(&rt, "a target");
    assert_same(&rt, target.destination.as_str(), "/url\\bar*baz");
    let title = target.title.expect(&rt, "a title");
    assert_same(&rt, title.as_str(), "foo\"bar\\baz");
    assert!(rt; made(&rt, reader.reference_definitions().get("bar")).is_none());
}

// A page, and how many texts of its events are no run of it: the others are lent.
const PAGES: &[(&str, u64)] = &[
    ("> # Foo\n> bar\n> baz\n", 0),
    ("> bar\n> <http://a.b>\n> \\*c\n", 0),
    ("[foo]\n\n[foo]: first\n[foo]: second\n", 0),
    ("[foo]\n\n> [foo]: /url\n", 0),
    ("> [foo]: /url '\n> title\n> line1'\n\n[foo]\n", 1),
    ("> `` a ``\n> b ![c]\n>\n> [c]: /v \"t\"\n", 0),
    ("> `x\n> y` <b\n> c>\n", 2),
    ("> [a](\n> /u \"t\n> w\")\n", 1),
    ("> [ foo\n> bar ]!\n> [x][FOO BAR]\n\n[foo bar]: /q\n", 1),
];

#[test]
fn texts_of_pages_are_lent(rt: HostRuntime) {
    for (page, own) in PAGES {
        let counted = made(&rt, own_texts_of(rt.alloc(), page));
        assert_same(&rt, (*page, counted), (*page, *own));
    }
}

// How many texts of the events of a page, of up to a hundred, are not lent.
fn own_texts_of(alloc: Global, page: &str) -> Result<u64, AllocError> {
    let mut reader = EventReader::new(alloc, page)?;
    let mut own = 0u64;
    for _ in 0..100 {
        let Some((event, _)) = reader.next()? else {
            break;
        };
        own = own.saturating_add(own_texts(&event));
    }
    Ok(own)
}

// How many texts of an event are not lent.
fn own_texts(event: &Event) -> u64 {
    match event {
        Event::Start(
            Tag::Link {
                dest_url,
                title,
                id,
                ..
            },
        ) => own_text(dest_url) + own_text(title) + own_text(id),
        Event::Start(
            Tag::Image {
                dest_url,
                title,
                id,
                ..
            },
        ) => own_text(dest_url) + own_text(title) + own_text(id),
        Event::Text(text) => own_text(text),
        Event::Code(text) => own_text(text),
        Event::InlineHtml(text) => own_text(text),
        _ => 0,
    }
}

// One, unless the text is lent.
fn own_text(text: &CowStr) -> u64
    ensures { result ≤ 1 }
{
    match text {
        CowStr::Borrowed(_) => 0,
        _ => 1,
    }
}
