//! Task list items, alerts and metadata blocks of pages.
use crate::asserts::{assert_made, assert_same, made};
use markdown_blocks::alerts::{Alert, alerts_of_page};
use markdown_blocks::first_blocks::{Task, tasks_of_page};
use markdown_blocks::metadata::{Metadata, metadata_of_page};
use markdown_values::values::{BlockQuoteKind, MetadataBlockKind};
use parser_uses::extensions::{count_tasks, first_alert, parted};

// Whether a task list item is checked, how many bytes of the page stand before its marker, and how many it has.
type TaskRow = (bool, usize, usize);

// Pages and their task list items, as GitHub Flavored Markdown 0.29 defines them in section 5.3.
const TASKS: &[(&str, &[TaskRow])] = &[
    // 279
    ("- [ ] foo\n- [x] bar\n", &[(false, 2, 3), (true, 12, 3)]),
    // 280
    (
        "- [x] foo\n  - [ ] bar\n  - [x] baz\n- [ ] bim\n",
        &[(true, 2, 3), (false, 14, 3), (true, 26, 3), (false, 36, 3)],
    ),
    ("- [X] a\n", &[(true, 2, 3)]),
    ("10) [ ] a\n", &[(false, 4, 3)]),
    ("-    [x] a\n", &[(true, 5, 3)]),
    ("-     [x] a\n", &[]),
    ("- - [x] a\n", &[(true, 4, 3)]),
    ("- [ ] - a\n", &[(false, 2, 3)]),
    ("> - [x] a\n", &[(true, 4, 3)]),
    ("- [\t] a\n", &[]),
    ("- [\u{b}] a\n", &[]),
    ("- [ ]\n  a\n", &[]),
    ("- [ ] \n  a\n", &[]),
    ("- [ ]\n", &[]),
    ("- [ ] \t\n", &[]),
    ("- [x]\ta\n", &[(true, 2, 3)]),
    ("- [ ]", &[]),
    ("- [x]a\n", &[]),
    ("- a [x] b\n", &[]),
    ("-\n  [ ] a\n", &[(false, 4, 3)]),
    ("- [ ] a\n\n  [x] b\n", &[(false, 2, 3)]),
    ("- > [ ] a\n", &[]),
    ("- # [ ] a\n", &[]),
    ("- [ ] a\n  ---\n", &[]),
    ("- [a]: /b\n  [ ] c\n", &[]),
    ("- > a\n\n  [ ] b\n", &[]),
    ("> [ ] a\n", &[]),
    ("[ ] a\n", &[]),
    ("", &[]),
];

fn task_row(task: &Task) -> TaskRow {
    (task.is_checked, task.offset, task.len)
}

#[test]
fn task_list_items_begin_with_their_markers(rt: HostRuntime) {
    for (page, rows) in TASKS {
        let tasks = made(&rt, tasks_of_page(rt.alloc(), page.as_bytes()));
        assert_same(&rt, (*page, tasks.len()), (*page, rows.len()));
        for (task, row) in tasks.iter().zip(*rows) {
            assert_same(&rt, (*page, task_row(task)), (*page, *row));
        }
    }
}

#[test]
fn checked_tasks_are_counted(rt: HostRuntime) {
    assert_made(
        &rt,
        count_tasks(rt.alloc(), b"- [ ] a\n- [x] b\n- c\n- [x] d\n"),
        (2, 3),
    );
}

// The kind of an alert, how many bytes of the page stand before its line, how many it has, and whether its paragraph has no other.
type AlertRow = (BlockQuoteKind, usize, usize, bool);

const ALERTS: &[(&str, &[AlertRow])] = &[
    ("> [!NOTE]\n> a\n", &[(BlockQuoteKind::Note, 2, 8, false)]),
    ("> [!TIP]\n", &[(BlockQuoteKind::Tip, 2, 7, true)]),
    (
        "> [!IMPORTANT]\n>\n> a\n",
        &[(BlockQuoteKind::Important, 2, 13, true)],
    ),
    (
        "> [!warning] \n> a\n\n> [!CAUTION]",
        &[
            (BlockQuoteKind::Warning, 2, 12, false),
            (BlockQuoteKind::Caution, 21, 10, true),
        ],
    ),
    ("> [!NOTE]\na\n", &[(BlockQuoteKind::Note, 2, 8, false)]),
    (
        "- a\n  > [!NOTE]\n  > > [!TIP]\n",
        &[
            (BlockQuoteKind::Note, 8, 8, true),
            (BlockQuoteKind::Tip, 22, 7, true),
        ],
    ),
    (
        ">\n> [!NOTE]\n> a\n",
        &[(BlockQuoteKind::Note, 4, 8, false)],
    ),
    ("> [!NOTE] a\n", &[]),
    ("> [!NOTICE]\n", &[]),
    ("> a\n> [!NOTE]\n", &[]),
    ("> a\n>\n> [!NOTE]\n", &[]),
    ("> # [!NOTE]\n", &[]),
    ("> [!NOTE]\n> ---\n", &[]),
    ("> - [!NOTE]\n", &[]),
    ("- [!NOTE]\n", &[]),
    ("[!NOTE]\n", &[]),
];

fn alert_row(alert: &Alert) -> AlertRow {
    (alert.kind, alert.offset, alert.len, alert.is_alone)
}

#[test]
fn alerts_begin_with_their_lines(rt: HostRuntime) {
    for (page, rows) in ALERTS {
        let alerts = made(&rt, alerts_of_page(rt.alloc(), page.as_bytes()));
        assert_same(&rt, (*page, alerts.len()), (*page, rows.len()));
        for (alert, row) in alerts.iter().zip(*rows) {
            assert_same(&rt, (*page, alert_row(alert)), (*page, *row));
        }
    }
}

#[test]
fn the_first_alert_is_found(rt: HostRuntime) {
    assert_made(
        &rt,
        first_alert(rt.alloc(), b"> a\n\n> [!TIP]\n\n> [!NOTE]\n"),
        Some(BlockQuoteKind::Tip),
    );
    assert_made(&rt, first_alert(rt.alloc(), b"> a\n"), None);
}

// The style of a metadata block, where its content begins and ends, and how many bytes it has.
type MetadataRow = (MetadataBlockKind, usize, usize, usize);

const METADATA: &[(&str, Option<MetadataRow>)] = &[
    (
        "---\na: b\n---\nc\n",
        Some((MetadataBlockKind::YamlStyle, 4, 9, 13)),
    ),
    (
        "---\na\n...\nb",
        Some((MetadataBlockKind::YamlStyle, 4, 6, 10)),
    ),
    (
        "+++\na = 1\n+++\n",
        Some((MetadataBlockKind::PlusesStyle, 4, 10, 14)),
    ),
    (
        "---\na\n\n---\nb\n---\n",
        Some((MetadataBlockKind::YamlStyle, 4, 7, 11)),
    ),
    (
        "--- \t\na\n---  \r\nb",
        Some((MetadataBlockKind::YamlStyle, 6, 8, 15)),
    ),
    (
        "---\na\n ---\n---",
        Some((MetadataBlockKind::YamlStyle, 4, 11, 14)),
    ),
    ("+++\na\n...\n", None),
    ("+++\na\n---\n", None),
    ("---\n---\na\n---\n", None),
    ("---\n\na\n---\n", None),
    ("---\na\n", None),
    ("----\na\n---\n", None),
    (" ---\na\n---\n", None),
    ("a\n\n---\nb\n---\n", None),
    ("", None),
];

fn metadata_row(metadata: Metadata) -> MetadataRow {
    (metadata.kind, metadata.start, metadata.end, metadata.len)
}

#[test]
fn metadata_stands_at_the_front_of_a_page(rt: HostRuntime) {
    for (page, row) in METADATA {
        let found = metadata_of_page(page.as_bytes(), true, true);
        assert_same(&rt, (*page, found.map(metadata_row)), (*page, *row));
    }
}

#[test]
fn metadata_of_a_style_that_is_off_is_none(rt: HostRuntime) {
    let yaml = metadata_of_page(b"---\na\n---\n", false, true);
    assert_same(&rt, yaml.map(metadata_row), None);
    let pluses = metadata_of_page(b"+++\na\n+++\n", true, false);
    assert_same(&rt, pluses.map(metadata_row), None);
}

#[test]
fn a_page_goes_on_after_its_metadata(rt: HostRuntime) {
    let parts: (&[u8], &[u8]) = (b"a: b\n", b"# c\n");
    assert_same(&rt, parted(b"---\na: b\n---\n# c\n"), parts);
    let none: (&[u8], &[u8]) = (b"", b"# c\n");
    assert_same(&rt, parted(b"# c\n"), none);
}
