//! Runs of calls on a line.
use super::{DONE, Row, assert_rows, assert_run};

const OVER_SPACES: &[Row] = &[
    (
        (&["line", "upto:2", "space:1", "eol"], b"   x"),
        (0, "upto 2\nspace true\neol false\nscanned 3\nrest 78\n"),
    ),
    (
        (&["line", "space:1"], b"x"),
        (0, "space false\nscanned 0\nrest 78\n"),
    ),
    (
        (&["line", "upto:9", "eol"], b"  \nx"),
        (0, "upto 2\neol true\nscanned 2\nrest 0a78\n"),
    ),
    (
        (&["line", "space:4", "eol"], b"   "),
        (0, "space false\neol true\nscanned 3\nrest -\n"),
    ),
    ((&["line"], b"a"), (0, "scanned 0\nrest 61\n")),
    ((&["line"], b""), (0, "scanned 0\nrest -\n")),
    (
        (&["line", "upto:18446744073709551615"], b" x"),
        (0, "upto 1\nscanned 1\nrest 78\n"),
    ),
    (
        (&["line", "upto:00000000000000000000000000000001"], b"  x"),
        (0, "upto 1\nscanned 1\nrest 2078\n"),
    ),
];

#[test]
fn prints_runs_over_spaces(rt: HostRuntime) {
    assert_rows(&rt, rt.alloc(), OVER_SPACES);
}

const OVER_TABS: &[Row] = &[
    (
        (&["line", "upto:3", "upto:5"], b"\tx"),
        (0, "upto 3\nupto 1\nscanned 1\nrest 78\n"),
    ),
    (
        (&["line", "upto:3", "eol"], b"\tx"),
        (1, "upto 3\nscanned 1\nrest 2078\nstop 1 SpacePending\n"),
    ),
    (
        (&["line", "quote", "upto:9"], b">\t\tx"),
        (0, "quote true\nupto 6\nscanned 3\nrest 78\n"),
    ),
    (
        (&["line", "quote", "quote"], b">\t>"),
        (
            1,
            "quote true\nscanned 2\nrest 20203e\nstop 1 SpacePending\n",
        ),
    ),
    (
        (&["line", "quote"], b"x"),
        (0, "quote false\nscanned 0\nrest 78\n"),
    ),
];

#[test]
fn prints_runs_over_tabs(rt: HostRuntime) {
    assert_rows(&rt, rt.alloc(), OVER_TABS);
}

const MARKERS: &[Row] = &[
    (
        (&["line", "list:0"], b"-\tx"),
        (0, "list - 0 4\nscanned 2\nrest 78\n"),
    ),
    (
        (&["line", "list:0", "list:0"], b"- * * *"),
        (0, "list - 0 2\nlist none\nscanned 2\nrest 2a202a202a\n"),
    ),
    (
        (&["line", "list:0"], b"123456789. x"),
        (0, "list . 123456789 11\nscanned 11\nrest 78\n"),
    ),
    (
        (&["line", "list:0"], b"1234567890. x"),
        (0, "list none\nscanned 0\nrest 313233343536373839302e2078\n"),
    ),
    (
        (&["line", "list:0"], b"-"),
        (0, "list - 0 2\nscanned 1\nrest -\n"),
    ),
    (
        (&["line", "def:0"], b":    x"),
        (0, "def 5\nscanned 5\nrest 78\n"),
    ),
    (
        (&["line", "def:0"], b":     x"),
        (0, "def 2\nscanned 2\nrest 2020202078\n"),
    ),
    (
        (&["line", "def:0"], b"x"),
        (0, "def none\nscanned 0\nrest 78\n"),
    ),
];

#[test]
fn prints_markers(rt: HostRuntime) {
    assert_rows(&rt, rt.alloc(), MARKERS);
}

const AFTER_TABS: &[Row] = &[
    (
        (&["line", "quote", "list:0"], b">\t- x"),
        (
            1,
            "quote true\nscanned 2\nrest 20202d2078\nstop 1 SpacePending\n",
        ),
    ),
    (
        (&["line", "quote", "upto:3", "list:2"], b">\t- x"),
        (0, "quote true\nupto 2\nlist - 0 4\nscanned 4\nrest 78\n"),
    ),
    (
        (&["line", "list:0"], b"-\t\tx"),
        (0, "list - 0 2\nscanned 2\nrest 20202020202078\n"),
    ),
    (
        (&["line", "list:0", "eol"], b"-\t"),
        (1, "list - 0 2\nscanned 2\nrest 2020\nstop 1 SpacePending\n"),
    ),
    (
        (&["line", "list:18446744073709551615"], b"- x"),
        (1, "scanned 0\nrest 2d2078\nstop 0 IndentTooLarge\n"),
    ),
    (
        (&["line", "list:18446744073709551599"], b"- x"),
        (0, "list - 0 18446744073709551601\nscanned 2\nrest 78\n"),
    ),
    (
        (&["line", "upto:1", "list:18446744073709551615"], b"\tx"),
        (1, "upto 1\nscanned 1\nrest 20202078\nstop 1 SpacePending\n"),
    ),
];

#[test]
fn prints_markers_after_tabs(rt: HostRuntime) {
    assert_rows(&rt, rt.alloc(), AFTER_TABS);
}

#[test]
fn reads_more_than_one_buffer(rt: HostRuntime) {
    let words = ["line", "upto:20000", "eol"];
    let printed = "upto 10000\neol true\nscanned 10000\nrest -\n";
    assert_run(&rt, rt.alloc(), (&words, &[b' '; 10_000]), printed, DONE);
}
