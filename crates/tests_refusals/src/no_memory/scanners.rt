//! Scanners of lines.
use crate::printing::{print, print_ready, print_three, print_two};
use crate::stop::Stop;
use markdown_scanners_tree::scanners::{
    calc_indent, interrupts_paragraph, is_ascii_punctuation, is_ascii_whitespace,
    is_ascii_whitespace_no_nl, line_head, scan_atx_heading, scan_blank_line, scan_blockquote_start,
    scan_ch, scan_ch_repeat, scan_closing_code_fence, scan_closing_metadata_block, scan_code_fence,
    scan_eol, scan_hrule, scan_line, scan_lines, scan_listitem, scan_metadata_block, scan_nextline,
    scan_rev_while, scan_setext_heading, scan_spaces_and_tabs, scan_while, scan_whitespace_no_nl,
};
use std::io::Stdout;

pub(crate) fn run(output: Stdout) -> Result<(), Stop> {
    print_ready(output)?;
    classes(output)?;
    runs(output)?;
    endings(output)?;
    headings(output)?;
    fences(output)?;
    items(output)
}

fn classes(output: Stdout) -> Result<(), Stop> {
    for byte in [b'\n', b' ', b'-', b'a'] {
        let space = is_ascii_whitespace(byte);
        let no_ending = is_ascii_whitespace_no_nl(byte);
        print(output, (space, no_ending, is_ascii_punctuation(byte)))?;
    }
    Ok(())
}

fn runs(output: Stdout) -> Result<(), Stop> {
    let is_a = |byte: u8| byte == b'a';
    print_two(output, scan_ch(b"ab", b'a'), scan_ch_repeat(b"aab", b'a'))?;
    print_three(
        output,
        scan_while(b"aab", is_a),
        scan_rev_while(b"baa", is_a),
        scan_whitespace_no_nl(b" \tx"),
    )?;
    print(output, scan_spaces_and_tabs(b" \t\x0bx"))
}

fn endings(output: Stdout) -> Result<(), Stop> {
    print_three(
        output,
        scan_eol(b"\rx"),
        scan_blank_line(b"\r\r\n"),
        scan_line(b"a\r\nb"),
    )?;
    print(output, line_head(b"a\r\nb").len())?;
    print_three(
        output,
        scan_lines(b"a\r\n\nb").count(),
        scan_nextline(b"a\rb\nc"),
        scan_blockquote_start(b"> "),
    )?;
    print_three(
        output,
        scan_hrule(b"* * *\n"),
        scan_hrule(b"- -x-"),
        calc_indent(b"\t x", 4),
    )
}

fn headings(output: Stdout) -> Result<(), Stop> {
    print_two(
        output,
        scan_atx_heading(b"###"),
        scan_setext_heading(b"==  \nx"),
    )
}

fn fences(output: Stdout) -> Result<(), Stop> {
    print_two(
        output,
        scan_code_fence(b"~~~a`"),
        scan_closing_code_fence(b"````  \n", b'`', 3),
    )?;
    print_two(
        output,
        scan_metadata_block(b"---\na: b\n---\n", true, false),
        scan_closing_metadata_block(b"--- \n", b'-'),
    )
}

fn items(output: Stdout) -> Result<(), Stop> {
    print_two(
        output,
        interrupts_paragraph(b"  1. a"),
        interrupts_paragraph(b"-\n"),
    )?;
    print_two(
        output,
        scan_listitem(b"-   x"),
        scan_listitem(b"1844674407370955161615!"),
    )
}
