//! Inline HTML under a guard, counted or not, and runs of scans step by step.
use crate::printing::{print, print_ready, print_three, print_two};
use crate::stop::Stop;
use markdown_scanners_tree::inline_html::{
    CountedText, HtmlScanGuard, InlineHtmlRun, scan_inline_html_comment,
    scan_inline_html_comment_counted, scan_inline_html_counted, scan_inline_html_processing,
    scan_inline_html_processing_counted,
};
use std::io::Stdout;

pub(crate) fn run(output: Stdout) -> Result<(), Stop> {
    print_ready(output)?;
    guarded(output)?;
    counted(output)?;
    counted_scans(output)?;
    counted_either(output)?;
    steps(output)
}

fn guarded(output: Stdout) -> Result<(), Stop> {
    let mut guard = HtmlScanGuard::new();
    let comment = scan_inline_html_comment(b"<!--->", 2, &mut guard);
    let comment = (comment, guard.comment);
    let cdata = scan_inline_html_comment(b"<![CDATA[a]>b]]>", 2, &mut guard);
    let cdata = (cdata, guard.cdata);
    let processing = scan_inline_html_processing(b"<?>", 2, &mut guard);
    let processing = (processing, guard.processing, guard.declaration);
    print_three(output, comment, cdata, processing)
}

fn counted(output: Stdout) -> Result<(), Stop> {
    let mut text = CountedText::new(b"<!a-->b");
    let opener = (text.len(), text.opener_before(2));
    print_two(output, opener, text.look(2))?;
    let starts = text.starts(3, b"-->");
    let end = text.find(b"-->", 0);
    print_three(output, starts, end, text.passed())
}

fn counted_scans(output: Stdout) -> Result<(), Stop> {
    let mut guard = HtmlScanGuard::new();
    let mut text = CountedText::new(b"<!--<?a?>");
    let comment = scan_inline_html_comment_counted(&mut text, 2, &mut guard);
    let comment = (comment, guard.comment, text.passed());
    let mut text = CountedText::new(b"<?a?>");
    let processing = scan_inline_html_processing_counted(&mut text, 2, &mut guard);
    let processing = (processing, guard.processing, text.passed());
    print_two(output, comment, processing)
}

fn counted_either(output: Stdout) -> Result<(), Stop> {
    let mut guard = HtmlScanGuard::new();
    let mut text = CountedText::new(b"<!-->");
    let none = scan_inline_html_counted(&mut text, 3, &mut guard);
    let found = scan_inline_html_counted(&mut text, 2, &mut guard);
    print_three(output, none, found, text.passed())
}

fn steps(output: Stdout) -> Result<(), Stop> {
    let mut run = InlineHtmlRun::new(b"<!-- a <!-- b --> <!-- c");
    for offset in [2, 9, 2, 20, 1] {
        print(output, run.step(offset))?;
    }
    print(output, (run.passed(), run.steps()))
}
