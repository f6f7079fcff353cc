//! The events and the HTML of whole pages.
ghost use Rattle.std.specs.Prelude.{◌≡◌};

use crate::loops::each_stretch;
use markdown_events::parser::Parser;
use markdown_html::page::html_of_page;
use markdown_html::push::push_html;
use markdown_html::setting::plain_setting;
use std::alloc::Global;

fn count_events(alloc: Global, page: &str) -> u64 {
    let Ok(parser) = Parser::new(alloc, page) else {
        return 0;
    };
    let mut count: u64 = 0;
    for _ in parser {
        count = count.wrapping_add(1);
    }
    count
}

#[unsafe(no_mangle)]
pub extern "C" fn ours_page_events(alloc: Global, text: &[u8], at: &[usize], rounds: usize) -> u64 {
    let call = |page: &str| -> u64 { count_events(alloc, page) };
    each_stretch(text, at, rounds, &call)
}

// The same, each with its range.
fn count_ranges(alloc: Global, page: &str) -> u64 {
    let Ok(parser) = Parser::new(alloc, page) else {
        return 0;
    };
    let mut count: u64 = 0;
    for _ in parser.into_offset_iter() {
        count = count.wrapping_add(1);
    }
    count
}

#[unsafe(no_mangle)]
pub extern "C" fn ours_page_ranges(alloc: Global, text: &[u8], at: &[usize], rounds: usize) -> u64 {
    let call = |page: &str| -> u64 { count_ranges(alloc, page) };
    each_stretch(text, at, rounds, &call)
}

fn html_len(alloc: Global, page: &str) -> u64 {
    let Ok(parser) = Parser::new(alloc, page) else {
        return 0;
    };
    let mut html = String::new(alloc);
    match push_html(alloc, &mut html, parser) {
        Ok(()) => html.len() as u64,
        Err(_) => 0,
    }
}

#[unsafe(no_mangle)]
pub extern "C" fn ours_page_html(alloc: Global, text: &[u8], at: &[usize], rounds: usize) -> u64 {
    let call = |page: &str| -> u64 { html_len(alloc, page) };
    each_stretch(text, at, rounds, &call)
}

// The HTML of a page whose events are lent to the writer, and not given by an iterator.
fn page_html_len(alloc: Global, page: &str) -> u64 {
    match html_of_page(alloc, page, &plain_setting()) {
        Ok(html) => html.len() as u64,
        Err(_) => 0,
    }
}

#[unsafe(no_mangle)]
pub extern "C" fn ours_html_of_page(
    alloc: Global,
    text: &[u8],
    at: &[usize],
    rounds: usize,
) -> u64 {
    let call = |page: &str| -> u64 { page_html_len(alloc, page) };
    each_stretch(text, at, rounds, &call)
}
