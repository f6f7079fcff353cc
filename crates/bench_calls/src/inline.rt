//! Entities, unescaping, link destinations, autolinks and wikilinks.

use crate::loops::{bit, count, each_offset, each_rest, each_stretch, two};
use html_entities::HtmlEntities;
use markdown_scanners_tree::scanners::*;
use markdown_values::strings::CowStr;
use std::alloc::Global;

// The entities that both sides know.
const KNOWN: EntityTable = EntityTable {
    rows: &[(b"amp", "&"), (b"lt", "<"), (b"gt", ">"), (b"quot", "\"")],
};

#[unsafe(no_mangle)]
pub extern "C" fn ours_entity(text: &[u8], at: &[usize], rounds: usize) -> u64 {
    let call = |b: &[u8]| -> u64 {
        if b.is_empty() {
            return 0;
        }
        let (n, text) = scan_entity(b, &KNOWN);
        match text {
            Some(text) => two(n, text.as_str().len() as u64),
            None => 0,
        }
    };
    each_rest(text, at, rounds, &call)
}

// With all of HTML's entities.
#[unsafe(no_mangle)]
pub extern "C" fn ours_entity_html(text: &[u8], at: &[usize], rounds: usize) -> u64 {
    let call = |b: &[u8]| -> u64 {
        if b.is_empty() {
            return 0;
        }
        let (n, text) = scan_entity(b, &HtmlEntities);
        match text {
            Some(text) => two(n, text.as_str().len() as u64),
            None => 0,
        }
    };
    each_rest(text, at, rounds, &call)
}

fn names(text: &[u8], at: &[usize], rounds: usize) -> u64 {
    let call = |name: &str| -> u64 {
        count(HtmlEntities.get(name.as_bytes()).map(|text| text.len()))
    };
    each_stretch(text, at, rounds, &call)
}

#[unsafe(no_mangle)]
pub extern "C" fn ours_entity_name(text: &[u8], at: &[usize], rounds: usize) -> u64 {
    names(text, at, rounds)
}

#[unsafe(no_mangle)]
pub extern "C" fn ours_no_entity_name(text: &[u8], at: &[usize], rounds: usize) -> u64 {
    names(text, at, rounds)
}

fn unescaped(alloc: Global, text: &str, is_in_table: bool) -> u64 {
    match unescape(alloc, CowStr::from(text), is_in_table, &KNOWN) {
        Ok(out) => two(out.as_str().len(), bit(matches!(&out, CowStr::Borrowed(_)))),
        Err(_) => 0,
    }
}

#[unsafe(no_mangle)]
pub extern "C" fn ours_unescape(alloc: Global, text: &[u8], at: &[usize], rounds: usize) -> u64 {
    let call = |text: &str| -> u64 { unescaped(alloc, text, false) };
    each_stretch(text, at, rounds, &call)
}

#[unsafe(no_mangle)]
pub extern "C" fn ours_unescape_table(
    alloc: Global,
    text: &[u8],
    at: &[usize],
    rounds: usize,
) -> u64 {
    let call = |text: &str| -> u64 { unescaped(alloc, text, true) };
    each_stretch(text, at, rounds, &call)
}

// With all of HTML's entities.
#[unsafe(no_mangle)]
pub extern "C" fn ours_unescape_html(
    alloc: Global,
    text: &[u8],
    at: &[usize],
    rounds: usize,
) -> u64 {
    let call = |text: &str| -> u64 {
        match unescape(alloc, CowStr::from(text), false, &HtmlEntities) {
            Ok(out) => two(out.as_str().len(), bit(matches!(&out, CowStr::Borrowed(_)))),
            Err(_) => 0,
        }
    };
    each_stretch(text, at, rounds, &call)
}

fn destination(text: &str, offset: usize, parentheses: usize) -> u64 {
    if !text.is_char_boundary(offset) {
        return 0;
    }
    match scan_link_dest(text, offset, parentheses) {
        Some((n, destination)) => two(n, destination.len() as u64),
        None => 0,
    }
}

#[unsafe(no_mangle)]
pub extern "C" fn ours_link_dest(text: &[u8], at: &[usize], rounds: usize) -> u64 {
    let call = |text: &str, offset: usize| -> u64 { destination(text, offset, 32) };
    each_offset(text, at, rounds, &call)
}

// With no limit on parentheses.
#[unsafe(no_mangle)]
pub extern "C" fn ours_link_dest_deep(text: &[u8], at: &[usize], rounds: usize) -> u64 {
    let call = |text: &str, offset: usize| -> u64 { destination(text, offset, usize::MAX) };
    each_offset(text, at, rounds, &call)
}

#[unsafe(no_mangle)]
pub extern "C" fn ours_autolink(text: &[u8], at: &[usize], rounds: usize) -> u64 {
    let call = |text: &str, offset: usize| -> u64 {
        if !text.is_char_boundary(offset) {
            return 0;
        }
        match scan_autolink(text, offset) {
            Some((n, uri, _)) => two(n, uri.as_str().len() as u64),
            None => 0,
        }
    };
    each_offset(text, at, rounds, &call)
}

#[unsafe(no_mangle)]
pub extern "C" fn ours_wikilink(text: &[u8], at: &[usize], rounds: usize) -> u64 {
    let call = |text: &str, offset: usize| -> u64 {
        if !text.is_char_boundary(offset) {
            return 0;
        }
        match scan_wikilink_pipe(text, offset, 80) {
            Some((n, label)) => two(n, label.len() as u64),
            None => 0,
        }
    };
    each_offset(text, at, rounds, &call)
}
