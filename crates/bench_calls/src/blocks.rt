//! Scanners of blocks.
ghost use Rattle.std.specs.Prelude.{◌≡◌};

use crate::loops::{bit, count, each_rest, two};
use markdown_scanners_tree::scanners::*;
use std::alloc::Global;

// What the loop itself costs.
#[unsafe(no_mangle)]
pub extern "C" fn ours_empty(text: &[u8], at: &[usize], rounds: usize) -> u64 {
    let call = |b: &[u8]| -> u64 { if b.is_empty() { 0 } else { b[0] as u64 } };
    each_rest(text, at, rounds, &call)
}

#[unsafe(no_mangle)]
pub extern "C" fn ours_hrule(text: &[u8], at: &[usize], rounds: usize) -> u64 {
    let call = |b: &[u8]| -> u64 {
        match scan_hrule(b) {
            Ok(n) => two(n, 1),
            Err(n) => two(n, 2),
        }
    };
    each_rest(text, at, rounds, &call)
}

#[unsafe(no_mangle)]
pub extern "C" fn ours_atx(text: &[u8], at: &[usize], rounds: usize) -> u64 {
    let call = |b: &[u8]| -> u64 {
        match scan_atx_heading(b) {
            Some(level) => level.number() as u64,
            None => 0,
        }
    };
    each_rest(text, at, rounds, &call)
}

#[unsafe(no_mangle)]
pub extern "C" fn ours_setext(text: &[u8], at: &[usize], rounds: usize) -> u64 {
    let call = |b: &[u8]| -> u64 {
        match scan_setext_heading(b) {
            Some((n, level)) => two(n, level.number() as u64),
            None => 0,
        }
    };
    each_rest(text, at, rounds, &call)
}

#[unsafe(no_mangle)]
pub extern "C" fn ours_fence(text: &[u8], at: &[usize], rounds: usize) -> u64 {
    let call = |b: &[u8]| -> u64 {
        match scan_code_fence(b) {
            Some((n, c)) => two(n, c as u64),
            None => 0,
        }
    };
    each_rest(text, at, rounds, &call)
}

#[unsafe(no_mangle)]
pub extern "C" fn ours_closing_fence(text: &[u8], at: &[usize], rounds: usize) -> u64 {
    let call = |b: &[u8]| -> u64 { count(scan_closing_code_fence(b, b'`', 3)) };
    each_rest(text, at, rounds, &call)
}

#[unsafe(no_mangle)]
pub extern "C" fn ours_metadata(text: &[u8], at: &[usize], rounds: usize) -> u64 {
    let call = |b: &[u8]| -> u64 {
        match scan_metadata_block(b, true, true) {
            Some((n, c)) => two(n, c as u64),
            None => 0,
        }
    };
    each_rest(text, at, rounds, &call)
}

#[unsafe(no_mangle)]
pub extern "C" fn ours_closing_metadata(text: &[u8], at: &[usize], rounds: usize) -> u64 {
    let call = |b: &[u8]| -> u64 { count(scan_closing_metadata_block(b, b'-')) };
    each_rest(text, at, rounds, &call)
}

fn head(alloc: Global, b: &[u8]) -> u64 {
    let Ok((n, columns)) = scan_table_head(alloc, b) else {
        return 0;
    };
    let mut sum: u64 = 0;
    for column in &columns {
        sum = sum
            .wrapping_mul(5)
            .wrapping_add(u64::from(column.number()) + 1);
    }
    two(n, sum)
}

#[unsafe(no_mangle)]
pub extern "C" fn ours_table_head(alloc: Global, text: &[u8], at: &[usize], rounds: usize) -> u64 {
    let call = |b: &[u8]| -> u64 { head(alloc, b) };
    each_rest(text, at, rounds, &call)
}

#[unsafe(no_mangle)]
pub extern "C" fn ours_listitem(text: &[u8], at: &[usize], rounds: usize) -> u64 {
    let call = |b: &[u8]| -> u64 {
        match scan_listitem(b) {
            Some((n, c, start, indent)) => two(n, c as u64).wrapping_add(two(start, indent as u64)),
            None => 0,
        }
    };
    each_rest(text, at, rounds, &call)
}

#[unsafe(no_mangle)]
pub extern "C" fn ours_blank(text: &[u8], at: &[usize], rounds: usize) -> u64 {
    let call = |b: &[u8]| -> u64 { count(scan_blank_line(b)) };
    each_rest(text, at, rounds, &call)
}

#[unsafe(no_mangle)]
pub extern "C" fn ours_line(text: &[u8], at: &[usize], rounds: usize) -> u64 {
    let call = |b: &[u8]| -> u64 { scan_line(b) as u64 };
    each_rest(text, at, rounds, &call)
}

#[unsafe(no_mangle)]
pub extern "C" fn ours_nextline(text: &[u8], at: &[usize], rounds: usize) -> u64 {
    let call = |b: &[u8]| -> u64 { scan_nextline(b) as u64 };
    each_rest(text, at, rounds, &call)
}

#[unsafe(no_mangle)]
pub extern "C" fn ours_indent(text: &[u8], at: &[usize], rounds: usize) -> u64 {
    let call = |b: &[u8]| -> u64 {
        let (n, columns) = calc_indent(b, 4);
        two(n, columns as u64)
    };
    each_rest(text, at, rounds, &call)
}

#[unsafe(no_mangle)]
pub extern "C" fn ours_indent_deep(text: &[u8], at: &[usize], rounds: usize) -> u64 {
    let call = |b: &[u8]| -> u64 {
        let (n, columns) = calc_indent(b, 1000000000);
        two(n, columns as u64)
    };
    each_rest(text, at, rounds, &call)
}

#[unsafe(no_mangle)]
pub extern "C" fn ours_quote_start(text: &[u8], at: &[usize], rounds: usize) -> u64 {
    let call = |b: &[u8]| -> u64 { count(scan_blockquote_start(b)) };
    each_rest(text, at, rounds, &call)
}

#[unsafe(no_mangle)]
pub extern "C" fn ours_type_6(text: &[u8], at: &[usize], rounds: usize) -> u64 {
    let call = |b: &[u8]| -> u64 { bit(starts_html_block_type_6(b)) };
    each_rest(text, at, rounds, &call)
}

#[unsafe(no_mangle)]
pub extern "C" fn ours_type_7(text: &[u8], at: &[usize], rounds: usize) -> u64 {
    let call = |b: &[u8]| -> u64 { count(scan_html_type_7(b)) };
    each_rest(text, at, rounds, &call)
}

#[unsafe(no_mangle)]
pub extern "C" fn ours_html_start(text: &[u8], at: &[usize], rounds: usize) -> u64 {
    let call = |b: &[u8]| -> u64 {
        match scan_html_block_start(b) {
            Some(kind) => u64::from(kind.number()),
            None => 0,
        }
    };
    each_rest(text, at, rounds, &call)
}

#[unsafe(no_mangle)]
pub extern "C" fn ours_html_end(text: &[u8], at: &[usize], rounds: usize) -> u64 {
    let call = |b: &[u8]| -> u64 { bit(ends_html_block(b, HtmlBlockKind::Comment)) };
    each_rest(text, at, rounds, &call)
}

#[unsafe(no_mangle)]
pub extern "C" fn ours_interrupts(text: &[u8], at: &[usize], rounds: usize) -> u64 {
    let call = |b: &[u8]| -> u64 { bit(interrupts_paragraph(b)) };
    each_rest(text, at, rounds, &call)
}

// The classes of each byte of the text.
#[unsafe(no_mangle)]
pub extern "C" fn ours_classes(text: &[u8], _at: &[usize], rounds: usize) -> u64 {
    let mut sum: u64 = 0;
    for _ in 0..rounds {
        for b in text {
            if is_ascii_punctuation(*b) {
                sum = sum.wrapping_add(1);
            }
            if is_ascii_whitespace(*b) {
                sum = sum.wrapping_add(1);
            }
            if is_ascii_whitespace_no_nl(*b) {
                sum = sum.wrapping_add(1);
            }
        }
    }
    sum
}

#[unsafe(no_mangle)]
pub extern "C" fn ours_while(text: &[u8], at: &[usize], rounds: usize) -> u64 {
    let call = |b: &[u8]| -> u64 {
        let word = |c: u8| -> bool { c != b' ' && c != b'\n' };
        scan_while(b, word) as u64
    };
    each_rest(text, at, rounds, &call)
}

#[unsafe(no_mangle)]
pub extern "C" fn ours_rev_while(text: &[u8], at: &[usize], rounds: usize) -> u64 {
    let mut sum: u64 = 0;
    for _ in 0..rounds {
        for offset in at {
            if *offset <= text.len() {
                let word = |c: u8| -> bool { c != b' ' };
                sum = sum.wrapping_add(scan_rev_while(&text[..*offset], word) as u64);
            }
        }
    }
    sum
}
