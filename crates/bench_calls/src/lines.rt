//! Starts of lines.
ghost use Rattle.std.specs.Prelude.{◌≡◌};

use crate::loops::{bit, each_rest, two};
use markdown_scanners_tree::line::LineStart;

fn offset_of(line: &LineStart) -> u64 {
    two(line.bytes_scanned(), line.remaining_space() as u64)
}

#[unsafe(no_mangle)]
pub extern "C" fn ours_line_quote(text: &[u8], at: &[usize], rounds: usize) -> u64 {
    let call = |b: &[u8]| -> u64 {
        let mut line = LineStart::new(b);
        line.scan_space_upto(3);
        let quote = line.scan_blockquote_marker();
        offset_of(&line).wrapping_mul(2).wrapping_add(bit(quote))
    };
    each_rest(text, at, rounds, &call)
}

fn list_answer(line: &mut LineStart) -> u64 {
    let indent = line.scan_space_upto(4);
    if indent >= 4 {
        return 1;
    }
    match line.scan_list_marker_with_indent(indent) {
        Some((c, start, indent)) => two(indent, c as u64).wrapping_add(start),
        None => 2,
    }
}

#[unsafe(no_mangle)]
pub extern "C" fn ours_line_list(text: &[u8], at: &[usize], rounds: usize) -> u64 {
    let call = |b: &[u8]| -> u64 {
        let mut line = LineStart::new(b);
        let answer = list_answer(&mut line);
        offset_of(&line).wrapping_mul(3).wrapping_add(answer)
    };
    each_rest(text, at, rounds, &call)
}

#[unsafe(no_mangle)]
pub extern "C" fn ours_line_task(text: &[u8], at: &[usize], rounds: usize) -> u64 {
    let call = |b: &[u8]| -> u64 {
        let mut line = LineStart::new(b);
        let answer = match line.scan_task_list_marker() {
            Some(checked) => bit(checked).wrapping_add(1),
            None => 0,
        };
        offset_of(&line).wrapping_mul(3).wrapping_add(answer)
    };
    each_rest(text, at, rounds, &call)
}

#[unsafe(no_mangle)]
pub extern "C" fn ours_line_definition(text: &[u8], at: &[usize], rounds: usize) -> u64 {
    let call = |b: &[u8]| -> u64 {
        let mut line = LineStart::new(b);
        let answer = match line.scan_definition_list_definition_marker_with_indent(0) {
            Some(n) => n as u64,
            None => 0,
        };
        offset_of(&line).wrapping_mul(3).wrapping_add(answer)
    };
    each_rest(text, at, rounds, &call)
}

#[unsafe(no_mangle)]
pub extern "C" fn ours_line_tag(text: &[u8], at: &[usize], rounds: usize) -> u64 {
    let call = |b: &[u8]| -> u64 {
        let mut line = LineStart::new(b);
        let answer = match line.scan_blockquote_tag() {
            Some(kind) => u64::from(kind.number()),
            None => 0,
        };
        offset_of(&line).wrapping_mul(3).wrapping_add(answer)
    };
    each_rest(text, at, rounds, &call)
}

// Four columns of space at a time, at most a thousand times.
#[unsafe(no_mangle)]
pub extern "C" fn ours_line_space(text: &[u8], at: &[usize], rounds: usize) -> u64 {
    let call = |b: &[u8]| -> u64 {
        let mut line = LineStart::new(b);
        for _ in 0..1000 {
            if !line.scan_space(4) {
                break;
            }
        }
        offset_of(&line)
    };
    each_rest(text, at, rounds, &call)
}

#[unsafe(no_mangle)]
pub extern "C" fn ours_line_upto(text: &[u8], at: &[usize], rounds: usize) -> u64 {
    let call = |b: &[u8]| -> u64 {
        let mut line = LineStart::new(b);
        let n = line.scan_space_upto(1000000000);
        offset_of(&line).wrapping_add(n as u64)
    };
    each_rest(text, at, rounds, &call)
}

#[unsafe(no_mangle)]
pub extern "C" fn ours_line_all(text: &[u8], at: &[usize], rounds: usize) -> u64 {
    let call = |b: &[u8]| -> u64 {
        let mut line = LineStart::new(b);
        line.scan_all_space();
        let eol = line.is_at_eol();
        offset_of(&line).wrapping_mul(2).wrapping_add(bit(eol))
    };
    each_rest(text, at, rounds, &call)
}

// Containers as a block parser opens them: quotes and list items in turn, then the space before the
// text.
#[unsafe(no_mangle)]
pub extern "C" fn ours_line_containers(text: &[u8], at: &[usize], rounds: usize) -> u64 {
    let call = |b: &[u8]| -> u64 {
        let mut line = LineStart::new(b);
        let mut sum: u64 = 0;
        for _ in 0..100000 {
            let indent = line.scan_space_upto(3);
            if line.scan_blockquote_marker() {
                sum = sum.wrapping_add(1);
            } else if indent < 4 {
                match line.scan_list_marker_with_indent(indent) {
                    Some((c, start, n)) => {
                        sum = sum.wrapping_add(two(n, c as u64)).wrapping_add(start);
                    }
                    None => break,
                }
            } else {
                break;
            }
        }
        line.scan_all_space();
        let eol = line.is_at_eol();
        sum.wrapping_add(offset_of(&line)).wrapping_add(bit(eol))
    };
    each_rest(text, at, rounds, &call)
}
