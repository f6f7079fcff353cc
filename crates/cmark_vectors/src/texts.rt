//! Long texts.
use std::alloc::{AllocError, Global};

fn write_text(
    text: &mut Vec<u8>,
    first: &[u8],
    part: &[u8],
    count: usize,
    last: &[u8],
) -> Result<(), AllocError> {
    text.extend_from_slice(first)?;
    for _ in 0..count {
        text.extend_from_slice(part)?;
    }
    text.extend_from_slice(last)
}

/// So many equal parts, after what comes first and before what comes last.
pub(crate) fn long_text(
    alloc: Global,
    first: &[u8],
    part: &[u8],
    count: usize,
    last: &[u8],
) -> Result<Vec<u8>, AllocError> {
    let mut text = Vec::new(alloc);
    write_text(&mut text, first, part, count, last)?;
    Ok(text)
}
