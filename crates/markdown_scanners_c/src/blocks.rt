//! Thematic breaks, headings, code fences and metadata blocks.
ghost use Rattle.std.specs.Prelude.{◌≡◌, ◌≢◌, ◌≤◌, ◌⊎◌, ◌↔◌, ℕ, length, IsTrue};
ghost use Rattle.markdown_scanners_tree.specs.scanners.Breaks.{IsThematicBreakLine, NoBreakBefore, break_length};
ghost use Rattle.markdown_scanners_tree.specs.scanners.Fences.{IsCodeFence, IsClosingCodeFence};
ghost use Rattle.markdown_scanners_tree.specs.scanners.Headings.{IsAtxHeading, IsSetextUnderline};
ghost use Rattle.markdown_scanners_tree.specs.scanners.Interrupts.{InterruptsParagraph};
ghost use Rattle.markdown_scanners_tree.specs.scanners.Metadata.{IsMetadataBlock, IsClosingMetadataBlock};
ghost use Rattle.markdown_scanners_c.specs.Answers.{none, FoundExactly, FoundLevel, FoundWithLevel, IsWithin};

use crate::status::NONE;
use markdown_scanners_tree::scanners::{
    interrupts_paragraph, scan_atx_heading, scan_closing_code_fence, scan_closing_metadata_block,
    scan_code_fence, scan_hrule, scan_metadata_block, scan_setext_heading,
};

/// `struct mds_break` of C: the bytes of a thematic break's line, or `NONE`, and an offset before
/// which none begins.
#[repr(C)]
pub struct Break {
    pub length: usize,
    pub none_before: usize,
}

/// The thematic break at the front. (CommonMark 0.31.2, section 4.1)
#[unsafe(no_mangle)]
pub extern "C" fn mds_scan_hrule(bytes: &[u8]) -> Break
    ensures found { FoundExactly (IsThematicBreakLine bytes.now) result.length result.length }
    ensures within { IsWithin bytes.now result.length }
    ensures zero { result.length ≢ none → result.none_before ≡ 0 }

    // Of no break: where the scan stopped. No break begins before that offset.
    ensures stopped { result.length ≡ none → result.none_before ≡ break_length bytes.now }
    ensures none_before { NoBreakBefore bytes.now result.none_before }
    ensures offset_within { result.none_before ≤ length bytes.now }
{
    let (length, none_before) = match scan_hrule(bytes) {
        Ok(length) => (length, 0),
        Err(offset) => (NONE, offset),
    };
    Break {
        length,
        none_before,
    }
}

/// The level of the ATX heading at the front, or 0. (CommonMark 0.31.2, section 4.2)
#[unsafe(no_mangle)]
pub extern "C" fn mds_scan_atx_heading(bytes: &[u8]) -> u32
    ensures { FoundLevel (IsAtxHeading bytes.now) result }
{
    match scan_atx_heading(bytes) {
        Some(level) => level.number() as u32,
        None => 0,
    }
}

/// `struct mds_underline` of C: the bytes of an underline's line, or `NONE`, and its level.
#[repr(C)]
pub struct Underline {
    pub length: usize,
    pub level: u32,
}

/// The setext heading underline at the front. (CommonMark 0.31.2, section 4.3)
#[unsafe(no_mangle)]
pub extern "C" fn mds_scan_setext_heading(bytes: &[u8]) -> Underline
    ensures found { FoundWithLevel (IsSetextUnderline bytes.now) result.length result.level }
    ensures within { IsWithin bytes.now result.length }
    ensures zero { result.length ≡ none → result.level ≡ 0 }
{
    match scan_setext_heading(bytes) {
        Some((length, level)) => Underline {
            length,
            level: level.number() as u32,
        },
        None => Underline {
            length: NONE,
            level: 0,
        },
    }
}

/// Whether the line at the front can interrupt a paragraph. (CommonMark 0.31.2, section 4.8)
#[unsafe(no_mangle)]
pub extern "C" fn mds_interrupts_paragraph(bytes: &[u8]) -> bool
    ensures { IsTrue result ↔ InterruptsParagraph bytes.now }
{
    interrupts_paragraph(bytes)
}

/// `struct mds_fence` of C: how many bytes a fence has, or `NONE`, and which.
#[repr(C)]
pub struct Fence {
    pub length: usize,
    pub byte: u8,
}

/// The opening code fence at the front. (CommonMark 0.31.2, section 4.5)
#[unsafe(no_mangle)]
pub extern "C" fn mds_scan_code_fence(bytes: &[u8]) -> Fence
    ensures found { FoundExactly (λ (r : ℕ × ℕ). IsCodeFence bytes.now r.0 r.1)
        result.length (result.length, result.byte) }
    ensures within { IsWithin bytes.now result.length }
    ensures zero { result.length ≡ none → result.byte ≡ 0 }
{
    match scan_code_fence(bytes) {
        Some((length, byte)) => Fence { length, byte },
        None => Fence {
            length: NONE,
            byte: 0,
        },
    }
}

/// The length of the closing code fence at the front, or `NONE`. (CommonMark 0.31.2, section 4.5)
#[unsafe(no_mangle)]
pub extern "C" fn mds_scan_closing_code_fence(bytes: &[u8], fence: u8, count: usize) -> usize
    ensures found { FoundExactly (IsClosingCodeFence bytes.now fence count) result result }
    ensures within { IsWithin bytes.now result }
{
    scan_closing_code_fence(bytes, fence, count).unwrap_or(NONE)
}

/// The opening line of a metadata block that a later line closes.
#[unsafe(no_mangle)]
pub extern "C" fn mds_scan_metadata_block(bytes: &[u8], yaml: bool, pluses: bool) -> Fence
    ensures found { FoundExactly (λ (r : ℕ × ℕ). IsMetadataBlock bytes.now yaml pluses r.1)
        result.length (result.length, result.byte) }
    ensures opening { (result.length ≡ 3) ⊎ (result.length ≡ none) }
    ensures within { IsWithin bytes.now result.length }
    ensures zero { result.length ≡ none → result.byte ≡ 0 }
{
    match scan_metadata_block(bytes, yaml, pluses) {
        Some((length, byte)) => Fence { length, byte },
        None => Fence {
            length: NONE,
            byte: 0,
        },
    }
}

/// The length of the line that closes a metadata block, or `NONE`.
#[unsafe(no_mangle)]
pub extern "C" fn mds_scan_closing_metadata_block(bytes: &[u8], fence: u8) -> usize
    ensures found { FoundExactly (IsClosingMetadataBlock bytes.now fence) result result }
    ensures within { IsWithin bytes.now result }
{
    scan_closing_metadata_block(bytes, fence).unwrap_or(NONE)
}
