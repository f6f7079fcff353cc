//! Delimiter rows of tables.
ghost use Rattle.std.specs.Prelude.{ℕ, ◌≡◌, ◌≢◌, ◌≤◌, List, length, map, IfOk, IfSome, IfNone, OnErr};
ghost use Rattle.markdown_values.specs.declared.values.Alignment.{Alignment as Aligned};
ghost use Rattle.markdown_values.specs.values.Alignments.{alignment_number};
ghost use Rattle.markdown_scanners_tree.specs.scanners.tables.DelimiterRow.{IsDelimiterRow, NoDelimiterRow};
ghost use Rattle.markdown_scanners_c.specs.Status.{no_memory};
ghost use Rattle.markdown_scanners_c.specs.Tables.{AsksMemory, IsTableHead};

use crate::status::{NO_MEMORY, NOTHING};
use crate::texts::{Text, no_text, write_text};
use markdown_scanners_tree::scanners::scan_table_head;
use std::alloc::{AllocError, Global};

/// Writes the alignments of the delimiter row at the front. (GitHub Flavored Markdown 0.29, section
/// 4.10)
#[tactic(auto, unfolding(crate::specs::Tables::IsTableHead))]
#[unsafe(no_mangle)]
pub extern "C" fn mds_scan_table_head(alloc: Global, bytes: &[u8], alignments: &mut [u8]) -> Text
    ensures row { IsTableHead bytes.now alignments.old alignments.new result }
    ensures only { result.status ≢ no_memory → (other : ℕ × List Aligned)
        → IsDelimiterRow bytes.now other.0 other.1
        → (other.0 ≡ result.taken) × (length other.1 ≡ result.length) }
    ensures within { result.taken ≤ length bytes.now }
    ensures room { result.length ≤ length bytes.now }
{
    match numbered_columns(alloc, bytes) {
        Ok(Some((length, columns))) => write_text(&columns, length, alignments),
        Ok(None) => no_text(NOTHING),
        Err(_) => no_text(NO_MEMORY),
    }
}

// The length of a delimiter row, and the numbers of its alignments.
fn numbered_columns(alloc: Global, bytes: &[u8]) -> Result<Option<(usize, Vec<u8>)>, AllocError>
    ensures found { IfOk result (λ found. IfSome found (λ r. (columns : List Aligned)
        × IsDelimiterRow bytes.now r.0 columns × (r.1.items ≡ map alignment_number columns))) }
    ensures none { IfOk result (λ found. IfNone found (NoDelimiterRow bytes.now)) }
    ensures within { IfOk result (λ found. IfSome found (λ r. r.0 ≤ length bytes.now)) }
    ensures asked { OnErr result (AsksMemory bytes.now) }
{
    let (length, columns) = scan_table_head(alloc, bytes)?;
    if length == 0 {
        return Ok(None);
    }
    let numbers: Vec<u8> = columns.iter().map(|column| column.number()).collect(alloc)?;
    Ok(Some((length, numbers)))
}
