//! Definition lists: where the definition of a term begins. (pulldown-cmark, definition lists: no part
//! of CommonMark)
ghost use Rattle.std.specs.Prelude.{◌≡◌, ◌<◌, ◌≤◌, ◌↔◌, ◌==◌, ◌&&◌, ◌||◌, ◌≢◌, [], List, ℕ, IsTrue, IfSome, IfNone, Some, None};
ghost use Rattle.markdown_blocks.specs.blocks.Leaves.{DefinesTerm};
ghost use Rattle.markdown_blocks.specs.blocks.Pages.{IsTerm, is_blank_kind};
ghost use Rattle.markdown_blocks.specs.declared.blocks.BlockKind.TheVariants.{Paragraph};
ghost use Rattle.markdown_blocks.specs.walk.Walk.{IsGathered};
ghost use Rattle.markdown_blocks.specs.containers.Containers.{asked_first, term_definition_of, without_terms};

use crate::blank_lines::is_blank;
use crate::blocks::{Block, BlockKind};
use crate::containers::{Container, DefinitionItem};
use crate::definitions::definitions_len;
use crate::rest::Rest;
use markdown_scanners_tree::line::LineStart;
use markdown_values::values::Extensions;
use std::marker::Model;

/// The extensions with which a line may begin a container, where these are the open ones that it does
/// not go on with.
pub(crate) fn asked_first(
    extensions: Extensions,
    is_after_term: bool,
    left: &[Container],
) -> Extensions
    ensures { result ≡ asked_first extensions is_after_term left.now }
{
    match left {
        [] if is_after_term => extensions,
        [Container::TermDefinition(_), ..] => extensions,
        _ => without_terms(extensions),
    }
}

/// The extensions where no term stands.
pub(crate) fn without_terms(extensions: Extensions) -> Extensions
    ensures { result ≡ without_terms extensions }
{
    Extensions {
        definition_lists: false,
        ..extensions
    }
}

/// Whether a line with this after its containers defines the paragraph before it.
pub(crate) fn defines_term(rest: &Rest, extensions: Extensions) -> bool
    ensures { IsTrue result ↔ DefinesTerm extensions rest.now }
{
    extensions.definition_lists && rest.indent != 4 && matches!(rest.text, [b':', ..])
}

/// Whether the block may be a term, where this is gathered of its content.
pub(crate) fn is_term(block: Block, extensions: Extensions, content: &[u8]) -> bool
    ensures { (whole : List ℕ) → (block.kind ≡ Paragraph → whole ≢ [])
        → IsGathered whole content.now
        → (IsTrue result ↔ IsTerm extensions block.kind whole) }
{
    if !extensions.definition_lists {
        return false;
    }
    match block.kind {
        BlockKind::Paragraph => content.is_empty() || definitions_len(content) < content.len(),
        _ => false,
    }
}

/// Whether the block is one blank line that closes no container and begins none: it goes on with so
/// many of those that were open, and so many are open after it.
pub(crate) fn is_blank_between(block: Block, kept: usize, before: usize, after: usize) -> bool
    ensures { result ≡ (is_blank_kind block.kind && (block.taken.lines == 1) && (kept == before)
        && (after == kept)) }
{
    matches!(block.kind, BlockKind::Blank)
        && block.taken.lines == 1
        && kept == before
        && after == kept
}

/// Whether a term stands before what follows a block: the block may be one, or one stands before it
/// and it is one blank line between.
pub(crate) fn follows_term(is_term: bool, followed_term: bool, is_between: bool) -> bool
    ensures { result ≡ (is_term || (followed_term && is_between)) }
{
    is_term || (followed_term && is_between)
}

/// Passes the marker of a definition at the position, after so many columns of space, if one stands
/// there and the extension is on.
pub(crate) fn scan_term_definition(
    line: &[u8],
    start: &mut LineStart,
    indent: usize,
    extensions: Extensions,
) -> Option<Container>
    requires bytes { start.old.bytes ≡ line.now }
    requires near { indent ≤ 4 }
    ensures found { IfSome result (λ container.
        term_definition_of extensions indent start.old ≡ Some (container, start.new)) }
    ensures none { IfNone result (term_definition_of extensions indent start.old ≡ None) }
    ensures unchanged { IfNone result (start.new ≡ start.old) }
    ensures bytes { start.new.bytes ≡ line.now }
    ensures rises { IfSome result (λ _. start.old.offset < start.new.offset) }
{
    if !extensions.definition_lists {
        return None;
    }
    let width = start.scan_definition_list_definition_marker_with_indent(indent)?;
    Some(Container::TermDefinition(DefinitionItem {
        starts_blank: is_blank(&line[start.bytes_scanned()..]),
        width: width as u8,
    }))
}
