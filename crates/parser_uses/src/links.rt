//! Links: destinations, autolinks, and the characters that references stand for.
ghost use Rattle.markdown_scanners_tree.specs.SomeExactly.{SomeExactly};
ghost use Rattle.std.specs.Option.{option_map};
ghost use Rattle.std.specs.Prelude.{◌≡◌, ◌<◌, ◌+◌, ℕ, List, length, drop, codes, false, Some, None, IfOk, IfSome, IfNone, if◌then◌else◌};
ghost use Rattle.std.specs.Str.{IsCharBoundary, bytes_eq};
ghost use Rattle.markdown_values.specs.strings.Text.{cow_text};
ghost use Rattle.markdown_scanners_tree.specs.scanners.entities.CharacterReference.{StartsWithReference};
ghost use Rattle.markdown_scanners_tree.specs.scanners.links.Autolink.{IsUriAutolink};
ghost use Rattle.markdown_scanners_tree.specs.scanners.links.LinkDestination.{IsLinkDestination};
ghost use Rattle.markdown_scanners_tree.specs.scanners.unescaping.Unescaping.{Piece, ArePieces, ForPieces, joined_meanings};

use markdown_scanners_tree::scanners::{
    Entities, EntityTable, scan_autolink, scan_entity, scan_link_dest, unescape,
};
use markdown_values::strings::CowStr;
use std::alloc::{AllocError, Global};

// How deep the parentheses of a destination may nest, less one.
const DEPTH: usize = 31;

/// The entities of a program that needs few of them.
pub const FEW_ENTITIES: EntityTable = EntityTable {
    rows: &[(b"amp", "&"), (b"quot", "\"")],
};

/// The link destination from `start` on: how many bytes it takes, and how it is written. `start` is an offset between two
/// characters.
pub fn raw_destination(text: &str, start: usize) -> Option<(usize, &str)>
    requires { 0 < start → IsCharBoundary text.now start }
    ensures found { SomeExactly (λ (r : ℕ × List ℕ). IsLinkDestination 32
        (drop start text.now) r.0 r.1)
        (option_map (λ r. (r.0, r.1.now)) result) }
{
    scan_link_dest(text, start, DEPTH)
}

/// The link destination that a text begins with: how many bytes it takes, and how it is written. It is the only one.
pub fn leading_destination(text: &str) -> Option<(usize, &str)>
    ensures found { SomeExactly (λ (r : ℕ × List ℕ). IsLinkDestination 32 text.now r.0 r.1)
        (option_map (λ r. (r.0, r.1.now)) result) }
    ensures only { IfSome result (λ r. (other : ℕ × List ℕ)
        → IsLinkDestination 32 text.now other.0 other.1 → other ≡ (r.0, r.1.now)) }
{
    scan_link_dest(text, 0, DEPTH)
}

/// A text with its backslash escapes and character references resolved.
pub fn resolved<'a, E: Entities>(
    alloc: Global,
    text: &'a str,
    entities: &E,
) -> Result<CowStr<'a>, AllocError>
    ensures { (pieces : List Piece) × ArePieces false (E.known entities.now) text.entry.now pieces
        × IfOk result (λ resolved. cow_text resolved ≡ joined_meanings pieces) }
{
    unescape(alloc, CowStr::from(text), false, entities)
}

/// The title of a link: whatever pieces its text falls into, what they mean.
#[tactic(auto, using(markdown_scanners_tree::proofs::ForCallers::only_answers))]
pub fn link_title<'a, E: Entities>(
    alloc: Global,
    text: &'a str,
    entities: &E,
) -> Result<CowStr<'a>, AllocError>
    ensures { ForPieces false (E.known entities.now) text.entry.now (λ pieces.
        IfOk result (λ title. cow_text title ≡ joined_meanings pieces)) }
{
    resolved(alloc, text, entities)
}

/// Where a link leads: its destination from `start` on, with escapes and references resolved.
pub fn link_target<'a, E: Entities>(
    alloc: Global,
    text: &'a str,
    start: usize,
    entities: &E,
) -> Result<Option<CowStr<'a>>, AllocError>
    requires { 0 < start → IsCharBoundary text.now start }
    ensures found { IfOk result (λ found. IfSome found (λ target.
        (taken : ℕ) × (raw : List ℕ) × (pieces : List Piece)
        × IsLinkDestination 32 (drop start text.entry.now) taken raw
        × ArePieces false (E.known entities.now) raw pieces
        × (cow_text target ≡ joined_meanings pieces))) }
    ensures none { IfOk result (λ found. IfNone found ((r : ℕ × List ℕ)
        → ¬ IsLinkDestination 32 (drop start text.entry.now) r.0 r.1)) }
{
    let Some((_, raw)) = raw_destination(text, start) else {
        return Ok(None);
    };
    let target = resolved(alloc, raw, entities)?;
    Ok(Some(target))
}

/// The address of the autolink whose `<` stands before `start`, and the text after its `>`.
pub fn autolink(text: &str, start: usize) -> Option<(CowStr<'_>, &str)>
    requires { 0 < start → IsCharBoundary text.now start }
    ensures uri { IfSome result (λ r. IsUriAutolink (drop start text.now) (cow_text r.0)) }
    ensures after { IfSome result (λ r. (end : ℕ) × (r.1.now ≡ drop end text.now)
        × (end ≡ start + length (cow_text r.0) + 1)) }
    ensures none { IfNone result ((uri : List ℕ) → ¬ IsUriAutolink (drop start text.now) uri) }
{
    let (end, uri, _) = scan_autolink(text, start)?;
    let (_, after) = text.split_at(end);
    Some((uri, after))
}

/// The text that the character reference at the front stands for.
pub fn referenced<E: Entities>(text: &[u8], entities: &E) -> Option<CowStr<'static>>
    ensures found { IfSome result (λ meaning. (n : ℕ)
        × StartsWithReference (E.known entities.now) text.now n (cow_text meaning)) }
    ensures none { 0 < length text.now → IfNone result ((n : ℕ) (meaning : List ℕ)
        → ¬ StartsWithReference (E.known entities.now) text.now n meaning) }
{
    if text.is_empty() {
        return None;
    }
    let (_, meaning) = scan_entity(text, entities);
    meaning
}
