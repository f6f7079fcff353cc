//! A page cut into blocks, from the first to the last.
ghost use Rattle.std.specs.Prelude.{◌≡◌, ◌<◌, ◌≤◌, ◌+◌, [], ◌∷◌, List, ℕ, Bool, false, length, take, drop, IsTrue, IfOk, IfErr, IfSome, IfNone, OnOk};
ghost use Rattle.markdown_blocks.specs.blocks.Pages.{NoneIsOver, root};
ghost use Rattle.markdown_values.specs.values.Extensions.{commonmark};
ghost use Rattle.markdown_blocks.specs.containers.Containers.{match_line, last_past_first_line, rest_in};
ghost use Rattle.markdown_scanners_tree.specs.line.State.{LineState};
ghost use Rattle.markdown_blocks.specs.taken.Lines.{IsTaken};
ghost use Rattle.markdown_blocks.specs.walk.Walk.{IsFirst, IsOpening, IsStep, IsContentOf, between};

use crate::blocks::{Block, is_over, scan_block, scan_table};
use crate::containers::{Container, OpenContainers, go_on, past_first_line, scan_container};
use crate::definitions::gather_content;
use crate::kinds::is_paragraph;
use crate::rest::{Rest, scan_rest};
pub use crate::step::Step;
use crate::taken::Extent;
use crate::terms::{asked_first, follows_term, is_blank_between, is_term, without_terms};
use markdown_scanners_tree::line::LineStart;
use markdown_values::values::Extensions;
use std::alloc::{AllocError, Global};
use std::marker::Model;
use std::mem::swap;

/// How far a page is cut into blocks: the containers that are open before the next one, outermost
/// first, the extensions that are on, and whether a term and a paragraph stand before it.
#[derive(Drop)]
pub struct Walk {
    extensions: Extensions,
    opened: Vec<Container>,
    is_after_term: bool,
    is_after_paragraph: bool,
    // Those that were open before the last block; its room is used again.
    closed: Vec<Container>,
}

impl Model for Walk {
    ghost use Rattle.markdown_blocks.specs.containers.Containers.{Between};

    ghost Value = { Between };

    ghost view = { λ walk. record {
      extensions = walk.extensions;
      containers = walk.opened.items;
      term = walk.is_after_term;
      paragraph = walk.is_after_paragraph;
    } };
}

// What a line has after its containers: how many of those that were open it goes on with, its offset
// after these, and what is left of it after all of them.
#[derive(Drop)]
struct Opened<'a> {
    kept: usize,
    start: LineStart<'a>,
    rest: Rest<'a>,
}

// The block at the front of a text, and what its first line has.
#[derive(Drop)]
struct First<'a> {
    opened: Opened<'a>,
    block: Block,
}

// What stands before a block: the extensions that are on, a term, and a paragraph.
#[derive(Clone, Copy)]
struct Standing {
    extensions: Extensions,
    is_after_term: bool,
    is_after_paragraph: bool,
}

impl Walk {
    /// Before the first block of a page: no container is open, and no extension is on.
    pub fn new(alloc: Global) -> Walk
        ensures none { result ≡ root commonmark }
    {
        Walk::new_ext(alloc, Extensions::none())
    }

    /// The same with these extensions on.
    pub fn new_ext(alloc: Global, extensions: Extensions) -> Walk
        ensures none { result ≡ root extensions }
    {
        Walk {
            extensions,
            opened: Vec::new(alloc),
            is_after_term: false,
            is_after_paragraph: false,
            closed: Vec::new(alloc),
        }
    }

    /// Before the next block of a page that is read up to there: these containers are open, outermost
    /// first, and a term and a paragraph stand before it or not, as an earlier walk had them, and these
    /// extensions are on.
    pub fn resume(
        alloc: Global,
        extensions: Extensions,
        containers: Vec<Container>,
        is_after_term: bool,
        is_after_paragraph: bool,
    ) -> Walk
        ensures { result ≡ record {
          extensions = extensions;
          containers = containers.items;
          term = is_after_term;
          paragraph = is_after_paragraph;
        } }
    {
        let mut walk = Walk::new_ext(alloc, extensions);
        walk.opened = containers;
        walk.is_after_term = is_after_term;
        walk.is_after_paragraph = is_after_paragraph;
        walk
    }

    /// The containers that are open, outermost first.
    pub fn containers(&self) -> &[Container]
        ensures containers { result.now ≡ self.now.containers }
    {
        &self.opened
    }

    /// Whether a term stands before the next block, which a definition may follow: a paragraph,
    /// directly or with one blank line between, where definition lists are on.
    pub fn is_after_term(&self) -> bool
        ensures term { result ≡ self.now.term }
    {
        self.is_after_term
    }

    /// Whether a paragraph stands directly before the next block, which a table may end: the header row
    /// goes on with the paragraph then, lazy or not, and however far it is indented.
    pub fn is_after_paragraph(&self) -> bool
        ensures paragraph { result ≡ self.now.paragraph }
    {
        self.is_after_paragraph
    }

    /// The block at the front of the lines, if there is one that no line after them changes: where
    /// the input has ended none stands after them. Its containers are open then.
    ///
    /// `content` gets the content of the block, as `add_content` has it, where that begins with a link
    /// reference definition, and else nothing.
    ///
    /// Memory is asked for where more containers are open than ever before, by a table's delimiter
    /// row, and for the content of a paragraph that begins with a bracket. After a refusal the walk is
    /// as it was, and may go on; what `content` holds then is not said.
    pub fn next_block<'a>(
        &mut self,
        alloc: Global,
        content: &mut Vec<u8>,
        lines: &'a [u8],
        has_ended: bool,
    ) -> Result<Option<Step<'a>>, AllocError>
        ensures step { IfOk result (λ found. IfSome found (λ step.
            (more : List (List ℕ)) → (IsTrue has_ended → more ≡ [])
            → IsStep self.old lines.now more step self.new)) }
        ensures content { IfOk result (λ found. IfSome found (λ step.
            IsContentOf step self.new.containers content.new.items)) }
        ensures some { IfOk result (λ found. IfSome found (λ step. 0 < step.block.taken.bytes)) }
        ensures within { IfOk result (λ found. IfSome found (λ step.
            step.block.taken.bytes ≤ length lines.now)) }
        ensures few { IfOk result (λ found. IfSome found (λ step.
            length self.new.containers ≤ step.kept + step.block.taken.bytes)) }
        ensures none { IfOk result (λ found.
            IfNone found (NoneIsOver self.old lines.now has_ended)) }
        ensures all { IfOk result (λ found. IfNone found (IsTrue has_ended → lines.now ≡ [])) }
        ensures unchanged { IfOk result (λ found. IfNone found (self.new ≡ self.old)) }
        ensures refused { IfErr result (λ _. self.new ≡ self.old) }
    {
        let Some((line, first)) = Extent::nothing().next(lines) else {
            return Ok(None);
        };
        self.closed.clear();
        self.closed.extend_from_slice(&self.opened)?;
        let standing = Standing {
            extensions: self.extensions,
            is_after_term: self.is_after_term,
            is_after_paragraph: self.is_after_paragraph,
        };
        let found = scan_first(alloc, lines, line, first, &mut self.closed, standing)?;
        let First { opened, block } = found;
        let rest = opened.rest;
        let outer = OpenContainers::new(self.extensions, &self.closed);
        if !is_over(lines, block, &outer, has_ended) {
            return Ok(None);
        }
        gather_content(content, lines, block, &self.closed, rest.text)?;
        let before = self.opened.len();
        let after = self.closed.len();
        let is_between = is_blank_between(block, opened.kept, before, after);
        let is_term = is_term(block, self.extensions, content);
        let stays = follows_term(is_term, self.is_after_term, is_between);
        self.is_after_term = stays;
        self.is_after_paragraph = is_paragraph(block.kind);
        swap(&mut self.opened, &mut self.closed);
        Ok(Some(Step {
            kept: opened.kept,
            line,
            start: opened.start,
            indent: rest.indent,
            text: rest.text,
            block,
            lines: &lines[..block.taken.bytes],
        }))
    }
}

// The block at the front of the lines, whose first line is taken, and what that has of the containers. Where
// it is the header row of a table that ends the paragraph before it, all of them stay open.
fn scan_first<'a>(
    alloc: Global,
    lines: &'a [u8],
    line: &'a [u8],
    first: Extent,
    outer: &mut Vec<Container>,
    standing: Standing,
) -> Result<First<'a>, AllocError>
    ensures first { IfOk result (λ found. IsTaken lines.now first (line.now ∷ [])
        → IsFirst (between standing outer.old.items) lines.now line.now outer.new.items
        found.opened.kept found.opened.rest found.block) }
    ensures offset { IfOk result (λ found.
        found.opened.start ≡ (match_line outer.old.items line.now).state) }
    ensures bytes { IfOk result (λ found. found.opened.start.bytes ≡ line.now) }
    ensures few { IfOk result (λ found.
        length outer.new.items ≤ found.opened.kept + length line.now) }
{
    let extensions = standing.extensions;
    if standing.is_after_paragraph {
        let open = OpenContainers::new(extensions, outer);
        if let Some(block) = scan_table(lines, line, first, &open, standing.is_after_term) {
            let opened = stay_open(outer, line)?;
            return Ok(First { opened, block });
        }
    }
    let opened = open_containers(outer, line, extensions, standing.is_after_term)?;
    let inner = OpenContainers::new(extensions, outer);
    let block = scan_block(alloc, lines, first, &inner, &opened.rest)?;
    Ok(First { opened, block })
}

// What the line has of the containers, all of which stay open.
fn stay_open<'a>(outer: &[Container], line: &'a [u8]) -> Result<Opened<'a>, AllocError>
    ensures kept { IfOk result (λ o. o.kept ≡ length outer.now) }
    ensures offset { IfOk result (λ o. o.start ≡ (match_line outer.now line.now).state) }
    ensures bytes { IfOk result (λ o. o.start.bytes ≡ line.now) }
    ensures rest { IfOk result (λ o. o.rest ≡ rest_in outer.now line.now) }
{
    let (_, mut start) = go_on(line, &OpenContainers::new(Extensions::none(), outer));
    let before = start.clone()?;
    let rest = scan_rest(line, &mut start);
    Ok(Opened {
        kept: outer.len(),
        start: before,
        rest,
    })
}

// Closes the containers that the line does not go on with, and opens those that it begins.
fn open_containers<'a>(
    outer: &mut Vec<Container>,
    line: &'a [u8],
    extensions: Extensions,
    is_after_term: bool,
) -> Result<Opened<'a>, AllocError>
    ensures opening { IfOk result (λ o. (paragraph : Bool) → IsOpening (record {
      extensions = extensions;
      containers = outer.old.items;
      term = is_after_term;
      paragraph = paragraph;
    }) false line.now outer.new.items o.kept o.rest) }
    ensures offset { IfOk result (λ o. o.start ≡ (match_line outer.old.items line.now).state) }
    ensures bytes { IfOk result (λ o. o.start.bytes ≡ line.now) }
    ensures few { IfOk result (λ o. length outer.new.items ≤ o.kept + length line.now) }
{
    let (kept, mut start) = go_on(line, &OpenContainers::new(extensions, outer));
    let before = start.clone()?;
    let mut asked = asked_first(extensions, is_after_term, &outer[kept..]);
    keep(outer, kept)?;
    let count = outer.len();
    let mut rest = scan_rest(line, &mut start);
    while let Some(container) = scan_container(line, &mut start, rest.indent, asked) {
        outer.push(container)?;
        rest = scan_rest(line, &mut start);
        asked = without_terms(extensions);
    }
    Ok(Opened {
        kept: count,
        start: before,
        rest,
    })
}

// Closes all but the first of the containers; an item that is the last of them has a second line.
fn keep(outer: &mut Vec<Container>, kept: usize) -> Result<(), AllocError>
    requires { kept ≤ length outer.old.items }
    ensures { OnOk result (outer.new.items ≡ last_past_first_line (take kept outer.old.items)) }
{
    while outer.len() > kept {
        outer.pop();
    }
    if let Some(last) = outer.pop() {
        outer.push(past_first_line(last))?;
    }
    Ok(())
}
