//! Trees, in calls that make nothing.
ghost use Rattle.markdown_values.specs.tree.Tree.{last, IsLastLinkedFromAlone};
ghost use Rattle.std.specs.Prelude.{◌≡◌, ◌<◌, ◌+◌, ◌∷◌, [], length, IfOk, IfSome};
ghost use Rattle.markdown_values.specs.tree.Truncate.{first_other, CanCut};
ghost use Rattle.tests_refusals.specs.Spans.{spans_of, IsParent};

use crate::printing::{print, print_ready, print_three};
use crate::stop::Stop;
use markdown_values::tree::{SpanItem, Tree, TreeIndex};
use std::alloc::{AllocError, Global};
use std::io::Stdout;

/// A range of bytes.
#[derive(Clone, Copy, Default)]
pub struct Span {
    pub start: usize,
    pub end: usize,
}

impl SpanItem for Span {
    ghost use Rattle.std.specs.Prelude.{refl, false};

    ghost span = { λ p. record { start = p.start; end = p.end; escaped = false } };

    ghost with_range = { λ p start end. record p { start = start; end = end } };

    ghost sets_range = { λ p start end. refl };

    fn start(&self) -> usize {
        self.start
    }

    fn end(&self) -> usize {
        self.end
    }

    fn set_range(&mut self, start: usize, end: usize) {
        self.start = start;
        self.end = end;
    }

    fn backslash_escaped(&self) -> bool {
        false
    }
}

fn covering(start: usize, end: usize) -> Span
    ensures { result ≡ record { start = start; end = end } }
{
    Span { start, end }
}

// Appends a node and goes into it.
fn append_parent(tree: &mut Tree<Span>, item: Span) -> Result<TreeIndex, AllocError>
    ensures index { IfOk result (λ ix. ix ≡ length tree.old.nodes) }
    ensures count { IfOk result (λ _. length tree.new.nodes ≡ length tree.old.nodes + 1) }
{
    let ix = tree.append(item)?;
    tree.push()?;
    Ok(ix)
}

fn append_nested(tree: &mut Tree<Span>) -> Result<[TreeIndex; 4], AllocError>
    requires { length tree.old.nodes ≡ 1 }
    ensures count { IfOk result (λ _. length tree.new.nodes ≡ 5) }
    ensures indices { IfOk result (λ made. made ≡ 1 ∷ 2 ∷ 3 ∷ 4 ∷ []) }
{
    let a = append_parent(tree, covering(0, 9))?;
    let b = append_parent(tree, covering(0, 8))?;
    let c = tree.append(covering(0, 3))?;
    let d = tree.append(covering(3, 8))?;
    Ok([a, b, c, d])
}

// A node, in it another, and in that two, of which the last is in focus.
fn nested(alloc: Global) -> Result<(Tree<Span>, [TreeIndex; 4]), AllocError>
    ensures count { IfOk result (λ made. length made.0.nodes ≡ 5) }
    ensures indices { IfOk result (λ made. made.1 ≡ 1 ∷ 2 ∷ 3 ∷ 4 ∷ []) }
{
    let mut tree = Tree::with_capacity(alloc, 5)?;
    let indices = append_nested(&mut tree)?;
    Ok((tree, indices))
}

/// The calls that look, and those that change links.
pub(crate) fn run(alloc: Global, output: Stdout) -> Result<(), Stop> {
    let (mut tree, indices) = nested(alloc)?;
    print_nested(output, &mut tree, indices)
}

fn print_nested(output: Stdout, tree: &mut Tree<Span>, indices: [TreeIndex; 4]) -> Result<(), Stop>
    requires count { length tree.old.nodes ≡ 5 }
    requires indices { indices ≡ 1 ∷ 2 ∷ 3 ∷ 4 ∷ [] }
{
    let [a, b, c, d] = indices;
    print_ready(output)?;
    print_spine(output, tree)?;
    cut_below(output, tree, b, c)?;
    link(output, tree, b, c, d)?;
    leave(output, tree, a)
}

// An item changes, and the nodes after it are cut off.
fn cut_below(output: Stdout, tree: &mut Tree<Span>, b: TreeIndex, c: TreeIndex) -> Result<(), Stop>
    requires parent { b < length tree.old.nodes }
    requires child { c < length tree.old.nodes }
    ensures { length tree.new.nodes ≡ length tree.old.nodes }
{
    tree.item_mut(c).end = 4;
    let changed = (tree[c].item.end, tree[c].next);
    let parent = tree.pop();
    tree.truncate_to_parent(c);
    print_three(output, changed, parent, (tree.cur(), tree[b].next))
}

fn link(
    output: Stdout,
    tree: &mut Tree<Span>,
    b: TreeIndex,
    c: TreeIndex,
    d: TreeIndex,
) -> Result<(), Stop>
    requires parent { b < length tree.old.nodes }
    requires child { c < length tree.old.nodes }
    requires other { d < length tree.old.nodes }
    ensures { length tree.new.nodes ≡ length tree.old.nodes }
{
    tree.set_child(d, Some(c));
    tree.set_next(b, None);
    print(output, (tree[d].child, tree[b].next))
}

fn leave(output: Stdout, tree: &mut Tree<Span>, a: TreeIndex) -> Result<(), Stop>
    requires { a < length tree.old.nodes }
{
    print(output, tree.next_sibling(a))?;
    tree.reset();
    print_spine(output, tree)
}

fn print_spine(output: Stdout, tree: &Tree<Span>) -> Result<(), Stop> {
    print(output, tree.cur())?;
    for ix in tree.walk_spine() {
        print(output, ix.get())?;
    }
    let above = (tree.peek_up(), tree.peek_grandparent());
    print_three(output, tree.spine_len(), above, tree.is_empty())
}

fn index_after(ix: TreeIndex) -> Option<TreeIndex> {
    if ix.get() < 100 { Some(ix + 1) } else { None }
}

fn index_before(ix: TreeIndex) -> Option<TreeIndex> {
    if ix.get() > 1 { Some(ix - 1) } else { None }
}

/// The index of the first node, the next and the one before it.
pub(crate) fn indices(alloc: Global, output: Stdout) -> Result<(), Stop> {
    let mut tree = Tree::with_capacity(alloc, 2)?;
    let ix = tree.append(covering(0, 9))?;
    print_ready(output)?;
    print(output, (ix.get(), index_after(ix), index_before(ix)))
}

/// The last node goes.
pub(crate) fn remove_node(alloc: Global, output: Stdout) -> Result<(), Stop> {
    let mut tree = Tree::with_capacity(alloc, 3)?;
    tree.append(covering(0, 9))?;
    tree.push()?;
    tree.append(covering(0, 8))?;
    print_removed(output, &mut tree)
}

fn print_removed(output: Stdout, tree: &mut Tree<Span>) -> Result<(), Stop>
    requires { IfSome (last tree.old.spine) (IsLastLinkedFromAlone tree.old) }
{
    print_ready(output)?;
    print(output, tree.remove_node())?;
    print_spine(output, tree)
}

// A node that is the parent of none.
fn parent(alloc: Global) -> Result<Tree<Span>, AllocError>
    ensures { IfOk result IsParent }
{
    let mut tree = Tree::with_capacity(alloc, 3)?;
    tree.append(covering(0, 9))?;
    tree.push()?;
    Ok(tree)
}

fn cut(alloc: Global, output: Stdout, child: Span, end: usize) -> Result<Tree<Span>, Stop>
    requires { IfSome (first_other end (spans_of (child ∷ []))) (CanCut end) }
{
    let mut tree = parent(alloc)?;
    tree.append(child)?;
    print_ready(output)?;
    tree.truncate_siblings(end);
    Ok(tree)
}

/// A child is cut.
pub(crate) fn truncate_siblings(alloc: Global, output: Stdout) -> Result<(), Stop> {
    let tree = cut(alloc, output, covering(3, 8), 4)?;
    if let Some(ix) = tree.cur() {
        print(output, (ix, tree[ix].item.start, tree[ix].item.end))?;
    }
    print_spine(output, &tree)
}
