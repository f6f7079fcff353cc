//! Children of a node that are cut at a byte.
ghost use Rattle.std.specs.Prelude.{◌≡◌, ◌∷◌, [], IfOk, IfSome};
ghost use Rattle.markdown_values.specs.tree.Truncate.{first_other, CanCut};
ghost use Rattle.cmark_vectors.specs.Pieces.{spans_of, IsParent};

use crate::asserts::{assert_elements, assert_same, made};
use crate::pieces::Piece;
use crate::tree::named;
use markdown_values::tree::Tree;
use std::alloc::{AllocError, Global};
use std::process::Abort;

fn covering(name: char, start: usize, end: usize, escaped: bool) -> Piece
    ensures { result ≡ record { name = name; start = start; end = end; escaped = escaped } }
{
    Piece {
        name,
        start,
        end,
        escaped,
    }
}

// A node that is the parent of none.
fn parent(alloc: Global) -> Result<Tree<Piece>, AllocError>
    ensures { IfOk result IsParent }
{
    let mut tree = Tree::with_capacity(alloc, 5)?;
    tree.append(named('P'))?;
    tree.push()?;
    Ok(tree)
}

// One, two or three children of a node, cut at a byte.
fn cut_one(alloc: Global, child: Piece, end: usize) -> Result<Tree<Piece>, AllocError>
    requires { IfSome (first_other end (spans_of (child ∷ []))) (CanCut end) }
{
    let mut tree = parent(alloc)?;
    tree.append(child)?;
    tree.truncate_siblings(end);
    Ok(tree)
}

fn cut_two(
    alloc: Global,
    first: Piece,
    second: Piece,
    end: usize,
) -> Result<Tree<Piece>, AllocError>
    requires { IfSome (first_other end (spans_of (first ∷ second ∷ []))) (CanCut end) }
{
    let mut tree = parent(alloc)?;
    tree.append(first)?;
    tree.append(second)?;
    tree.truncate_siblings(end);
    Ok(tree)
}

fn cut_three(
    alloc: Global,
    first: Piece,
    second: Piece,
    third: Piece,
    end: usize,
) -> Result<Tree<Piece>, AllocError>
    requires { IfSome (first_other end (spans_of (first ∷ second ∷ third ∷ []))) (CanCut end) }
{
    let mut tree = parent(alloc)?;
    tree.append(first)?;
    tree.append(second)?;
    tree.append(third)?;
    tree.truncate_siblings(end);
    Ok(tree)
}

// The number of the focus; node 1 is the parent.
fn focus(tree: &Tree<Piece>) -> Option<usize> {
    match tree.cur() {
        Some(ix) => Some(ix.get()),
        None => None,
    }
}

// Writes the ranges of the children of the first node.
fn write_ranges(
    ranges: &mut Vec<(usize, usize)>,
    tree: &mut Tree<Piece>,
) -> Result<(), AllocError> {
    tree.reset();
    if tree.cur().is_some() {
        tree.push()?;
    }
    for _ in 0..8 {
        if let Some(ix) = tree.cur() {
            ranges.push((tree[ix].item.start, tree[ix].item.end))?;
            tree.next_sibling(ix);
        }
    }
    Ok(())
}

fn ranges(alloc: Global, tree: &mut Tree<Piece>) -> Result<Vec<(usize, usize)>, AllocError> {
    let mut ranges = Vec::new(alloc);
    write_ranges(&mut ranges, tree)?;
    Ok(ranges)
}

// The focus, and the ranges of the children; the tree is dropped here.
fn assert_children(
    rt: &impl Abort,
    alloc: Global,
    cut: Result<Tree<Piece>, AllocError>,
    expected_focus: Option<usize>,
    expected: &[(usize, usize)],
) {
    let mut tree = made(rt, cut);
    assert_same(rt, focus(&tree), expected_focus);
    assert_elements(rt, ranges(alloc, &mut tree), expected);
}

#[test]
fn a_child_is_cut_at_the_end(rt: HostRuntime) {
    let alloc = rt.alloc();
    let first = covering('A', 0, 3, false);
    let second = covering('B', 3, 5, false);
    let third = covering('C', 5, 9, false);
    let cut = cut_three(alloc, first, second, third, 4);
    assert_children(&rt, alloc, cut, Some(3), &[(0, 3), (3, 4)]);
}

#[test]
fn a_child_behind_the_end_is_dropped(rt: HostRuntime) {
    let alloc = rt.alloc();
    let first = covering('A', 0, 2, false);
    let second = covering('B', 4, 6, false);
    let cut = cut_two(alloc, first, second, 4);
    assert_children(&rt, alloc, cut, Some(2), &[(0, 2)]);
    let cut = cut_one(alloc, covering('A', 4, 6, false), 4);
    assert_children(&rt, alloc, cut, None, &[]);
}

#[test]
fn a_child_behind_a_backslash_takes_it(rt: HostRuntime) {
    let alloc = rt.alloc();
    let first = covering('A', 0, 2, false);
    let second = covering('B', 4, 6, true);
    let cut = cut_two(alloc, first, second, 4);
    assert_children(&rt, alloc, cut, Some(3), &[(0, 2), (3, 4)]);
    let first = covering('A', 0, 2, false);
    let second = covering('B', 4, 6, true);
    let third = covering('C', 6, 8, false);
    let cut = cut_three(alloc, first, second, third, 4);
    assert_children(&rt, alloc, cut, Some(3), &[(0, 2), (3, 4), (6, 8)]);
}

#[test]
fn children_before_the_end_stay(rt: HostRuntime) {
    let alloc = rt.alloc();
    let cut = cut_one(alloc, covering('A', 0, 1, false), 5);
    assert_children(&rt, alloc, cut, Some(2), &[(0, 1)]);
    let first = covering('A', 0, 3, false);
    let second = covering('B', 3, 5, false);
    let cut = cut_two(alloc, first, second, 5);
    assert_children(&rt, alloc, cut, Some(3), &[(0, 3), (3, 5)]);
}

#[test]
fn a_child_that_ends_there_is_the_last(rt: HostRuntime) {
    let alloc = rt.alloc();
    let first = covering('A', 0, 3, false);
    let second = covering('B', 3, 5, false);
    let third = covering('C', 5, 9, true);
    let cut = cut_three(alloc, first, second, third, 5);
    assert_children(&rt, alloc, cut, Some(3), &[(0, 3), (3, 5)]);
}
