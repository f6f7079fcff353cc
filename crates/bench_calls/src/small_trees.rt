//! Calls on a tree of a parent and a child, which is made anew for each.
ghost use Rattle.std.specs.Prelude.{◌≡◌, IfOk};
ghost use Rattle.bench_calls.specs.Spans.{IsParent};

use markdown_values::tree::{SpanItem, Tree};
use std::alloc::{AllocError, Global};

/// A range of bytes.
#[derive(Clone, Default, Drop)]
pub struct Span {
    pub start: usize,
    pub end: usize,
}

impl SpanItem for Span {
    ghost use Rattle.std.specs.Prelude.{refl, false};

    ghost span = { λ p. record { start = p.start; end = p.end; escaped = false } };

    ghost with_range = { λ p start end. record p { start = start; end = end } };

    ghost sets_range = { λ p start end. refl };

    fn start(&self) -> usize {
        self.start
    }

    fn end(&self) -> usize {
        self.end
    }

    fn set_range(&mut self, start: usize, end: usize) {
        self.start = start;
        self.end = end;
    }

    fn backslash_escaped(&self) -> bool {
        false
    }
}

fn covering(start: usize, end: usize) -> Span
    ensures { result ≡ record { start = start; end = end } }
{
    Span { start, end }
}

// A node that is the parent of none.
fn parent(alloc: Global) -> Result<Tree<Span>, AllocError>
    ensures { IfOk result IsParent }
{
    let mut tree = Tree::with_capacity(alloc, 3)?;
    tree.append(covering(0, 9))?;
    tree.push()?;
    Ok(tree)
}

fn focus(tree: &Tree<Span>) -> u64 {
    match tree.cur() {
        Some(ix) => ix.get() as u64,
        None => 0,
    }
}

fn made(alloc: Global) -> Result<u64, AllocError> {
    let mut tree = parent(alloc)?;
    tree.append(covering(3, 8))?;
    Ok(focus(&tree))
}

fn removed(alloc: Global) -> Result<u64, AllocError> {
    let mut tree = Tree::with_capacity(alloc, 3)?;
    tree.append(covering(0, 9))?;
    tree.push()?;
    tree.append(covering(3, 8))?;
    tree.remove_node();
    Ok(focus(&tree))
}

fn raised(alloc: Global) -> Result<u64, AllocError> {
    let mut tree = parent(alloc)?;
    let ix = tree.append(covering(3, 8))?;
    tree.pop();
    tree.truncate_to_parent(ix);
    Ok(focus(&tree))
}

fn cut(alloc: Global) -> Result<u64, AllocError> {
    let mut tree = parent(alloc)?;
    tree.append(covering(3, 8))?;
    tree.truncate_siblings(4);
    Ok(focus(&tree))
}

// The sum of the answers, once for each offset.
fn each_time<F: Fn() -> Result<u64, AllocError>>(at: &[usize], rounds: usize, call: &F) -> u64
    requires { F.IsAlwaysCallable call.now }
{
    let mut sum: u64 = 0;
    for _ in 0..rounds {
        for _ in at {
            if let Ok(n) = call() {
                sum = sum.wrapping_add(n);
            }
        }
    }
    sum
}

#[unsafe(no_mangle)]
pub extern "C" fn ours_tree_two(alloc: Global, _text: &[u8], at: &[usize], rounds: usize) -> u64 {
    let call = || -> Result<u64, AllocError> { made(alloc) };
    each_time(at, rounds, &call)
}

#[unsafe(no_mangle)]
pub extern "C" fn ours_tree_two_remove(
    alloc: Global,
    _text: &[u8],
    at: &[usize],
    rounds: usize,
) -> u64 {
    let call = || -> Result<u64, AllocError> { removed(alloc) };
    each_time(at, rounds, &call)
}

#[unsafe(no_mangle)]
pub extern "C" fn ours_tree_two_raise(
    alloc: Global,
    _text: &[u8],
    at: &[usize],
    rounds: usize,
) -> u64 {
    let call = || -> Result<u64, AllocError> { raised(alloc) };
    each_time(at, rounds, &call)
}

#[unsafe(no_mangle)]
pub extern "C" fn ours_tree_two_cut(
    alloc: Global,
    _text: &[u8],
    at: &[usize],
    rounds: usize,
) -> u64 {
    let call = || -> Result<u64, AllocError> { cut(alloc) };
    each_time(at, rounds, &call)
}
