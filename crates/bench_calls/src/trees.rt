//! The tree.
ghost use Rattle.std.specs.Prelude.{◌≡◌};

use markdown_values::tree::Tree;
use std::alloc::{AllocError, Global};

// Three words, with nothing to fill up: the bytes after a narrower last field would be copied too.
#[derive(Clone, Copy, Default, Drop)]
struct Item {
    start: usize,
    end: usize,
    body: usize,
}

fn nth_item(n: usize) -> Item {
    Item {
        start: n,
        end: n,
        body: n % 200,
    }
}

// A flat list of nodes.
fn flat(alloc: Global, nodes: usize) -> Result<u64, AllocError> {
    let mut tree: Tree<Item> = Tree::with_capacity(alloc, 128)?;
    let mut sum: u64 = 0;
    for n in 0..nodes {
        let ix = tree.append(nth_item(n))?;
        sum = sum.wrapping_add(ix.get() as u64);
    }
    Ok(sum)
}

// Nodes eight deep: down at each but one in eight, and then up again. The number is the sum of
// their indices.
fn built(alloc: Global, nodes: usize) -> Result<(Tree<Item>, u64), AllocError> {
    let mut tree: Tree<Item> = Tree::with_capacity(alloc, 128)?;
    let mut sum: u64 = 0;
    for n in 0..nodes {
        let ix = tree.append(nth_item(n))?;
        sum = sum.wrapping_add(ix.get() as u64);
        if n % 8 == 7 {
            for _ in 0..7 {
                tree.pop();
            }
        } else if tree.cur().is_some() {
            tree.push()?;
        }
    }
    Ok((tree, sum))
}

fn nested(alloc: Global, nodes: usize) -> Result<u64, AllocError> {
    let (mut tree, sum) = built(alloc, nodes)?;
    Ok(sum.wrapping_add(walked(&mut tree, nodes)))
}

fn walked(tree: &mut Tree<Item>, nodes: usize) -> u64 {
    let mut sum: u64 = 0;
    tree.reset();
    for _ in 0..nodes.saturating_mul(4) {
        if let Some(ix) = tree.cur() {
            sum = sum.wrapping_mul(3).wrapping_add(tree[ix].item.body as u64);
            if tree[ix].child.is_some() {
                let Ok(_) = tree.push() else {
                    return 0;
                };
            } else {
                tree.next_sibling(ix);
            }
        } else if let Some(parent) = tree.pop() {
            sum = sum.wrapping_add(1);
            tree.next_sibling(parent);
        } else {
            break;
        }
    }
    sum
}

// The first offset is how many nodes.
#[unsafe(no_mangle)]
pub extern "C" fn ours_tree_flat(alloc: Global, _text: &[u8], at: &[usize], rounds: usize) -> u64 {
    let mut sum: u64 = 0;
    for _ in 0..rounds {
        for nodes in at {
            if let Ok(n) = flat(alloc, *nodes) {
                sum = sum.wrapping_add(n);
            }
        }
    }
    sum
}

#[unsafe(no_mangle)]
pub extern "C" fn ours_tree_nested(
    alloc: Global,
    _text: &[u8],
    at: &[usize],
    rounds: usize,
) -> u64 {
    let mut sum: u64 = 0;
    for _ in 0..rounds {
        for nodes in at {
            if let Ok(n) = nested(alloc, *nodes) {
                sum = sum.wrapping_add(n);
            }
        }
    }
    sum
}

// Each tree is walked `rounds` times.
#[unsafe(no_mangle)]
pub extern "C" fn ours_tree_walk(alloc: Global, _text: &[u8], at: &[usize], rounds: usize) -> u64 {
    let mut sum: u64 = 0;
    for nodes in at {
        if let Ok((mut tree, _)) = built(alloc, *nodes) {
            for _ in 0..rounds {
                sum = sum.wrapping_add(walked(&mut tree, *nodes));
            }
        }
    }
    sum
}
