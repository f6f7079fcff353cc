//! The nodes of a tree in the order of their text.
ghost use Rattle.std.specs.Prelude.{◌≡◌, ◌++◌, ◌<◌, ◌≤◌, All, IfOk, OnOk, length, map, nat_eq, option_to_list, vec_len};
ghost use Rattle.std.specs.List.{IsDistinct};
ghost use Rattle.markdown_values.specs.tree.Tree.{first_root, IsLinkWithin};

use crate::tree::{Tree, TreeIndex};
use std::alloc::AllocError;

impl<T: Drop> Tree<T> {
    ghost use Rattle.markdown_values.specs.tree.Forest.{Forest, HasForest};
    ghost use Rattle.markdown_values.specs.tree.Order.{in_order};

    /// The nodes in the order of their text, each once, with its depth: a root at depth 0, the nodes
    /// below it, and so on with the next root.
    ///
    /// The walk begins at the first node after the dummy, whatever the spine and the focus are. Nodes
    /// that no link leads to are left out. A walk takes memory for its way back, and the `next` of an
    /// iterator can't answer that it is refused, so all nodes are answered at once. The walk ends in a
    /// circle of links too.
    ///
    /// # Errors
    ///
    /// `AllocError` where memory for the nodes is refused.
    pub fn in_order(&self) -> Result<Vec<(TreeIndex, usize)>, AllocError>
        ensures forest { IfOk result (λ order. (forest : Forest) → HasForest self.now forest
            → order.items ≡ in_order 0 forest) }
        ensures once { IfOk result (λ order. (forest : Forest) → HasForest self.now forest
            → IsDistinct nat_eq (map (λ node. node.0) order.items)) }
        ensures within { IfOk result (λ order.
            All (λ node. node.0 < length self.now.nodes) order.items) }
        ensures most { IfOk result (λ order. vec_len order ≤ length self.now.nodes) }
    {
        let mut order = Vec::new(*self.nodes.allocator());
        let mut pending = Vec::new(*self.nodes.allocator());
        push_link(&mut pending, self.first_root(), 0)?;
        for _ in 0..self.nodes.len() {
            let Some((ix, depth)) = pending.pop() else {
                return Ok(order);
            };
            order.push((ix, depth))?;
            let node = &self[ix];
            push_link(&mut pending, node.next, depth)?;
            push_link(&mut pending, node.child, depth + 1)?;
        }
        Ok(order)
    }
}

// Puts a link, if it leads to a node, on those that are still to be followed.
fn push_link(
    pending: &mut Vec<(TreeIndex, usize)>,
    link: Option<TreeIndex>,
    depth: usize,
) -> Result<(), AllocError>
    ensures { OnOk result (pending.new.items
        ≡ pending.old.items ++ map (λ ix. (ix, depth)) (option_to_list link)) }
{
    if let Some(ix) = link {
        pending.push((ix, depth))?;
    }
    Ok(())
}
