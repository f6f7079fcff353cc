//! Nested lists as a tree, built item by item and walked.
ghost use Rattle.std.specs.Prelude.{◌≡◌, ℕ, Some, IfOk, IfSome, IsSome, map};
ghost use Rattle.markdown_values.specs.tree.Forest.{Forest, Focused, HasForest, StandsFor, appended, pushed, popped, empty_forest};
ghost use Rattle.markdown_values.specs.tree.Order.{in_order};

use markdown_values::tree::{Tree, TreeIndex};
use std::alloc::{AllocError, Global};

/// The text of a list item.
#[derive(Clone, Copy, Default)]
pub struct Item {
    pub first: char,
}

/// An outline without items.
pub fn empty_outline(alloc: Global) -> Result<Tree<Item>, AllocError>
    ensures { IfOk result (λ outline. StandsFor outline empty_forest) }
{
    Tree::with_capacity(alloc, 0)
}

/// Adds an item after the last one, on its level.
pub fn add_item(outline: &mut Tree<Item>, item: Item) -> Result<TreeIndex, AllocError>
    ensures { IfOk result (λ ix. (f : Focused) → StandsFor outline.old f
        → StandsFor outline.new (appended f ix)) }
{
    outline.append(item)
}

/// Adds an item as the first of a list in the last one.
pub fn add_inner(outline: &mut Tree<Item>, item: Item) -> Result<TreeIndex, AllocError>
    requires { IsSome outline.old.focus }
    ensures { IfOk result (λ ix. (f : Focused) (parent : ℕ) → f.focus ≡ Some parent
        → StandsFor outline.old f → StandsFor outline.new (appended (pushed f parent) ix)) }
{
    outline.push()?;
    outline.append(item)
}

/// Ends the innermost list: the item that holds it is the last one then.
pub fn end_inner(outline: &mut Tree<Item>)
    ensures { (f : Focused) → StandsFor outline.old f → StandsFor outline.new (popped f) }
{
    outline.pop();
}

/// How deep each item stands, in order.
pub fn levels(alloc: Global, outline: &Tree<Item>) -> Result<Vec<usize>, AllocError>
    ensures { IfOk result (λ levels. (forest : Forest) → HasForest outline.now forest
        → levels.items ≡ map (λ node. node.1) (in_order 0 forest)) }
{
    let order = outline.in_order()?;
    order.iter().map(|(_, depth)| *depth).collect(alloc)
}

/// The items in order, a line for each, after two spaces for each level.
pub fn written(alloc: Global, outline: &Tree<Item>) -> Result<String, AllocError> {
    let mut text = String::new(alloc);
    for (ix, depth) in outline.in_order()? {
        for _ in 0..depth {
            text.push_str("  ")?;
        }
        if let Some(node) = outline.get(ix) {
            text.push(node.item.first)?;
            text.push('\n')?;
        }
    }
    Ok(text)
}
