//! Trees, whose nodes, spine and focus are printed before each call and where it is refused.
ghost use Rattle.std.specs.Prelude.{◌≡◌, length, IfOk, IsSome};

use crate::printing::{MadeOf, print, print_reading, print_ready};
use crate::stop::Stop;
use markdown_values::tree::{Tree, TreeIndex};
use std::alloc::{AllocError, Global};
use std::io::{Stdout, Write};

#[derive(Clone, Copy)]
pub(crate) enum TreeCase {
    WithCapacity,
    Append,
    CreateNode,
    Push,
    Clone,
    InOrder,
}

pub(crate) fn run(alloc: Global, output: Stdout, case: TreeCase) -> Result<(), Stop> {
    match case {
        TreeCase::WithCapacity => with_capacity(alloc, output),
        TreeCase::Append => append(alloc, output),
        TreeCase::CreateNode => create_node(alloc, output),
        TreeCase::Push => push(alloc, output),
        TreeCase::Clone => clone(alloc, output),
        TreeCase::InOrder => in_order(alloc, output),
    }
}

// An item that owns memory.
type Named = Option<String>;

fn item_named(alloc: Global, name: &str) -> Result<Named, AllocError> {
    Ok(Some(String::from_str(alloc, name)?))
}

// Room for so many nodes.
#[derive(Clone, Copy)]
struct Capacity(usize);

// Whether a new tree is empty.
impl MadeOf<Capacity> for bool {
    fn made_of(alloc: Global, value: Capacity) -> Result<bool, AllocError> {
        Ok(Tree::<Named>::with_capacity(alloc, value.0)?.is_empty())
    }
}

/// A new tree.
pub(crate) fn with_capacity(alloc: Global, output: Stdout) -> Result<(), Stop> {
    print_reading::<Capacity, bool>(alloc, output, "no tree", Capacity(5))
}

fn append_named(alloc: Global, tree: &mut Tree<Named>, name: &str) -> Result<TreeIndex, AllocError>
    ensures index { IfOk result (λ ix. ix ≡ length tree.old.nodes) }
    ensures focus { IfOk result (λ _. IsSome tree.new.focus) }
{
    tree.append(item_named(alloc, name)?)
}

// Appends a node in the one in focus.
fn append_in_focus(alloc: Global, tree: &mut Tree<Named>, name: &str) -> Result<(), AllocError>
    requires { IsSome tree.old.focus }
    ensures { IfOk result (λ _. IsSome tree.new.focus) }
{
    tree.push()?;
    append_named(alloc, tree, name)?;
    Ok(())
}

fn append_four(alloc: Global, tree: &mut Tree<Named>) -> Result<TreeIndex, AllocError>
    ensures index { IfOk result (λ ix. ix ≡ length tree.old.nodes) }
    ensures focus { IfOk result (λ _. IsSome tree.new.focus) }
{
    let first = append_named(alloc, tree, "A")?;
    append_in_focus(alloc, tree, "B")?;
    append_in_focus(alloc, tree, "C")?;
    append_in_focus(alloc, tree, "D")?;
    Ok(first)
}

// A, in it B, in that C, and in that D, which is in focus. There is room for no further node.
fn full(alloc: Global) -> Result<(Tree<Named>, TreeIndex), AllocError>
    ensures first { IfOk result (λ made. made.1 ≡ 1) }
    ensures focus { IfOk result (λ made. IsSome made.0.focus) }
{
    let mut tree = Tree::with_capacity(alloc, 5)?;
    let first = append_four(alloc, &mut tree)?;
    Ok((tree, first))
}

fn print_link(mut output: Stdout, link: Option<TreeIndex>) -> Result<(), Stop> {
    match link {
        Some(ix) => write!(output, " {}", ix.get())?,
        None => output.write_all(b" -")?,
    }
    Ok(())
}

// More nodes than any of the trees has.
const MANY: usize = 10;

// The focus, the spine from the root, and the nodes from the first: each with its item, its child
// and its next sibling.
fn print_tree(
    mut output: Stdout,
    word: &str,
    tree: &Tree<Named>,
    first: TreeIndex,
) -> Result<(), Stop>
    requires { first ≡ 1 }
{
    write!(output, "{word} focus")?;
    print_link(output, tree.cur())?;
    write!(output, " spine")?;
    for ix in tree.walk_spine() {
        print_link(output, Some(*ix))?;
    }
    for k in 0..MANY {
        print_node(output, tree, first + k)?;
    }
    writeln!(output)?;
    Ok(())
}

// The node at this index, if there is one.
fn print_node(mut output: Stdout, tree: &Tree<Named>, ix: TreeIndex) -> Result<(), Stop> {
    let Some(node) = tree.get(ix) else {
        return Ok(());
    };
    let name = match &node.item {
        Some(name) => name.as_str(),
        None => "-",
    };
    write!(output, " node {} {name}", ix.get())?;
    print_link(output, node.child)?;
    print_link(output, node.next)
}

// What a call may use or change, before the call.
fn print_before(output: Stdout, tree: &Tree<Named>, first: TreeIndex) -> Result<(), Stop>
    requires { first ≡ 1 }
{
    print_tree(output, "before", tree, first)?;
    print_ready(output)
}

// The index that a call answers, and the tree after it.
fn print_after(
    output: Stdout,
    ix: TreeIndex,
    tree: &Tree<Named>,
    first: TreeIndex,
) -> Result<(), Stop>
    requires { first ≡ 1 }
{
    print(output, ix)?;
    print_tree(output, "after", tree, first)
}

/// A node is appended after the focus, and as the only child of a parent.
pub(crate) fn append(alloc: Global, output: Stdout) -> Result<(), Stop> {
    add_to_full(alloc, output, Adding::Linked)?;
    append_child(alloc, output)
}

fn append_child(alloc: Global, output: Stdout) -> Result<(), Stop> {
    let (mut tree, first) = full(alloc)?;
    tree.push()?;
    add_fifth(alloc, output, &mut tree, first, Adding::Linked)
}

/// A node is made that no link leads to.
pub(crate) fn create_node(alloc: Global, output: Stdout) -> Result<(), Stop> {
    add_to_full(alloc, output, Adding::Unlinked)
}

// Whether links lead to a new node, and it is in focus.
#[derive(Clone, Copy)]
enum Adding {
    Linked,
    Unlinked,
}

fn add_to_full(alloc: Global, output: Stdout, adding: Adding) -> Result<(), Stop> {
    let (mut tree, first) = full(alloc)?;
    add_fifth(alloc, output, &mut tree, first, adding)
}

// The item is made before the call, and again before the second.
fn add_fifth(
    alloc: Global,
    output: Stdout,
    tree: &mut Tree<Named>,
    first: TreeIndex,
    adding: Adding,
) -> Result<(), Stop>
    requires { first ≡ 1 }
{
    let item = item_named(alloc, "E")?;
    print_before(output, tree, first)?;
    let ix = match add(tree, item, adding) {
        Ok(ix) => ix,
        Err(_) => {
            print_tree(output, "refused", tree, first)?;
            add(tree, item_named(alloc, "E")?, adding)?
        }
    };
    print_after(output, ix, tree, first)
}

fn add(tree: &mut Tree<Named>, item: Named, adding: Adding) -> Result<TreeIndex, AllocError> {
    match adding {
        Adding::Linked => tree.append(item),
        Adding::Unlinked => tree.create_node(item),
    }
}

/// The first node goes on the spine, and then as many as make it grow.
pub(crate) fn push(alloc: Global, output: Stdout) -> Result<(), Stop> {
    push_first(alloc, output)?;
    push_until_grown(alloc, output)
}

fn push_first(alloc: Global, output: Stdout) -> Result<(), Stop> {
    let mut tree = Tree::with_capacity(alloc, 8)?;
    let first = append_named(alloc, &mut tree, "A")?;
    push_focus(output, &mut tree, first)
}

fn push_until_grown(alloc: Global, output: Stdout) -> Result<(), Stop> {
    let (mut tree, first) = full(alloc)?;
    push_three(alloc, output, &mut tree, first)
}

fn push_three(
    alloc: Global,
    output: Stdout,
    tree: &mut Tree<Named>,
    first: TreeIndex,
) -> Result<(), Stop>
    requires first { first ≡ 1 }
    requires focus { IsSome tree.old.focus }
{
    push_focus(output, tree, first)?;
    append_named(alloc, tree, "E")?;
    push_focus(output, tree, first)?;
    append_named(alloc, tree, "F")?;
    push_focus(output, tree, first)
}

fn push_focus(output: Stdout, tree: &mut Tree<Named>, first: TreeIndex) -> Result<(), Stop>
    requires first { first ≡ 1 }
    requires focus { IsSome tree.old.focus }
{
    print_before(output, tree, first)?;
    let ix = match tree.push() {
        Ok(ix) => ix,
        Err(_) => {
            print_tree(output, "refused", tree, first)?;
            tree.push()?
        }
    };
    print_after(output, ix, tree, first)
}

/// A tree is copied, with its items. The answer is the copy, and the tree that was copied.
pub(crate) fn clone(alloc: Global, output: Stdout) -> Result<(), Stop> {
    let (tree, first) = full(alloc)?;
    print_clone(output, &tree, first)
}

fn print_clone(output: Stdout, tree: &Tree<Named>, first: TreeIndex) -> Result<(), Stop>
    requires { first ≡ 1 }
{
    print_before(output, tree, first)?;
    let copy = match tree.clone() {
        Ok(copy) => copy,
        Err(_) => {
            print_tree(output, "refused", tree, first)?;
            tree.clone()?
        }
    };
    print_tree(output, "copy", &copy, first)?;
    print_tree(output, "after", tree, first)
}

/// The nodes are printed in order.
pub(crate) fn in_order(alloc: Global, output: Stdout) -> Result<(), Stop> {
    let (tree, first) = full(alloc)?;
    print_in_order(output, &tree, first)
}

fn print_in_order(output: Stdout, tree: &Tree<Named>, first: TreeIndex) -> Result<(), Stop>
    requires { first ≡ 1 }
{
    print_before(output, tree, first)?;
    match tree.in_order() {
        Ok(order) => print(output, order)?,
        Err(_) => {
            print_tree(output, "refused", tree, first)?;
            print(output, tree.in_order()?)?;
        }
    }
    print_tree(output, "after", tree, first)
}
