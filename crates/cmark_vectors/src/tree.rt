//! Trees: runs of calls, their nodes, spine and focus. What a test does to a tree is a function over
//! a tree that the test owns.
ghost use Rattle.std.specs.Prelude.{◌≡◌, ◌+◌, ◌<◌, ◌∷◌, [], length, IsSome};
ghost use Rattle.markdown_values.specs.tree.Tree.{empty_tree};
ghost use Rattle.cmark_vectors.specs.declared.pieces.Piece.{Piece};

use crate::asserts::{assert_elements, assert_same, assert_text, made};
use crate::pieces::Piece;
use markdown_values::tree::{Node, Tree, TreeIndex};
use std::alloc::{AllocError, Global};
use std::ops::Index;
use std::process::Abort;

mod cuts;

fn named(name: char) -> Piece {
    Piece {
        name,
        start: 0,
        end: 0,
        escaped: false,
    }
}

// Writes all that is reached from the first node: names, and the children of a node in brackets.
fn write_forest(text: &mut String, tree: &mut Tree<Piece>) -> Result<(), AllocError> {
    tree.reset();
    for _ in 0..32 {
        if let Some(ix) = tree.cur() {
            text.push(tree[ix].item.name)?;
            if tree[ix].child.is_some() {
                text.push('(')?;
                tree.push()?;
            } else {
                tree.next_sibling(ix);
            }
        } else if let Some(parent) = tree.pop() {
            text.push(')')?;
            tree.next_sibling(parent);
        } else {
            break;
        }
    }
    Ok(())
}

fn forest(alloc: Global, tree: &mut Tree<Piece>) -> Result<String, AllocError> {
    let mut text = String::new(alloc);
    write_forest(&mut text, tree)?;
    Ok(text)
}

// The nodes in order, each as its number and its depth.
fn order(alloc: Global, tree: &Tree<Piece>) -> Result<Vec<(usize, usize)>, AllocError> {
    let mut order = Vec::new(alloc);
    for (ix, depth) in tree.in_order()? {
        order.push((ix.get(), depth))?;
    }
    Ok(order)
}

// The names on the spine, from the root.
fn spine_names(alloc: Global, tree: &Tree<Piece>) -> Result<String, AllocError> {
    let mut text = String::new(alloc);
    for ix in tree.walk_spine().as_slice() {
        text.push(tree[*ix].item.name)?;
    }
    Ok(text)
}

// A tree of the dummy alone.
fn new_tree(rt: &impl Abort, alloc: Global, room: usize) -> Tree<Piece>
    ensures tree { (item : Piece) × (result ≡ empty_tree item) }
    ensures count { length result.nodes ≡ 1 }
{
    Tree::with_capacity(alloc, room).expect(rt, "memory")
}

// Appends a node of this name.
fn append(rt: &impl Abort, tree: &mut Tree<Piece>, name: char) -> TreeIndex
    ensures index { result ≡ length tree.old.nodes }
    ensures within { result < length tree.new.nodes }
    ensures count { length tree.new.nodes ≡ length tree.old.nodes + 1 }
    ensures focus { IsSome tree.new.focus }
{
    tree.append(named(name)).expect(rt, "memory")
}

// Puts the focus on the spine.
fn push(rt: &impl Abort, tree: &mut Tree<Piece>) -> TreeIndex
    requires { IsSome tree.old.focus }
    ensures { length tree.new.nodes ≡ length tree.old.nodes }
{
    tree.push().expect(rt, "memory")
}

// Appends A, in it B, and in that C and D, of which D is in focus.
fn nest(rt: &impl Abort, tree: &mut Tree<Piece>) -> [TreeIndex; 4]
    requires { length tree.old.nodes ≡ 1 }
    ensures count { length tree.new.nodes ≡ 5 }
    ensures indices { result ≡ 1 ∷ 2 ∷ 3 ∷ 4 ∷ [] }
{
    let a = append(rt, tree, 'A');
    push(rt, tree);
    let b = append(rt, tree, 'B');
    push(rt, tree);
    let c = append(rt, tree, 'C');
    let d = append(rt, tree, 'D');
    [a, b, c, d]
}

// A link is this one.
fn assert_link(rt: &impl Abort, found: Option<TreeIndex>, expected: Option<TreeIndex>) {
    assert_same(rt, found, expected);
}

fn assert_forest(rt: &impl Abort, alloc: Global, tree: &mut Tree<Piece>, expected: &str) {
    assert_text(rt, forest(alloc, tree), expected);
}

fn append_after_a_node(rt: &impl Abort, alloc: Global, tree: &mut Tree<Piece>) {
    let a = append(rt, tree, 'A');
    assert_link(rt, Some(push(rt, tree)), Some(a));
    let b = append(rt, tree, 'B');
    let c = append(rt, tree, 'C');
    assert_link(rt, tree.pop(), Some(a));
    if tree.cur().is_some() {
        assert_link(rt, Some(push(rt, tree)), Some(a));
    }
    assert_link(rt, tree.cur(), Some(b));
    let d = append(rt, tree, 'D');
    assert_link(rt, tree.cur(), Some(d));
    assert_link(rt, tree[b].next, Some(d));
    assert_same(rt, tree[c].item.name, 'C');
    assert_forest(rt, alloc, tree, "A(BD)");
}

#[test]
fn appending_after_a_node_cuts_what_followed(rt: HostRuntime) {
    append_after_a_node(&rt, rt.alloc(), &mut new_tree(&rt, rt.alloc(), 4));
}

// The nodes of the spine are these two.
fn assert_spine_of_two(rt: &impl Abort, tree: &Tree<Piece>, root: TreeIndex, parent: TreeIndex) {
    assert_link(rt, tree.peek_up(), Some(parent));
    assert_link(rt, tree.peek_grandparent(), Some(root));
    assert_same(rt, tree.spine_len(), 2);
    let mut spine = tree.walk_spine();
    assert_same(rt, spine.next(), Some(&root));
    assert_same(rt, spine.next(), Some(&parent));
    assert_same(rt, spine.next(), None);
}

fn walk_to_the_focus(rt: &impl Abort, alloc: Global, tree: &mut Tree<Piece>)
    requires { length tree.old.nodes ≡ 1 }
{
    let [a, b, c, d] = nest(rt, tree);
    assert_link(rt, tree.cur(), Some(d));
    assert_spine_of_two(rt, tree, a, b);
    assert_text(rt, spine_names(alloc, tree), "AB");
    assert_link(rt, tree.pop(), Some(b));
    assert_link(rt, tree.peek_grandparent(), None);
    tree.truncate_to_parent(c);
    assert_link(rt, tree.cur(), Some(d));
    assert_forest(rt, alloc, tree, "A(B(C)D)");
}

#[test]
fn the_spine_leads_from_the_root_to_the_focus(rt: HostRuntime) {
    walk_to_the_focus(&rt, rt.alloc(), &mut new_tree(&rt, rt.alloc(), 5));
}

// A tree with neither focus nor spine.
fn look_in_the_empty_tree(rt: &impl Abort, tree: &mut Tree<Piece>) {
    assert!(rt; tree.is_empty());
    tree.reset();
    assert_link(rt, tree.cur(), None);
    assert_link(rt, tree.pop(), None);
    assert_link(rt, tree.remove_node(), None);
    assert_link(rt, tree.peek_up(), None);
    assert_link(rt, tree.peek_grandparent(), None);
    assert_same(rt, tree.spine_len(), 0);
    assert!(rt; tree.is_empty());
}

fn look_at_two_roots(rt: &impl Abort, tree: &mut Tree<Piece>) {
    let a = tree.create_node(named('A')).expect(rt, "memory");
    assert!(rt; !tree.is_empty());
    assert_link(rt, tree.cur(), None);
    let b = append(rt, tree, 'B');
    assert_link(rt, tree.pop(), None);
    assert_link(rt, tree.cur(), Some(b));
    tree.reset();
    assert_link(rt, tree.cur(), Some(a));
    assert_link(rt, tree.peek_up(), None);
    assert_link(rt, tree[a].next, None);
    assert_link(rt, tree.next_sibling(b), None);
    assert_link(rt, tree.cur(), None);
}

fn look_for_parents(rt: &impl Abort, tree: &mut Tree<Piece>) {
    look_in_the_empty_tree(rt, tree);
    look_at_two_roots(rt, tree);
}

#[test]
fn trees_of_few_nodes_have_no_parents(rt: HostRuntime) {
    look_for_parents(&rt, &mut new_tree(&rt, rt.alloc(), 0));
}

// The node at an index has this name, if any.
fn assert_got(rt: &impl Abort, tree: &Tree<Piece>, ix: TreeIndex, expected: Option<char>) {
    match tree.get(ix) {
        Some(node) => assert_same(rt, Some(node.item.name), expected),
        None => assert_same(rt, None, expected),
    }
}

fn get_of_two_trees(rt: &impl Abort, large: &mut Tree<Piece>, small: &Tree<Piece>)
    requires { length large.old.nodes ≡ 1 }
{
    let [first, _, _, last] = nest(rt, large);
    assert_got(rt, large, first, Some('A'));
    assert_got(rt, large, last, Some('D'));
    assert_got(rt, small, last, None);
}

#[test]
fn a_node_is_got_by_an_index_of_the_tree(rt: HostRuntime) {
    let small = new_tree(&rt, rt.alloc(), 1);
    get_of_two_trees(&rt, &mut new_tree(&rt, rt.alloc(), 5), &small);
}

fn remove_the_last(rt: &impl Abort, alloc: Global, tree: &mut Tree<Piece>) -> Result<(), AllocError>
    requires { (item : Piece) × (tree.old ≡ empty_tree item) }
{
    let a = tree.append(named('A'))?;
    tree.push()?;
    tree.append(named('B'))?;
    assert_link(rt, tree.remove_node(), Some(a));
    assert_link(rt, tree.cur(), Some(a));
    assert_same(rt, tree.spine_len(), 0);
    assert_forest(rt, alloc, tree, "A");
    Ok(())
}

#[test]
fn a_removed_node_is_gone(rt: HostRuntime) {
    let mut tree = new_tree(&rt, rt.alloc(), 2);
    made(&rt, remove_the_last(&rt, rt.alloc(), &mut tree));
}

fn set_links(rt: &impl Abort, tree: &mut Tree<Piece>) -> [TreeIndex; 4]
    requires { length tree.old.nodes ≡ 1 }
    ensures count { length tree.new.nodes ≡ 5 }
    ensures indices { result ≡ 1 ∷ 2 ∷ 3 ∷ 4 ∷ [] }
{
    let [a, b, c, d] = nest(rt, tree);
    tree.item_mut(c).name = 'E';
    tree.set_next(b, Some(d));
    tree.set_next(c, None);
    tree.set_child(d, Some(c));
    tree.set_child(b, None);
    [a, b, c, d]
}

fn assert_links(rt: &impl Abort, tree: &Tree<Piece>, indices: [TreeIndex; 4])
    requires count { length tree.now.nodes ≡ 5 }
    requires indices { indices ≡ 1 ∷ 2 ∷ 3 ∷ 4 ∷ [] }
{
    let [a, b, c, d] = indices;
    assert_link(rt, tree[a].child, Some(b));
    assert_link(rt, tree[b].next, Some(d));
    assert_link(rt, tree[b].child, None);
    assert_link(rt, tree[c].next, None);
    assert_same(rt, tree[c].item.name, 'E');
    assert_link(rt, tree[d].child, Some(c));
    assert_link(rt, tree.cur(), Some(d));
}

fn set_links_and_an_item(rt: &impl Abort, alloc: Global, tree: &mut Tree<Piece>)
    requires { length tree.old.nodes ≡ 1 }
{
    let indices = set_links(rt, tree);
    assert_links(rt, tree, indices);
    assert_forest(rt, alloc, tree, "A(BD(E))");
}

#[test]
fn links_and_items_are_set(rt: HostRuntime) {
    set_links_and_an_item(&rt, rt.alloc(), &mut new_tree(&rt, rt.alloc(), 5));
}

fn index_after(ix: TreeIndex) -> Option<TreeIndex> {
    if ix.get() < 100 { Some(ix + 1) } else { None }
}

fn index_before(ix: TreeIndex) -> Option<TreeIndex> {
    if ix.get() > 1 { Some(ix - 1) } else { None }
}

fn add_to_indices(rt: &impl Abort, tree: &mut Tree<Piece>)
    requires { length tree.old.nodes ≡ 1 }
{
    let [a, b, c, d] = nest(rt, tree);
    assert_same(rt, a.get(), 1);
    assert_same(rt, d.get(), 4);
    assert_link(rt, index_after(c), Some(d));
    assert_link(rt, index_before(b), Some(a));
    assert_link(rt, index_before(a), None);
    assert!(rt; a < b && c > b && c == c);
}

#[test]
fn indices_are_added_and_ordered(rt: HostRuntime) {
    add_to_indices(&rt, &mut new_tree(&rt, rt.alloc(), 5));
}

// Appends nodes of these names; those in brackets are the children of the node before.
fn grow(tree: &mut Tree<Piece>, names: &str) -> Result<(), AllocError> {
    for name in names.chars() {
        grow_by(tree, name)?;
    }
    Ok(())
}

fn grow_by(tree: &mut Tree<Piece>, name: char) -> Result<(), AllocError> {
    if name == ')' {
        tree.pop();
    } else if name != '(' {
        tree.append(named(name))?;
    } else if tree.cur().is_some() {
        tree.push()?;
    }
    Ok(())
}

fn assert_order(rt: &impl Abort, alloc: Global, tree: &Tree<Piece>, expected: &[(usize, usize)]) {
    assert_elements(rt, order(alloc, tree), expected);
}

const ORDER: &[(usize, usize)] = &[(1, 0), (2, 0), (3, 1), (4, 1), (5, 2), (6, 1), (7, 0)];

fn tell_in_order(rt: &impl Abort, alloc: Global, tree: &mut Tree<Piece>) {
    assert_order(rt, alloc, tree, &[]);
    made(rt, grow(tree, "A"));
    assert_order(rt, alloc, tree, &[(1, 0)]);
    made(rt, grow(tree, "B(CD(E)F)G"));
    assert_order(rt, alloc, tree, ORDER);
}

#[test]
fn nodes_are_printed_in_order(rt: HostRuntime) {
    tell_in_order(&rt, rt.alloc(), &mut new_tree(&rt, rt.alloc(), 4));
}

fn tell_what_is_linked(rt: &impl Abort, alloc: Global, tree: &mut Tree<Piece>)
    requires { length tree.old.nodes ≡ 1 }
{
    let [a, b, c, d] = nest(rt, tree);
    tree.set_child(b, Some(d));
    assert_order(rt, alloc, tree, &[(1, 0), (2, 1), (4, 2)]);
    assert_link(rt, tree.cur(), Some(d));
    assert_link(rt, tree.peek_up(), Some(b));
    tree.set_child(a, Some(c));
    tree.set_child(b, None);
    assert_order(rt, alloc, tree, &[(1, 0), (3, 1), (4, 1)]);
}

#[test]
fn nodes_that_no_link_leads_to_are_not_printed(rt: HostRuntime) {
    tell_what_is_linked(&rt, rt.alloc(), &mut new_tree(&rt, rt.alloc(), 5));
}

fn list_past_the_last_root(rt: &impl Abort, alloc: Global, tree: &mut Tree<Piece>) {
    made(rt, grow(tree, "A(B)C"));
    if let Some(c) = tree.cur() {
        assert_link(rt, tree.next_sibling(c), None);
    }
    assert_link(rt, tree.cur(), None);
    assert_same(rt, tree.spine_len(), 0);
    assert_order(rt, alloc, tree, &[(1, 0), (2, 1), (3, 0)]);
}

#[test]
fn nodes_are_listed_without_a_focus(rt: HostRuntime) {
    list_past_the_last_root(&rt, rt.alloc(), &mut new_tree(&rt, rt.alloc(), 4));
}

fn list_created_nodes(rt: &impl Abort, alloc: Global, tree: &mut Tree<Piece>) {
    made(rt, tree.create_node(named('A')));
    assert_link(rt, tree.cur(), None);
    assert_order(rt, alloc, tree, &[(1, 0)]);
    made(rt, tree.create_node(named('B')));
    assert_order(rt, alloc, tree, &[(1, 0)]);
}

#[test]
fn the_first_node_is_listed_though_nothing_was_appended(rt: HostRuntime) {
    list_created_nodes(&rt, rt.alloc(), &mut new_tree(&rt, rt.alloc(), 2));
}

fn count(alloc: Global, tree: &Tree<Piece>) -> Result<usize, AllocError> {
    Ok(order(alloc, tree)?.len())
}

fn tell_a_circle(rt: &impl Abort, alloc: Global, tree: &mut Tree<Piece>)
    requires { length tree.old.nodes ≡ 1 }
{
    let [a, _, _, d] = nest(rt, tree);
    tree.set_child(d, Some(a));
    assert_same(rt, made(rt, count(alloc, tree)), 5);
}

#[test]
fn a_circle_of_links_is_left(rt: HostRuntime) {
    tell_a_circle(&rt, rt.alloc(), &mut new_tree(&rt, rt.alloc(), 5));
}

// The calls that stand in traits, each through its bound.
fn copied<T: Clone>(value: &T) -> Result<T, AllocError> {
    value.clone()
}

fn name_at<I: Index<TreeIndex, Output = Node<Piece>>>(nodes: &I, ix: TreeIndex) -> char
    requires { I.can_index nodes.now ix }
{
    nodes[ix].item.name
}

fn change_beside_a_copy(
    rt: &impl Abort,
    alloc: Global,
    tree: &mut Tree<Piece>,
    copy: &mut Tree<Piece>,
    indices: [TreeIndex; 4],
)
    requires count { length tree.old.nodes ≡ 5 }
    requires indices { indices ≡ 1 ∷ 2 ∷ 3 ∷ 4 ∷ [] }
{
    let [a, b, c, d] = indices;
    assert_link(rt, copy.cur(), Some(d));
    assert_link(rt, copy.peek_up(), Some(b));
    assert_link(rt, copy.peek_grandparent(), Some(a));
    assert_forest(rt, alloc, copy, "A(B(CD))");
    assert_same(rt, name_at(&*tree, c), 'C');
    tree.set_child(a, None);
    assert_forest(rt, alloc, copy, "A(B(CD))");
}

fn copy_and_change(rt: &impl Abort, alloc: Global, tree: &mut Tree<Piece>)
    requires { length tree.old.nodes ≡ 1 }
{
    let indices = nest(rt, tree);
    let mut copy = made(rt, copied(&*tree));
    change_beside_a_copy(rt, alloc, tree, &mut copy, indices);
}

#[test]
fn a_copy_has_links_of_its_own(rt: HostRuntime) {
    copy_and_change(&rt, rt.alloc(), &mut new_tree(&rt, rt.alloc(), 5));
}
