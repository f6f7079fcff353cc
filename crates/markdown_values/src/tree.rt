//! A tree of linked nodes, built in the order of its text, one node at a time.
ghost use Rattle.std.specs.Prelude.{◌≡◌, ◌+◌, ◌-◌, ◌<◌, IfOk, OnErr, IsTrue, ◌↔◌, length, Some, None, ◌^◌, IsSome, IfSome, All, IfNone, ◌≤◌};
ghost use Rattle.std.specs.Borrow.{sem};
ghost use Rattle.std.specs.Slice.Iter.{iter_rest};

mod order;
mod truncate;

use std::alloc::{AllocError, Global};
use std::marker::Model;
use std::ops::{Add, Index, Sub};
pub use truncate::SpanItem;

/// The index of a node of a `Tree` other than the dummy, so at least 1.
#[derive(Clone, Copy, Debug, PartialEq, Eq, PartialOrd)]
pub struct TreeIndex {
    value: usize,
}

impl Model for TreeIndex {
    ghost use Rattle.std.specs.Prelude.{ℕ, ◌<◌};

    ghost Value = { ℕ };

    ghost view = { λ a. a.value };

    ghost invariant = { λ a. 0 < a.value };

    ghost inverse = { λ n. record { value = n } };
}

impl TreeIndex {
    /// The index as a number.
    pub fn get(self) -> usize
        ensures value { result ≡ self }
        ensures positive { 0 < result }
    {
        self.value
    }
}

impl Add<usize> for TreeIndex {
    type Output = TreeIndex;

    ghost can_add = { λ ix n. ix + n < 2 ^ 64 };

    ghost add_gives = { λ ix n r. r ≡ ix + n };

    fn add(self, rhs: usize) -> TreeIndex {
        TreeIndex {
            value: self.get() + rhs,
        }
    }
}

impl Sub<usize> for TreeIndex {
    type Output = TreeIndex;

    ghost can_sub = { λ ix n. n < ix };

    ghost sub_gives = { λ ix n r. r ≡ ix - n };

    fn sub(self, rhs: usize) -> TreeIndex {
        TreeIndex {
            value: self.get() - rhs,
        }
    }
}

/// An item with the links of its node.
#[derive(Drop)]
pub struct Node<T> {
    /// The first child.
    pub child: Option<TreeIndex>,
    /// The sibling that follows.
    pub next: Option<TreeIndex>,
    /// What the node holds.
    pub item: T,
}

/// An ordered forest of linked nodes, which is built from a focus.
///
/// The nodes lie in one `Vec`, in the order in which they were made, after a dummy at index 0. A
/// node stays where it is when it is cut off, and is then reached by its index alone. The spine is
/// the path from a root down to the parent of the focus. Calls that may want memory use the
/// allocator that `with_capacity` was given.
#[derive(Drop)]
pub struct Tree<T> {
    nodes: Vec<Node<T>>,
    spine: Vec<TreeIndex>,
    focus: Option<TreeIndex>,
}

impl<T> Model for Tree<T> {
    ghost use Rattle.markdown_values.specs.tree.Linked.{Linked, linked_code};
    ghost use Rattle.markdown_values.specs.tree.Tree.{IsWithin};

    ghost Value = { Linked T };

    ghost coded = { linked_code T.code };

    ghost view = { λ t. record {
      nodes = t.nodes.items;
      spine = t.spine.items;
      focus = t.focus;
    } };

    ghost invariant = { λ t. IsWithin t.nodes.items t.spine.items t.focus };
}

impl<T: Drop> Tree<T> {
    ghost use Rattle.markdown_values.specs.tree.Tree.{empty_tree, with_node, after_append, last, but_last, first_root, IsLinkWithin};
    ghost use Rattle.markdown_values.specs.tree.Tree.{IsNodeAt, with_next, with_child, with_item, linked_from_focus, after_push, after_pop};
    ghost use Rattle.markdown_values.specs.tree.Tree.{removed, IsLastLinkedFromAlone, after_reset, next_of, truncated_to_parent};
    ghost use Rattle.markdown_values.specs.tree.Lends.{lends_item, item_of};
    ghost use Rattle.markdown_values.specs.tree.Forest as forest;
    ghost use Rattle.markdown_values.specs.tree.Forest.{Focused, StandsFor, IsRoot, siblings};

    /// A tree of the dummy alone. Room for `cap` nodes is asked for at once.
    ///
    /// # Errors
    ///
    /// `AllocError` where that room is refused.
    pub fn with_capacity(alloc: Global, cap: usize) -> Result<Tree<T>, AllocError>
    where
        T: Default,
        ensures nodes { IfOk result (λ t. (item : T) × T.is_default item × (t ≡ empty_tree item)) }
        ensures count { IfOk result (λ t. length t.nodes ≡ 1) }
        ensures forest { IfOk result (λ t. StandsFor t forest.empty_forest) }
    {
        let mut nodes = Vec::with_capacity(alloc, cap)?;
        nodes.push(Node {
            child: None,
            next: None,
            item: T::default(),
        })?;
        Ok(Tree {
            nodes,
            spine: Vec::new(alloc),
            focus: None,
        })
    }

    /// The focus: the node after which the next one goes.
    pub fn cur(&self) -> Option<TreeIndex>
        ensures focus { result ≡ self.now.focus }
        ensures within { IsLinkWithin (length self.now.nodes) result }
    {
        // None: the next node becomes the only child of the parent.
        self.focus
    }

    /// The node at this index, or None where the index is of no node of the tree: what `Index`
    /// answers, without a condition on the caller.
    pub fn get(&self, ix: TreeIndex) -> Option<&Node<T>>
        ensures node { IfSome result (λ node. IsNodeAt self.now ix node.now) }
        ensures none { IfNone result (length self.now.nodes ≤ ix) }
    {
        if ix.get() < self.nodes.len() {
            Some(&self[ix])
        } else {
            None
        }
    }

    /// Makes a node that no link leads to.
    ///
    /// # Errors
    ///
    /// `AllocError` where memory for the node is refused: the item is dropped, and the tree is as
    /// it was.
    pub fn create_node(&mut self, item: T) -> Result<TreeIndex, AllocError>
        ensures index { IfOk result (λ ix. ix ≡ length self.old.nodes) }
        ensures within { IfOk result (λ ix. ix < length self.new.nodes) }
        ensures count { IfOk result (λ _. length self.new.nodes ≡ length self.old.nodes + 1) }
        ensures ok { IfOk result (λ _. self.new ≡ with_node self.old item) }
        ensures err { OnErr result (self.new ≡ self.old) }
    {
        let value = self.nodes.len();
        self.nodes.push(Node {
            child: None,
            next: None,
            item,
        })?;
        Ok(TreeIndex { value })
    }

    /// Links a new node after the focus, or with no focus as the only child of the parent, and
    /// moves the focus to it. What followed there is cut off. With neither focus nor parent nothing
    /// is linked.
    ///
    /// # Errors
    ///
    /// `AllocError` where memory for the node is refused: the item is dropped, and the tree is as
    /// it was.
    pub fn append(&mut self, item: T) -> Result<TreeIndex, AllocError>
        ensures index { IfOk result (λ ix. ix ≡ length self.old.nodes) }
        ensures within { IfOk result (λ ix. ix < length self.new.nodes) }
        ensures count { IfOk result (λ _. length self.new.nodes ≡ length self.old.nodes + 1) }

        ensures ok { IfOk result (λ _. self.new ≡ after_append self.old item) }
        ensures err { OnErr result (self.new ≡ self.old) }

        // The same, by the forest that the tree stands for.
        ensures forest { IfOk result (λ ix. (f : Focused) → StandsFor self.old f
            → StandsFor self.new (forest.appended f ix)) }
    {
        let ix = self.create_node(item)?;
        self.link_from_focus(Some(ix));
        self.focus = Some(ix);
        Ok(ix)
    }

    // Gives the focus this next link, or with no focus the parent this child link.
    fn link_from_focus(&mut self, link: Option<TreeIndex>)
        requires { IsLinkWithin (length self.old.nodes) link }
        ensures state { self.new ≡ record self.old {
          nodes = linked_from_focus self.old.nodes self.old.focus self.old.spine link;
        } }
        ensures count { length self.new.nodes ≡ length self.old.nodes }
    {
        if let Some(focus) = self.focus {
            self.set_next(focus, link);
        } else if let Some(parent) = self.peek_up() {
            self.set_child(parent, link);
        }
    }

    // Moves the focus.
    fn focus_on(&mut self, focus: Option<TreeIndex>)
        requires { IsLinkWithin (length self.old.nodes) focus }
        ensures { self.new ≡ record self.old { focus = focus } }
    {
        self.focus = focus;
    }

    /// Puts the focus on the spine, and moves the focus to its first child, or to none.
    /// It answers the node that it put on the spine. There has to be a focus.
    ///
    /// # Errors
    ///
    /// `AllocError` where memory for the spine is refused: the tree is as it was.
    pub fn push(&mut self) -> Result<TreeIndex, AllocError>
        requires { IsSome self.old.focus }
        ensures index { IfOk result (λ ix. self.old.focus ≡ Some ix) }
        ensures within { IfOk result (λ ix. ix < length self.new.nodes) }
        ensures count { length self.new.nodes ≡ length self.old.nodes }

        ensures ok { IfOk result (λ ix. self.new ≡ after_push self.old ix) }
        ensures err { OnErr result (self.new ≡ self.old) }

        // The same, by the forest that the tree stands for.
        ensures forest { IfOk result (λ ix. (f : Focused) → StandsFor self.old f
            → StandsFor self.new (forest.pushed f ix)) }
    {
        let ix = self.focus.unwrap();
        self.spine.push(ix)?;
        self.focus = self.nodes[ix.get()].child;
        Ok(ix)
    }

    /// Takes the parent off the spine, and moves the focus to it. On an empty spine nothing
    /// changes.
    pub fn pop(&mut self) -> Option<TreeIndex>
        ensures parent { result ≡ last self.old.spine }
        ensures within { IsLinkWithin (length self.new.nodes) result }
        ensures count { length self.new.nodes ≡ length self.old.nodes }
        ensures state { self.new ≡ after_pop self.old }
        ensures forest { (f : Focused) → StandsFor self.old f
            → StandsFor self.new (forest.popped f) }
    {
        let popped = self.spine.pop()?;
        self.focus = Some(popped);
        Some(popped)
    }

    /// As `pop`, and drops the node that was made last and the parent's child link.
    pub fn remove_node(&mut self) -> Option<TreeIndex>
        requires { IfSome (last self.old.spine) (IsLastLinkedFromAlone self.old) }
        ensures parent { result ≡ last self.old.spine }
        ensures within { IsLinkWithin (length self.new.nodes) result }
        ensures count { IfSome result (λ _. length self.new.nodes + 1 ≡ length self.old.nodes) }
        ensures state { self.new ≡ removed self.old }
    {
        let parent = self.spine.pop()?;
        self.focus = Some(parent);
        self.nodes.pop();
        self.nodes[parent.get()].child = None;
        Some(parent)
    }

    /// The parent: the last of the spine.
    pub fn peek_up(&self) -> Option<TreeIndex>
        ensures parent { result ≡ last self.now.spine }
        ensures within { IsLinkWithin (length self.now.nodes) result }
    {
        self.spine.last().copied()
    }

    /// The parent's parent: the last but one of the spine.
    pub fn peek_grandparent(&self) -> Option<TreeIndex>
        ensures grandparent { result ≡ last (but_last self.now.spine) }
        ensures within { IsLinkWithin (length self.now.nodes) result }
    {
        let count = self.spine_len();
        if count >= 2 {
            Some(self.spine[count - 2])
        } else {
            None
        }
    }

    /// Whether there is no node but the dummy.
    pub fn is_empty(&self) -> bool
        ensures { IsTrue result ↔ (length self.now.nodes ≡ 1) }
    {
        self.nodes.len() <= 1
    }

    /// How many nodes the spine has.
    pub fn spine_len(&self) -> usize
        ensures { result ≡ length self.now.spine }
    {
        self.spine.len()
    }

    /// Moves the focus to the first node, if there is one, and empties the spine.
    pub fn reset(&mut self)
        ensures count { length self.new.nodes ≡ length self.old.nodes }
        ensures state { self.new ≡ after_reset self.old }
        ensures forest { (f : Focused) → StandsFor self.old f
            → StandsFor self.new (forest.reset_of f) }
    {
        self.focus = self.first_root();
        self.spine.clear();
    }

    // The first node after the dummy, if there is one.
    fn first_root(&self) -> Option<TreeIndex>
        ensures root { result ≡ first_root self.now.nodes }
        ensures within { IsLinkWithin (length self.now.nodes) result }
    {
        if self.nodes.len() > 1 {
            Some(TreeIndex { value: 1 })
        } else {
            None
        }
    }

    /// The nodes of the spine, from the root.
    pub fn walk_spine(&self) -> std::slice::Iter<'_, TreeIndex>
        ensures nodes { iter_rest result ≡ self.now.spine }
        ensures within { All (λ ix. ix < length self.now.nodes) (iter_rest result) }
    {
        self.spine.iter()
    }

    /// Moves the focus to the next sibling of `ix`, or to none.
    pub fn next_sibling(&mut self, ix: TreeIndex) -> Option<TreeIndex>
        requires { ix < length self.old.nodes }
        ensures sibling { result ≡ next_of self.old.nodes ix }
        ensures within { IsLinkWithin (length self.new.nodes) result }
        ensures count { length self.new.nodes ≡ length self.old.nodes }
        ensures state { self.new ≡ record self.old { focus = next_of self.old.nodes ix } }

        // The same, by the forest that the tree stands for, unless no root is left to be in focus.
        ensures forest { (f : Focused) → StandsFor self.old f → IsRoot ix (siblings f)
            → forest.KeepsFocus (forest.moved_after f ix)
            → StandsFor self.new (forest.moved_after f ix) }
    {
        self.focus = self.nodes[ix.get()].next;
        self.focus
    }

    /// Takes the next link of `ix`, and gives it to the focus, or with no focus to the parent as
    /// its child. Where it leads to a node, the focus moves to that node.
    pub fn truncate_to_parent(&mut self, ix: TreeIndex)
        requires { ix < length self.old.nodes }
        ensures count { length self.new.nodes ≡ length self.old.nodes }
        ensures state { self.new ≡ truncated_to_parent self.old ix }
    {
        let next = self.nodes[ix.get()].next;
        self.set_next(ix, None);
        self.link_from_focus(next);
        if next.is_some() {
            self.focus_on(next);
        }
    }

    /// The item of a node, to be written.
    pub fn item_mut(&mut self, ix: TreeIndex) -> &mut T
        requires { ix < length self.old.nodes }
        ensures* writes_back { sem 𝓛 (lends_item T.row self.entry ix result) }
        ensures value { item_of self.old.nodes ix ≡ Some result.now }
        // Whatever is written, there are as many nodes as before.
        ensures count { (item : T)
            → length (with_item self.old.nodes ix item) ≡ length self.old.nodes }
    {
        &mut self.nodes[ix.get()].item
    }

    /// Gives a node this next link.
    pub fn set_next(&mut self, ix: TreeIndex, link: Option<TreeIndex>)
        requires index { ix < length self.old.nodes }
        requires link { IsLinkWithin (length self.old.nodes) link }
        ensures state { self.new ≡ record self.old { nodes = with_next self.old.nodes ix link } }
        ensures count { length self.new.nodes ≡ length self.old.nodes }
    {
        self.nodes[ix.get()].next = link;
    }

    /// Gives a node this child link.
    pub fn set_child(&mut self, ix: TreeIndex, link: Option<TreeIndex>)
        requires index { ix < length self.old.nodes }
        requires link { IsLinkWithin (length self.old.nodes) link }
        ensures state { self.new ≡ record self.old { nodes = with_child self.old.nodes ix link } }
        ensures count { length self.new.nodes ≡ length self.old.nodes }
    {
        self.nodes[ix.get()].child = link;
    }
}

impl<T> Index<TreeIndex> for Tree<T> {
    ghost use Rattle.markdown_values.specs.tree.Tree.{IsNodeAt};

    type Output = Node<T>;

    ghost can_index = { λ t ix. ix < length t.nodes };

    ghost index_gives = { IsNodeAt };

    fn index(&self, ix: TreeIndex) -> &Node<T> {
        &self.nodes[ix.get()]
    }
}

impl<T: Clone> Clone for Tree<T> {
    ghost use Rattle.markdown_values.specs.tree.Tree.{IsTreeClone};

    ghost is_clone = { IsTreeClone T.is_clone };

    fn clone(&self) -> Result<Tree<T>, AllocError> {
        let mut nodes = Vec::with_capacity(*self.nodes.allocator(), self.nodes.len())?;
        for node in &self.nodes {
            nodes.push(Node {
                child: node.child,
                next: node.next,
                item: node.item.clone()?,
            })?;
        }
        Ok(Tree {
            nodes,
            spine: self.spine.clone()?,
            focus: self.focus,
        })
    }
}
