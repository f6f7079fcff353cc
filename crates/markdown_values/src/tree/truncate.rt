//! Children that are cut where the text of their parent ends.
ghost use Rattle.std.specs.Prelude.{◌≡◌, ◌<◌, length, slice_get, Some, None, IsSome, IfSome};

use crate::tree::{Tree, TreeIndex};

/// An item that covers a range of the text, in bytes, for `truncate_siblings`.
pub trait SpanItem {
    ghost use Rattle.std.specs.Prelude.{ℕ};
    ghost use Rattle.markdown_values.specs.tree.Truncate.{Span};

    ghost span: { Self → Span };

    ghost with_range: { Self → ℕ → ℕ → Self };

    /// The offset of the range's first byte.
    fn start(&self) -> usize
        ensures { result ≡ (span self.now).start };

    /// The offset after the range's last byte.
    fn end(&self) -> usize
        ensures { result ≡ (span self.now).end };

    /// Sets both ends of the range.
    fn set_range(&mut self, start: usize, end: usize)
        ensures { self.new ≡ with_range self.old start end };

    /// Whether a backslash before the range escapes its first byte.
    fn backslash_escaped(&self) -> bool
        ensures { result ≡ (span self.now).escaped };

    // Both ends are set, and the bit is left.
    ghost sets_range: { (item : Self) (start end : ℕ)
        → span (with_range item start end) ≡ record (span item) { start = start; end = end } };
}

impl<T: SpanItem + Drop> Tree<T> {
    ghost use Rattle.markdown_values.specs.tree.Tree.{last, child_of, with_item, IsLinkWithin};
    ghost use Rattle.markdown_values.specs.tree.Truncate.{CanCut, CanTruncate, AllEndBefore, CutsFirstOther, cut_tree, dropped_after};
    ghost use Rattle.markdown_values.specs.tree.Truncate.{first_sibling, HasChildren, HasSiblings, truncated, truncated_focus, FindsOther};

    /// Cuts the children of the parent where its text now ends, at the byte `end`, and moves the
    /// focus to the last child that is left of those up to there.
    ///
    /// Children that end before `end` stay. The first other child becomes the last where it ends
    /// there; is dropped, with those after it, where it starts there; and else ends there and
    /// becomes the last. One that starts there after a backslash becomes the backslash instead,
    /// and those after it stay. Where there is no other child, nothing changes.
    pub fn truncate_siblings(&mut self, end: usize)
        requires parent { IsSome (last self.old.spine) }
        requires range { CanTruncate T.span end self.old }
        ensures count { length self.new.nodes ≡ length self.old.nodes }
        ensures spine { self.new.spine ≡ self.old.spine }

        // Where every child ends before `end`, nothing changes.
        ensures kept { (children : _)
            → AllEndBefore T.span end self.old.nodes (first_sibling self.old) children
            → self.new ≡ self.old }
        // Else the first other child is cut after those that are kept.
        ensures cut { CutsFirstOther T.span T.with_range end self.old self.new }

        // The same, by the ranges of the children.
        ensures children { (spans : _) → HasSiblings T.span self.old spans
            → HasSiblings T.span self.new (truncated end spans) }
        ensures focus { (spans : _) → HasSiblings T.span self.old spans
            → self.new.focus ≡ truncated_focus end self.old.focus None spans }
    {
        let parent = self.peek_up().unwrap();
        let (previous, other) = self.first_other(parent, end);
        if let Some(ix) = other {
            self.cut_child(parent, previous, ix, end);
        }
    }

    // The first child that does not end before `end`, after the child before it.
    fn first_other(&self, parent: TreeIndex, end: usize) -> (Option<TreeIndex>, Option<TreeIndex>)
        requires parent { parent < length self.now.nodes }
        requires children { (spans : _) × HasChildren T.span self.now parent spans }
        ensures { FindsOther T.span end self.now.nodes (child_of self.now.nodes parent)
            result.0 result.1 }
    {
        let mut previous: Option<TreeIndex> = None;
        let mut next = self[parent].child;
        while let Some(ix) = next {
            let node = &self[ix];
            if node.item.end() >= end {
                return (previous, next);
            }
            previous = next;
            next = node.next;
        }
        (previous, None)
    }

    // Cuts the child `ix`, which is the first that does not end before `end`.
    fn cut_child(
        &mut self,
        parent: TreeIndex,
        previous: Option<TreeIndex>,
        ix: TreeIndex,
        end: usize,
    )
        requires parent { parent < length self.old.nodes }
        requires previous { IsLinkWithin (length self.old.nodes) previous }
        requires range { IfSome (slice_get self.old.nodes ix) (λ node.
            CanCut end (T.span node.item)) }
        requires index { ix < length self.old.nodes }
        ensures count { length self.new.nodes ≡ length self.old.nodes }
        ensures state { IfSome (slice_get self.old.nodes ix) (λ node. self.new
            ≡ cut_tree T.span T.with_range end (Some parent) previous (ix, node) self.old) }
    {
        let item = &self[ix].item;
        let start = item.start();
        let old_end = item.end();
        let escaped = item.backslash_escaped();
        if old_end == end {
            self.set_next(ix, None);
            self.focus_on(Some(ix));
        } else if start == end {
            if escaped {
                self.set_item_range(ix, end - 1, end);
                self.focus_on(Some(ix));
            } else {
                self.drop_after(parent, previous);
            }
        } else {
            self.set_item_range(ix, start, end);
            self.set_next(ix, None);
            self.focus_on(Some(ix));
        }
    }

    // Makes `previous` the last child, or with none leaves the parent no child, and moves the focus
    // to it.
    fn drop_after(&mut self, parent: TreeIndex, previous: Option<TreeIndex>)
        requires parent { parent < length self.old.nodes }
        requires previous { IsLinkWithin (length self.old.nodes) previous }
        ensures count { length self.new.nodes ≡ length self.old.nodes }
        ensures state { self.new ≡ dropped_after self.old (Some parent) previous }
    {
        match previous {
            Some(ix) => self.set_next(ix, None),
            None => self.set_child(parent, None),
        }
        self.focus_on(previous);
    }

    // Gives the item of a node this range.
    fn set_item_range(&mut self, ix: TreeIndex, start: usize, end: usize)
        requires { ix < length self.old.nodes }
        ensures state { IfSome (slice_get self.old.nodes ix) (λ node. self.new ≡ record self.old {
          nodes = with_item self.old.nodes ix (T.with_range node.item start end);
        }) }
        ensures count { length self.new.nodes ≡ length self.old.nodes }
    {
        self.item_mut(ix).set_range(start, end);
    }
}
