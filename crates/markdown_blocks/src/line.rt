//! A line where containers are open.
ghost use Rattle.std.specs.Prelude.{◌≡◌, is_some, true, IfSome, IfNone, IsTrue};
ghost use Rattle.markdown_blocks.specs.containers.Containers.{asked_in, begun_at, match_line, rest_in, IsInside};

use crate::bullets::plain_bullet;
use crate::containers::{OpenContainers, go_on, scan_container};
use crate::rest::{Rest, scan_rest};
use crate::terms::asked_first;
use markdown_scanners_tree::line::LineStart;
use markdown_values::values::Extensions;
use std::marker::Model;

/// A line where containers are open. It is led past them once, whatever is asked of it then.
#[derive(Drop)]
pub(crate) struct Line<'a> {
    outer: &'a OpenContainers<'a>,
    bytes: &'a [u8],
    // How many of the open containers it goes on with.
    kept: usize,
    // What it has after the containers that it goes on with, and the offset after the space there.
    rest: Rest<'a>,
    after: LineStart<'a>,
}

impl<'a> Model for Line<'a> {
    ghost use Rattle.std.specs.Prelude.{◌≡◌, ◌≤◌, length};
    ghost use Rattle.markdown_scanners_tree.specs.line.State.{after_space};
    ghost use Rattle.markdown_blocks.specs.containers.Containers.{Line, match_line, rest_in};

    ghost Value = { Line };

    ghost view = { λ l. record { outer = l.outer.now; bytes = l.bytes.now } };

    ghost invariant = { λ l.
        (l.kept ≡ (match_line l.outer.now.containers l.bytes.now).kept)
        × (l.kept ≤ length l.outer.now.containers)
        × (l.rest ≡ rest_in l.outer.now.containers l.bytes.now)
        × (l.after ≡ after_space 4 (match_line l.outer.now.containers l.bytes.now).state)
        × (l.after.bytes ≡ l.bytes.now) };
}

impl<'a> Line<'a> {
    /// The line where these containers are open.
    #[inline(always)]
    pub(crate) fn new(bytes: &'a [u8], outer: &'a OpenContainers<'a>) -> Line<'a>
        ensures { result ≡ record { outer = outer.now; bytes = bytes.now } }
    {
        let (kept, mut start) = go_on(bytes, outer);
        let rest = scan_rest(bytes, &mut start);
        Line {
            outer,
            bytes,
            kept,
            rest,
            after: start,
        }
    }

    /// The open containers.
    pub(crate) fn outer(&self) -> &OpenContainers<'a>
        ensures { result.now ≡ self.now.outer }
    {
        self.outer
    }

    /// What it has after the containers, if it stands in all of them.
    pub(crate) fn rest_inside(&self) -> Option<&Rest<'a>>
        ensures rest { IfSome result (λ rest.
            rest.now ≡ rest_in self.now.outer.containers self.now.bytes) }
        ensures inside { IfSome result (λ _. IsInside self.now.outer.containers self.now.bytes) }
        ensures none { IfNone result (¬ IsInside self.now.outer.containers self.now.bytes) }
    {
        if self.kept == self.outer.count() {
            return Some(&self.rest);
        }
        None
    }

    /// What it has after the containers that it goes on with.
    pub(crate) fn rest(&self) -> &Rest<'a>
        ensures { result.now ≡ rest_in self.now.outer.containers self.now.bytes }
    {
        &self.rest
    }

    /// The extensions with which it may begin a container after those that it goes on with.
    pub(crate) fn asked(&self) -> Extensions
        ensures { result ≡ asked_in self.now.outer self.now.bytes }
    {
        let left = &self.outer.containers()[self.kept..];
        asked_first(self.outer.extensions(), false, left)
    }

    /// Whether it begins a container after those that it goes on with.
    pub(crate) fn begins_container(&self) -> bool
        ensures { result ≡ is_some (begun_at (asked_in self.now.outer self.now.bytes)
            (match_line self.now.outer.containers self.now.bytes).state) }
    {
        if self.begins_plain_item() {
            return true;
        }
        let rest = self.rest();
        let Ok(mut start) = self.after.clone() else {
            return false;
        };
        scan_container(self.bytes, &mut start, rest.indent, self.asked()).is_some()
    }

    // Whether it begins an item with a plain bullet, as most that begin a container do.
    fn begins_plain_item(&self) -> bool
        ensures { IsTrue result → is_some (begun_at (asked_in self.now.outer self.now.bytes)
            (match_line self.now.outer.containers self.now.bytes).state) ≡ true }
    {
        let rest = self.rest();
        if rest.indent == 4 || self.after.remaining_space() > 0 {
            return false;
        }
        plain_bullet(rest.text).is_some()
    }
}
