//! Each call of the libraries after a C function, for `bench/run`.
//!
//! A function runs one call at many offsets of a text, so many rounds, and answers a sum that is
//! made of all of the call's answers. The same loops stand around pulldown-cmark's calls in
//! `bench/reference`, so both sums must be equal.
#![tactic(auto)]

ghost use Rattle.std.specs.Prelude.{◌≡◌};

mod blocks;
mod html;
mod inline;
mod inlines;
mod labels;
mod lines;
mod loops;
mod pages;
mod small_trees;
mod texts;
mod trees;
mod values;
