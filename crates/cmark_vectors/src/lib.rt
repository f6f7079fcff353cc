//! Worked rows of both libraries, hostile texts, and derives by their bounds, all run through public
//! calls. The rows of the scanners are `worked`, which the calls of `tests_cases` read.
#![tactic(auto)]

#[cfg(test)]
mod asserts;
#[cfg(test)]
mod bounds;
#[cfg(test)]
mod derives;
#[cfg(test)]
mod inline_html;
#[cfg(test)]
mod kept;
#[cfg(test)]
mod line;
#[cfg(test)]
mod linklabel;
pub mod pieces;
#[cfg(test)]
mod scanners;
#[cfg(test)]
mod strings;
#[cfg(test)]
mod texts;
#[cfg(test)]
mod tree;
#[cfg(test)]
mod values;
#[cfg(test)]
mod worked;
