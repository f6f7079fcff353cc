//! Tests of the uses of the library, and of calls that no program makes: the rows of the others are data, in `tests/rows` and `packages`.
#![tactic(auto)]

#[cfg(test)]
mod asserts;
#[cfg(test)]
mod events;
#[cfg(test)]
mod inlines;
#[cfg(test)]
mod memory;
#[cfg(test)]
mod uses;
