//! Calls of the scanners by cases, a line each, and whether the library answers them as the cases
//! say.
#![tactic(auto)]

mod arguments;
mod calls;
mod entities;
mod printing;
pub mod replay;
mod skips;
mod stop;
