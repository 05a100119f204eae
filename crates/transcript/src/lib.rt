//! The transcript of a script: what its replay prints.

#![tactic(auto)]

mod carry;
mod rows;

pub use carry::{carry_out, play};
pub use rows::{walk, walk_back};
