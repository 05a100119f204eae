//! Tests of cursors by `replay`, by the calls themselves, and of `same_program` and `first_parting`, most of them tables of cases. Each
//! expected value follows from the rules in docs/RULES.md, and none from our own output.

#![tactic(auto)]

#[cfg(test)]
mod edits;
#[cfg(test)]
mod kinds;
#[cfg(test)]
mod moves;
#[cfg(test)]
mod partings;
#[cfg(test)]
mod plain;
#[cfg(test)]
mod refusals;
#[cfg(test)]
mod runs;
#[cfg(test)]
mod same;
