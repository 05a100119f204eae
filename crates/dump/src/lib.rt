//! Dumps: the text of two node tables and two ends, so that the tables of one controller can be printed and judged on another.

#![tactic(auto)]

mod lines;
mod printed;
mod texts;

pub use lines::Line;
pub use printed::DumpRef;
pub use texts::{Dump, DumpFault, What, read};
