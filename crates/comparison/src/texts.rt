//! The texts of two scripts compared.

ghost use Rattle.std.specs.Prelude.{◌≡◌, Some};
ghost use Rattle.comparison.specs.declared.texts.CompareFault.TheVariants.{OutOfMemory};
ghost use Rattle.comparison.specs.Scripts.{ScriptsTold};
ghost use Rattle.comparison.specs.Text.{compare_fault_text};

use crate::{Comparison, compare};
use script::ScriptFault;
use std::alloc::{AllocError, Global};
use std::error::Error;
use std::fmt;

/// Why two texts are not compared.
#[derive(Clone, Copy, PartialEq, Eq, Debug)]
pub enum CompareFault {
    /// A line of the first is wrong.
    First(ScriptFault),
    /// A line of the second is wrong.
    Second(ScriptFault),
    /// There was no memory left.
    OutOfMemory,
}

// Reads two scripts whole, and tells how the programs compare that they reach.
pub(crate) fn compare_texts(
    alloc: Global,
    first: &str,
    second: &str,
) -> Result<Comparison, CompareFault>
    ensures { ScriptsTold first.now second.now result }
{
    let first = script::parse(alloc, first).map_err(CompareFault::First)?;
    let second = script::parse(alloc, second).map_err(CompareFault::Second)?;
    let compared = compare(alloc, &first.commands, &second.commands)?;
    // a script makes every cursor that it calls
    Ok(compared.unwrap())
}

impl From<AllocError> for CompareFault {
    ghost from_gives = { λ _ f. f ≡ OutOfMemory };

    fn from(_error: AllocError) -> CompareFault {
        Self::OutOfMemory
    }
}

impl fmt::Display for CompareFault {
    ghost output = { λ f. Some (compare_fault_text f) };

    fn fmt<W: fmt::Write>(&self, f: &mut fmt::Formatter<W>) -> fmt::Result {
        match *self {
            CompareFault::First(fault) => write!(f, "the first script: {fault}"),
            CompareFault::Second(fault) => write!(f, "the second script: {fault}"),
            CompareFault::OutOfMemory => f.write_str("out of memory"),
        }
    }
}

impl Error for CompareFault {}
