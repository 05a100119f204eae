//! How the programs compare that two scripts reach.

#![tactic(auto)]

ghost use Rattle.std.specs.Prelude.{IfOk, Some, IsTrue, ◌≡◌, ◌↔◌, None};
ghost use Rattle.comparison.specs.Compared.{Compares};
ghost use Rattle.comparison.specs.Scripts.{ScriptsTold};
ghost use Rattle.comparison.specs.Text.{comparison_text, place_text};

use entities::progpoint::ProgramPoint;
use faults::Entity;
use parting::Parting;
use script::Command;
use std::alloc::{AllocError, Global};
use std::fmt;

mod ranking;
mod reach;
mod seqs;
mod texts;

pub use ranking::{Tie, Ties, rank_all, rank_pair};
pub use reach::reached;
pub use seqs::{Differences, Numbers, compare_numbers};
pub use texts::CompareFault;

/// How two programs compare: where their walks first part; none where they are the same.
#[derive(Clone, Copy, PartialEq, Eq)]
pub struct Comparison(pub Option<Parting>);

impl Comparison {
    /// How the programs compare that two scripts reach, which are read whole.
    pub fn of_scripts(alloc: Global, first: &str, second: &str) -> Result<Comparison, CompareFault>
        ensures { ScriptsTold first.now second.now result }
    {
        texts::compare_texts(alloc, first, second)
    }

    /// Is it the same program?
    pub fn is_same(&self) -> bool
        ensures { IsTrue result ↔ (self.now.0 ≡ None) }
    {
        self.0.is_none()
    }
}

/// How the programs compare that two scripts' commands reach; none where a cursor is called that no command makes.
pub fn compare(
    alloc: Global,
    first: &[Command],
    second: &[Command],
) -> Result<Option<Comparison>, AllocError>
    ensures { IfOk result (Compares first.now second.now) }
{
    let Some(first) = reached(alloc, first)? else {
        return Ok(None);
    };
    let Some(second) = reached(alloc, second)? else {
        return Ok(None);
    };
    Ok(Some(Comparison(parting::first_parting(&first, &second))))
}

impl fmt::Display for Comparison {
    ghost output = { λ c. Some (comparison_text c.0) };

    fn fmt<W: fmt::Write>(&self, f: &mut fmt::Formatter<W>) -> fmt::Result {
        match self.0 {
            None => f.write_str("the same program"),
            Some(parting) => write!(
                f,
                "not the same program: the walks part at {} in the first and {} in the second",
                Place(parting.first),
                Place(parting.second)
            ),
        }
    }
}

// A place in a walk: what stands there, if the walk is not over.
#[derive(Clone, Copy)]
struct Place(Option<ProgramPoint>);

impl fmt::Display for Place {
    ghost output = { λ p. Some (place_text p.0) };

    fn fmt<W: fmt::Write>(&self, f: &mut fmt::Formatter<W>) -> fmt::Result {
        match self.0 {
            Some(point) => Entity::from(point).fmt(f),
            None => f.write_str("the end"),
        }
    }
}
