//! How each instruction of a block ranks against those behind it, in each of two layouts.

ghost use Rattle.std.specs.Prelude.{◌≡◌, ◌++◌, map, IfOk, OnOk, Some};
ghost use Rattle.faults.specs.Refusals.{told};
ghost use Rattle.layout.specs.Program.{program};
ghost use Rattle.comparison.specs.Ranking.{ranks, ranks_of, ranks_among, all_ranks};
ghost use Rattle.comparison.specs.Text.{order_told_text, ranks_lines, ranks_text};

use crate::seqs::walk_block;
use calls::CallFault;
use entities::Inst;
use faults::{Entity, LayoutFault};
use layout::Layout;
use script::Printed;
use std::alloc::{AllocError, Global};
use std::cmp::Ordering;
use std::fmt;

/// How an instruction ranks against another in each of two layouts.
#[derive(Clone, Copy)]
pub struct Tie {
    pub inst: Inst,
    pub other: Inst,
    pub first: Result<Ordering, LayoutFault>,
    pub second: Result<Ordering, LayoutFault>,
}

/// How instructions rank against each other in each of two layouts.
#[derive(Drop)]
pub struct Ties(pub Vec<Tie>);

/// How an instruction ranks against another in each of two layouts.
pub fn rank_pair(first: &Layout, second: &Layout, inst: Inst, other: Inst) -> Tie
    ensures { ranks_of result ≡ ranks (program first.now) (program second.now) inst other }
{
    Tie {
        inst,
        other,
        first: first.pp_cmp(inst.into(), other.into()),
        second: second.pp_cmp(inst.into(), other.into()),
    }
}

/// How each instruction of each block of the first layout ranks against those behind it in the block, in each of two layouts.
pub fn rank_all(alloc: Global, first: &Layout, second: &Layout) -> Result<Ties, AllocError>
    ensures { IfOk result (λ t. map ranks_of t.0.items ≡ all_ranks (program first.now) (program second.now)) }
{
    Ok(Ties(all_ties(alloc, first, second)?))
}

// The same, block by block.
fn all_ties(alloc: Global, first: &Layout, second: &Layout) -> Result<Vec<Tie>, AllocError>
    ensures { IfOk result (λ v. map ranks_of v.items ≡ all_ranks (program first.now) (program second.now)) }
{
    let mut ties = Vec::new(alloc);
    for block in first.blocks() {
        let mut insts = Vec::new(alloc);
        walk_block(first, block, &mut insts)?;
        add_ties_among(first, second, &insts, &mut ties)?;
    }
    Ok(ties)
}

// Adds how each instruction ranks against those behind it.
fn add_ties_among(
    first: &Layout,
    second: &Layout,
    insts: &[Inst],
    ties: &mut Vec<Tie>,
) -> Result<(), AllocError>
    ensures { OnOk result (map ranks_of ties.new.items ≡ map ranks_of ties.old.items ++ ranks_among (program first.now) (program second.now) insts.now) }
{
    let mut rest = insts;
    while let [inst, behind @ ..] = rest {
        add_ties(first, second, *inst, behind, ties)?;
        rest = behind;
    }
    Ok(())
}

// Adds how an instruction ranks against each of those behind it.
fn add_ties(
    first: &Layout,
    second: &Layout,
    inst: Inst,
    behind: &[Inst],
    ties: &mut Vec<Tie>,
) -> Result<(), AllocError>
    ensures { OnOk result (map ranks_of ties.new.items ≡ map ranks_of ties.old.items ++ map (ranks (program first.now) (program second.now) inst) behind.now) }
{
    for other in behind {
        ties.push(rank_pair(first, second, inst, *other))?;
    }
    Ok(())
}

impl fmt::Display for Tie {
    ghost output = { λ t. Some (ranks_text (ranks_of t)) };

    fn fmt<W: fmt::Write>(&self, f: &mut fmt::Formatter<W>) -> fmt::Result {
        let inst = Entity::Inst(self.inst);
        let other = Entity::Inst(self.other);
        let first = Rank(self.first);
        let second = Rank(self.second);
        write!(
            f,
            "{inst} to {other}: {first} in the first, {second} in the second"
        )
    }
}

// How two instructions rank, or why they do not.
#[derive(Clone, Copy)]
struct Rank(Result<Ordering, LayoutFault>);

impl fmt::Display for Rank {
    ghost output = { λ r. Some (order_told_text (told r.0)) };

    fn fmt<W: fmt::Write>(&self, f: &mut fmt::Formatter<W>) -> fmt::Result {
        match self.0 {
            Ok(order) => Printed(order).fmt(f),
            Err(fault) => Printed(CallFault::Layout(fault)).fmt(f),
        }
    }
}

impl fmt::Display for Ties {
    ghost output = { λ t. Some (ranks_lines (map ranks_of t.0.items)) };

    fn fmt<W: fmt::Write>(&self, f: &mut fmt::Formatter<W>) -> fmt::Result {
        for tie in self.0.iter() {
            writeln!(f, "{tie}")?;
        }
        Ok(())
    }
}
