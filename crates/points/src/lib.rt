//! Program points: the block of a point, and which of two points comes first.

#![tactic(auto)]

ghost use Rattle.std.specs.Prelude.{◌≡◌, true, Some};
ghost use Rattle.std.specs.Ordering.{nat_cmp};
ghost use Rattle.entities.specs.Reading.{inserted_point, point_block, point_seq, Ranked};
ghost use Rattle.faults.specs.Questions.{Asked};
ghost use Rattle.faults.specs.Refusals.{entity_at, told, told_found, IfAccepted};
ghost use Rattle.faults.specs.Rules.{pp_block_rule, pp_cmp_rule};
ghost use Rattle.faults.specs.declared.LayoutFault.TheVariants.{NotInserted};
ghost use Rattle.listing.specs.Held.{program};

use entities::Block;
use entities::nodes::SequenceNumber;
use entities::progpoint::ProgramPoint;
use faults::LayoutFault;
use listing::Listing;
use std::cmp::Ordering;

/// The block of the point `pp`: a block is its own, inserted or not.
pub fn pp_block(listing: &Listing, pp: ProgramPoint) -> Result<Block, LayoutFault>
    ensures { told_found result ≡ pp_block_rule pp (program listing.now) }
{
    asked::ensure_in_range(pp)?;
    block_of(listing, pp)
}

/// Which of two points of one block comes first?
pub fn pp_cmp(listing: &Listing, a: ProgramPoint, b: ProgramPoint) -> Result<Ordering, LayoutFault>
    ensures numbers { told result ≡ pp_cmp_rule a b (program listing.now) }
    ensures walk { IfAccepted result (Ranked (program listing.now) a b) }
{
    asked::ensure_in_range(a)?;
    asked::ensure_in_range(b)?;
    let a_block = block_of(listing, a)?;
    let b_block = block_of(listing, b)?;
    asked::ensure(a_block == b_block, LayoutFault::DifferentBlocks(b.into()))?;
    Ok(order_in(listing, a_block, a, b))
}

// The block of a point. Asks whether an instruction is inserted; a block is its own, inserted or not.
fn block_of(listing: &Listing, pp: ProgramPoint) -> Result<Block, LayoutFault>
    ensures { Asked (inserted_point pp (program listing.now)) (NotInserted (entity_at pp)) result (λ block. point_block pp (program listing.now) ≡ Some block) }
{
    match pp {
        ProgramPoint::Inst(inst) => asked::block_of_inst(listing, inst),
        ProgramPoint::Block(block) => Ok(block),
    }
}

// How two points of `block` stand to each other, by their numbers and in its walk; that both are of one block is what makes the two agree.
// A step of its own, since the caller's proof did not close without one.
fn order_in(listing: &Listing, block: Block, a: ProgramPoint, b: ProgramPoint) -> Ordering
    requires a { point_block a (program listing.now) ≡ Some block }
    requires b { point_block b (program listing.now) ≡ Some block }
    ensures numbers { result ≡ nat_cmp (point_seq a (program listing.now)) (point_seq b (program listing.now)) }
    ensures walk { Ranked (program listing.now) a b result }
{
    let a_seq = point_seq(listing, a);
    let b_seq = point_seq(listing, b);
    a_seq.cmp(&b_seq)
}

// The number by which a point is compared: 0 for a block, which stands ahead of all its instructions.
fn point_seq(listing: &Listing, pp: ProgramPoint) -> SequenceNumber
    requires { inserted_point pp (program listing.now) ≡ true }
    ensures { result ≡ point_seq pp (program listing.now) }
{
    match pp {
        ProgramPoint::Inst(inst) => reads::inst_node(listing, inst).seq,
        ProgramPoint::Block(_) => 0,
    }
}
