//! The questions of each call, put to the listing top to bottom: the first no refuses.

#![tactic(auto)]

ghost use Rattle.std.specs.Prelude.{◌≡◌, true, ◌<◌, not, Some};
ghost use Rattle.entities.specs.Reading.{inserted_block, inserted_inst, inst_block, BlockFree, InstFree};
ghost use Rattle.faults.specs.Questions.{Asked, FirstNo, in_range, append_block_asked, append_inst_asked, set_cold_asked};
ghost use Rattle.faults.specs.Refusals.{entity_at};
ghost use Rattle.faults.specs.declared.Entity.TheVariants.{Block as the_block, Inst as the_inst};
ghost use Rattle.faults.specs.declared.LayoutFault.TheVariants.{OutOfRange, NotInserted, AlreadyInserted};
ghost use Rattle.listing.specs.Held.{program};

use chain::Key;
use entities::progpoint::ProgramPoint;
use entities::{BLOCK_CAPACITY, Block, INST_CAPACITY, Inst};
use faults::{Entity, LayoutFault};
use listing::Listing;

pub mod placed;

/// The first no to appending `block`.
pub fn append_block(listing: &Listing, block: Block) -> Result<(), LayoutFault>
    ensures { FirstNo (append_block_asked block (program listing.now)) result (λ _. BlockFree block (program listing.now)) }
{
    ensure_in_range(block.into())?;
    ensure_block_absent(listing, block)
}

/// The first no to appending `inst` to `block`.
pub fn append_inst(listing: &Listing, inst: Inst, block: Block) -> Result<(), LayoutFault>
    ensures { FirstNo (append_inst_asked inst block (program listing.now)) result (λ _. InstFree inst (program listing.now) × (inserted_block block (program listing.now) ≡ true)) }
{
    ensure_in_range(inst.into())?;
    ensure_in_range(block.into())?;
    ensure_block_inserted(listing, block)?;
    ensure_inst_absent(listing, inst)
}

/// The first no to marking `block` cold.
pub fn set_cold(block: Block) -> Result<(), LayoutFault>
    ensures { FirstNo (set_cold_asked block) result (λ _. block.0 < 256) }
{
    // written out, so that a must-fail edit finds this one alone
    ensure_in_range(ProgramPoint::Block(block))
}

/// Puts one question: with a yes the call goes on, with a no it is refused with `fault`.
pub fn ensure(yes: bool, fault: LayoutFault) -> Result<(), LayoutFault>
    ensures { Asked yes fault result (λ _. Unit {0}) }
{
    if yes { Ok(()) } else { Err(fault) }
}

/// Asks whether the number of a point is inside the layout's range.
pub fn ensure_in_range(pp: ProgramPoint) -> Result<(), LayoutFault>
    ensures { Asked (in_range pp) (OutOfRange (entity_at pp)) result (λ _. Unit {0}) }
{
    ensure(is_in_range(pp), LayoutFault::OutOfRange(pp.into()))
}

// Each fault names its entity by the word that the definition of the questions has for it.

/// The block in which `inst` stands. Asks whether it is inserted.
pub fn block_of_inst(listing: &Listing, inst: Inst) -> Result<Block, LayoutFault>
    ensures { Asked (inserted_inst inst (program listing.now)) (NotInserted (the_inst inst)) result (λ block. inst_block inst (program listing.now) ≡ Some block) }
{
    let block = reads::inst_node(listing, inst).block;
    block.ok_or(LayoutFault::NotInserted(Entity::Inst(inst)))
}

// Is the number of a point inside the layout's range?
fn is_in_range(pp: ProgramPoint) -> bool
    ensures { result ≡ in_range pp }
{
    match pp {
        ProgramPoint::Inst(inst) => inst.index() < INST_CAPACITY,
        ProgramPoint::Block(block) => block.index() < BLOCK_CAPACITY,
    }
}

// Asks whether `block` is inserted.
fn ensure_block_inserted(listing: &Listing, block: Block) -> Result<(), LayoutFault>
    ensures { Asked (inserted_block block (program listing.now)) (NotInserted (the_block block)) result (λ _. Unit {0}) }
{
    let present = reads::is_block_inserted(listing, block);
    ensure(present, LayoutFault::NotInserted(Entity::Block(block)))
}

// Asks whether `block` is not inserted.
fn ensure_block_absent(listing: &Listing, block: Block) -> Result<(), LayoutFault>
    ensures { Asked (not (inserted_block block (program listing.now))) (AlreadyInserted (the_block block)) result (λ _. Unit {0}) }
{
    let absent = !reads::is_block_inserted(listing, block);
    ensure(absent, LayoutFault::AlreadyInserted(Entity::Block(block)))
}

// Asks whether `inst` is not inserted.
fn ensure_inst_absent(listing: &Listing, inst: Inst) -> Result<(), LayoutFault>
    ensures { Asked (not (inserted_inst inst (program listing.now))) (AlreadyInserted (the_inst inst)) result (λ _. Unit {0}) }
{
    let absent = reads::inst_node(listing, inst).block.is_none();
    ensure(absent, LayoutFault::AlreadyInserted(Entity::Inst(inst)))
}
