//! The questions of the edits that name something inserted: as the place beside which another is put, or as the thing to remove.
//! Where such an edit needs to know the block in which an instruction stands, the question finds it.

ghost use Rattle.std.specs.Prelude.{◌≡◌, true, [], Some};
ghost use Rattle.entities.specs.Reading.{inserted_block, inst_block, slots_of, BlockFree, InstFree};
ghost use Rattle.faults.specs.Questions.{FirstNo, insert_block_asked, insert_inst_asked, remove_block_and_insts_asked, remove_block_asked, remove_inst_asked, split_block_asked};
ghost use Rattle.listing.specs.Held.{program};

use crate::{
    block_of_inst, ensure, ensure_block_absent, ensure_block_inserted, ensure_in_range,
    ensure_inst_absent,
};
use entities::{Block, Inst};
use faults::{Entity, LayoutFault};
use listing::Listing;

/// The first no to putting `block` beside the block `place`, ahead of it or behind it.
pub fn insert_block(listing: &Listing, block: Block, place: Block) -> Result<(), LayoutFault>
    ensures { FirstNo (insert_block_asked block place (program listing.now)) result (λ _. BlockFree block (program listing.now) × (inserted_block place (program listing.now) ≡ true)) }
{
    ensure_in_range(block.into())?;
    ensure_in_range(place.into())?;
    ensure_block_inserted(listing, place)?;
    ensure_block_absent(listing, block)
}

/// The first no to taking the empty `block` out.
pub fn remove_block(listing: &Listing, block: Block) -> Result<(), LayoutFault>
    ensures { FirstNo (remove_block_asked block (program listing.now)) result (λ _. (inserted_block block (program listing.now) ≡ true) × (slots_of block (program listing.now) ≡ [])) }
{
    remove_block_and_insts(listing, block)?;
    let empty = reads::block_node(listing, block).first_inst.is_none();
    ensure(empty, LayoutFault::NotEmpty(Entity::Block(block)))
}

/// The first no to taking `block` out with its instructions.
pub fn remove_block_and_insts(listing: &Listing, block: Block) -> Result<(), LayoutFault>
    ensures { FirstNo (remove_block_and_insts_asked block (program listing.now)) result (λ _. inserted_block block (program listing.now) ≡ true) }
{
    ensure_in_range(block.into())?;
    ensure_block_inserted(listing, block)
}

/// The block that is to be cut ahead of `before`, so that the rest of it moves into `block`, or the first no.
pub fn split_block(listing: &Listing, block: Block, before: Inst) -> Result<Block, LayoutFault>
    ensures { FirstNo (split_block_asked block before (program listing.now)) result (λ old. BlockFree block (program listing.now) × (inst_block before (program listing.now) ≡ Some old)) }
{
    ensure_in_range(block.into())?;
    ensure_in_range(before.into())?;
    let old = block_of_inst(listing, before)?;
    ensure_block_absent(listing, block)?;
    Ok(old)
}

/// The block into which `inst` is to be put ahead of `before`, or the first no.
pub fn insert_inst(listing: &Listing, inst: Inst, before: Inst) -> Result<Block, LayoutFault>
    ensures { FirstNo (insert_inst_asked inst before (program listing.now)) result (λ found. InstFree inst (program listing.now) × (inst_block before (program listing.now) ≡ Some found)) }
{
    ensure_in_range(inst.into())?;
    ensure_in_range(before.into())?;
    let block = block_of_inst(listing, before)?;
    ensure_inst_absent(listing, inst)?;
    Ok(block)
}

/// The block from which `inst` is to be taken, or the first no.
pub fn remove_inst(listing: &Listing, inst: Inst) -> Result<Block, LayoutFault>
    ensures { FirstNo (remove_inst_asked inst (program listing.now)) result (λ found. inst_block inst (program listing.now) ≡ Some found) }
{
    ensure_in_range(inst.into())?;
    block_of_inst(listing, inst)
}
