//! The edits of the chain of blocks, each by the list that the listing then holds.

#![tactic(auto, using(crate::proofs::Linked::edited))]

ghost use Rattle.std.specs.Prelude.{◌≡◌, true, []};
ghost use Rattle.entities.specs.Program.{append_block, insert_block, insert_block_after, remove_block, with_lines};
ghost use Rattle.entities.specs.Reading.{inserted_block, slots_of, BlockFree};
ghost use Rattle.listing.specs.Held.{program};

use entities::Block;
use listing::Listing;

// That a block is free or inserted is a fact of this listing until its next edit. No type of the number could hold it, so it is a clause.

/// Puts `block` at the end of the chain of blocks.
pub fn append_block(listing: &mut Listing, block: Block)
    requires { BlockFree block (program listing.old) }
    ensures { program listing.new ≡ with_lines (program listing.old) (append_block block (program listing.old).lines) }
{
    let tables = &mut listing.tables;
    tables.ends = chain::append(&mut tables.blocks, tables.ends, block);
}

/// Puts `block` directly ahead of `before`.
pub fn insert_block(listing: &mut Listing, block: Block, before: Block)
    requires free { BlockFree block (program listing.old) }
    requires inserted { inserted_block before (program listing.old) ≡ true }
    ensures { program listing.new ≡ with_lines (program listing.old) (insert_block block before (program listing.old).lines) }
{
    let tables = &mut listing.tables;
    tables.ends = chain::insert_before(&mut tables.blocks, tables.ends, block, before);
}

/// Puts `block` directly behind `after`.
pub fn insert_block_after(listing: &mut Listing, block: Block, after: Block)
    requires free { BlockFree block (program listing.old) }
    requires inserted { inserted_block after (program listing.old) ≡ true }
    ensures { program listing.new ≡ with_lines (program listing.old) (insert_block_after block after (program listing.old).lines) }
{
    let tables = &mut listing.tables;
    tables.ends = chain::insert_after(&mut tables.blocks, tables.ends, block, after);
}

/// Takes out `block`, which has no instructions.
pub fn remove_block(listing: &mut Listing, block: Block)
    requires inserted { inserted_block block (program listing.old) ≡ true }
    requires empty { slots_of block (program listing.old) ≡ [] }
    ensures { program listing.new ≡ with_lines (program listing.old) (remove_block block (program listing.old).lines) }
{
    let tables = &mut listing.tables;
    tables.ends = chain::remove(&mut tables.blocks, tables.ends, block);
}
