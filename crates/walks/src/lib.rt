//! Walks: along the blocks, and along the instructions of a block from either end.
//!
//! A walk borrows the listing, so the compiler refuses an edit until the walk is over. To edit on the way, go by the neighbours'
//! questions instead.

#![tactic(auto)]

ghost use Rattle.std.specs.Prelude.{◌≡◌, true, length};
ghost use Rattle.entities.specs.Program.{blocks_of};
ghost use Rattle.entities.specs.Reading.{block_insts};
ghost use Rattle.listing.specs.Held.{program};
ghost use Rattle.walks.specs.Walks.{blocks_left, on_blocks, insts_left, on_insts, GivesFirst, GivesLast};
ghost use Rattle.std.specs.Iterator.{at_most};

use chain::Ends;
use entities::{Block, Inst};
use listing::Listing;

// The ends of what is left once every instruction was given. No constant of `Ends` itself: a proof would not know the value of one of a
// generic type.
const NONE_LEFT: Ends<Inst> = Ends {
    first: None,
    last: None,
};

/// The blocks that are still to come, in order.
#[derive(Drop)]
pub struct Blocks<'f> {
    listing: &'f Listing,
    next: Option<Block>,
    // the block to come next is inserted
    ghost on: { on_blocks listing.now next ≡ true },
}

/// The instructions of a block that are still to come, from either end.
#[derive(Drop)]
pub struct Insts<'f> {
    listing: &'f Listing,
    block: Block,
    left: Ends<Inst>,
    // the ends of what is left stand in the block, in this order, or neither is there
    ghost on: { on_insts listing.now block left ≡ true },
}

impl<'f> Blocks<'f> {
    /// The walk over all blocks, in order.
    #[tactic(auto, using(listing::proofs::Walking::blocks_start))]
    pub fn new(listing: &'f Listing) -> Blocks<'f>
        ensures listing { result.listing.now ≡ listing.now }
        ensures all { blocks_left result.listing.now result.next ≡ blocks_of (program listing.now).lines }
    {
        Blocks {
            listing,
            next: reads::block_ends(listing).first,
        }
    }

    /// The next block, or none once all were given.
    #[tactic(auto, using(crate::proofs::Steps::block_steps))]
    pub fn next(&mut self) -> Option<Block>
        ensures listing { self.new.listing.now ≡ self.old.listing.now }
        ensures gives { GivesFirst result (blocks_left self.old.listing.now self.old.next) (blocks_left self.new.listing.now self.new.next) }
    {
        let block = self.next?;
        self.next = reads::block_node(self.listing, block).next;
        Some(block)
    }
}

impl<'f> Insts<'f> {
    /// The walk over the instructions of `block`, from either end.
    #[tactic(auto, using(listing::proofs::Walking::insts_start))]
    pub fn new(listing: &'f Listing, block: Block) -> Insts<'f>
        ensures listing { result.listing.now ≡ listing.now }
        ensures all { insts_left result.listing.now result.block result.left ≡ block_insts block (program listing.now) }
    {
        let node = reads::block_node(listing, block);
        Insts {
            listing,
            block,
            left: Ends {
                first: node.first_inst,
                last: node.last_inst,
            },
        }
    }

    /// The next instruction from the front, or none once all were given from either end.
    #[tactic(auto, using(crate::proofs::Steps::front_steps))]
    pub fn next(&mut self) -> Option<Inst>
        ensures listing { self.new.listing.now ≡ self.old.listing.now }
        ensures gives { GivesFirst result (insts_left self.old.listing.now self.old.block self.old.left) (insts_left self.new.listing.now self.new.block self.new.left) }
    {
        let inst = self.left.first?;
        self.left = if self.left.last == Some(inst) {
            NONE_LEFT
        } else {
            Ends {
                first: reads::inst_node(self.listing, inst).next,
                ..self.left
            }
        };
        Some(inst)
    }

    /// The next instruction from the back, or none once all were given from either end.
    #[tactic(auto, using(crate::proofs::Steps::back_steps))]
    pub fn next_back(&mut self) -> Option<Inst>
        ensures listing { self.new.listing.now ≡ self.old.listing.now }
        ensures gives { GivesLast result (insts_left self.old.listing.now self.old.block self.old.left) (insts_left self.new.listing.now self.new.block self.new.left) }
    {
        let inst = self.left.last?;
        self.left = if self.left.first == Some(inst) {
            NONE_LEFT
        } else {
            Ends {
                last: reads::inst_node(self.listing, inst).prev,
                ..self.left
            }
        };
        Some(inst)
    }
}

// Both forms are there: the stepping calls carry the contracts, and the iterators add `for` to them and no more (docs/DECISIONS.md, "The
// steps of a walk"). `next` and `next_back` are mirror images; one function of either end would ask at each use of an end which one it is.

impl Iterator for Blocks<'_> {
    type Item = Block;

    ghost next_gives = { λ s r t. GivesFirst r (blocks_left s.listing.now s.next) (blocks_left t.listing.now t.next) };

    ghost remaining = { λ s. at_most (length (blocks_left s.listing.now s.next)) };

    fn next(&mut self) -> Option<Block> {
        Blocks::next(self)
    }
}

impl Iterator for Insts<'_> {
    type Item = Inst;

    ghost next_gives = { λ s r t. GivesFirst r (insts_left s.listing.now s.block s.left) (insts_left t.listing.now t.block t.left) };

    ghost remaining = { λ s. at_most (length (insts_left s.listing.now s.block s.left)) };

    fn next(&mut self) -> Option<Inst> {
        Insts::next(self)
    }
}

impl DoubleEndedIterator for Insts<'_> {
    ghost next_back_gives = { λ s r t. GivesLast r (insts_left s.listing.now s.block s.left) (insts_left t.listing.now t.block t.left) };

    fn next_back(&mut self) -> Option<Inst> {
        Insts::next_back(self)
    }
}
