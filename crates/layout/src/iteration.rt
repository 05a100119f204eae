//! Walks over a layout.

ghost use Rattle.std.specs.Prelude.{◌≡◌};
ghost use Rattle.entities.specs.Program.{blocks_of};
ghost use Rattle.entities.specs.Reading.{block_insts, slots_of};
ghost use Rattle.listing.specs.Lawful.{Fitting, Rising};
ghost use Rattle.walks.specs.Walks.{blocks_left, insts_left};
ghost use Rattle.layout.specs.Program.{program};

use crate::Layout;
use entities::Block;
use walks::{Blocks, Insts};

impl Layout {
    /// A walk over all blocks, in order. It borrows the layout: no edit while it is in use.
    pub fn blocks(&self) -> Blocks<'_>
        ensures listing { result.listing.now ≡ self.now.listing }
        ensures all { blocks_left result.listing.now result.next ≡ blocks_of (program self.now).lines }
    {
        Blocks::new(&self.listing)
    }

    /// A walk over the instructions of `block`, from either end. It borrows the layout: no edit while it is in use.
    #[tactic(auto, using(crate::proofs::Laws::block_insts_laws))]
    pub fn block_insts(&self, block: Block) -> Insts<'_>
        ensures listing { result.listing.now ≡ self.now.listing }
        ensures all { insts_left result.listing.now result.block result.left ≡ block_insts block (program self.now) }
        ensures rising { Rising 0 (slots_of block (program self.now)) }
        ensures fit { Fitting (slots_of block (program self.now)) }
    {
        Insts::new(&self.listing, block)
    }
}
