//! The edits of the two node tables as a whole and of their marks, each by what it does to the program that the listing holds.

#![tactic(auto, using(crate::proofs::Written::edited))]

ghost use Rattle.std.specs.Prelude.{◌≡◌, ◌<◌, [], replicate};
ghost use Rattle.entities.specs.Nodes.{only_mark};
ghost use Rattle.entities.specs.Program.{mark_cold, no_program};
ghost use Rattle.listing.specs.Held.{program};

use chain::{Ends, Key};
use entities::nodes::{BlockNode, InstNode, Tables};
use entities::{BLOCK_CAPACITY, Block, INST_CAPACITY};
use listing::Listing;

// The ends of a chain of no blocks. No constant of `Ends` itself: a proof would not know the value of one of a generic type.
const NO_ENDS: Ends<Block> = Ends {
    first: None,
    last: None,
};

/// A listing of nothing but the mark `cold` of every block. A layout begins with none; that is a parameter so that a wrong mark is refused
/// where it is given.
pub fn unlinked(cold: bool) -> Listing
    ensures { program result ≡ record { lines = []; cold = replicate 256 cold } }
{
    repeated(BlockNode {
        cold,
        ..BlockNode::EMPTY
    })
}

/// Empties every node in place.
pub fn clear(listing: &mut Listing)
    ensures { program listing.new ≡ no_program }
{
    // one by one: `*listing = unlinked(false)` would move the tables
    let tables = &mut listing.tables;
    tables.blocks.fill(BlockNode::EMPTY);
    tables.insts.fill(InstNode::EMPTY);
    tables.ends = NO_ENDS;
}

/// Marks `block` as cold.
pub fn set_cold(listing: &mut Listing, block: Block)
    requires { block.0 < 256 }
    ensures { program listing.new ≡ mark_cold block (program listing.old) }
{
    listing.tables.blocks[block.index()].cold = true;
}

// A listing whose block nodes are all `block`, which has no link and no instruction. A step of its own, since the caller's proof did not
// close without one.
fn repeated(block: BlockNode) -> Listing
    requires { block ≡ only_mark block.cold }
    ensures { program result ≡ record { lines = []; cold = replicate 256 block.cold } }
{
    Listing {
        tables: Tables {
            blocks: [block; BLOCK_CAPACITY],
            insts: [InstNode::EMPTY; INST_CAPACITY],
            ends: NO_ENDS,
        },
    }
}
