//! The reads of a listing's nodes, each by what it says of the program that the listing holds.

#![tactic(auto)]

ghost use Rattle.std.specs.Prelude.{◌≡◌, slice_index_or};
ghost use Rattle.entities.specs.Reading.{inserted_block, entry_block, last_block, slots_of, exactly_one};
ghost use Rattle.listing.specs.Held.{program};
ghost use Rattle.listing.specs.Reads.{OfBlock, OfInst};

use chain::{Ends, Key};
use entities::nodes::{BlockNode, InstNode};
use entities::{Block, Inst};
use listing::Listing;

/// The node of `block`; an empty one for a number outside the table.
#[tactic(auto, using(crate::proofs::Nodes::block_reads))]
pub fn block_node(listing: &Listing, block: Block) -> BlockNode
    ensures { OfBlock (program listing.now) block result }
{
    node_or(&listing.tables.blocks, block.index(), BlockNode::EMPTY)
}

/// The node of `inst`; an empty one for a number outside the table.
#[tactic(auto, using(crate::proofs::Nodes::inst_reads))]
pub fn inst_node(listing: &Listing, inst: Inst) -> InstNode
    ensures { OfInst (program listing.now) inst result }
{
    node_or(&listing.tables.insts, inst.index(), InstNode::EMPTY)
}

/// The first and the last block.
#[tactic(auto, using(listing::proofs::Questions::block_ends_read))]
pub fn block_ends(listing: &Listing) -> Ends<Block>
    ensures { result ≡ record { first = entry_block (program listing.now); last = last_block (program listing.now) } }
{
    listing.tables.ends
}

/// Is `block` inserted? Then it is the first block, or has another ahead of it.
pub fn is_block_inserted(listing: &Listing, block: Block) -> bool
    ensures { result ≡ inserted_block block (program listing.now) }
{
    let node = block_node(listing, block);
    block_ends(listing).first == Some(block) || node.prev.is_some()
}

/// Has `block` one instruction and no more? Then its first one is there, and is its last.
pub fn block_contains_exactly_one_inst(listing: &Listing, block: Block) -> bool
    ensures { result ≡ exactly_one (slots_of block (program listing.now)) }
{
    let node = block_node(listing, block);
    node.first_inst.is_some() && node.first_inst == node.last_inst
}

// The node at a place, or `empty` past the table.
fn node_or<N: Copy>(nodes: &[N], at: usize, empty: N) -> N
    ensures { result ≡ slice_index_or nodes.now at empty }
{
    nodes.get(at).copied().unwrap_or(empty)
}
