//! The fields of nodes that edits read and write besides links: the ends of a block's instructions, and the block that an instruction
//! names.

#![tactic(auto)]

ghost use Rattle.std.specs.Prelude.{◌≡◌, ◌<◌, length};
ghost use Rattle.chain.specs.Table.{alter};
ghost use Rattle.entities.specs.Nodes.{ends_of};
ghost use Rattle.listing.specs.Edits.{with_inst_ends, with_block};

use chain::{Ends, Key};
use entities::nodes::{BlockNode, InstNode};
use entities::{Block, Inst};

// These work on the slices themselves, as the operations of chains do, and ask that what they are given lies inside.

/// The first and the last instruction of `block`.
#[tactic(auto, using(listing::proofs::Parts::ends_read))]
pub fn inst_ends(blocks: &[BlockNode], block: Block) -> Ends<Inst>
    requires { block.0 < length blocks.now }
    ensures { result ≡ ends_of blocks.now block }
{
    let node = blocks[block.index()];
    Ends {
        first: node.first_inst,
        last: node.last_inst,
    }
}

/// The first and the last instruction of `block` are now `ends`.
#[tactic(auto, using(crate::proofs::Written::ends_written))]
pub fn set_inst_ends(blocks: &mut [BlockNode], block: Block, ends: Ends<Inst>)
    requires { block.0 < length blocks.old }
    ensures { blocks.new ≡ alter blocks.old block.0 (λ n. with_inst_ends n ends) }
{
    let node = &mut blocks[block.index()];
    node.first_inst = ends.first;
    node.last_inst = ends.last;
}

/// The node of `inst` now names `block`, or none.
#[tactic(auto, using(crate::proofs::Written::block_written))]
pub fn set_block(insts: &mut [InstNode], inst: Inst, block: Option<Block>)
    requires { inst.0 < length insts.old }
    ensures { insts.new ≡ alter insts.old inst.0 (λ n. with_block n block) }
{
    insts[inst.index()].block = block;
}
