//! Questions. Any number is answered: one out of range counts as never inserted nor marked, but where range is asked.

ghost use Rattle.std.specs.Prelude.{◌≡◌, is_some};
ghost use Rattle.entities.specs.Reading.{inserted_block, inserted_inst, entry_block, last_block, prev_block, next_block, is_cold, slots_of, first_inst, last_inst, exactly_one, inst_block, next_inst, prev_inst, shown_seq};
ghost use Rattle.layout.specs.Program.{program, tables};

use crate::Layout;
use chain::Ends;
use entities::nodes::{BlockNode, InstNode, SequenceNumber};
use entities::{Block, Inst};

impl Layout {
    /// How many blocks the layout keeps.
    pub fn block_capacity(&self) -> usize
        ensures { result ≡ 256 }
    {
        self.listing.tables.blocks.len()
    }

    /// The nodes of the blocks, one for each number, to be read.
    pub fn block_nodes(&self) -> &[BlockNode]
        ensures { result.now ≡ (tables self.now).blocks }
    {
        &self.listing.tables.blocks
    }

    /// The nodes of the instructions, one for each number, to be read.
    pub fn inst_nodes(&self) -> &[InstNode]
        ensures { result.now ≡ (tables self.now).insts }
    {
        &self.listing.tables.insts
    }

    /// The first and the last block, as the tables hold them.
    pub fn block_ends(&self) -> Ends<Block>
        ensures { result ≡ (tables self.now).ends }
    {
        self.listing.tables.ends
    }

    /// Is `block` inserted?
    pub fn is_block_inserted(&self, block: Block) -> bool
        ensures { result ≡ inserted_block block (program self.now) }
    {
        reads::is_block_inserted(&self.listing, block)
    }

    /// The first block.
    pub fn entry_block(&self) -> Option<Block>
        ensures { result ≡ entry_block (program self.now) }
    {
        reads::block_ends(&self.listing).first
    }

    /// The last block.
    pub fn last_block(&self) -> Option<Block>
        ensures { result ≡ last_block (program self.now) }
    {
        reads::block_ends(&self.listing).last
    }

    /// The block directly ahead of `block`.
    pub fn prev_block(&self, block: Block) -> Option<Block>
        ensures { result ≡ prev_block block (program self.now) }
    {
        reads::block_node(&self.listing, block).prev
    }

    /// The block directly behind `block`.
    pub fn next_block(&self, block: Block) -> Option<Block>
        ensures { result ≡ next_block block (program self.now) }
    {
        reads::block_node(&self.listing, block).next
    }

    /// Is `block` marked cold?
    pub fn is_cold(&self, block: Block) -> bool
        ensures { result ≡ is_cold block (program self.now) }
    {
        reads::block_node(&self.listing, block).cold
    }

    /// The block in which `inst` stands; none where it is not inserted.
    pub fn inst_block(&self, inst: Inst) -> Option<Block>
        ensures block { result ≡ inst_block inst (program self.now) }
        ensures inserted { is_some result ≡ inserted_inst inst (program self.now) }
    {
        reads::inst_node(&self.listing, inst).block
    }

    /// The first instruction of `block`.
    pub fn first_inst(&self, block: Block) -> Option<Inst>
        ensures { result ≡ first_inst block (program self.now) }
    {
        reads::block_node(&self.listing, block).first_inst
    }

    /// The last instruction of `block`.
    pub fn last_inst(&self, block: Block) -> Option<Inst>
        ensures { result ≡ last_inst block (program self.now) }
    {
        reads::block_node(&self.listing, block).last_inst
    }

    /// The instruction directly behind `inst` in its block.
    pub fn next_inst(&self, inst: Inst) -> Option<Inst>
        ensures { result ≡ next_inst inst (program self.now) }
    {
        reads::inst_node(&self.listing, inst).next
    }

    /// The instruction directly ahead of `inst` in its block.
    pub fn prev_inst(&self, inst: Inst) -> Option<Inst>
        ensures { result ≡ prev_inst inst (program self.now) }
    {
        reads::inst_node(&self.listing, inst).prev
    }

    /// Has `block` one instruction and no more?
    pub fn block_contains_exactly_one_inst(&self, block: Block) -> bool
        ensures { result ≡ exactly_one (slots_of block (program self.now)) }
    {
        reads::block_contains_exactly_one_inst(&self.listing, block)
    }

    /// The sequence number of `inst`; none where it is not inserted.
    pub fn inst_seq(&self, inst: Inst) -> Option<SequenceNumber>
        ensures { result ≡ shown_seq inst (program self.now) }
    {
        let node = reads::inst_node(&self.listing, inst);
        node.block.is_some().then_some(node.seq)
    }
}
