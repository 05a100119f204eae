//! Unmet nodes are bare: what the walks did not meet holds no link, no instruction and no block name.

ghost use Rattle.std.specs.Prelude.{◌≡◌, ◌↔◌, ◌≤◌, IsTrue, MatchOption, MatchResult, false, length, replicate, slice_index_or};
ghost use Rattle.entities.specs.Nodes.{block_place, inst_place, no_block, no_inst};
ghost use Rattle.entities.specs.Program.{blocks_of, insts_of};
ghost use Rattle.listing.specs.Lawful.{listed};
ghost use Rattle.audit_rules.specs.Breaches.{FirstBroken, Lowest};
ghost use Rattle.audit_rules.specs.Rules.{BlockChain, InTable, InstChains, UnmetBare, UnmetBlockBare, UnmetInstBare};
ghost use Rattle.audit_rules.specs.Tables.{BareBlockNode, BareInstNode, tables};
ghost use Rattle.audit_walks.specs.Marks.{Unmarked, marked};

use crate::Received;
use entities::nodes::{BlockNode, InstNode};
use entities::{Block, Inst};
use faults::Entity;
use verdicts::Breach;

impl Received<'_> {
    /// Is every node bare that is not marked as met? Its number and its cold mark are free.
    pub fn unmet_bare(self, blocks_met: &[bool], insts_met: &[bool]) -> Result<(), Breach>
        requires few_blocks { length self.blocks.now ≤ 256 }
        requires few_insts { length self.insts.now ≤ 1024 }
        requires in_table { InTable (tables self) }
        requires block_chain { BlockChain (tables self) }
        requires inst_chains { InstChains (tables self) }
        requires blocks_met { blocks_met.now ≡ marked block_place (blocks_of (listed (tables self))) (replicate 256 false) }
        requires insts_met { insts_met.now ≡ marked inst_place (insts_of (listed (tables self))) (replicate 1024 false) }
        ensures { MatchResult result (λ _. UnmetBare (tables self.entry)) (FirstBroken (tables self.entry)) }
    {
        if let Some(block) = self.first_unmet_block(blocks_met) {
            return Err(Breach::UnmetBare(Entity::Block(block)));
        }
        if let Some(inst) = self.first_unmet_inst(insts_met) {
            return Err(Breach::UnmetBare(Entity::Inst(inst)));
        }
        Ok(())
    }

    // The lowest block that was not met and whose node is not bare. This and the next are steps of their own, since what the marks say of
    // the lists is proved by hand.
    fn first_unmet_block(self, met: &[bool]) -> Option<Block>
        requires few_blocks { length self.blocks.now ≤ 256 }
        requires block_chain { BlockChain (tables self) }
        requires met { met.now ≡ marked block_place (blocks_of (listed (tables self))) (replicate 256 false) }
        ensures { MatchOption result ((b : Block) → UnmetBlockBare (tables self.entry) b) (Lowest block_place (UnmetBlockBare (tables self.entry))) }
    {
        first_unmarked_block(self.blocks, met)
    }

    // The lowest instruction that was not met and whose node is not bare.
    fn first_unmet_inst(self, met: &[bool]) -> Option<Inst>
        requires few_insts { length self.insts.now ≤ 1024 }
        requires inst_chains { InstChains (tables self) }
        requires met { met.now ≡ marked inst_place (insts_of (listed (tables self))) (replicate 1024 false) }
        ensures { MatchOption result ((i : Inst) → UnmetInstBare (tables self.entry) i) (Lowest inst_place (UnmetInstBare (tables self.entry))) }
    {
        first_unmarked_inst(self.insts, met)
    }
}

// The lowest block that is not marked and whose node is not bare.
fn first_unmarked_block(blocks: &[BlockNode], met: &[bool]) -> Option<Block>
    requires blocks { length blocks.now ≤ 256 }
    requires met { length blocks.now ≤ length met.now }
    ensures { MatchOption result ((b : Block) → Unmarked block_place met.now b → BareBlockNode (slice_index_or blocks.now b.0 no_block)) (Lowest block_place (λ b. Unmarked block_place met.now b → BareBlockNode (slice_index_or blocks.now b.0 no_block))) }
{
    for (i, node) in blocks.iter().enumerate() {
        if !met[i] && !is_block_bare(*node) {
            return Some(Block::from_u32(i as u32));
        }
    }
    None
}

// The lowest instruction that is not marked and whose node is not bare.
fn first_unmarked_inst(insts: &[InstNode], met: &[bool]) -> Option<Inst>
    requires insts { length insts.now ≤ 1024 }
    requires met { length insts.now ≤ length met.now }
    ensures { MatchOption result ((i : Inst) → Unmarked inst_place met.now i → BareInstNode (slice_index_or insts.now i.0 no_inst)) (Lowest inst_place (λ i. Unmarked inst_place met.now i → BareInstNode (slice_index_or insts.now i.0 no_inst))) }
{
    for (i, node) in insts.iter().enumerate() {
        if !met[i] && !is_inst_bare(*node) {
            return Some(Inst::from_u32(i as u32));
        }
    }
    None
}

// Does the node of a block hold no link and no instruction?
fn is_block_bare(node: BlockNode) -> bool
    ensures { IsTrue result ↔ BareBlockNode node }
{
    node.prev.is_none()
        && node.next.is_none()
        && node.first_inst.is_none()
        && node.last_inst.is_none()
}

// Does the node of an instruction hold no link and no block name?
fn is_inst_bare(node: InstNode) -> bool
    ensures { IsTrue result ↔ BareInstNode node }
{
    node.block.is_none() && node.prev.is_none() && node.next.is_none()
}
