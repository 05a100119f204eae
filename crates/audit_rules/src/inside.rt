//! In-table: every link, end, instruction and block name held leads into its table.

ghost use Rattle.std.specs.Prelude.{◌↔◌, ◌≤◌, IsTrue, MatchOption, MatchResult, length};
ghost use Rattle.chain.specs.Table.{Within};
ghost use Rattle.entities.specs.Nodes.{block_place, inst_place};
ghost use Rattle.audit_rules.specs.Breaches.{FirstBroken, Lowest};
ghost use Rattle.audit_rules.specs.Rules.{BlockInside, BlockNodeInside, EndsInside, InTable, InstInside, InstNodeInside};
ghost use Rattle.audit_rules.specs.Tables.{tables};

use crate::Received;
use chain::{Ends, Key};
use entities::nodes::{BlockNode, InstNode};
use entities::{Block, Inst};
use faults::Entity;
use verdicts::Breach;

impl Received<'_> {
    /// Does every link, end, instruction and block name held lead into its table?
    pub fn in_table(self) -> Result<(), Breach>
        requires few_blocks { length self.blocks.now ≤ 256 }
        requires few_insts { length self.insts.now ≤ 1024 }
        ensures { MatchResult result (λ _. InTable (tables self.entry)) (FirstBroken (tables self.entry)) }
    {
        if !are_ends_inside(self.blocks, self.ends) {
            return Err(Breach::InTable(None));
        }
        if let Some(block) = first_block_outside(self.blocks, self.insts) {
            return Err(Breach::InTable(Some(Entity::Block(block))));
        }
        if let Some(inst) = first_inst_outside(self.blocks, self.insts) {
            return Err(Breach::InTable(Some(Entity::Inst(inst))));
        }
        Ok(())
    }
}

// The lowest block whose node leads outside a table.
fn first_block_outside(blocks: &[BlockNode], insts: &[InstNode]) -> Option<Block>
    requires { length blocks.now ≤ 256 }
    ensures { MatchOption result ((b : Block) → BlockInside blocks.now insts.now b) (Lowest block_place (BlockInside blocks.now insts.now)) }
{
    for (i, node) in blocks.iter().enumerate() {
        if !is_block_inside(*node, blocks.len(), insts.len()) {
            return Some(Block::from_u32(i as u32));
        }
    }
    None
}

// The lowest instruction whose node leads outside a table.
fn first_inst_outside(blocks: &[BlockNode], insts: &[InstNode]) -> Option<Inst>
    requires { length insts.now ≤ 1024 }
    ensures { MatchOption result ((i : Inst) → InstInside blocks.now insts.now i) (Lowest inst_place (InstInside blocks.now insts.now)) }
{
    for (i, node) in insts.iter().enumerate() {
        if !is_inst_inside(*node, blocks.len(), insts.len()) {
            return Some(Inst::from_u32(i as u32));
        }
    }
    None
}

// Does the node of a block lead into tables of so many nodes?
fn is_block_inside(node: BlockNode, blocks: usize, insts: usize) -> bool
    ensures { IsTrue result ↔ BlockNodeInside blocks insts node }
{
    is_within(node.prev, blocks)
        && is_within(node.next, blocks)
        && is_within(node.first_inst, insts)
        && is_within(node.last_inst, insts)
}

// Does the node of an instruction lead into tables of so many nodes?
fn is_inst_inside(node: InstNode, blocks: usize, insts: usize) -> bool
    ensures { IsTrue result ↔ InstNodeInside blocks insts node }
{
    is_within(node.block, blocks) && is_within(node.prev, insts) && is_within(node.next, insts)
}

// Do both ends lead into the table of blocks?
fn are_ends_inside(blocks: &[BlockNode], ends: Ends<Block>) -> bool
    ensures { IsTrue result ↔ EndsInside blocks.now ends }
{
    is_within(ends.first, blocks.len()) && is_within(ends.last, blocks.len())
}

// Does the link, if there is one, lead into a table of `len` nodes?
fn is_within<K: Key>(link: Option<K>, len: usize) -> bool
    ensures { IsTrue result ↔ Within K.place len link }
{
    link.is_none_or(|key| key.index() < len)
}
