//! Block chain and instruction chains: the walks by next links are chains, and each instruction names its block.

ghost use Rattle.std.specs.Prelude.{◌≡◌, ◌↔◌, ◌<◌, ◌≤◌, IsTrue, MatchOption, MatchResult, true, false, Some, length, replicate};
ghost use Rattle.std.specs.List.{All};
ghost use Rattle.chain.specs.Chain.{keys_from};
ghost use Rattle.chain.specs.Table.{read_at};
ghost use Rattle.entities.specs.Nodes.{block_named, block_place, inst_links, inst_place};
ghost use Rattle.entities.specs.Program.{blocks_of, insts_in, insts_of};
ghost use Rattle.listing.specs.Lawful.{Filled, line_of, listed};
ghost use Rattle.audit_rules.specs.Breaches.{Earliest, FirstBroken};
ghost use Rattle.audit_rules.specs.Rules.{BlockChain, InTable, InstChains};
ghost use Rattle.audit_rules.specs.Tables.{tables};
ghost use Rattle.audit_walks.specs.Marks.{AllUnmarked, marked};

use crate::Received;
use audit_walks::{Keys, walk};
use chain::Key;
use entities::nodes::InstNode;
use entities::{Block, Inst};
use verdicts::Breach;

impl Received<'_> {
    /// Are the blocks from the first on a chain that ends at the last? Marks each that it meets.
    pub fn block_chain(self, met: &mut [bool]) -> Result<(), Breach>
        requires few_blocks { length self.blocks.now ≤ 256 }
        requires in_table { InTable (tables self) }
        requires blank { met.old ≡ replicate 256 false }
        ensures { MatchResult result (λ _. BlockChain (tables self.entry) × (met.new ≡ marked block_place (blocks_of (listed (tables self.entry))) (replicate 256 false))) (FirstBroken (tables self.entry)) }
    {
        if !self.is_block_chain(met) {
            return Err(Breach::BlockChain);
        }
        Ok(())
    }

    /// Are the instructions of each block a chain of its own between its ends? Marks each that it meets.
    pub fn inst_chains(self, met: &mut [bool]) -> Result<(), Breach>
        requires few_insts { length self.insts.now ≤ 1024 }
        requires in_table { InTable (tables self) }
        requires block_chain { BlockChain (tables self) }
        requires blank { met.old ≡ replicate 1024 false }
        ensures { MatchResult result (λ _. InstChains (tables self.entry) × (met.new ≡ marked inst_place (insts_of (listed (tables self.entry))) (replicate 1024 false))) (FirstBroken (tables self.entry)) }
    {
        match self.first_unchained(met) {
            Some(block) => Err(Breach::InstChains(block)),
            None => Ok(()),
        }
    }

    // Are the blocks, none of which is marked yet, a chain between the two ends? Marks each that it meets.
    fn is_block_chain(self, met: &mut [bool]) -> bool
        requires few_blocks { length self.blocks.now ≤ 256 }
        requires in_table { InTable (tables self) }
        requires blank { met.old ≡ replicate 256 false }
        ensures chain { result ≡ true → BlockChain (tables self.entry) × (met.new ≡ marked block_place (blocks_of (listed (tables self.entry))) (replicate 256 false)) }
        ensures none { result ≡ false → BlockChain (tables self.entry) → ⊥ }
    {
        walk(self.blocks, self.ends, met)
    }

    // The earliest block whose instructions are no chain of its own between its ends. Marks each that it meets.
    fn first_unchained(self, met: &mut [bool]) -> Option<Block>
        requires few_insts { length self.insts.now ≤ 1024 }
        requires in_table { InTable (tables self) }
        requires block_chain { BlockChain (tables self) }
        requires blank { met.old ≡ replicate 1024 false }
        ensures { MatchOption result (InstChains (tables self.entry) × (met.new ≡ marked inst_place (insts_of (listed (tables self.entry))) (replicate 1024 false))) (Earliest (Filled (tables self.entry)) (listed (tables self.entry))) }
    {
        for block in Keys::new(self.blocks, self.ends.first) {
            if !self.is_inst_chain(block, met) {
                return Some(block);
            }
        }
        None
    }

    // Are the instructions of `block`, none of which is marked yet, a chain between its ends, and does each name it? Marks each that it
    // meets.
    fn is_inst_chain(self, block: Block, met: &mut [bool]) -> bool
        requires in_table { InTable (tables self) }
        requires block { block.0 < length self.blocks.now }
        requires met { length self.insts.now ≤ length met.old }
        ensures chain { result ≡ true → Filled (tables self.entry) (line_of (tables self.entry) block) × (met.new ≡ marked inst_place (insts_in (line_of (tables self.entry) block).slots) met.old) }
        ensures none { result ≡ false → Filled (tables self.entry) (line_of (tables self.entry) block) → AllUnmarked inst_place met.old (insts_in (line_of (tables self.entry) block).slots) → ⊥ }
    {
        let ends = fields::inst_ends(self.blocks, block);
        walk(self.insts, ends, met) && name_all(self.insts, ends.first, block)
    }
}

// Does each instruction from `first` on name `block`?
fn name_all(insts: &[InstNode], first: Option<Inst>, block: Block) -> bool
    ensures { IsTrue result ↔ All (λ i. read_at block_named insts.now i.0 ≡ Some block) (keys_from inst_place inst_links insts.now first) }
{
    Keys::new(insts, first).all(|inst| block_of(insts, inst) == Some(block))
}

// The block that `inst` names; none past the table.
#[tactic(auto, using(audit_walks::proofs::Links::reads))]
fn block_of(insts: &[InstNode], inst: Inst) -> Option<Block>
    ensures { result ≡ read_at block_named insts.now inst.0 }
{
    insts.get(inst.index()).and_then(|node| node.block)
}
