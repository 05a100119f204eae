//! Rising numbers: they rise strictly along each block.

ghost use Rattle.std.specs.Prelude.{◌≡◌, ◌↔◌, IsTrue, MatchOption, MatchResult, map, nat_lt};
ghost use Rattle.chain.specs.Chain.{keys_from};
ghost use Rattle.chain.specs.Table.{read_at};
ghost use Rattle.entities.specs.Nodes.{inst_links, inst_place, number_of};
ghost use Rattle.listing.specs.Lawful.{line_of, listed, or_zero, slot_of};
ghost use Rattle.audit_rules.specs.Breaches.{Earliest, FirstBroken};
ghost use Rattle.audit_rules.specs.Rules.{BlockChain, InTable, InstChains, Rises, RisingNumbers, SlotsRise, UnmetBare};
ghost use Rattle.audit_rules.specs.Tables.{tables};

use crate::Received;
use audit_walks::Keys;
use chain::Key;
use entities::nodes::{InstNode, SequenceNumber};
use entities::{Block, Inst};
use verdicts::Breach;

impl Received<'_> {
    /// Do the numbers rise strictly along each block?
    pub fn rising_numbers(self) -> Result<(), Breach>
        requires in_table { InTable (tables self) }
        requires block_chain { BlockChain (tables self) }
        requires inst_chains { InstChains (tables self) }
        requires unmet_bare { UnmetBare (tables self) }
        ensures { MatchResult result (λ _. RisingNumbers (tables self.entry)) (FirstBroken (tables self.entry)) }
    {
        match self.first_not_rising() {
            Some(block) => Err(Breach::RisingNumbers(block)),
            None => Ok(()),
        }
    }

    // The earliest block along which the numbers do not rise.
    fn first_not_rising(self) -> Option<Block>
        ensures { MatchOption result (RisingNumbers (tables self.entry)) (Earliest Rises (listed (tables self.entry))) }
    {
        Keys::new(self.blocks, self.ends.first).find(|block| !self.rises(*block))
    }

    // Do the numbers rise along `block`?
    #[tactic(auto, using(audit_walks::proofs::Links::reads))]
    fn rises(self, block: Block) -> bool
        ensures { IsTrue result ↔ Rises (line_of (tables self.entry) block) }
    {
        let first = self
            .blocks
            .get(block.index())
            .and_then(|node| node.first_inst);
        rise(self.insts, first)
    }
}

// Do the numbers rise from `first` on?
fn rise(insts: &[InstNode], first: Option<Inst>) -> bool
    ensures { IsTrue result ↔ SlotsRise (map (slot_of insts.now) (keys_from inst_place inst_links insts.now first)) }
{
    Keys::new(insts, first).is_sorted_by(|a, b| is_below(insts, *a, *b))
}

// Is the number of `a` below that of `b`?
fn is_below(insts: &[InstNode], a: Inst, b: Inst) -> bool
    ensures { result ≡ nat_lt (or_zero (read_at number_of insts.now a.0)) (or_zero (read_at number_of insts.now b.0)) }
{
    seq_of(insts, a) < seq_of(insts, b)
}

// The number of `inst`; 0 past the table.
#[tactic(auto, using(audit_walks::proofs::Links::reads))]
fn seq_of(insts: &[InstNode], inst: Inst) -> SequenceNumber
    ensures { result ≡ or_zero (read_at number_of insts.now inst.0) }
{
    insts.get(inst.index()).map_or(0, |node| node.seq)
}
