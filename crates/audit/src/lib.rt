//! The audit: are two node tables from another controller lawful, and if not, which rule do they break first, and where?

#![tactic(auto)]

ghost use Rattle.std.specs.Prelude.{◌≡◌, ◌≤◌, MatchResult, Ok, length};
ghost use Rattle.audit.specs.Audited.{Audited};
ghost use Rattle.audit_rules.specs.Breaches.{FirstBroken};
ghost use Rattle.audit_rules.specs.Rules.{AllRules};
ghost use Rattle.audit_rules.specs.Tables.{received, tables};
ghost use Rattle.verdicts.specs.declared.Verdict.TheVariants.{Lawful};

use audit_rules::Received;
use chain::Ends;
use entities::nodes::{BlockNode, InstNode};
use entities::{BLOCK_CAPACITY, Block, INST_CAPACITY};
use layout::Layout;
use verdicts::{AuditFault, Breach, Verdict};

/// The verdict on two node tables and the ends of the chain of blocks, whatever they hold. Tables of more nodes than a layout keeps are
/// refused.
#[tactic(auto, using(crate::proofs::Sole::only_verdicts))]
pub fn audit(
    blocks: &[BlockNode],
    insts: &[InstNode],
    ends: Ends<Block>,
) -> Result<Verdict, AuditFault>
    ensures { Audited (received blocks.now insts.now ends) result }
{
    if blocks.len() > BLOCK_CAPACITY || insts.len() > INST_CAPACITY {
        return Err(AuditFault::TooManyNodes);
    }
    let received = Received {
        blocks,
        insts,
        ends,
    };
    match first_breach(received) {
        Ok(()) => Ok(Verdict::Lawful),
        Err(breach) => Ok(Verdict::Broken(breach)),
    }
}

/// The verdict on a layout's own tables: they are lawful.
#[tactic(auto, using(crate::proofs::Lawful::passes))]
pub fn audit_layout(layout: &Layout) -> Result<Verdict, AuditFault>
    ensures { result ≡ Ok Lawful }
{
    audit(
        layout.block_nodes(),
        layout.inst_nodes(),
        layout.block_ends(),
    )
}

// The first rule that tables break. Each rule is asked of tables that keep those ahead of it.
fn first_breach(received: Received) -> Result<(), Breach>
    requires few_blocks { length received.blocks.now ≤ 256 }
    requires few_insts { length received.insts.now ≤ 1024 }
    ensures { MatchResult result (λ _. AllRules (tables received.entry)) (FirstBroken (tables received.entry)) }
{
    received.in_table()?;
    let mut blocks_met = [false; BLOCK_CAPACITY];
    received.block_chain(&mut blocks_met)?;
    let mut insts_met = [false; INST_CAPACITY];
    received.inst_chains(&mut insts_met)?;
    received.unmet_bare(&blocks_met, &insts_met)?;
    received.rising_numbers()
}
