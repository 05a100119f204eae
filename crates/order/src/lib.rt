//! Walk and numbers in one order: what every layout keeps, and when two layouts hold the same program.

#![tactic(auto)]

ghost use Rattle.std.specs.Prelude.{◌≡◌, ◌↔◌, IsTrue};
ghost use Rattle.entities.specs.Laws.{walk};
ghost use Rattle.entities.specs.Program.{blocks_of};
ghost use Rattle.entities.specs.Reading.{block_insts};
ghost use Rattle.layout.specs.Program.{program};
ghost use Rattle.order.specs.Order.{RankAlike};

use entities::Block;
use layout::Layout;

/// Do the two layouts hold the same program: the same blocks in the same order, each with the same instructions in the same order? Then
/// they rank alike, whatever their numbers. Cold marks are not compared.
#[tactic(auto, using(crate::proofs::Same::same_programs))]
pub fn same_program(a: &Layout, b: &Layout) -> bool
    ensures same { IsTrue result ↔ (walk (program a.now).lines ≡ walk (program b.now).lines) }
    ensures alike { walk (program a.now).lines ≡ walk (program b.now).lines → RankAlike (program a.now) (program b.now) }
{
    same_blocks(a, b) && a.blocks().all(|block| same_insts(a, b, block))
}

// Have the two the same blocks, in the same order?
fn same_blocks(a: &Layout, b: &Layout) -> bool
    ensures { IsTrue result ↔ (blocks_of (program a.now).lines ≡ blocks_of (program b.now).lines) }
{
    a.blocks().eq(b.blocks())
}

// Has `block` the same instructions in both, in the same order?
fn same_insts(a: &Layout, b: &Layout, block: Block) -> bool
    ensures { IsTrue result ↔ (block_insts block (program a.now) ≡ block_insts block (program b.now)) }
{
    a.block_insts(block).eq(b.block_insts(block))
}
