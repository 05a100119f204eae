//! The walk through a whole layout.

ghost use Rattle.std.specs.Prelude.{◌≡◌, length, []};
ghost use Rattle.std.specs.Iterator.{at_most};
ghost use Rattle.entities.specs.Laws.{walk};
ghost use Rattle.layout.specs.Program.{program};
ghost use Rattle.walks.specs.Walks.{GivesFirst};
ghost use Rattle.parting.specs.Points.{points_left, insts_of_last};

use entities::Inst;
use entities::progpoint::ProgramPoint;
use layout::Layout;
use walks::{Blocks, Insts};

// The points that are still to come: block by block, each followed by its instructions.
#[derive(Drop)]
pub struct Points<'f> {
    layout: &'f Layout,
    blocks: Blocks<'f>,
    // the instructions of the block that came last
    insts: Option<Insts<'f>>,
}

impl<'f> Points<'f> {
    // The walk over all points, in order.
    #[tactic(auto, using(order::proofs::Same::walk_by_blocks))]
    pub fn new(layout: &'f Layout) -> Points<'f>
        ensures { points_left result ≡ walk (program layout.now).lines }
    {
        Points {
            layout,
            blocks: layout.blocks(),
            insts: None,
        }
    }

    // The next point, or none once all were given.
    pub fn next(&mut self) -> Option<ProgramPoint>
        ensures { GivesFirst result (points_left self.old) (points_left self.new) }
    {
        if let Some(inst) = next_inst(&mut self.insts) {
            return Some(inst.into());
        }
        let block = self.blocks.next()?;
        self.insts = Some(self.layout.block_insts(block));
        Some(block.into())
    }
}

// The next of a block's instructions, or none once all were given.
fn next_inst(insts: &mut Option<Insts<'_>>) -> Option<Inst>
    ensures { GivesFirst result (insts_of_last insts.old) (insts_of_last insts.new) }
{
    insts.as_mut()?.next()
}

impl Iterator for Points<'_> {
    type Item = ProgramPoint;

    ghost next_gives = { λ s r t. GivesFirst r (points_left s) (points_left t) };

    ghost remaining = { λ s. at_most (length (points_left s)) };

    fn next(&mut self) -> Option<ProgramPoint> {
        Points::next(self)
    }
}
