//! Program points: which block, and which comes first.

ghost use Rattle.std.specs.Prelude.{◌≡◌};
ghost use Rattle.entities.specs.Reading.{Ranked};
ghost use Rattle.faults.specs.Refusals.{told, told_found, IfAccepted};
ghost use Rattle.faults.specs.Rules.{pp_block_rule, pp_cmp_rule};
ghost use Rattle.layout.specs.Program.{program};

use crate::Layout;
use entities::Block;
use entities::progpoint::ProgramPoint;
use faults::LayoutFault;
use std::cmp::Ordering;

impl Layout {
    /// The block of the point `pp`: a block is its own, inserted or not.
    pub fn pp_block(&self, pp: ProgramPoint) -> Result<Block, LayoutFault>
        ensures { told_found result ≡ pp_block_rule pp (program self.now) }
    {
        points::pp_block(&self.listing, pp)
    }

    /// Which of two points of one block comes first?
    pub fn pp_cmp(&self, a: ProgramPoint, b: ProgramPoint) -> Result<Ordering, LayoutFault>
        ensures numbers { told result ≡ pp_cmp_rule a b (program self.now) }
        ensures walk { IfAccepted result (Ranked (program self.now) a b) }
    {
        points::pp_cmp(&self.listing, a, b)
    }
}
