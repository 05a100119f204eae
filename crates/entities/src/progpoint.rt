//! Program points.

ghost use Rattle.std.specs.Prelude.{◌≡◌};
ghost use Rattle.entities.specs.declared.progpoint.ProgramPoint.TheVariants.{Inst as inst_point, Block as block_point};
ghost use Rattle.entities.specs.Points.{inst_of};

use crate::{Block, Inst};

/// A point of the program: an instruction, or a block ahead of all its instructions.
#[derive(Clone, Copy, PartialEq, Eq)]
pub enum ProgramPoint {
    Inst(Inst),
    Block(Block),
}

impl ProgramPoint {
    /// The instruction at this point; none for a block.
    pub fn unwrap_inst(self) -> Option<Inst>
        ensures { result ≡ inst_of self }
    {
        match self {
            ProgramPoint::Inst(inst) => Some(inst),
            ProgramPoint::Block(_) => None,
        }
    }
}

impl From<Inst> for ProgramPoint {
    ghost from_gives = { λ i r. r ≡ inst_point i };

    fn from(inst: Inst) -> ProgramPoint {
        Self::Inst(inst)
    }
}

impl From<Block> for ProgramPoint {
    ghost from_gives = { λ b r. r ≡ block_point b };

    fn from(block: Block) -> ProgramPoint {
        Self::Block(block)
    }
}
