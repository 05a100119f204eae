//! Refusals: the number of the question that was answered no, the layer that asked it, and the entity at fault; and their text.

#![tactic(auto)]

ghost use Rattle.std.specs.Prelude.{◌≡◌, ◌++◌, Some, codes};
ghost use Rattle.faults.specs.Refusals.{refusal_of, entity_at};
ghost use Rattle.faults.specs.Text.{layer_text, entity_text, reason_text, fault_text};

use entities::progpoint::ProgramPoint;
use entities::{Block, Inst};
use std::error::Error;
use std::fmt;

/// Who asks a question.
#[derive(Clone, Copy, PartialEq, Eq, Debug)]
pub enum Layer {
    Layout,
    Cursor,
    Audit,
}

/// A block or an instruction, as the thing at fault. It has the cases of `ProgramPoint` and is no point: it has no place in a walk, and a
/// number out of range is at fault too.
#[derive(Clone, Copy, PartialEq, Eq, Debug)]
pub enum Entity {
    Block(Block),
    Inst(Inst),
}

impl From<ProgramPoint> for Entity {
    ghost from_gives = { λ p r. r ≡ entity_at p };

    fn from(point: ProgramPoint) -> Entity {
        match point {
            ProgramPoint::Inst(inst) => Entity::Inst(inst),
            ProgramPoint::Block(block) => Entity::Block(block),
        }
    }
}

/// Why the layout refuses a call.
#[derive(Clone, Copy, PartialEq, Eq, Debug)]
pub enum LayoutFault {
    /// A number given is outside the layout's range.
    OutOfRange(Entity),
    /// What is named as place, target or thing to remove is not inserted.
    NotInserted(Entity),
    /// What is to be put in is inserted already.
    AlreadyInserted(Entity),
    /// The block to be removed has instructions.
    NotEmpty(Entity),
    /// The second of two points is in another block than the first.
    DifferentBlocks(Entity),
}

impl LayoutFault {
    /// The number of the question that was answered no: what the user of a handset is told, and looks up.
    pub fn number(self) -> u32
        ensures { result ≡ (refusal_of self).number }
    {
        match self {
            LayoutFault::OutOfRange(_) => 2,
            LayoutFault::NotInserted(_) => 5,
            LayoutFault::AlreadyInserted(_) => 6,
            LayoutFault::NotEmpty(_) => 7,
            LayoutFault::DifferentBlocks(_) => 9,
        }
    }

    /// Who asked.
    pub fn layer(self) -> Layer
        ensures { result ≡ (refusal_of self).layer }
    {
        Layer::Layout
    }

    /// The block or instruction at fault.
    pub fn entity(self) -> Entity
        ensures { Some result ≡ (refusal_of self).entity }
    {
        match self {
            LayoutFault::OutOfRange(entity)
            | LayoutFault::NotInserted(entity)
            | LayoutFault::AlreadyInserted(entity)
            | LayoutFault::NotEmpty(entity)
            | LayoutFault::DifferentBlocks(entity) => entity,
        }
    }

    // What is wrong with it, behind a blank: one piece of text, which a writer takes whole or not at all.
    fn reason(self) -> &'static str
        ensures { result.now ≡ codes " " ++ reason_text self }
    {
        match self {
            LayoutFault::OutOfRange(_) => " is out of range",
            LayoutFault::NotInserted(_) => " is not inserted",
            LayoutFault::AlreadyInserted(_) => " is inserted already",
            LayoutFault::NotEmpty(_) => " has instructions",
            LayoutFault::DifferentBlocks(_) => " is in another block",
        }
    }
}

impl fmt::Display for Layer {
    ghost output = { λ l. Some (layer_text l) };

    fn fmt<W: fmt::Write>(&self, f: &mut fmt::Formatter<W>) -> fmt::Result {
        match self {
            Self::Layout => f.write_str("layout"),
            Self::Cursor => f.write_str("cursor"),
            Self::Audit => f.write_str("audit"),
        }
    }
}

impl fmt::Display for Entity {
    ghost output = { λ e. Some (entity_text e) };

    fn fmt<W: fmt::Write>(&self, f: &mut fmt::Formatter<W>) -> fmt::Result {
        match self {
            Entity::Block(block) => write!(f, "block{}", block.as_u32()),
            Entity::Inst(inst) => write!(f, "inst{}", inst.as_u32()),
        }
    }
}

impl fmt::Display for LayoutFault {
    ghost output = { λ f. Some (fault_text f) };

    fn fmt<W: fmt::Write>(&self, f: &mut fmt::Formatter<W>) -> fmt::Result {
        f.write_str("refused with ")?;
        // under the options of `f`, as a width: they are the number's
        self.number().fmt(f)?;
        write!(
            f,
            " by the {}: {}{}",
            self.layer(),
            self.entity(),
            self.reason()
        )
    }
}

impl Error for LayoutFault {}
