//! Every edit of a layout and every cursor call as a value, so that a list of them can be replayed, and what each answers.

#![tactic(auto)]

ghost use Rattle.std.specs.Prelude.{◌≡◌};
ghost use Rattle.calls.specs.Replies.{call_refusal_of};
ghost use Rattle.calls.specs.declared.CallFault.TheVariants.{Layout as layout_refused, Cursor as cursor_refused};

use cursor::CursorPosition;
use cursor_faults::CursorFault;
use entities::{Block, Inst};
use faults::{Entity, Layer, LayoutFault};

/// An edit of the layout, with the numbers that it is given.
#[derive(Clone, Copy, PartialEq, Eq, Debug)]
pub enum Edit {
    Clear,
    SetCold(Block),
    AppendBlock(Block),
    InsertBlock(Block, Block),
    InsertBlockAfter(Block, Block),
    RemoveBlock(Block),
    RemoveBlockAndInsts(Block),
    SplitBlock(Block, Inst),
    AppendInst(Inst, Block),
    InsertInst(Inst, Inst),
    RemoveInst(Inst),
}

/// Where a goto goes.
#[derive(Clone, Copy, PartialEq, Eq, Debug)]
pub enum Goto {
    Inst(Inst),
    AfterInst(Inst),
    FirstInst(Block),
    LastInst(Block),
    FirstInsertionPoint(Block),
    Top(Block),
    Bottom(Block),
}

/// A step.
#[derive(Clone, Copy, PartialEq, Eq, Debug)]
pub enum Step {
    NextInst,
    PrevInst,
    NextBlock,
    PrevBlock,
}

/// Which position is asked for.
#[derive(Clone, Copy, PartialEq, Eq, Debug)]
pub enum PositionQuestion {
    NextInst,
    PrevInst,
    NextBlock,
    PrevBlock,
    Next,
    Prev,
}

/// An edit at a cursor's position.
#[derive(Clone, Copy, PartialEq, Eq, Debug)]
pub enum CursorEdit {
    InsertInst(Inst),
    RemoveInst,
    RemoveInstAndStepBack,
    ReplaceInst(Inst),
    InsertBlock(Block),
}

/// A call of a cursor.
#[derive(Clone, Copy, PartialEq, Eq, Debug)]
pub enum CursorCall {
    Goto(Goto),
    /// The `at_` call built on the goto: the cursor is taken, and handed back.
    At(Goto),
    Step(Step),
    Position(PositionQuestion),
    Edit(CursorEdit),
    SetPosition(CursorPosition),
    AtPosition(CursorPosition),
}

/// A call: an edit of the layout, or a call of the cursor with this index.
#[derive(Clone, Copy, PartialEq, Eq, Debug)]
pub enum Call {
    Layout(Edit),
    Cursor(usize, CursorCall),
}

/// What an accepted call answers.
#[derive(Clone, Copy, PartialEq, Eq, Debug)]
pub enum Answer {
    /// An edit: how many sequence numbers it wrote.
    Wrote(u32),
    /// A cursor edit that takes an instruction out: the instruction, and how many sequence numbers it wrote.
    Took(Inst, u32),
    /// An instruction step: the instruction then current.
    Inst(Option<Inst>),
    /// A block step: the block then current.
    Block(Option<Block>),
    /// A position question.
    Position(Option<CursorPosition>),
    /// A goto, an `at_` call or a position set.
    Done,
}

/// Who refused a call: the layout an edit of it, or a cursor a call of it.
#[derive(Clone, Copy, PartialEq, Eq, Debug)]
pub enum CallFault {
    Layout(LayoutFault),
    Cursor(CursorFault),
}

/// What a call answers, or how it is refused.
pub type Outcome = Result<Answer, CallFault>;

impl CallFault {
    /// The number of the question that was answered no.
    pub fn number(self) -> u32
        ensures { result ≡ (call_refusal_of self).number }
    {
        match self {
            CallFault::Layout(fault) => fault.number(),
            CallFault::Cursor(fault) => fault.number(),
        }
    }

    /// Who asked.
    pub fn layer(self) -> Layer
        ensures { result ≡ (call_refusal_of self).layer }
    {
        match self {
            CallFault::Layout(fault) => fault.layer(),
            CallFault::Cursor(fault) => fault.layer(),
        }
    }

    /// The block or instruction at fault, where there is one.
    pub fn entity(self) -> Option<Entity>
        ensures { result ≡ (call_refusal_of self).entity }
    {
        match self {
            CallFault::Layout(fault) => Some(fault.entity()),
            CallFault::Cursor(fault) => fault.entity(),
        }
    }
}

impl From<LayoutFault> for CallFault {
    ghost from_gives = { λ f r. r ≡ layout_refused f };

    fn from(fault: LayoutFault) -> CallFault {
        CallFault::Layout(fault)
    }
}

impl From<CursorFault> for CallFault {
    ghost from_gives = { λ f r. r ≡ cursor_refused f };

    fn from(fault: CursorFault) -> CallFault {
        CallFault::Cursor(fault)
    }
}
