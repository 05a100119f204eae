//! What a line of a script can tell a layout or a cursor, as values.

#![tactic(auto)]

use calls::{CursorCall, Edit};
use entities::progpoint::ProgramPoint;
use entities::{Block, Inst};

/// A question of the layout.
#[derive(Clone, Copy, PartialEq, Eq)]
pub enum Question {
    PpCmp(ProgramPoint, ProgramPoint),
    PpBlock(ProgramPoint),
    IsBlockInserted(Block),
    InstBlock(Inst),
    EntryBlock,
    LastBlock,
    PrevBlock(Block),
    NextBlock(Block),
    FirstInst(Block),
    LastInst(Block),
    NextInst(Inst),
    PrevInst(Inst),
    InstSeq(Inst),
    IsCold(Block),
    BlockContainsExactlyOneInst(Block),
    BlockCapacity,
}

/// What the layout is told.
#[derive(Clone, Copy, PartialEq, Eq)]
pub enum LayoutCommand {
    Edit(Edit),
    Ask(Question),
    /// The walk, block by block, from the front.
    Walk,
    /// The same from the back.
    WalkBack,
}

/// A question of a cursor.
#[derive(Clone, Copy, PartialEq, Eq, Debug)]
pub enum CursorQuestion {
    CurrentInst,
    CurrentBlock,
    Position,
}

/// What a cursor is told.
#[derive(Clone, Copy, PartialEq, Eq, Debug)]
pub enum CursorCommand {
    Call(CursorCall),
    Ask(CursorQuestion),
}

/// The kinds of cursors there are.
#[derive(Clone, Copy, PartialEq, Eq, Debug)]
pub enum CursorKind {
    Func,
    Word,
}
