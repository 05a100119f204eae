//! One function for each kind of call: it makes the call, on the layout or on a cursor of any kind.

#![tactic(auto)]

ghost use Rattle.std.specs.Prelude.{◌≡◌, Some};
ghost use Rattle.calls.specs.Replies.{replied, MovedBy, WorkedBy};
ghost use Rattle.calls.specs.Calls.{edit_rule, goto_rule, step_rule, position_reply, cursor_edit_rule, cursor_rule, LayoutStays, CursorStays};
ghost use Rattle.calls.specs.declared.Answer.TheVariants.{Done as answered_done, Position as answered_position, Took as answered_took};
ghost use Rattle.cursor_faults.specs.Moves.{Goes, ComesBack};
ghost use Rattle.faults.specs.Refusals.{SameIfRefused};
ghost use Rattle.faults.specs.Rules.{Follows};
ghost use Rattle.layout.specs.Program.{program};

use calls::{Answer, CursorCall, CursorEdit, Edit, Goto, PositionQuestion, Step};
use cursor::{Cursor, CursorPosition};
use cursor_faults::CursorFault;
use entities::Inst;
use faults::LayoutFault;
use layout::Layout;
use std::mem;

/// Makes an edit of the layout. Answers how many sequence numbers it wrote.
pub fn edit_layout(layout: &mut Layout, edit: Edit) -> Result<u32, LayoutFault>
    ensures rule { Follows (edit_rule edit (program layout.old)) result (program layout.new) }
    ensures refused { SameIfRefused result layout.old layout.new }
{
    match edit {
        Edit::Clear => Ok(layout.clear()),
        Edit::SetCold(block) => layout.set_cold(block),
        Edit::AppendBlock(block) => layout.append_block(block),
        Edit::InsertBlock(block, before) => layout.insert_block(block, before),
        Edit::InsertBlockAfter(block, after) => layout.insert_block_after(block, after),
        Edit::RemoveBlock(block) => layout.remove_block(block),
        Edit::RemoveBlockAndInsts(block) => layout.remove_block_and_insts(block),
        Edit::SplitBlock(block, before) => layout.split_block(block, before),
        Edit::AppendInst(inst, block) => layout.append_inst(inst, block),
        Edit::InsertInst(inst, before) => layout.insert_inst(inst, before),
        Edit::RemoveInst(inst) => layout.remove_inst(inst),
    }
}

/// Makes a goto.
pub fn goto<C: Cursor>(cursor: &mut C, layout: &Layout, goto: Goto) -> Result<(), CursorFault>
    ensures rule { Goes (goto_rule goto (C.pos cursor.old) (program layout.now)) result (C.pos cursor.new) }
    ensures refused { SameIfRefused result cursor.old cursor.new }
{
    match goto {
        Goto::Inst(inst) => gotos::goto_inst(cursor, layout, inst),
        Goto::AfterInst(inst) => gotos::goto_after_inst(cursor, layout, inst),
        Goto::FirstInst(block) => gotos::goto_first_inst(cursor, layout, block),
        Goto::LastInst(block) => gotos::goto_last_inst(cursor, layout, block),
        Goto::FirstInsertionPoint(block) => gotos::goto_first_insertion_point(
            cursor, layout, block,
        ),
        Goto::Top(block) => gotos::goto_top(cursor, layout, block),
        Goto::Bottom(block) => gotos::goto_bottom(cursor, layout, block),
    }
}

/// Takes the cursor, and hands it back where the goto goes, or as it was beside the refusal.
pub fn at<C: Cursor>(cursor: C, layout: &Layout, goto: Goto) -> Result<C, (C, CursorFault)>
    ensures { ComesBack C.pos cursor (goto_rule goto (C.pos cursor) (program layout.now)) result }
{
    match goto {
        Goto::Inst(inst) => gotos::at_inst(cursor, layout, inst),
        Goto::AfterInst(inst) => gotos::after_inst(cursor, layout, inst),
        Goto::FirstInst(block) => gotos::at_first_inst(cursor, layout, block),
        Goto::LastInst(block) => gotos::at_last_inst(cursor, layout, block),
        Goto::FirstInsertionPoint(block) => gotos::at_first_insertion_point(cursor, layout, block),
        Goto::Top(block) => gotos::at_top(cursor, layout, block),
        Goto::Bottom(block) => gotos::at_bottom(cursor, layout, block),
    }
}

/// Makes a step.
pub fn step<C: Cursor>(cursor: &mut C, layout: &Layout, step: Step) -> Result<Answer, CursorFault>
    ensures rule { MovedBy (step_rule step (C.pos cursor.old) (program layout.now)) result (C.pos cursor.new) }
    ensures refused { SameIfRefused result cursor.old cursor.new }
{
    match step {
        Step::NextInst => steps::next_inst(cursor, layout).map(Answer::Inst),
        Step::PrevInst => steps::prev_inst(cursor, layout).map(Answer::Inst),
        Step::NextBlock => steps::next_block(cursor, layout).map(Answer::Block),
        Step::PrevBlock => steps::prev_block(cursor, layout).map(Answer::Block),
    }
}

/// Asks for a position.
pub fn position<C: Cursor>(
    cursor: &C,
    layout: &Layout,
    question: PositionQuestion,
) -> Result<Answer, CursorFault>
    ensures { replied result ≡ position_reply question (C.pos cursor.now) (program layout.now) }
{
    match question {
        PositionQuestion::NextInst => steps::next_inst_position(cursor, layout).map(
            Answer::Position,
        ),
        PositionQuestion::PrevInst => steps::prev_inst_position(cursor, layout).map(
            Answer::Position,
        ),
        PositionQuestion::NextBlock => steps::next_block_position(cursor, layout).map(leads_to),
        PositionQuestion::PrevBlock => steps::prev_block_position(cursor, layout).map(leads_to),
        PositionQuestion::Next => steps::next_position(cursor, layout).map(leads_to),
        PositionQuestion::Prev => steps::prev_position(cursor, layout).map(leads_to),
    }
}

/// Makes an edit at the cursor.
pub fn edit_at<C: Cursor>(
    cursor: &mut C,
    layout: &mut Layout,
    edit: CursorEdit,
) -> Result<Answer, CursorFault>
    ensures rule { WorkedBy (cursor_edit_rule edit (C.pos cursor.old) (program layout.old)) result (program layout.new) (C.pos cursor.new) }
    ensures layout { SameIfRefused result layout.old layout.new }
    ensures cursor { SameIfRefused result cursor.old cursor.new }
{
    match edit {
        CursorEdit::InsertInst(inst) => cursor_edits::insert_inst(cursor, layout, inst).map(
            Answer::Wrote,
        ),
        CursorEdit::RemoveInst => cursor_edits::remove_inst(cursor, layout).map(took),
        CursorEdit::RemoveInstAndStepBack => cursor_edits::remove_inst_and_step_back(
            cursor, layout,
        ).map(took),
        CursorEdit::ReplaceInst(inst) => cursor_edits::replace_inst(cursor, layout, inst).map(took),
        CursorEdit::InsertBlock(block) => cursor_edits::insert_block(cursor, layout, block).map(
            Answer::Wrote,
        ),
    }
}

/// Makes a call of a cursor. For an `at_` call the cursor is taken out with a fresh one in its place, and what comes back is put back.
pub fn call_cursor<C: Cursor + Drop>(
    cursor: &mut C,
    layout: &mut Layout,
    call: CursorCall,
) -> Result<Answer, CursorFault>
    ensures rule { WorkedBy (cursor_rule call (C.pos cursor.old) (program layout.old)) result (program layout.new) (C.pos cursor.new) }
    ensures layout { SameIfRefused result layout.old layout.new }
    ensures cursor { SameIfRefused result cursor.old cursor.new }
    ensures layout_stays { LayoutStays call layout.old layout.new }
    ensures cursor_stays { CursorStays call cursor.old cursor.new }
{
    match call {
        CursorCall::Goto(to) => goto(cursor, layout, to).map(done),
        CursorCall::At(to) => goto_by_value(cursor, layout, to).map(done),
        CursorCall::Step(to) => step(cursor, layout, to),
        CursorCall::Position(question) => position(cursor, layout, question),
        CursorCall::Edit(edit) => edit_at(cursor, layout, edit),
        CursorCall::SetPosition(to) => {
            cursor.set_position(to);
            Ok(Answer::Done)
        }
        CursorCall::AtPosition(to) => {
            set_by_value(cursor, to);
            Ok(Answer::Done)
        }
    }
}

// The `at_` call of a goto: the cursor is taken out, handed to it, and put back.
fn goto_by_value<C: Cursor + Drop>(
    cursor: &mut C,
    layout: &Layout,
    to: Goto,
) -> Result<(), CursorFault>
    ensures rule { Goes (goto_rule to (C.pos cursor.old) (program layout.now)) result (C.pos cursor.new) }
    ensures refused { SameIfRefused result cursor.old cursor.new }
{
    let taken = mem::replace(cursor, C::new());
    match at(taken, layout, to) {
        Ok(back) => {
            *cursor = back;
            Ok(())
        }
        Err((back, fault)) => {
            *cursor = back;
            Err(fault)
        }
    }
}

// `at_position`: the cursor is taken out, handed to it, and put back.
fn set_by_value<C: Cursor + Drop>(cursor: &mut C, to: CursorPosition)
    ensures { C.pos cursor.new ≡ to }
{
    let taken = mem::replace(cursor, C::new());
    *cursor = gotos::at_position(taken, to);
}

// ---- answers

// What is answered where something was done and there is nothing to tell.
fn done(_nothing: ()) -> Answer
    ensures { result ≡ answered_done }
{
    Answer::Done
}

// The position to which a step that always leads somewhere would lead.
fn leads_to(position: CursorPosition) -> Answer
    ensures { result ≡ answered_position (Some position) }
{
    Answer::Position(Some(position))
}

// The instruction taken out, and how many numbers were written.
fn took(taken: (Inst, u32)) -> Answer
    ensures { result ≡ answered_took taken.0 taken.1 }
{
    Answer::Took(taken.0, taken.1)
}
