//! A layout with its cursors, on which the commands of a script are carried out.

#![tactic(auto)]

ghost use Rattle.std.specs.Prelude.{◌≡◌, true, false, List, [], length, take, drop, is_some, OnOk, OnErr};
ghost use Rattle.entities.specs.Program.{Program, no_program};
ghost use Rattle.cursor.specs.Kinds.{any_position};
ghost use Rattle.layout.specs.Program.{program};
ghost use Rattle.replay.specs.Histories.{Move, Reached, fits};
ghost use Rattle.replay.specs.Runs.{OneCallInOrder, WalkAndNumbersInOneOrder, can_replay};
ghost use Rattle.session.specs.Sessions.{AddsCursor, Answers, IsNew, Unchanged, cursor_answer, place_at};

use calls::{Answer, Call, Outcome};
use commands::{CursorKind, CursorQuestion, Question};
use cursor::any::AnyCursor;
use cursor::func::FuncCursor;
use cursor::word::WordCursor;
use cursor::{Cursor, CursorPosition};
use layout::Layout;
use printed::Reply;
use std::alloc::{AllocError, Global};

/// A layout, and the cursors that a script made, in order of making.
#[derive(Drop)]
pub struct Session {
    pub layout: Layout,
    cursors: Vec<AnyCursor>,
}

impl Session {
    /// An empty layout, and no cursor.
    pub fn new(alloc: Global) -> Session
        ensures layout { program result.layout ≡ no_program }
        ensures cursors { result.cursors.items ≡ [] }
    {
        Session {
            layout: Layout::new(),
            cursors: Vec::new(alloc),
        }
    }

    /// Makes one more cursor, which is Nowhere.
    pub fn add_cursor(&mut self, kind: CursorKind) -> Result<(), AllocError>
        ensures ok { OnOk result (AddsCursor kind self.old self.new) }
        ensures err { OnErr result (Unchanged self.old self.new) }
    {
        self.cursors.push(new_cursor(kind))?;
        Ok(())
    }

    /// Replays calls, and stores what each answers at its place in `answers`. Where there is not room for every answer, or a call's cursor is
    /// not there, none is made: it answers false.
    pub fn replay(&mut self, calls: &[Call], answers: &mut [Outcome]) -> bool
        ensures made { result ≡ can_replay calls.now (length self.old.cursors.items) (length answers.old) }
        ensures not_made { result ≡ false → Unchanged self.old self.new × (answers.new ≡ answers.old) }
        ensures rest { drop (length calls.now) answers.new ≡ drop (length calls.now) answers.old }
        ensures one_order { result ≡ true → (start : Program) (h : List Move) → Reached start h self.old.layout → WalkAndNumbersInOneOrder any_position start h calls.now (take (length calls.now) answers.new) self.old.layout self.old.cursors.items self.new.layout self.new.cursors.items }
    {
        replay::replay(
            &mut self.layout,
            self.cursors.as_mut_slice(),
            calls,
            answers,
        )
    }

    /// Makes a call, as a run of one; none where there is no cursor with its index, and then nothing is made.
    pub fn call(&mut self, call: Call) -> Option<Outcome>
        ensures made { is_some result ≡ fits (length self.old.cursors.items) call }
        ensures not_made { is_some result ≡ false → Unchanged self.old self.new }
        ensures one_order { (start : Program) (h : List Move) → Reached start h self.old.layout → OneCallInOrder any_position start h call result self.old.layout self.old.cursors.items self.new.layout self.new.cursors.items }
    {
        let mut answers = [Ok(Answer::Done)];
        self.replay(&[call], &mut answers).then_some(answers[0])
    }

    /// What a question of the layout answers.
    pub fn ask(&self, question: Question) -> Reply
        ensures { Answers question (program self.now.layout) result }
    {
        let layout = &self.layout;
        match question {
            Question::PpCmp(a, b) => Reply::Order(layout.pp_cmp(a, b)),
            Question::PpBlock(pp) => Reply::PointBlock(layout.pp_block(pp)),
            Question::IsBlockInserted(block) => Reply::Flag(layout.is_block_inserted(block)),
            Question::InstBlock(inst) => Reply::Block(layout.inst_block(inst)),
            Question::EntryBlock => Reply::Block(layout.entry_block()),
            Question::LastBlock => Reply::Block(layout.last_block()),
            Question::PrevBlock(block) => Reply::Block(layout.prev_block(block)),
            Question::NextBlock(block) => Reply::Block(layout.next_block(block)),
            Question::FirstInst(block) => Reply::Inst(layout.first_inst(block)),
            Question::LastInst(block) => Reply::Inst(layout.last_inst(block)),
            Question::NextInst(inst) => Reply::Inst(layout.next_inst(inst)),
            Question::PrevInst(inst) => Reply::Inst(layout.prev_inst(inst)),
            Question::InstSeq(inst) => Reply::Number(layout.inst_seq(inst)),
            Question::IsCold(block) => Reply::Flag(layout.is_cold(block)),
            Question::BlockContainsExactlyOneInst(block) => {
                Reply::Flag(layout.block_contains_exactly_one_inst(block))
            }
            Question::BlockCapacity => Reply::Number(Some(layout.block_capacity() as u32)),
        }
    }

    /// What a question of the cursor with this index answers; none where there is no such cursor.
    pub fn ask_cursor(&self, index: usize, question: CursorQuestion) -> Option<Reply>
        ensures { result ≡ cursor_answer question (place_at index self.now) (program self.now.layout) }
    {
        let cursor = self.cursors.get(index)?;
        Some(match question {
            CursorQuestion::CurrentInst => Reply::Inst(steps::current_inst(cursor)),
            CursorQuestion::CurrentBlock => {
                Reply::Block(steps::current_block(cursor, &self.layout))
            }
            CursorQuestion::Position => Reply::Position(cursor.position()),
        })
    }

    /// Where the cursor with this index is; none where there is no such cursor.
    pub fn position(&self, index: usize) -> Option<CursorPosition>
        ensures { result ≡ place_at index self.now }
    {
        self.cursors.get(index).map(|cursor| cursor.position())
    }
}

// A cursor of the kind, which is Nowhere.
fn new_cursor(kind: CursorKind) -> AnyCursor
    ensures { IsNew kind result }
{
    match kind {
        CursorKind::Func => AnyCursor::Func(FuncCursor::new()),
        CursorKind::Word => AnyCursor::Word(WordCursor::new()),
    }
}
