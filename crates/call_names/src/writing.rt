//! From a call to its form.

ghost use Rattle.std.specs.Prelude.{◌≡◌};
ghost use Rattle.forms.specs.Forms.{form_of, bare};
ghost use Rattle.call_names.specs.Forms.{layout_form, edit_form, question_form, cursor_form, call_form, goto_form, at_form, step_form, position_question_form, cursor_edit_form, position_args, kind_word};

use calls::{CursorCall, CursorEdit, Edit, Goto, PositionQuestion, Step};
use commands::{CursorCommand, CursorKind, CursorQuestion, LayoutCommand, Question};
use cursor::CursorPosition;
use forms::{Arg, Args, Form};

/// How a call of the layout is written.
pub fn layout_form(command: LayoutCommand) -> Form
    ensures { form_of result ≡ layout_form command }
{
    match command {
        LayoutCommand::Edit(edit) => edit_form(edit),
        LayoutCommand::Ask(question) => question_form(question),
        LayoutCommand::Walk => Form {
            name: "walk",
            args: Args::None,
        },
        LayoutCommand::WalkBack => Form {
            name: "walk_back",
            args: Args::None,
        },
    }
}

fn edit_form(edit: Edit) -> Form
    ensures { form_of result ≡ edit_form edit }
{
    match edit {
        Edit::Clear => Form::bare("clear"),
        Edit::SetCold(block) => Form::one("set_cold", Arg::Block(block)),
        Edit::AppendBlock(block) => Form::one("append_block", Arg::Block(block)),
        Edit::InsertBlock(block, before) => Form::two(
            "insert_block",
            Arg::Block(block),
            Arg::Block(before),
        ),
        Edit::InsertBlockAfter(block, after) => Form::two(
            "insert_block_after",
            Arg::Block(block),
            Arg::Block(after),
        ),
        Edit::RemoveBlock(block) => Form::one("remove_block", Arg::Block(block)),
        Edit::RemoveBlockAndInsts(block) => Form::one("remove_block_and_insts", Arg::Block(block)),
        Edit::SplitBlock(block, before) => Form::two(
            "split_block",
            Arg::Block(block),
            Arg::Inst(before),
        ),
        Edit::AppendInst(inst, block) => Form::two(
            "append_inst",
            Arg::Inst(inst),
            Arg::Block(block),
        ),
        Edit::InsertInst(inst, before) => Form::two(
            "insert_inst",
            Arg::Inst(inst),
            Arg::Inst(before),
        ),
        Edit::RemoveInst(inst) => Form::one("remove_inst", Arg::Inst(inst)),
    }
}

fn question_form(question: Question) -> Form
    ensures { form_of result ≡ question_form question }
{
    match question {
        Question::PpCmp(a, b) => Form::two("pp_cmp", a.into(), b.into()),
        Question::PpBlock(point) => Form::one("pp_block", point.into()),
        Question::IsBlockInserted(block) => Form::one("is_block_inserted", Arg::Block(block)),
        Question::InstBlock(inst) => Form::one("inst_block", Arg::Inst(inst)),
        Question::EntryBlock => Form::bare("entry_block"),
        Question::LastBlock => Form::bare("last_block"),
        Question::PrevBlock(block) => Form::one("prev_block", Arg::Block(block)),
        Question::NextBlock(block) => Form::one("next_block", Arg::Block(block)),
        Question::FirstInst(block) => Form::one("first_inst", Arg::Block(block)),
        Question::LastInst(block) => Form::one("last_inst", Arg::Block(block)),
        Question::NextInst(inst) => Form::one("next_inst", Arg::Inst(inst)),
        Question::PrevInst(inst) => Form::one("prev_inst", Arg::Inst(inst)),
        Question::InstSeq(inst) => Form::one("inst_seq", Arg::Inst(inst)),
        Question::IsCold(block) => Form::one("is_cold", Arg::Block(block)),
        Question::BlockContainsExactlyOneInst(block) => Form::one(
            "block_contains_exactly_one_inst",
            Arg::Block(block),
        ),
        Question::BlockCapacity => Form::bare("block_capacity"),
    }
}

/// How a call of a cursor is written behind the cursor's name.
pub fn cursor_form(command: CursorCommand) -> Form
    ensures { form_of result ≡ cursor_form command }
{
    match command {
        CursorCommand::Call(call) => call_form(call),
        CursorCommand::Ask(CursorQuestion::CurrentInst) => Form::bare("current_inst"),
        CursorCommand::Ask(CursorQuestion::CurrentBlock) => Form::bare("current_block"),
        CursorCommand::Ask(CursorQuestion::Position) => Form::bare("position"),
    }
}

fn call_form(call: CursorCall) -> Form
    ensures { form_of result ≡ call_form call }
{
    match call {
        CursorCall::Goto(goto) => goto_form(goto),
        CursorCall::At(goto) => at_form(goto),
        CursorCall::Step(step) => Form::bare(step_name(step)),
        CursorCall::Position(question) => Form::bare(position_question_name(question)),
        CursorCall::Edit(edit) => cursor_edit_form(edit),
        CursorCall::SetPosition(position) => Form {
            name: "set_position",
            args: position_args(position),
        },
        CursorCall::AtPosition(position) => Form {
            name: "at_position",
            args: position_args(position),
        },
    }
}

fn goto_form(goto: Goto) -> Form
    ensures { form_of result ≡ goto_form goto }
{
    match goto {
        Goto::Inst(inst) => Form::one("goto_inst", Arg::Inst(inst)),
        Goto::AfterInst(inst) => Form::one("goto_after_inst", Arg::Inst(inst)),
        Goto::FirstInst(block) => Form::one("goto_first_inst", Arg::Block(block)),
        Goto::LastInst(block) => Form::one("goto_last_inst", Arg::Block(block)),
        Goto::FirstInsertionPoint(block) => Form::one(
            "goto_first_insertion_point",
            Arg::Block(block),
        ),
        Goto::Top(block) => Form::one("goto_top", Arg::Block(block)),
        Goto::Bottom(block) => Form::one("goto_bottom", Arg::Block(block)),
    }
}

fn at_form(goto: Goto) -> Form
    ensures { form_of result ≡ at_form goto }
{
    match goto {
        Goto::Inst(inst) => Form::one("at_inst", Arg::Inst(inst)),
        Goto::AfterInst(inst) => Form::one("after_inst", Arg::Inst(inst)),
        Goto::FirstInst(block) => Form::one("at_first_inst", Arg::Block(block)),
        Goto::LastInst(block) => Form::one("at_last_inst", Arg::Block(block)),
        Goto::FirstInsertionPoint(block) => Form::one(
            "at_first_insertion_point",
            Arg::Block(block),
        ),
        Goto::Top(block) => Form::one("at_top", Arg::Block(block)),
        Goto::Bottom(block) => Form::one("at_bottom", Arg::Block(block)),
    }
}

fn step_name(step: Step) -> &'static str
    ensures { bare result.now ≡ step_form step }
{
    match step {
        Step::NextInst => "next_inst",
        Step::PrevInst => "prev_inst",
        Step::NextBlock => "next_block",
        Step::PrevBlock => "prev_block",
    }
}

fn position_question_name(question: PositionQuestion) -> &'static str
    ensures { bare result.now ≡ position_question_form question }
{
    match question {
        PositionQuestion::NextInst => "next_inst_position",
        PositionQuestion::PrevInst => "prev_inst_position",
        PositionQuestion::NextBlock => "next_block_position",
        PositionQuestion::PrevBlock => "prev_block_position",
        PositionQuestion::Next => "next_position",
        PositionQuestion::Prev => "prev_position",
    }
}

fn cursor_edit_form(edit: CursorEdit) -> Form
    ensures { form_of result ≡ cursor_edit_form edit }
{
    match edit {
        CursorEdit::InsertInst(inst) => Form::one("insert_inst", Arg::Inst(inst)),
        CursorEdit::RemoveInst => Form::bare("remove_inst"),
        CursorEdit::RemoveInstAndStepBack => Form::bare("remove_inst_and_step_back"),
        CursorEdit::ReplaceInst(inst) => Form::one("replace_inst", Arg::Inst(inst)),
        CursorEdit::InsertBlock(block) => Form::one("insert_block", Arg::Block(block)),
    }
}

/// How a position is written.
pub fn position_args(position: CursorPosition) -> Args
    ensures { result ≡ position_args position }
{
    match position {
        CursorPosition::Nowhere => Args::One(Arg::Nowhere),
        CursorPosition::At(inst) => Args::Two(Arg::At, Arg::Inst(inst)),
        CursorPosition::Before(block) => Args::Two(Arg::Before, Arg::Block(block)),
        CursorPosition::After(block) => Args::Two(Arg::After, Arg::Block(block)),
    }
}

/// The name of a kind of cursors.
pub fn kind_name(kind: CursorKind) -> &'static str
    ensures { result.now ≡ kind_word kind }
{
    match kind {
        CursorKind::Func => "func",
        CursorKind::Word => "word",
    }
}
