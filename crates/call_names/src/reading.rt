//! From a name and its arguments to the call.

ghost use Rattle.std.specs.Prelude.{◌≡◌, ◌↔◌};
ghost use Rattle.cursor.specs.declared.CursorPosition.{CursorPosition as Position};
ghost use Rattle.calls.specs.declared.CursorCall.{CursorCall as Call};
ghost use Rattle.calls.specs.declared.Edit.{Edit as OneEdit};
ghost use Rattle.calls.specs.declared.PositionQuestion.{PositionQuestion as Asked};
ghost use Rattle.commands.specs.declared.LayoutCommand.{LayoutCommand as OfLayout};
ghost use Rattle.commands.specs.declared.CursorCommand.{CursorCommand as OfCursor};
ghost use Rattle.commands.specs.declared.CursorKind.{CursorKind as Kind};
ghost use Rattle.forms.specs.Forms.{bare, one, two};
ghost use Rattle.call_names.specs.Forms.{layout_form, cursor_form, call_form, edit_form, position_question_form, position_args, kind_word};

use calls::{CursorCall, CursorEdit, Edit, Goto, PositionQuestion, Step};
use commands::{CursorCommand, CursorKind, CursorQuestion, LayoutCommand, Question};
use cursor::CursorPosition;
use entities::{Block, Inst};
use forms::{Arg, Args};

/// The call of the layout with this name and these arguments.
pub fn layout_command(name: &str, args: Args) -> Option<LayoutCommand>
    ensures { (c : OfLayout) → result ≡ Some c ↔ layout_form c ≡ record { name = name.now; args = args } }
{
    match args {
        Args::None => bare(name),
        Args::One(Arg::Block(block)) => of_block(name, block),
        Args::One(Arg::Inst(inst)) => of_inst(name, inst),
        Args::Two(first, second) => of_two(name, first, second),
        _ => None,
    }
}

fn bare(name: &str) -> Option<LayoutCommand>
    ensures { (c : OfLayout) → result ≡ Some c ↔ layout_form c ≡ bare name.now }
{
    match name {
        "clear" => Some(LayoutCommand::Edit(Edit::Clear)),
        "entry_block" => Some(LayoutCommand::Ask(Question::EntryBlock)),
        "last_block" => Some(LayoutCommand::Ask(Question::LastBlock)),
        "block_capacity" => Some(LayoutCommand::Ask(Question::BlockCapacity)),
        "walk" => Some(LayoutCommand::Walk),
        "walk_back" => Some(LayoutCommand::WalkBack),
        _ => None,
    }
}

fn of_block(name: &str, block: Block) -> Option<LayoutCommand>
    ensures { (c : OfLayout) → result ≡ Some c ↔ layout_form c ≡ one name.now (Arg.Block block) }
{
    match name {
        "set_cold" => Some(LayoutCommand::Edit(Edit::SetCold(block))),
        "append_block" => Some(LayoutCommand::Edit(Edit::AppendBlock(block))),
        "remove_block" => Some(LayoutCommand::Edit(Edit::RemoveBlock(block))),
        "remove_block_and_insts" => Some(LayoutCommand::Edit(Edit::RemoveBlockAndInsts(block))),
        "pp_block" => Some(LayoutCommand::Ask(Question::PpBlock(block.into()))),
        "is_block_inserted" => Some(LayoutCommand::Ask(Question::IsBlockInserted(block))),
        "prev_block" => Some(LayoutCommand::Ask(Question::PrevBlock(block))),
        "next_block" => Some(LayoutCommand::Ask(Question::NextBlock(block))),
        "first_inst" => Some(LayoutCommand::Ask(Question::FirstInst(block))),
        "last_inst" => Some(LayoutCommand::Ask(Question::LastInst(block))),
        "is_cold" => Some(LayoutCommand::Ask(Question::IsCold(block))),
        "block_contains_exactly_one_inst" => Some(LayoutCommand::Ask(
            Question::BlockContainsExactlyOneInst(block),
        )),
        _ => None,
    }
}

fn of_inst(name: &str, inst: Inst) -> Option<LayoutCommand>
    ensures { (c : OfLayout) → result ≡ Some c ↔ layout_form c ≡ one name.now (Arg.Inst inst) }
{
    match name {
        "remove_inst" => Some(LayoutCommand::Edit(Edit::RemoveInst(inst))),
        "pp_block" => Some(LayoutCommand::Ask(Question::PpBlock(inst.into()))),
        "inst_block" => Some(LayoutCommand::Ask(Question::InstBlock(inst))),
        "next_inst" => Some(LayoutCommand::Ask(Question::NextInst(inst))),
        "prev_inst" => Some(LayoutCommand::Ask(Question::PrevInst(inst))),
        "inst_seq" => Some(LayoutCommand::Ask(Question::InstSeq(inst))),
        _ => None,
    }
}

fn of_two(name: &str, first: Arg, second: Arg) -> Option<LayoutCommand>
    ensures { (c : OfLayout) → result ≡ Some c ↔ layout_form c ≡ two name.now first second }
{
    match name {
        "pp_cmp" => Some(LayoutCommand::Ask(Question::PpCmp(first.point()?, second.point()?))),
        _ => edit_of_two(name, first, second).map(LayoutCommand::Edit),
    }
}

// The edit with this name and these two arguments.
fn edit_of_two(name: &str, first: Arg, second: Arg) -> Option<Edit>
    ensures { (e : OneEdit) → result ≡ Some e ↔ edit_form e ≡ two name.now first second }
{
    match (name, first, second) {
        ("insert_block", Arg::Block(block), Arg::Block(before)) => {
            Some(Edit::InsertBlock(block, before))
        }
        ("insert_block_after", Arg::Block(block), Arg::Block(after)) => {
            Some(Edit::InsertBlockAfter(block, after))
        }
        ("split_block", Arg::Block(block), Arg::Inst(before)) => {
            Some(Edit::SplitBlock(block, before))
        }
        ("append_inst", Arg::Inst(inst), Arg::Block(block)) => Some(Edit::AppendInst(inst, block)),
        ("insert_inst", Arg::Inst(inst), Arg::Inst(before)) => Some(Edit::InsertInst(inst, before)),
        _ => None,
    }
}

/// The call of a cursor with this name and these arguments.
pub fn cursor_command(name: &str, args: Args) -> Option<CursorCommand>
    ensures { (c : OfCursor) → result ≡ Some c ↔ cursor_form c ≡ record { name = name.now; args = args } }
{
    match args {
        Args::None => cursor_bare(name),
        Args::One(Arg::Block(block)) => cursor_of_block(name, block).map(CursorCommand::Call),
        Args::One(Arg::Inst(inst)) => cursor_of_inst(name, inst).map(CursorCommand::Call),
        _ => of_position(name, position(args)?).map(CursorCommand::Call),
    }
}

fn cursor_bare(name: &str) -> Option<CursorCommand>
    ensures { (c : OfCursor) → result ≡ Some c ↔ cursor_form c ≡ bare name.now }
{
    let call = match name {
        "current_inst" => return Some(CursorCommand::Ask(CursorQuestion::CurrentInst)),
        "current_block" => return Some(CursorCommand::Ask(CursorQuestion::CurrentBlock)),
        "position" => return Some(CursorCommand::Ask(CursorQuestion::Position)),
        "next_inst" => CursorCall::Step(Step::NextInst),
        "prev_inst" => CursorCall::Step(Step::PrevInst),
        "next_block" => CursorCall::Step(Step::NextBlock),
        "prev_block" => CursorCall::Step(Step::PrevBlock),
        "remove_inst" => CursorCall::Edit(CursorEdit::RemoveInst),
        "remove_inst_and_step_back" => CursorCall::Edit(CursorEdit::RemoveInstAndStepBack),
        _ => CursorCall::Position(position_question(name)?),
    };
    Some(CursorCommand::Call(call))
}

// The question with this name where a step would lead.
fn position_question(name: &str) -> Option<PositionQuestion>
    ensures { (q : Asked) → result ≡ Some q ↔ position_question_form q ≡ bare name.now }
{
    match name {
        "next_inst_position" => Some(PositionQuestion::NextInst),
        "prev_inst_position" => Some(PositionQuestion::PrevInst),
        "next_block_position" => Some(PositionQuestion::NextBlock),
        "prev_block_position" => Some(PositionQuestion::PrevBlock),
        "next_position" => Some(PositionQuestion::Next),
        "prev_position" => Some(PositionQuestion::Prev),
        _ => None,
    }
}

fn cursor_of_inst(name: &str, inst: Inst) -> Option<CursorCall>
    ensures { (c : Call) → result ≡ Some c ↔ call_form c ≡ one name.now (Arg.Inst inst) }
{
    match name {
        "goto_inst" => Some(CursorCall::Goto(Goto::Inst(inst))),
        "goto_after_inst" => Some(CursorCall::Goto(Goto::AfterInst(inst))),
        "at_inst" => Some(CursorCall::At(Goto::Inst(inst))),
        "after_inst" => Some(CursorCall::At(Goto::AfterInst(inst))),
        "insert_inst" => Some(CursorCall::Edit(CursorEdit::InsertInst(inst))),
        "replace_inst" => Some(CursorCall::Edit(CursorEdit::ReplaceInst(inst))),
        _ => None,
    }
}

fn cursor_of_block(name: &str, block: Block) -> Option<CursorCall>
    ensures { (c : Call) → result ≡ Some c ↔ call_form c ≡ one name.now (Arg.Block block) }
{
    match name {
        "goto_first_inst" => Some(CursorCall::Goto(Goto::FirstInst(block))),
        "goto_last_inst" => Some(CursorCall::Goto(Goto::LastInst(block))),
        "goto_first_insertion_point" => Some(CursorCall::Goto(Goto::FirstInsertionPoint(block))),
        "goto_top" => Some(CursorCall::Goto(Goto::Top(block))),
        "goto_bottom" => Some(CursorCall::Goto(Goto::Bottom(block))),
        "at_first_inst" => Some(CursorCall::At(Goto::FirstInst(block))),
        "at_last_inst" => Some(CursorCall::At(Goto::LastInst(block))),
        "at_first_insertion_point" => Some(CursorCall::At(Goto::FirstInsertionPoint(block))),
        "at_top" => Some(CursorCall::At(Goto::Top(block))),
        "at_bottom" => Some(CursorCall::At(Goto::Bottom(block))),
        "insert_block" => Some(CursorCall::Edit(CursorEdit::InsertBlock(block))),
        _ => None,
    }
}

fn of_position(name: &str, position: CursorPosition) -> Option<CursorCall>
    ensures { (c : Call) → result ≡ Some c ↔ call_form c ≡ record { name = name.now; args = position_args position } }
{
    match name {
        "set_position" => Some(CursorCall::SetPosition(position)),
        "at_position" => Some(CursorCall::AtPosition(position)),
        _ => None,
    }
}

fn position(args: Args) -> Option<CursorPosition>
    ensures { (p : Position) → result ≡ Some p ↔ position_args p ≡ args }
{
    match args {
        Args::One(Arg::Nowhere) => Some(CursorPosition::Nowhere),
        Args::Two(Arg::At, Arg::Inst(inst)) => Some(CursorPosition::At(inst)),
        Args::Two(Arg::Before, Arg::Block(block)) => Some(CursorPosition::Before(block)),
        Args::Two(Arg::After, Arg::Block(block)) => Some(CursorPosition::After(block)),
        _ => None,
    }
}

/// The kind of a cursor with this name.
pub fn kind(word: &str) -> Option<CursorKind>
    ensures { (k : Kind) → result ≡ Some k ↔ kind_word k ≡ word.now }
{
    match word {
        "func" => Some(CursorKind::Func),
        "word" => Some(CursorKind::Word),
        _ => None,
    }
}
