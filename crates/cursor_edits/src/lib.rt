//! Edits at the position of a cursor of any kind.

#![tactic(auto)]

ghost use Rattle.std.specs.Prelude.{◌≡◌, true, None, Some, MatchResult};
ghost use Rattle.cursor.specs.Positions.{standing};
ghost use Rattle.cursor_edits.specs.Places.{place_in_range, put_asked};
ghost use Rattle.cursor_edits.specs.Replaced.{put_then_asked};
ghost use Rattle.cursor_faults.specs.Edits.{Works, told_taken, inst_put, inst_put_writes, insert_inst_rule, remove_inst_rule, take_inst_rule, remove_inst_and_step_back_rule, replace_inst_rule, insert_block_rule};
ghost use Rattle.cursor_faults.specs.Questions.{CursorFirstNo, put_inst_asked, replace_inst_asked};
ghost use Rattle.cursor_faults.specs.Refusals.{cursor_refusal_of, cursor_told};
ghost use Rattle.faults.specs.Questions.{first_no, in_range};
ghost use Rattle.faults.specs.Refusals.{SameIfRefused, accepted};
ghost use Rattle.layout.specs.Program.{program};

use cursor::{Cursor, CursorPosition};
use cursor_faults::CursorFault;
use entities::progpoint::ProgramPoint;
use entities::{Block, Inst};
use faults::{Entity, LayoutFault};
use layout::Layout;
use steps::Direction;

/// Puts `inst` in ahead of the instruction at which the cursor is, or at the end of the block after which it is, and numbers it. The cursor
/// stays, so that instructions put in one after the other stand in that order.
pub fn insert_inst<C: Cursor>(
    cursor: &mut C,
    layout: &mut Layout,
    inst: Inst,
) -> Result<u32, CursorFault>
    ensures rule { Works (insert_inst_rule inst (C.pos cursor.old) (program layout.old)) (cursor_told result) (program layout.new) (C.pos cursor.new) }
    ensures layout { SameIfRefused result layout.old layout.new }
    ensures cursor { cursor.new ≡ cursor.old }
{
    let at = cursor.position();
    ensure_open(layout, at, inst.into())?;
    match at {
        CursorPosition::At(before) => Ok(layout.insert_inst(inst, before)?),
        CursorPosition::After(block) => Ok(layout.append_inst(inst, block)?),
        CursorPosition::Nowhere | CursorPosition::Before(_) => Err(CursorFault::WrongPosition),
    }
}

/// Takes out the instruction at which the cursor is, and steps forward. Answers the instruction, and that no number was written.
pub fn remove_inst<C: Cursor>(
    cursor: &mut C,
    layout: &mut Layout,
) -> Result<(Inst, u32), CursorFault>
    ensures rule { Works (remove_inst_rule (C.pos cursor.old) (program layout.old)) (told_taken result) (program layout.new) (C.pos cursor.new) }
    ensures layout { SameIfRefused result layout.old layout.new }
    ensures cursor { SameIfRefused result cursor.old cursor.new }
{
    let next = steps::inst_step(layout, cursor.position(), Direction::Forward);
    take_inst(cursor, layout, next)
}

/// Takes out the instruction at which the cursor is, and steps back. Answers the instruction, and that no number was written.
pub fn remove_inst_and_step_back<C: Cursor>(
    cursor: &mut C,
    layout: &mut Layout,
) -> Result<(Inst, u32), CursorFault>
    ensures rule { Works (remove_inst_and_step_back_rule (C.pos cursor.old) (program layout.old)) (told_taken result) (program layout.new) (C.pos cursor.new) }
    ensures layout { SameIfRefused result layout.old layout.new }
    ensures cursor { SameIfRefused result cursor.old cursor.new }
{
    let prev = steps::inst_step(layout, cursor.position(), Direction::Backward);
    take_inst(cursor, layout, prev)
}

/// Takes out the instruction at which the cursor is, and puts `new_inst` in where that leads: ahead of the next instruction, where the
/// cursor then is, or at the end of the block. Answers the instruction taken out, and how many numbers were written. `new_inst` may be the
/// instruction taken out.
pub fn replace_inst<C: Cursor>(
    cursor: &mut C,
    layout: &mut Layout,
    new_inst: Inst,
) -> Result<(Inst, u32), CursorFault>
    ensures rule { Works (replace_inst_rule new_inst (C.pos cursor.old) (program layout.old)) (told_taken result) (program layout.new) (C.pos cursor.new) }
    ensures layout { SameIfRefused result layout.old layout.new }
    ensures cursor { SameIfRefused result cursor.old cursor.new }
{
    // asked whole before anything moves
    ensure_replaces(cursor, layout, new_inst)?;
    let (old_inst, taken) = remove_inst(cursor, layout)?;
    let put = put_inst(cursor, layout, new_inst)?;
    Ok((old_inst, taken + put))
}

/// Puts `new_block` in at the cursor. At an instruction the block is cut there: the instruction and all that follow it move, and the cursor
/// stays. Nowhere appends, before and after a block insert on that side, and the cursor goes behind the new block. Writes no number.
pub fn insert_block<C: Cursor>(
    cursor: &mut C,
    layout: &mut Layout,
    new_block: Block,
) -> Result<u32, CursorFault>
    ensures rule { Works (insert_block_rule new_block (C.pos cursor.old) (program layout.old)) (cursor_told result) (program layout.new) (C.pos cursor.new) }
    ensures layout { SameIfRefused result layout.old layout.new }
    ensures cursor { SameIfRefused result cursor.old cursor.new }
{
    let at = cursor.position();
    ensure_open(layout, at, new_block.into())?;
    let put = match at {
        CursorPosition::At(inst) => return Ok(layout.split_block(new_block, inst)?),
        CursorPosition::Nowhere => layout.append_block(new_block),
        CursorPosition::Before(block) => layout.insert_block(new_block, block),
        CursorPosition::After(block) => layout.insert_block_after(new_block, block),
    };
    let writes = put?;
    cursor.set_position(CursorPosition::After(new_block));
    Ok(writes)
}

// Asks whether `pp`, which is to be put in, is in range, and then whether `at` is Nowhere or on something inserted.
fn ensure_open(layout: &Layout, at: CursorPosition, pp: ProgramPoint) -> Result<(), CursorFault>
    ensures { MatchResult result (λ _. (in_range pp ≡ true) × ((standing at (program layout.now) ≡ true) × (place_in_range at ≡ true))) (λ f. first_no (put_asked pp at (program layout.now)) ≡ Some (cursor_refusal_of f)) }
{
    asked::ensure_in_range(pp)?;
    steps::ensure_standing(layout, at)?;
    Ok(())
}

// Takes out the instruction at which the cursor is, and moves the cursor to `to`, or leaves it where there is none. Answers the instruction,
// and that no number was written.
#[tactic(auto, using(layout::proofs::Ranges::out_of_range))]
fn take_inst<C: Cursor>(
    cursor: &mut C,
    layout: &mut Layout,
    to: Option<CursorPosition>,
) -> Result<(Inst, u32), CursorFault>
    ensures rule { Works (take_inst_rule to (C.pos cursor.old) (program layout.old)) (told_taken result) (program layout.new) (C.pos cursor.new) }
    ensures layout { SameIfRefused result layout.old layout.new }
    ensures cursor { SameIfRefused result cursor.old cursor.new }
{
    steps::ensure_standing(layout, cursor.position())?;
    let inst = steps::current_inst(cursor).ok_or(CursorFault::WrongPosition)?;
    let writes = layout.remove_inst(inst)?;
    if let Some(pos) = to {
        cursor.set_position(pos);
    }
    Ok((inst, writes))
}

// Everything that a replacement is asked. With a yes to all of it, `new_inst` can be put in once the old instruction is out.
#[tactic(auto, using(crate::proofs::Replacing::put_open))]
fn ensure_replaces<C: Cursor>(
    cursor: &C,
    layout: &Layout,
    new_inst: Inst,
) -> Result<(), CursorFault>
    ensures { CursorFirstNo (replace_inst_asked new_inst (C.pos cursor.now) (program layout.now)) result (first_no (put_then_asked new_inst (C.pos cursor.now) (program layout.now)) ≡ None) }
{
    asked::ensure_in_range(new_inst.into())?;
    steps::ensure_standing(layout, cursor.position())?;
    let old_inst = steps::current_inst(cursor).ok_or(CursorFault::WrongPosition)?;
    let absent = layout.inst_block(new_inst).is_none();
    asked::ensure(
        new_inst == old_inst || absent,
        LayoutFault::AlreadyInserted(Entity::Inst(new_inst)),
    )?;
    Ok(())
}

// `insert_inst`, where no question is left that could have a no.
fn put_inst<C: Cursor>(cursor: &mut C, layout: &mut Layout, inst: Inst) -> Result<u32, CursorFault>
    requires { first_no (put_inst_asked inst (C.pos cursor.now) (program layout.now)) ≡ None }
    ensures accepted { cursor_told result ≡ accepted (inst_put_writes inst (C.pos cursor.old) (program layout.old)) }
    ensures layout { program layout.new ≡ inst_put inst (C.pos cursor.old) (program layout.old) }
    ensures cursor { cursor.new ≡ cursor.old }
{
    insert_inst(cursor, layout, inst)
}
