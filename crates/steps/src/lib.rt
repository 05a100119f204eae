//! Steps of a cursor of any kind, and where they would lead.

#![tactic(auto)]

ghost use Rattle.std.specs.Prelude.{◌≡◌, true};
ghost use Rattle.cursor.specs.Positions.{current_inst, current_block, standing};
ghost use Rattle.cursor_faults.specs.Moves.{Goes, asked_position, next_inst_position, prev_inst_position, next_block_position, prev_block_position, next_position, prev_position, next_inst_rule, prev_inst_rule, next_block_rule, prev_block_rule};
ghost use Rattle.cursor_faults.specs.Questions.{CursorFirstNo, standing_asked};
ghost use Rattle.cursor_faults.specs.Refusals.{cursor_told};
ghost use Rattle.faults.specs.Refusals.{SameIfRefused};
ghost use Rattle.layout.specs.Program.{program};
ghost use Rattle.steps.specs.Steps.{inst_step, block_step};

use cursor::{Cursor, CursorPosition};
use cursor_faults::CursorFault;
use entities::{Block, Inst};
use faults::Entity;
use layout::Layout;

/// Which way a step goes.
#[derive(Clone, Copy, PartialEq, Eq, Debug)]
pub enum Direction {
    Forward,
    Backward,
}

/// The instruction at which the cursor is.
pub fn current_inst<C: Cursor>(cursor: &C) -> Option<Inst>
    ensures { result ≡ current_inst (C.pos cursor.now) }
{
    match cursor.position() {
        CursorPosition::At(inst) => Some(inst),
        _ => None,
    }
}

/// The block of that instruction, or the one before or after which the cursor is.
pub fn current_block<C: Cursor>(cursor: &C, layout: &Layout) -> Option<Block>
    ensures { result ≡ current_block (C.pos cursor.now) (program layout.now) }
{
    match cursor.position() {
        CursorPosition::Nowhere => None,
        CursorPosition::At(inst) => layout.inst_block(inst),
        CursorPosition::Before(block) | CursorPosition::After(block) => Some(block),
    }
}

// ---- where a step would lead

/// Where `next_inst` would lead; none where it has no position to go to.
pub fn next_inst_position<C: Cursor>(
    cursor: &C,
    layout: &Layout,
) -> Result<Option<CursorPosition>, CursorFault>
    ensures { cursor_told result ≡ asked_position next_inst_position (C.pos cursor.now) (program layout.now) }
{
    let at = cursor.position();
    ensure_standing(layout, at)?;
    Ok(inst_step(layout, at, Direction::Forward))
}

/// Where `prev_inst` would lead; none where it has no position to go to.
pub fn prev_inst_position<C: Cursor>(
    cursor: &C,
    layout: &Layout,
) -> Result<Option<CursorPosition>, CursorFault>
    ensures { cursor_told result ≡ asked_position prev_inst_position (C.pos cursor.now) (program layout.now) }
{
    let at = cursor.position();
    ensure_standing(layout, at)?;
    Ok(inst_step(layout, at, Direction::Backward))
}

/// Where `next_block` would lead.
pub fn next_block_position<C: Cursor>(
    cursor: &C,
    layout: &Layout,
) -> Result<CursorPosition, CursorFault>
    ensures { cursor_told result ≡ asked_position next_block_position (C.pos cursor.now) (program layout.now) }
{
    ensure_standing(layout, cursor.position())?;
    Ok(block_step(layout, current_block(cursor, layout), Direction::Forward))
}

/// Where `prev_block` would lead.
pub fn prev_block_position<C: Cursor>(
    cursor: &C,
    layout: &Layout,
) -> Result<CursorPosition, CursorFault>
    ensures { cursor_told result ≡ asked_position prev_block_position (C.pos cursor.now) (program layout.now) }
{
    ensure_standing(layout, cursor.position())?;
    Ok(block_step(layout, current_block(cursor, layout), Direction::Backward))
}

/// Where a walk forward goes on: the next instruction's position, or else the next block's.
pub fn next_position<C: Cursor>(cursor: &C, layout: &Layout) -> Result<CursorPosition, CursorFault>
    ensures { cursor_told result ≡ asked_position next_position (C.pos cursor.now) (program layout.now) }
{
    match next_inst_position(cursor, layout)? {
        Some(pos) => Ok(pos),
        None => next_block_position(cursor, layout),
    }
}

/// Where a walk backward goes on: the previous instruction's position, or else the previous block's.
pub fn prev_position<C: Cursor>(cursor: &C, layout: &Layout) -> Result<CursorPosition, CursorFault>
    ensures { cursor_told result ≡ asked_position prev_position (C.pos cursor.now) (program layout.now) }
{
    match prev_inst_position(cursor, layout)? {
        Some(pos) => Ok(pos),
        None => prev_block_position(cursor, layout),
    }
}

// ---- steps

/// Steps to the next instruction of the same block, or behind the block's instructions where there is none. From Nowhere and from behind a
/// block it stays. Answers the instruction that it stepped to.
pub fn next_inst<C: Cursor>(cursor: &mut C, layout: &Layout) -> Result<Option<Inst>, CursorFault>
    ensures rule { Goes (next_inst_rule (C.pos cursor.old) (program layout.now)) result (C.pos cursor.new) }
    ensures refused { SameIfRefused result cursor.old cursor.new }
{
    let Some(pos) = next_inst_position(cursor, layout)? else {
        return Ok(None);
    };
    cursor.set_position(pos);
    Ok(current_inst(cursor))
}

/// Steps to the previous instruction of the same block, or ahead of the block's instructions where there is none. From Nowhere and from
/// ahead of a block it stays. Answers the instruction that it stepped to.
pub fn prev_inst<C: Cursor>(cursor: &mut C, layout: &Layout) -> Result<Option<Inst>, CursorFault>
    ensures rule { Goes (prev_inst_rule (C.pos cursor.old) (program layout.now)) result (C.pos cursor.new) }
    ensures refused { SameIfRefused result cursor.old cursor.new }
{
    let Some(pos) = prev_inst_position(cursor, layout)? else {
        return Ok(None);
    };
    cursor.set_position(pos);
    Ok(current_inst(cursor))
}

/// Steps ahead of the instructions of the next block, from Nowhere of the first; where there is none, to Nowhere. Answers the block then
/// current.
pub fn next_block<C: Cursor>(cursor: &mut C, layout: &Layout) -> Result<Option<Block>, CursorFault>
    ensures rule { Goes (next_block_rule (C.pos cursor.old) (program layout.now)) result (C.pos cursor.new) }
    ensures refused { SameIfRefused result cursor.old cursor.new }
{
    let pos = next_block_position(cursor, layout)?;
    cursor.set_position(pos);
    Ok(current_block(cursor, layout))
}

/// Steps behind the instructions of the previous block, from Nowhere of the last; where there is none, to Nowhere. Answers the block then
/// current.
pub fn prev_block<C: Cursor>(cursor: &mut C, layout: &Layout) -> Result<Option<Block>, CursorFault>
    ensures rule { Goes (prev_block_rule (C.pos cursor.old) (program layout.now)) result (C.pos cursor.new) }
    ensures refused { SameIfRefused result cursor.old cursor.new }
{
    let pos = prev_block_position(cursor, layout)?;
    cursor.set_position(pos);
    Ok(current_block(cursor, layout))
}

// ---- what the steps and the cursor edits share

/// Asks whether `at` is Nowhere or on something inserted.
pub fn ensure_standing(layout: &Layout, at: CursorPosition) -> Result<(), CursorFault>
    ensures { CursorFirstNo (standing_asked at (program layout.now)) result (standing at (program layout.now) ≡ true) }
{
    match at {
        CursorPosition::Nowhere => Ok(()),
        CursorPosition::At(inst) => match layout.inst_block(inst) {
            Some(_) => Ok(()),
            None => Err(CursorFault::Stale(Entity::Inst(inst))),
        },
        CursorPosition::Before(block) | CursorPosition::After(block) => {
            if layout.is_block_inserted(block) {
                Ok(())
            } else {
                Err(CursorFault::Stale(Entity::Block(block)))
            }
        }
    }
}

/// Where an instruction step leads from `at`; none where it has no position to go to.
pub fn inst_step(
    layout: &Layout,
    at: CursorPosition,
    direction: Direction,
) -> Option<CursorPosition>
    ensures { result ≡ inst_step direction at (program layout.now) }
{
    use CursorPosition::{After, At, Before, Nowhere};
    use Direction::{Backward, Forward};
    match (at, direction) {
        (At(inst), Forward) => layout
            .next_inst(inst)
            .map(At)
            .or(layout.inst_block(inst).map(After)),
        (Before(block), Forward) => layout.first_inst(block).map(At).or(Some(After(block))),
        (Nowhere | After(_), Forward) => None,
        (At(inst), Backward) => layout
            .prev_inst(inst)
            .map(At)
            .or(layout.inst_block(inst).map(Before)),
        (After(block), Backward) => layout.last_inst(block).map(At).or(Some(Before(block))),
        (Nowhere | Before(_), Backward) => None,
    }
}

// Where a block step leads from the block `current`, or from nowhere.
fn block_step(layout: &Layout, current: Option<Block>, direction: Direction) -> CursorPosition
    ensures { result ≡ block_step direction current (program layout.now) }
{
    let block = match (current, direction) {
        (Some(block), Direction::Forward) => layout.next_block(block),
        (None, Direction::Forward) => layout.entry_block(),
        (Some(block), Direction::Backward) => layout.prev_block(block),
        (None, Direction::Backward) => layout.last_block(),
    };
    match (block, direction) {
        (Some(block), Direction::Forward) => CursorPosition::Before(block),
        (Some(block), Direction::Backward) => CursorPosition::After(block),
        (None, _) => CursorPosition::Nowhere,
    }
}
