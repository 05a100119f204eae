//! Gotos of a cursor of any kind, and the calls that take a cursor and hand it back at the place.

#![tactic(auto)]

ghost use Rattle.std.specs.Prelude.{◌≡◌, true, not, Some};
ghost use Rattle.cursor_faults.specs.Moves.{Goes, ComesBack, goto_inst_rule, goto_after_inst_rule, goto_first_inst_rule, goto_last_inst_rule, goto_first_insertion_point_rule, goto_top_rule, goto_bottom_rule};
ghost use Rattle.cursor_faults.specs.Questions.{CursorFirstNo, goto_block_asked};
ghost use Rattle.cursor_faults.specs.declared.CursorFault.TheVariants.{Empty as no_inst};
ghost use Rattle.entities.specs.Reading.{inserted_block, last_inst, slots_of, empty};
ghost use Rattle.faults.specs.Questions.{Asked};
ghost use Rattle.faults.specs.declared.Entity.TheVariants.{Block as the_block};
ghost use Rattle.faults.specs.Refusals.{SameIfRefused};
ghost use Rattle.layout.specs.Program.{program};

use cursor::{Cursor, CursorPosition};
use cursor_faults::CursorFault;
use entities::{Block, Inst};
use faults::{Entity, LayoutFault};
use layout::Layout;

// ---- gotos

/// Goes to `inst`.
pub fn goto_inst<C: Cursor>(cursor: &mut C, layout: &Layout, inst: Inst) -> Result<(), CursorFault>
    ensures rule { Goes (goto_inst_rule inst (C.pos cursor.old) (program layout.now)) result (C.pos cursor.new) }
    ensures refused { SameIfRefused result cursor.old cursor.new }
{
    // refuses an `inst` that is out of range or not inserted
    layout.pp_block(inst.into())?;
    cursor.set_position(CursorPosition::At(inst));
    Ok(())
}

/// Goes behind `inst`: to the next instruction, or else behind its block.
pub fn goto_after_inst<C: Cursor>(
    cursor: &mut C,
    layout: &Layout,
    inst: Inst,
) -> Result<(), CursorFault>
    ensures rule { Goes (goto_after_inst_rule inst (C.pos cursor.old) (program layout.now)) result (C.pos cursor.new) }
    ensures refused { SameIfRefused result cursor.old cursor.new }
{
    let block = layout.pp_block(inst.into())?;
    let new_pos = match layout.next_inst(inst) {
        Some(next) => CursorPosition::At(next),
        None => CursorPosition::After(block),
    };
    cursor.set_position(new_pos);
    Ok(())
}

/// Goes to the first instruction of `block`. Refused where it has none.
pub fn goto_first_inst<C: Cursor>(
    cursor: &mut C,
    layout: &Layout,
    block: Block,
) -> Result<(), CursorFault>
    ensures rule { Goes (goto_first_inst_rule block (C.pos cursor.old) (program layout.now)) result (C.pos cursor.new) }
    ensures refused { SameIfRefused result cursor.old cursor.new }
{
    ensure_block_inserted(layout, block)?;
    let inst = layout
        .first_inst(block)
        .ok_or(CursorFault::Empty(Entity::Block(block)))?;
    cursor.set_position(CursorPosition::At(inst));
    Ok(())
}

/// Goes to the last instruction of `block`. Refused where it has none.
pub fn goto_last_inst<C: Cursor>(
    cursor: &mut C,
    layout: &Layout,
    block: Block,
) -> Result<(), CursorFault>
    ensures rule { Goes (goto_last_inst_rule block (C.pos cursor.old) (program layout.now)) result (C.pos cursor.new) }
    ensures refused { SameIfRefused result cursor.old cursor.new }
{
    ensure_block_inserted(layout, block)?;
    let inst = last_of(layout, block)?;
    cursor.set_position(CursorPosition::At(inst));
    Ok(())
}

/// Goes to the first instruction of `block`, or behind the block where it has none.
pub fn goto_first_insertion_point<C: Cursor>(
    cursor: &mut C,
    layout: &Layout,
    block: Block,
) -> Result<(), CursorFault>
    ensures rule { Goes (goto_first_insertion_point_rule block (C.pos cursor.old) (program layout.now)) result (C.pos cursor.new) }
    ensures refused { SameIfRefused result cursor.old cursor.new }
{
    ensure_block_inserted(layout, block)?;
    let new_pos = match layout.first_inst(block) {
        Some(inst) => CursorPosition::At(inst),
        None => CursorPosition::After(block),
    };
    cursor.set_position(new_pos);
    Ok(())
}

/// Goes ahead of the instructions of `block`.
pub fn goto_top<C: Cursor>(cursor: &mut C, layout: &Layout, block: Block) -> Result<(), CursorFault>
    ensures rule { Goes (goto_top_rule block (C.pos cursor.old) (program layout.now)) result (C.pos cursor.new) }
    ensures refused { SameIfRefused result cursor.old cursor.new }
{
    ensure_block_inserted(layout, block)?;
    cursor.set_position(CursorPosition::Before(block));
    Ok(())
}

/// Goes behind the instructions of `block`.
pub fn goto_bottom<C: Cursor>(
    cursor: &mut C,
    layout: &Layout,
    block: Block,
) -> Result<(), CursorFault>
    ensures rule { Goes (goto_bottom_rule block (C.pos cursor.old) (program layout.now)) result (C.pos cursor.new) }
    ensures refused { SameIfRefused result cursor.old cursor.new }
{
    ensure_block_inserted(layout, block)?;
    cursor.set_position(CursorPosition::After(block));
    Ok(())
}

// ---- a cursor taken, and handed back at the place, or as it was beside the refusal

/// The cursor at any position, inserted or not.
pub fn at_position<C: Cursor>(mut cursor: C, pos: CursorPosition) -> C
    ensures { C.pos result ≡ pos }
{
    cursor.set_position(pos);
    cursor
}

/// The cursor at `inst`.
pub fn at_inst<C: Cursor>(mut cursor: C, layout: &Layout, inst: Inst) -> Result<C, (C, CursorFault)>
    ensures { ComesBack C.pos cursor (goto_inst_rule inst (C.pos cursor) (program layout.now)) result }
{
    match goto_inst(&mut cursor, layout, inst) {
        Ok(()) => Ok(cursor),
        Err(fault) => Err((cursor, fault)),
    }
}

/// The cursor behind `inst`.
pub fn after_inst<C: Cursor>(
    mut cursor: C,
    layout: &Layout,
    inst: Inst,
) -> Result<C, (C, CursorFault)>
    ensures { ComesBack C.pos cursor (goto_after_inst_rule inst (C.pos cursor) (program layout.now)) result }
{
    match goto_after_inst(&mut cursor, layout, inst) {
        Ok(()) => Ok(cursor),
        Err(fault) => Err((cursor, fault)),
    }
}

/// The cursor at the first instruction of `block`.
pub fn at_first_inst<C: Cursor>(
    mut cursor: C,
    layout: &Layout,
    block: Block,
) -> Result<C, (C, CursorFault)>
    ensures { ComesBack C.pos cursor (goto_first_inst_rule block (C.pos cursor) (program layout.now)) result }
{
    match goto_first_inst(&mut cursor, layout, block) {
        Ok(()) => Ok(cursor),
        Err(fault) => Err((cursor, fault)),
    }
}

/// The cursor at the last instruction of `block`.
pub fn at_last_inst<C: Cursor>(
    mut cursor: C,
    layout: &Layout,
    block: Block,
) -> Result<C, (C, CursorFault)>
    ensures { ComesBack C.pos cursor (goto_last_inst_rule block (C.pos cursor) (program layout.now)) result }
{
    match goto_last_inst(&mut cursor, layout, block) {
        Ok(()) => Ok(cursor),
        Err(fault) => Err((cursor, fault)),
    }
}

/// The cursor at the first instruction of `block`, or behind the block.
pub fn at_first_insertion_point<C: Cursor>(
    mut cursor: C,
    layout: &Layout,
    block: Block,
) -> Result<C, (C, CursorFault)>
    ensures { ComesBack C.pos cursor (goto_first_insertion_point_rule block (C.pos cursor) (program layout.now)) result }
{
    match goto_first_insertion_point(&mut cursor, layout, block) {
        Ok(()) => Ok(cursor),
        Err(fault) => Err((cursor, fault)),
    }
}

/// The cursor ahead of the instructions of `block`.
pub fn at_top<C: Cursor>(
    mut cursor: C,
    layout: &Layout,
    block: Block,
) -> Result<C, (C, CursorFault)>
    ensures { ComesBack C.pos cursor (goto_top_rule block (C.pos cursor) (program layout.now)) result }
{
    match goto_top(&mut cursor, layout, block) {
        Ok(()) => Ok(cursor),
        Err(fault) => Err((cursor, fault)),
    }
}

/// The cursor behind the instructions of `block`.
pub fn at_bottom<C: Cursor>(
    mut cursor: C,
    layout: &Layout,
    block: Block,
) -> Result<C, (C, CursorFault)>
    ensures { ComesBack C.pos cursor (goto_bottom_rule block (C.pos cursor) (program layout.now)) result }
{
    match goto_bottom(&mut cursor, layout, block) {
        Ok(()) => Ok(cursor),
        Err(fault) => Err((cursor, fault)),
    }
}

// Asks whether `block` is in range, and then whether it is inserted.
fn ensure_block_inserted(layout: &Layout, block: Block) -> Result<(), CursorFault>
    ensures { CursorFirstNo (goto_block_asked block (program layout.now)) result (inserted_block block (program layout.now) ≡ true) }
{
    asked::ensure_in_range(block.into())?;
    let inserted = layout.is_block_inserted(block);
    asked::ensure(inserted, LayoutFault::NotInserted(Entity::Block(block)))?;
    Ok(())
}

// The last instruction of `block`. Asks whether it has one: a step of its own, since that a block with instructions has a last one is
// proved by induction.
fn last_of(layout: &Layout, block: Block) -> Result<Inst, CursorFault>
    ensures { Asked (not (empty (slots_of block (program layout.now)))) (no_inst (the_block block)) result (λ inst. last_inst block (program layout.now) ≡ Some inst) }
{
    match layout.last_inst(block) {
        Some(inst) => Ok(inst),
        None => Err(CursorFault::Empty(Entity::Block(block))),
    }
}
