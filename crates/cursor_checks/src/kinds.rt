//! What each kind of cursor keeps, and the calls of cursors by name.

#[cfg(test)]
use crate::plain::{Do, Place, Stop, To, built, walks};
use Place::{After, At, Before, Nowhere};
use Stop::{B, I};
use calls::{Call, PositionQuestion, Step};
use cursor::func::FuncCursor;
use cursor::sourceloc::SourceLoc;
use cursor::word::WordCursor;
use cursor::{Cursor, CursorPosition};
use cursor_faults::CursorFault;
use entities::{Block, Inst};
use faults::{Entity, Layer, LayoutFault};

const WORDS: &[(Place, u64)] = &[
    (Nowhere, 0),
    (At(0), 0x1_0000_0000),
    (At(1023), 0x1_0000_03ff),
    (At(4294967295), 0x1_ffff_ffff),
    (Before(0), 0x2_0000_0000),
    (Before(256), 0x2_0000_0100),
    (Before(4294967295), 0x2_ffff_ffff),
    (After(0), 0x3_0000_0000),
    (After(4294967295), 0x3_ffff_ffff),
];

#[test]
fn words_of_positions(rt: HostRuntime) {
    let mut cursor = WordCursor::new();
    assert!(rt; cursor.word() == 0 && is_at(&cursor, Nowhere));
    for (place, word) in WORDS {
        cursor.set_position((*place).into());
        assert!(rt; cursor.word() == *word && is_at(&cursor, *place));
    }
}

// The instruction of a position, and its block. The instruction need not be inserted, but then it has no block.
const CURRENT: &[(Place, Option<u32>, Option<u32>)] = &[
    (Nowhere, None, None),
    (At(7), Some(7), Some(2)),
    (At(5), Some(5), Some(9)),
    (At(3), Some(3), None),
    (At(1024), Some(1024), None),
    (Before(0), None, Some(0)),
    (Before(4), None, Some(4)),
    (After(9), None, Some(9)),
    (After(256), None, Some(256)),
];

#[test]
fn what_is_current(rt: HostRuntime) {
    let layout = built();
    let mut cursor = FuncCursor::new();
    for (place, inst, block) in CURRENT {
        cursor.set_position((*place).into());
        assert!(rt; steps::current_inst(&cursor) == inst.map(Inst::from_u32));
        assert!(rt; steps::current_block(&cursor, &layout) == block.map(Block::from_u32));
    }
}

// Calls of every sort, at inst1.
const SORTS: &[Do] = &[
    Do::Goto(To::Bottom(9)),
    Do::Goto(To::Bottom(4)),
    Do::At(To::Top(9)),
    Do::At(To::Top(4)),
    Do::Step(Step::NextInst),
    Do::Step(Step::PrevBlock),
    Do::Ask(PositionQuestion::Next),
    Do::InsertInst(3),
    Do::InsertInst(1024),
    Do::Remove,
    Do::RemoveAndBack,
    Do::Replace(3),
    Do::Replace(7),
    Do::InsertBlock(4),
    Do::SetPosition(After(256)),
    Do::AtPosition(Before(0)),
];

#[test]
fn source_locations_stay(rt: HostRuntime) {
    let fresh = FuncCursor::new();
    assert!(rt; fresh.srcloc() == SourceLoc::default() && fresh.srcloc().bits() == 4294967295);
    let mut moved = located(After(0));
    moved.set_srcloc(SourceLoc::new(5));
    assert!(rt; moved.srcloc().bits() == 5 && is_at(&moved, After(0)));
    for call in SORTS {
        let mut layout = built();
        let mut cursors = [located(At(1))];
        let call = Call::Cursor(0, (*call).into());
        assert!(rt; replay::apply(&mut layout, &mut cursors, call).is_some());
        assert!(rt; cursors[0].srcloc().bits() == LOCATION);
    }
}

// ---- the calls that take a cursor and hand it back

#[test]
fn cursors_come_back(rt: HostRuntime) {
    let layout = built();
    let last = Inst::from_u32(7);
    assert!(rt; comes_back(gotos::at_inst(located(At(3)), &layout, last), At(7)));
    assert!(rt; comes_back(gotos::after_inst(located(At(3)), &layout, last), After(2)));
    let home = Block::from_u32(2);
    assert!(rt; comes_back(gotos::at_first_inst(located(At(3)), &layout, home), At(0)));
    assert!(rt; comes_back(gotos::at_last_inst(located(At(3)), &layout, home), At(7)));
    let empty = Block::from_u32(0);
    let point = gotos::at_first_insertion_point(located(At(3)), &layout, empty);
    assert!(rt; comes_back(point, After(0)));
    assert!(rt; comes_back(gotos::at_top(located(At(3)), &layout, empty), Before(0)));
    assert!(rt; comes_back(gotos::at_bottom(located(At(3)), &layout, empty), After(0)));
    let nowhere = gotos::at_position(located(At(3)), CursorPosition::Nowhere);
    assert!(rt; nowhere.srcloc().bits() == LOCATION && is_at(&nowhere, Nowhere));
}

#[test]
fn cursors_come_back_refused(rt: HostRuntime) {
    let layout = built();
    let out = Inst::from_u32(3);
    let fault = CursorFault::Layout(LayoutFault::NotInserted(Entity::Inst(out)));
    assert!(rt; is_refused(gotos::at_inst(located(At(1)), &layout, out), fault));
    assert!(rt; is_refused(gotos::after_inst(located(At(1)), &layout, out), fault));
    let empty = Block::from_u32(0);
    let fault = CursorFault::Empty(Entity::Block(empty));
    assert!(rt; is_refused(gotos::at_first_inst(located(At(1)), &layout, empty), fault));
    assert!(rt; is_refused(gotos::at_last_inst(located(At(1)), &layout, empty), fault));
    let far = Block::from_u32(256);
    let fault = CursorFault::Layout(LayoutFault::OutOfRange(Entity::Block(far)));
    let point = gotos::at_first_insertion_point(located(At(1)), &layout, far);
    assert!(rt; is_refused(point, fault));
    assert!(rt; is_refused(gotos::at_top(located(At(1)), &layout, far), fault));
    assert!(rt; is_refused(gotos::at_bottom(located(At(1)), &layout, far), fault));
}

// ---- the other calls, each by its name

#[test]
fn gotos_by_name(rt: HostRuntime) {
    let layout = built();
    let mut cursor = WordCursor::new();
    let last = Inst::from_u32(7);
    let led = gotos::goto_inst(&mut cursor, &layout, last);
    assert!(rt; led == Ok(()) && is_at(&cursor, At(7)));
    let led = gotos::goto_after_inst(&mut cursor, &layout, last);
    assert!(rt; led == Ok(()) && is_at(&cursor, After(2)));
    let home = Block::from_u32(2);
    let led = gotos::goto_first_inst(&mut cursor, &layout, home);
    assert!(rt; led == Ok(()) && is_at(&cursor, At(0)));
    let led = gotos::goto_last_inst(&mut cursor, &layout, home);
    assert!(rt; led == Ok(()) && is_at(&cursor, At(7)));
    let led = gotos::goto_first_insertion_point(&mut cursor, &layout, home);
    assert!(rt; led == Ok(()) && is_at(&cursor, At(0)));
    let led = gotos::goto_top(&mut cursor, &layout, home);
    assert!(rt; led == Ok(()) && is_at(&cursor, Before(2)));
    let led = gotos::goto_bottom(&mut cursor, &layout, home);
    assert!(rt; led == Ok(()) && is_at(&cursor, After(2)));
}

#[test]
fn steps_by_name(rt: HostRuntime) {
    let layout = built();
    let mut cursor = FuncCursor::new();
    assert!(rt; steps::next_block_position(&cursor, &layout) == Ok(Before(2).into()));
    assert!(rt; steps::prev_block_position(&cursor, &layout) == Ok(After(9).into()));
    assert!(rt; steps::next_block(&mut cursor, &layout) == Ok(Some(Block::from_u32(2))));
    assert!(rt; steps::prev_inst_position(&cursor, &layout) == Ok(None));
    assert!(rt; steps::next_inst_position(&cursor, &layout) == Ok(Some(At(0).into())));
    assert!(rt; steps::next_inst(&mut cursor, &layout) == Ok(Some(Inst::from_u32(0))));
    assert!(rt; steps::prev_inst(&mut cursor, &layout) == Ok(None) && is_at(&cursor, Before(2)));
    assert!(rt; steps::prev_block(&mut cursor, &layout) == Ok(None) && is_at(&cursor, Nowhere));
}

#[test]
fn edits_by_name(rt: HostRuntime) {
    let mut layout = built();
    let mut cursor = WordCursor::new();
    cursor.set_position(At(7).into());
    let free = Inst::from_u32(3);
    assert!(rt; cursor_edits::insert_inst(&mut cursor, &mut layout, free) == Ok(1));
    let last = Inst::from_u32(7);
    assert!(rt; cursor_edits::remove_inst_and_step_back(&mut cursor, &mut layout) == Ok((last, 0)));
    assert!(rt; is_at(&cursor, At(3)));
    assert!(rt; cursor_edits::replace_inst(&mut cursor, &mut layout, last) == Ok((free, 1)));
    assert!(rt; cursor_edits::insert_block(&mut cursor, &mut layout, Block::from_u32(4)) == Ok(0));
    cursor.set_position(At(5).into());
    assert!(rt; cursor_edits::remove_inst(&mut cursor, &mut layout) == Ok((Inst::from_u32(5), 0)));
    let stops = [B(2), I(0, 10), I(1, 20), I(7, 30), B(4), B(0), B(9)];
    assert!(rt; is_at(&cursor, After(9)) && walks(&layout, &stops));
}

#[test]
fn faults_by_name(rt: HostRuntime) {
    let mut layout = built();
    let mut cursor = FuncCursor::new();
    let nothing_to_take = cursor_edits::remove_inst(&mut cursor, &mut layout).err();
    assert!(rt; is_fault(nothing_to_take, 4, Layer::Cursor, None, None));
    let block = Block::from_u32(0);
    let at_fault = Some(Entity::Block(block));
    let nothing_there = gotos::goto_last_inst(&mut cursor, &layout, block).err();
    assert!(rt; is_fault(nothing_there, 8, Layer::Cursor, at_fault, None));
    let inside = Some(LayoutFault::AlreadyInserted(Entity::Block(block)));
    let inserted = cursor_edits::insert_block(&mut cursor, &mut layout, block).err();
    assert!(rt; is_fault(inserted, 6, Layer::Layout, at_fault, inside));
    cursor.set_position(At(3).into());
    let stale = steps::next_inst(&mut cursor, &layout).err();
    assert!(rt;
        is_fault(
            stale,
            3,
            Layer::Cursor,
            Some(Entity::Inst(Inst::from_u32(3))),
            None
        )
    );
}

// ---- what the tests share

// The bits of a source location.
const LOCATION: u32 = 77;

fn located(place: Place) -> FuncCursor {
    let mut cursor = FuncCursor::new().with_srcloc(SourceLoc::new(LOCATION));
    cursor.set_position(place.into());
    cursor
}

fn is_at<C: Cursor>(cursor: &C, place: Place) -> bool {
    cursor.position() == place.into()
}

// Is this the cursor that was given, at this place?
fn comes_back(back: Result<FuncCursor, (FuncCursor, CursorFault)>, place: Place) -> bool {
    match back {
        Ok(cursor) => cursor.srcloc().bits() == LOCATION && is_at(&cursor, place),
        Err(_) => false,
    }
}

// Is this the cursor that was given, still at inst1, beside this refusal?
fn is_refused(back: Result<FuncCursor, (FuncCursor, CursorFault)>, fault: CursorFault) -> bool {
    match back {
        Ok(_) => false,
        Err((cursor, told)) => {
            cursor.srcloc().bits() == LOCATION && is_at(&cursor, At(1)) && told == fault
        }
    }
}

// Does the refusal tell this, and have this refusal of the layout inside?
fn is_fault(
    fault: Option<CursorFault>,
    number: u32,
    layer: Layer,
    entity: Option<Entity>,
    inside: Option<LayoutFault>,
) -> bool {
    match fault {
        Some(fault) => {
            fault.number() == number
                && fault.layer() == layer
                && fault.entity() == entity
                && fault.layout_fault() == inside
        }
        None => false,
    }
}
