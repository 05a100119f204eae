//! Steps, position questions and gotos that are accepted, from every kind of position.

#[cfg(test)]
use crate::plain::{BUILT_WALK, Do, EVERYWHERE, Place, To, Told, both_lead, built, walks};
use Place::{After, At, Before, Nowhere};
use To::{AfterInst, Bottom, FirstInsertionPoint, FirstInst, LastInst, Top};
use Told::{Block, Inst, Position};
use calls::{PositionQuestion, Step};
use cursor::Cursor;
use cursor::word::WordCursor;
use layout::Layout;

const STEPS: &[Step] = &[
    Step::NextInst,
    Step::PrevInst,
    Step::NextBlock,
    Step::PrevBlock,
];

// What each step answers from a position, and where it leads.
#[rattlefmt::skip]
const STEPPED: &[(Place, &[(Told, Place)])] = &[
    (Nowhere, &[(Inst(None), Nowhere), (Inst(None), Nowhere), (Block(Some(2)), Before(2)), (Block(Some(9)), After(9))]),
    (At(0), &[(Inst(Some(1)), At(1)), (Inst(None), Before(2)), (Block(Some(0)), Before(0)), (Block(None), Nowhere)]),
    (At(1), &[(Inst(Some(7)), At(7)), (Inst(Some(0)), At(0)), (Block(Some(0)), Before(0)), (Block(None), Nowhere)]),
    (At(7), &[(Inst(None), After(2)), (Inst(Some(1)), At(1)), (Block(Some(0)), Before(0)), (Block(None), Nowhere)]),
    (At(5), &[(Inst(None), After(9)), (Inst(None), Before(9)), (Block(None), Nowhere), (Block(Some(0)), After(0))]),
    (Before(2), &[(Inst(Some(0)), At(0)), (Inst(None), Before(2)), (Block(Some(0)), Before(0)), (Block(None), Nowhere)]),
    (Before(0), &[(Inst(None), After(0)), (Inst(None), Before(0)), (Block(Some(9)), Before(9)), (Block(Some(2)), After(2))]),
    (Before(9), &[(Inst(Some(5)), At(5)), (Inst(None), Before(9)), (Block(None), Nowhere), (Block(Some(0)), After(0))]),
    (After(2), &[(Inst(None), After(2)), (Inst(Some(7)), At(7)), (Block(Some(0)), Before(0)), (Block(None), Nowhere)]),
    (After(0), &[(Inst(None), After(0)), (Inst(None), Before(0)), (Block(Some(9)), Before(9)), (Block(Some(2)), After(2))]),
    (After(9), &[(Inst(None), After(9)), (Inst(Some(5)), At(5)), (Block(None), Nowhere), (Block(Some(0)), After(0))]),
];

const QUESTIONS: &[PositionQuestion] = &[
    PositionQuestion::NextInst,
    PositionQuestion::PrevInst,
    PositionQuestion::NextBlock,
    PositionQuestion::PrevBlock,
    PositionQuestion::Next,
    PositionQuestion::Prev,
];

// The position that answers each question.
#[rattlefmt::skip]
const ASKED: &[(Place, &[Option<Place>])] = &[
    (Nowhere, &[None, None, Some(Before(2)), Some(After(9)), Some(Before(2)), Some(After(9))]),
    (At(0), &[Some(At(1)), Some(Before(2)), Some(Before(0)), Some(Nowhere), Some(At(1)), Some(Before(2))]),
    (At(1), &[Some(At(7)), Some(At(0)), Some(Before(0)), Some(Nowhere), Some(At(7)), Some(At(0))]),
    (At(7), &[Some(After(2)), Some(At(1)), Some(Before(0)), Some(Nowhere), Some(After(2)), Some(At(1))]),
    (At(5), &[Some(After(9)), Some(Before(9)), Some(Nowhere), Some(After(0)), Some(After(9)), Some(Before(9))]),
    (Before(2), &[Some(At(0)), None, Some(Before(0)), Some(Nowhere), Some(At(0)), Some(Nowhere)]),
    (Before(0), &[Some(After(0)), None, Some(Before(9)), Some(After(2)), Some(After(0)), Some(After(2))]),
    (Before(9), &[Some(At(5)), None, Some(Nowhere), Some(After(0)), Some(At(5)), Some(After(0))]),
    (After(2), &[None, Some(At(7)), Some(Before(0)), Some(Nowhere), Some(Before(0)), Some(At(7))]),
    (After(0), &[None, Some(Before(0)), Some(Before(9)), Some(After(2)), Some(Before(9)), Some(Before(0))]),
    (After(9), &[None, Some(At(5)), Some(Nowhere), Some(After(0)), Some(Nowhere), Some(At(5))]),
];

// Where each goto leads, from anywhere.
const LED: &[(To, Place)] = &[
    (To::Inst(0), At(0)),
    (To::Inst(1), At(1)),
    (To::Inst(7), At(7)),
    (To::Inst(5), At(5)),
    (AfterInst(0), At(1)),
    (AfterInst(1), At(7)),
    (AfterInst(7), After(2)),
    (AfterInst(5), After(9)),
    (FirstInst(2), At(0)),
    (FirstInst(9), At(5)),
    (LastInst(2), At(7)),
    (LastInst(9), At(5)),
    (FirstInsertionPoint(2), At(0)),
    (FirstInsertionPoint(0), After(0)),
    (FirstInsertionPoint(9), At(5)),
    (Top(2), Before(2)),
    (Top(0), Before(0)),
    (Top(9), Before(9)),
    (Bottom(2), After(2)),
    (Bottom(0), After(0)),
    (Bottom(9), After(9)),
];

// From Nowhere through every position forward, and back to Nowhere.
const ROUND: &[Place] = &[
    Nowhere,
    Before(2),
    At(0),
    At(1),
    At(7),
    After(2),
    Before(0),
    After(0),
    Before(9),
    At(5),
    After(9),
    Nowhere,
];

#[test]
fn steps_lead_on(rt: HostRuntime) {
    let mut layout = built();
    for (from, stepped) in STEPPED {
        assert!(rt; stepped.len() == STEPS.len());
        for (step, (told, then)) in STEPS.iter().zip(*stepped) {
            assert!(rt; both_lead(&mut layout, *from, Do::Step(*step), *told, *then));
        }
    }
    assert!(rt; walks(&layout, BUILT_WALK));
}

#[test]
fn questions_are_answered(rt: HostRuntime) {
    let mut layout = built();
    for (from, asked) in ASKED {
        assert!(rt; asked.len() == QUESTIONS.len());
        for (question, place) in QUESTIONS.iter().zip(*asked) {
            let told = Position(*place);
            assert!(rt; both_lead(&mut layout, *from, Do::Ask(*question), told, *from));
        }
    }
    assert!(rt; walks(&layout, BUILT_WALK));
}

// A goto asks nothing of the position that the cursor has.
#[test]
fn gotos_lead_from_anywhere(rt: HostRuntime) {
    let mut layout = built();
    for from in EVERYWHERE {
        for (to, then) in LED {
            assert!(rt; both_lead(&mut layout, *from, Do::Goto(*to), Told::Done, *then));
            assert!(rt; both_lead(&mut layout, *from, Do::At(*to), Told::Done, *then));
        }
    }
    assert!(rt; walks(&layout, BUILT_WALK));
}

// Any position is stored.
#[test]
fn positions_are_set(rt: HostRuntime) {
    let mut layout = built();
    for from in EVERYWHERE {
        for then in EVERYWHERE {
            let (set, at) = (Do::SetPosition(*then), Do::AtPosition(*then));
            assert!(rt; both_lead(&mut layout, *from, set, Told::Done, *then));
            assert!(rt; both_lead(&mut layout, *from, at, Told::Done, *then));
        }
    }
}

// On an empty layout no step leads anywhere.
#[rattlefmt::skip]
const ON_EMPTY: &[(Do, Told)] = &[
    (Do::Step(Step::NextInst), Inst(None)),
    (Do::Step(Step::PrevInst), Inst(None)),
    (Do::Step(Step::NextBlock), Block(None)),
    (Do::Step(Step::PrevBlock), Block(None)),
    (Do::Ask(PositionQuestion::NextInst), Position(None)),
    (Do::Ask(PositionQuestion::PrevInst), Position(None)),
    (Do::Ask(PositionQuestion::NextBlock), Position(Some(Nowhere))),
    (Do::Ask(PositionQuestion::PrevBlock), Position(Some(Nowhere))),
    (Do::Ask(PositionQuestion::Next), Position(Some(Nowhere))),
    (Do::Ask(PositionQuestion::Prev), Position(Some(Nowhere))),
];

#[test]
fn on_an_empty_layout(rt: HostRuntime) {
    let mut layout = Layout::new();
    for (call, told) in ON_EMPTY {
        assert!(rt; both_lead(&mut layout, Nowhere, *call, *told, Nowhere));
    }
}

#[test]
fn round_by_positions(rt: HostRuntime) {
    let layout = built();
    let mut cursor = WordCursor::new();
    for place in ROUND {
        assert!(rt; cursor.position() == (*place).into());
        if let Ok(next) = steps::next_position(&cursor, &layout) {
            cursor.set_position(next);
        }
    }
}

#[test]
fn round_backward(rt: HostRuntime) {
    let layout = built();
    let mut cursor = WordCursor::new();
    for place in ROUND.iter().rev() {
        assert!(rt; cursor.position() == (*place).into());
        if let Ok(prev) = steps::prev_position(&cursor, &layout) {
            cursor.set_position(prev);
        }
    }
}
