//! Every refusal of a cursor call, from every position where it comes: the cursor stays, and so does the layout.

#[cfg(test)]
use crate::plain::{BUILT_WALK, Do, EVERYWHERE, Place, Thing, To, Told, both_lead, built, walks};
use Do::{Ask, InsertBlock, InsertInst, Remove, RemoveAndBack, Replace};
use Place::{After, At, Before, Nowhere};
use Thing::{B, I};
use To::{AfterInst, Bottom, FirstInsertionPoint, FirstInst, Inst, LastInst, Top};
use Told::{ByCursor, Carried};
use calls::{PositionQuestion, Step};

// How a goto is refused, from anywhere: what is out of range, not inserted, or without an instruction.
const NOT_LED: &[(To, Told)] = &[
    (Inst(3), Carried(5, I(3))),
    (Inst(1023), Carried(5, I(1023))),
    (Inst(1024), Carried(2, I(1024))),
    (Inst(4294967295), Carried(2, I(4294967295))),
    (AfterInst(3), Carried(5, I(3))),
    (AfterInst(1023), Carried(5, I(1023))),
    (AfterInst(1024), Carried(2, I(1024))),
    (AfterInst(4294967295), Carried(2, I(4294967295))),
    (FirstInst(0), ByCursor(8, Some(B(0)))),
    (FirstInst(4), Carried(5, B(4))),
    (FirstInst(255), Carried(5, B(255))),
    (FirstInst(256), Carried(2, B(256))),
    (FirstInst(4294967295), Carried(2, B(4294967295))),
    (LastInst(0), ByCursor(8, Some(B(0)))),
    (LastInst(4), Carried(5, B(4))),
    (LastInst(255), Carried(5, B(255))),
    (LastInst(256), Carried(2, B(256))),
    (LastInst(4294967295), Carried(2, B(4294967295))),
    (FirstInsertionPoint(4), Carried(5, B(4))),
    (FirstInsertionPoint(255), Carried(5, B(255))),
    (FirstInsertionPoint(256), Carried(2, B(256))),
    (FirstInsertionPoint(4294967295), Carried(2, B(4294967295))),
    (Top(4), Carried(5, B(4))),
    (Top(255), Carried(5, B(255))),
    (Top(256), Carried(2, B(256))),
    (Top(4294967295), Carried(2, B(4294967295))),
    (Bottom(4), Carried(5, B(4))),
    (Bottom(255), Carried(5, B(255))),
    (Bottom(256), Carried(2, B(256))),
    (Bottom(4294967295), Carried(2, B(4294967295))),
];

// How an edit with a number out of range is refused, from anywhere.
const FAR: &[(Do, Told)] = &[
    (InsertInst(1024), Carried(2, I(1024))),
    (InsertInst(4294967295), Carried(2, I(4294967295))),
    (Replace(1024), Carried(2, I(1024))),
    (Replace(4294967295), Carried(2, I(4294967295))),
    (InsertBlock(256), Carried(2, B(256))),
    (InsertBlock(4294967295), Carried(2, B(4294967295))),
];

// The positions on something that is not inserted, and what is at fault there.
const STALE: &[(Place, Thing)] = &[
    (At(3), I(3)),
    (At(1024), I(1024)),
    (At(4294967295), I(4294967295)),
    (Before(4), B(4)),
    (Before(256), B(256)),
    (Before(4294967295), B(4294967295)),
    (After(4), B(4)),
    (After(256), B(256)),
    (After(4294967295), B(4294967295)),
];

// The calls that are refused there: steps, position questions, and edits, some of which would be refused elsewhere for another reason, and
// some of which name what the cursor is on.
const ASKED_TO_STAND: &[Do] = &[
    Do::Step(Step::NextInst),
    Do::Step(Step::PrevInst),
    Do::Step(Step::NextBlock),
    Do::Step(Step::PrevBlock),
    Ask(PositionQuestion::NextInst),
    Ask(PositionQuestion::PrevInst),
    Ask(PositionQuestion::NextBlock),
    Ask(PositionQuestion::PrevBlock),
    Ask(PositionQuestion::Next),
    Ask(PositionQuestion::Prev),
    InsertInst(6),
    InsertInst(1),
    Remove,
    RemoveAndBack,
    Replace(6),
    Replace(1),
    Replace(3),
    InsertBlock(8),
    InsertBlock(0),
    InsertBlock(4),
];

// What is refused from these positions: an edit that they do not allow, and what is inserted already. The first comes ahead of the second.
#[rattlefmt::skip]
const THERE: &[(&[Place], &[Do], Told)] = &[
    (&[Nowhere, Before(2), Before(0), Before(9)], &[InsertInst(3), InsertInst(1)], ByCursor(4, None)),
    (&[Nowhere, Before(2), Before(0), Before(9)], &[Remove, RemoveAndBack, Replace(3), Replace(1)], ByCursor(4, None)),
    (&[After(2), After(0), After(9)], &[Remove, RemoveAndBack, Replace(3), Replace(1)], ByCursor(4, None)),
    (&[At(0), At(1), At(7), At(5), After(2), After(0), After(9)], &[InsertInst(1)], Carried(6, I(1))),
    (&[At(0), At(7), At(5)], &[Replace(1)], Carried(6, I(1))),
    (&[At(1), At(7), At(5)], &[Replace(0)], Carried(6, I(0))),
    (&[Nowhere, At(0), At(1), At(7), At(5)], &[InsertBlock(0)], Carried(6, B(0))),
    (&[Before(2), Before(0), Before(9), After(2), After(0), After(9)], &[InsertBlock(0)], Carried(6, B(0))),
];

#[test]
fn gotos_refused_anywhere(rt: HostRuntime) {
    let mut layout = built();
    for from in EVERYWHERE {
        for (to, told) in NOT_LED {
            assert!(rt; both_lead(&mut layout, *from, Do::Goto(*to), *told, *from));
            assert!(rt; both_lead(&mut layout, *from, Do::At(*to), *told, *from));
        }
    }
    assert!(rt; walks(&layout, BUILT_WALK));
}

#[test]
fn edits_refused_anywhere(rt: HostRuntime) {
    let mut layout = built();
    for from in EVERYWHERE {
        for (edit, told) in FAR {
            assert!(rt; both_lead(&mut layout, *from, *edit, *told, *from));
        }
    }
    assert!(rt; walks(&layout, BUILT_WALK));
}

#[test]
fn refused_at_stale_positions(rt: HostRuntime) {
    let mut layout = built();
    for (from, thing) in STALE {
        for call in ASKED_TO_STAND {
            let told = ByCursor(3, Some(*thing));
            assert!(rt; both_lead(&mut layout, *from, *call, told, *from));
        }
    }
    assert!(rt; walks(&layout, BUILT_WALK));
}

#[test]
fn edits_refused_there(rt: HostRuntime) {
    let mut layout = built();
    for (places, edits, told) in THERE {
        for from in *places {
            for edit in *edits {
                assert!(rt; both_lead(&mut layout, *from, *edit, *told, *from));
            }
        }
    }
    assert!(rt; walks(&layout, BUILT_WALK));
}
