//! Runs of calls on one layout with two cursors.

#[cfg(test)]
use crate::plain::{
    BUILT_WALK, Do, Make, Place, Stop, Thing, To, Told, Turn, both_kinds, built, walks,
};
use Place::{After, At, Before};
use Stop::{B, I};
use Told::{ByCursor, ByLayout, Carried, Done, Took, Wrote};
use Turn::{Cursor as With, Layout as Edit};
use calls::{Answer, Call, Outcome, PositionQuestion, Step};
use cursor::Cursor;
use cursor::func::FuncCursor;
use cursor::sourceloc::SourceLoc;
use cursor::word::WordCursor;
use entities::Block;
use layout::Layout;

// From an empty layout and two cursors that are Nowhere: each call, and what it answers.
#[rattlefmt::skip]
const RUN: &[(Turn, Told)] = &[
    // what is cleared leaves no mark, and a cursor that was there is stale
    (Edit(Make::AppendBlock(9)), Wrote(0)),
    (Edit(Make::SetCold(9)), Wrote(0)),
    (With(0, Do::InsertBlock(3)), Wrote(0)),
    (Edit(Make::Clear), Wrote(0)),
    (With(0, Do::InsertInst(1)), ByCursor(3, Some(Thing::B(3)))),
    (Edit(Make::AppendBlock(1)), Wrote(0)),
    (Edit(Make::AppendInst(10, 1)), Wrote(1)),
    // put in one after the other ahead of inst10, the last by local renumbering: 5, 7, 8, 9, and then 11 and 13 are written
    (With(0, Do::Goto(To::Inst(10))), Done),
    (With(0, Do::InsertInst(11)), Wrote(1)),
    (With(0, Do::InsertInst(12)), Wrote(1)),
    (With(0, Do::InsertInst(13)), Wrote(1)),
    (With(0, Do::InsertInst(14)), Wrote(1)),
    (With(0, Do::InsertInst(15)), Wrote(2)),
    (With(1, Do::At(To::FirstInst(1))), Done),
    (With(1, Do::Step(Step::NextInst)), Told::Inst(Some(12))),
    (With(1, Do::Remove), Took(12, 0)),
    // the second cursor goes stale, and is led off again
    (Edit(Make::RemoveInst(13)), Wrote(0)),
    (With(1, Do::Step(Step::NextInst)), ByCursor(3, Some(Thing::I(13)))),
    (With(1, Do::InsertBlock(2)), ByCursor(3, Some(Thing::I(13)))),
    (With(1, Do::Goto(To::Top(7))), Carried(5, Thing::B(7))),
    (With(1, Do::SetPosition(After(300))), Done),
    (With(1, Do::Step(Step::PrevBlock)), ByCursor(3, Some(Thing::B(300)))),
    (With(1, Do::AtPosition(At(4294967295))), Done),
    (With(1, Do::Ask(PositionQuestion::Prev)), ByCursor(3, Some(Thing::I(4294967295)))),
    (With(1, Do::At(To::Bottom(1))), Done),
    (With(1, Do::InsertInst(13)), Wrote(1)),
    // inst10 and inst13 move into block2
    (With(0, Do::InsertBlock(2)), Wrote(0)),
    (With(0, Do::Step(Step::PrevInst)), Told::Inst(None)),
    (With(0, Do::Step(Step::PrevBlock)), Told::Block(Some(1))),
    (With(0, Do::InsertBlock(3)), Wrote(0)),
    (With(0, Do::InsertInst(12)), Wrote(1)),
    (Edit(Make::SetCold(3)), Wrote(0)),
    (Edit(Make::RemoveBlock(3)), ByLayout(7, Thing::B(3))),
    (Edit(Make::InsertBlock(4, 3)), Wrote(0)),
    (Edit(Make::InsertBlockAfter(5, 3)), Wrote(0)),
    (Edit(Make::SplitBlock(6, 14)), Wrote(0)),
    (Edit(Make::InsertInst(20, 15)), Wrote(1)),
    (Edit(Make::InsertInst(14, 15)), ByLayout(6, Thing::I(14))),
    (Edit(Make::RemoveBlockAndInsts(2)), Wrote(0)),
    (Edit(Make::AppendInst(13, 1)), Wrote(1)),
    (With(1, Do::Step(Step::PrevInst)), Told::Inst(Some(13))),
    (With(1, Do::Replace(13)), Took(13, 1)),
    (With(1, Do::Ask(PositionQuestion::Next)), Told::Position(Some(Before(6)))),
    (Edit(Make::RemoveBlock(4)), Wrote(0)),
    (With(0, Do::RemoveAndBack), ByCursor(4, None)),
];

// The walk then, and where the two cursors are.
const ENDED: &[Stop] = &[
    B(1),
    I(11, 5),
    I(13, 15),
    B(6),
    I(14, 9),
    I(20, 10),
    I(15, 11),
    B(3),
    I(12, 10),
    B(5),
];

const PLACES: &[Place] = &[After(3), After(1)];

const LENGTH: usize = RUN.len();

const SHORT: usize = LENGTH - 1;

const LONG: usize = LENGTH + 1;

// What no call of the run answers.
const UNTOLD: Outcome = Ok(Answer::Wrote(99));

fn calls_of_run() -> [Call; LENGTH] {
    let mut calls = [Call::Layout(calls::Edit::Clear); LENGTH];
    for (call, (turn, _)) in calls.iter_mut().zip(RUN) {
        *call = (*turn).into();
    }
    calls
}

// Is each call of the run answered so?
fn told_as_said(outcomes: &[Outcome]) -> bool {
    for (outcome, (_, told)) in outcomes.iter().zip(RUN) {
        if !told.is(*outcome) {
            return false;
        }
    }
    true
}

// Is each cursor there?
fn stand<C: Cursor>(cursors: &[C], places: &[Place]) -> bool {
    for (cursor, place) in cursors.iter().zip(places) {
        if cursor.position() != (*place).into() {
            return false;
        }
    }
    true
}

// Is the run, made by these two cursors from an empty layout, as said?
fn runs_as_said<C: Cursor + Drop>(cursors: &mut [C]) -> bool {
    let mut layout = Layout::new();
    let mut outcomes = [UNTOLD; LONG];
    let made = replay::replay(&mut layout, cursors, &calls_of_run(), &mut outcomes);
    // what is beyond the run's answers stays
    made && told_as_said(&outcomes)
        && outcomes[LENGTH] == UNTOLD
        && walks(&layout, ENDED)
        && layout.is_cold(Block::from_u32(3))
        && !layout.is_cold(Block::from_u32(9))
        && stand(cursors, PLACES)
}

#[test]
fn a_run_of_any_kinds(rt: HostRuntime) {
    assert!(rt; runs_as_said(&mut [WordCursor::new(), WordCursor::new()]));
    assert!(rt; runs_as_said(&mut both_kinds()));
    // each with a source location of its own, which stays
    let other = FuncCursor::new().with_srcloc(SourceLoc::new(8));
    let mut cursors = [FuncCursor::new(), other];
    assert!(rt; runs_as_said(&mut cursors));
    assert!(rt; cursors[0].srcloc() == SourceLoc::default());
    assert!(rt; cursors[1].srcloc() == SourceLoc::new(8));
}

// Wherever a run is cut, its two parts give what the whole gives.
#[test]
fn runs_join(rt: HostRuntime) {
    let calls = calls_of_run();
    for k in 0..LONG {
        let mut layout = Layout::new();
        let mut cursors = both_kinds();
        let mut outcomes = [UNTOLD; LENGTH];
        let (first, rest) = calls.split_at(k);
        let (told_first, told_rest) = outcomes.split_at_mut(k);
        assert!(rt; replay::replay(&mut layout, &mut cursors, first, told_first));
        assert!(rt; replay::replay(&mut layout, &mut cursors, rest, told_rest));
        assert!(rt; told_as_said(&outcomes));
        assert!(rt; walks(&layout, ENDED) && stand(&cursors, PLACES));
    }
}

// Is a run with so many cursors and so much room not made, and is everything as it was?
fn is_not_made(calls: &[Call], cursors: &mut [WordCursor], outcomes: &mut [Outcome]) -> bool {
    let mut layout = built();
    let made = replay::replay(&mut layout, cursors, calls, outcomes);
    !made && walks(&layout, BUILT_WALK) && stand(cursors, &[At(3), After(9)]) && untold(outcomes)
}

fn untold(outcomes: &[Outcome]) -> bool {
    for outcome in outcomes {
        if *outcome != UNTOLD {
            return false;
        }
    }
    true
}

fn word_at(place: Place) -> WordCursor {
    let mut cursor = WordCursor::new();
    cursor.set_position(place.into());
    cursor
}

// Too little room, or a cursor that is not there: that of many calls, of any, or of the last alone.
#[test]
fn runs_that_are_not_made(rt: HostRuntime) {
    let calls = calls_of_run();
    let mut cursors = [word_at(At(3)), word_at(After(9))];
    assert!(rt; is_not_made(&calls, &mut cursors, &mut [UNTOLD; SHORT]));
    assert!(rt; is_not_made(&calls, &mut cursors, &mut []));
    assert!(rt; is_not_made(&calls, &mut [word_at(At(3))], &mut [UNTOLD; LENGTH]));
    assert!(rt; is_not_made(&calls, &mut [], &mut [UNTOLD; LENGTH]));
    let last = [
        Turn::Layout(Make::Clear).into(),
        Turn::Cursor(2, Do::Remove).into(),
    ];
    assert!(rt; is_not_made(&last, &mut cursors, &mut [UNTOLD; 2]));
}

#[test]
fn a_call_that_is_not_made(rt: HostRuntime) {
    let mut layout = built();
    let mut cursors = [word_at(At(3)), word_at(After(9))];
    let call = Turn::Cursor(2, Do::SetPosition(At(1))).into();
    assert!(rt; replay::apply(&mut layout, &mut cursors, call) == None);
    assert!(rt; walks(&layout, BUILT_WALK) && stand(&cursors, &[At(3), After(9)]));
}

// An edit of the layout needs no cursor, and no calls need no room.
#[test]
fn without_cursors(rt: HostRuntime) {
    let mut layout = built();
    let none: &mut [WordCursor] = &mut [];
    let edit = Turn::Layout(Make::AppendBlock(4)).into();
    assert!(rt; replay::apply(&mut layout, none, edit) == Some(Ok(Answer::Wrote(0))));
    assert!(rt; replay::replay(&mut layout, none, &[], &mut []));
}
