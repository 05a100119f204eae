//! Any list of calls, on one layout, with cursors of any kind at any position.

#![tactic(auto)]

ghost use Rattle.std.specs.Prelude.{◌≡◌, ◌≤◌, true, false, List, [], ◌∷◌, length, is_some, take, drop};
ghost use Rattle.entities.specs.Program.{Program};
ghost use Rattle.replay.specs.Histories.{Move, Reached, fits};
ghost use Rattle.replay.specs.Runs.{Applied, InTurn, OneCallInOrder, RunsJoin, WalkAndNumbersInOneOrder, all_fit, can_replay};

use calls::{Answer, Call, Outcome};
use cursor::Cursor;
use layout::Layout;

/// Makes one call, and answers what it answers; none where there is no cursor with its index, and then nothing is made.
pub fn apply<C: Cursor + Drop>(
    layout: &mut Layout,
    cursors: &mut [C],
    call: Call,
) -> Option<Outcome>
    ensures made { is_some result ≡ fits (length cursors.old) call }
    ensures not_made { is_some result ≡ false → (layout.new ≡ layout.old) × (cursors.new ≡ cursors.old) }
    ensures one_order { (start : Program) (h : List Move) → Reached start h layout.old → OneCallInOrder C.pos start h call result layout.old cursors.old layout.new cursors.new }
{
    if is_there(call, cursors.len()) {
        Some(make_one(layout, cursors, call))
    } else {
        None
    }
}

/// Makes the calls in turn, and stores what each answers at its place in `answers`. Where there is not room for every answer, or a call's
/// cursor is not there, none is made: it answers false.
pub fn replay<C: Cursor + Drop>(
    layout: &mut Layout,
    cursors: &mut [C],
    calls: &[Call],
    answers: &mut [Outcome],
) -> bool
    ensures made { result ≡ can_replay calls.now (length cursors.old) (length answers.old) }
    ensures not_made { result ≡ false → (layout.new ≡ layout.old) × (cursors.new ≡ cursors.old) × (answers.new ≡ answers.old) }
    ensures rest { drop (length calls.now) answers.new ≡ drop (length calls.now) answers.old }
    ensures one_order { result ≡ true → (start : Program) (h : List Move) → Reached start h layout.old → WalkAndNumbersInOneOrder C.pos start h calls.now (take (length calls.now) answers.new) layout.old cursors.old layout.new cursors.new }
    ensures join { result ≡ true → RunsJoin C.pos calls.now (take (length calls.now) answers.new) layout.old cursors.old layout.new cursors.new }
{
    if answers.len() < calls.len() || !all_there(calls, cursors.len()) {
        return false;
    }
    make_all_in_order(layout, cursors, calls, answers);
    true
}

// Is the cursor of the call one of so many?
fn is_there(call: Call, cursors: usize) -> bool
    ensures { result ≡ fits cursors call }
{
    match call {
        Call::Layout(_) => true,
        Call::Cursor(k, _) => k < cursors,
    }
}

// Is each call's cursor one of so many?
fn all_there(calls: &[Call], cursors: usize) -> bool
    ensures { result ≡ all_fit cursors calls.now }
{
    for call in calls {
        if !is_there(*call, cursors) {
            return false;
        }
    }
    true
}

// Makes one call whose cursor is there, and says of every history that led here: walk and numbers stay in one order.
fn make_one<C: Cursor + Drop>(layout: &mut Layout, cursors: &mut [C], call: Call) -> Outcome
    requires { fits (length cursors.old) call ≡ true }
    ensures { (start : Program) (h : List Move) → Reached start h layout.old → WalkAndNumbersInOneOrder C.pos start h (call ∷ []) (result ∷ []) layout.old cursors.old layout.new cursors.new }
{
    make(layout, cursors, call)
}

// Makes a call whose cursor is there.
fn make<C: Cursor + Drop>(layout: &mut Layout, cursors: &mut [C], call: Call) -> Outcome
    requires { fits (length cursors.old) call ≡ true }
    ensures { Applied C.pos call result layout.old layout.new cursors.old cursors.new }
{
    match call {
        Call::Layout(edit) => {
            let writes = call_kinds::edit_layout(layout, edit)?;
            Ok(Answer::Wrote(writes))
        }
        Call::Cursor(k, call) => Ok(call_kinds::call_cursor(&mut cursors[k], layout, call)?),
    }
}

// Makes the calls in turn, and says of every history that led here: walk and numbers stay in one order.
fn make_all_in_order<C: Cursor + Drop>(
    layout: &mut Layout,
    cursors: &mut [C],
    calls: &[Call],
    answers: &mut [Outcome],
)
    requires room { length calls.now ≤ length answers.old }
    requires there { all_fit (length cursors.old) calls.now ≡ true }
    ensures one_order { (start : Program) (h : List Move) → Reached start h layout.old → WalkAndNumbersInOneOrder C.pos start h calls.now (take (length calls.now) answers.new) layout.old cursors.old layout.new cursors.new }
    ensures join { RunsJoin C.pos calls.now (take (length calls.now) answers.new) layout.old cursors.old layout.new cursors.new }
    ensures rest { drop (length calls.now) answers.new ≡ drop (length calls.now) answers.old }
{
    make_all(layout, cursors, calls, answers);
}

// Makes the calls in turn.
#[tactic(auto, using(crate::proofs::Turns::next_turn))]
fn make_all<C: Cursor + Drop>(
    layout: &mut Layout,
    cursors: &mut [C],
    calls: &[Call],
    answers: &mut [Outcome],
)
    requires room { length calls.now ≤ length answers.old }
    requires there { all_fit (length cursors.old) calls.now ≡ true }
    ensures turns { InTurn C.pos calls.now (take (length calls.now) answers.new) layout.old cursors.old layout.new cursors.new }
    ensures rest { drop (length calls.now) answers.new ≡ drop (length calls.now) answers.old }
{
    for (i, call) in calls.iter().enumerate() {
        answers[i] = make(layout, cursors, *call);
    }
}
