//! Cursor edits that are accepted, from every position that allows them.

#[cfg(test)]
use crate::plain::{Do, Place, Stop, Told, both_kinds, built, leads, walks};
use Do::{InsertBlock, InsertInst, Remove, RemoveAndBack, Replace};
use Place::{After, At, Before, Nowhere};
use Stop::{B, I};
use Told::{Took, Wrote};
use cursor::any::AnyCursor;

type Case = (Place, Do, Told, Place, &'static [Stop]);

// What each edit answers, where it leaves the cursor, and the walk then.
#[rattlefmt::skip]
const EDITED: &[Case] = &[
    (At(0), InsertInst(3), Wrote(1), At(0), &[B(2), I(3, 5), I(0, 10), I(1, 20), I(7, 30), B(0), B(9), I(5, 10)]),
    (At(1), InsertInst(3), Wrote(1), At(1), &[B(2), I(0, 10), I(3, 15), I(1, 20), I(7, 30), B(0), B(9), I(5, 10)]),
    (At(7), InsertInst(3), Wrote(1), At(7), &[B(2), I(0, 10), I(1, 20), I(3, 25), I(7, 30), B(0), B(9), I(5, 10)]),
    (At(5), InsertInst(3), Wrote(1), At(5), &[B(2), I(0, 10), I(1, 20), I(7, 30), B(0), B(9), I(3, 5), I(5, 10)]),
    (After(2), InsertInst(3), Wrote(1), After(2), &[B(2), I(0, 10), I(1, 20), I(7, 30), I(3, 40), B(0), B(9), I(5, 10)]),
    (After(0), InsertInst(3), Wrote(1), After(0), &[B(2), I(0, 10), I(1, 20), I(7, 30), B(0), I(3, 10), B(9), I(5, 10)]),
    (After(9), InsertInst(3), Wrote(1), After(9), &[B(2), I(0, 10), I(1, 20), I(7, 30), B(0), B(9), I(5, 10), I(3, 20)]),
    (At(0), Remove, Took(0, 0), At(1), &[B(2), I(1, 20), I(7, 30), B(0), B(9), I(5, 10)]),
    (At(1), Remove, Took(1, 0), At(7), &[B(2), I(0, 10), I(7, 30), B(0), B(9), I(5, 10)]),
    (At(7), Remove, Took(7, 0), After(2), &[B(2), I(0, 10), I(1, 20), B(0), B(9), I(5, 10)]),
    (At(5), Remove, Took(5, 0), After(9), &[B(2), I(0, 10), I(1, 20), I(7, 30), B(0), B(9)]),
    (At(0), RemoveAndBack, Took(0, 0), Before(2), &[B(2), I(1, 20), I(7, 30), B(0), B(9), I(5, 10)]),
    (At(1), RemoveAndBack, Took(1, 0), At(0), &[B(2), I(0, 10), I(7, 30), B(0), B(9), I(5, 10)]),
    (At(7), RemoveAndBack, Took(7, 0), At(1), &[B(2), I(0, 10), I(1, 20), B(0), B(9), I(5, 10)]),
    (At(5), RemoveAndBack, Took(5, 0), Before(9), &[B(2), I(0, 10), I(1, 20), I(7, 30), B(0), B(9)]),
    (At(0), Replace(3), Took(0, 1), At(1), &[B(2), I(3, 10), I(1, 20), I(7, 30), B(0), B(9), I(5, 10)]),
    (At(1), Replace(3), Took(1, 1), At(7), &[B(2), I(0, 10), I(3, 20), I(7, 30), B(0), B(9), I(5, 10)]),
    (At(7), Replace(3), Took(7, 1), After(2), &[B(2), I(0, 10), I(1, 20), I(3, 30), B(0), B(9), I(5, 10)]),
    (At(5), Replace(3), Took(5, 1), After(9), &[B(2), I(0, 10), I(1, 20), I(7, 30), B(0), B(9), I(3, 10)]),
    (At(0), Replace(0), Took(0, 1), At(1), &[B(2), I(0, 10), I(1, 20), I(7, 30), B(0), B(9), I(5, 10)]),
    (At(1), Replace(1), Took(1, 1), At(7), &[B(2), I(0, 10), I(1, 20), I(7, 30), B(0), B(9), I(5, 10)]),
    (At(7), Replace(7), Took(7, 1), After(2), &[B(2), I(0, 10), I(1, 20), I(7, 30), B(0), B(9), I(5, 10)]),
    (At(5), Replace(5), Took(5, 1), After(9), &[B(2), I(0, 10), I(1, 20), I(7, 30), B(0), B(9), I(5, 10)]),
    (Nowhere, InsertBlock(4), Wrote(0), After(4), &[B(2), I(0, 10), I(1, 20), I(7, 30), B(0), B(9), I(5, 10), B(4)]),
    (At(0), InsertBlock(4), Wrote(0), At(0), &[B(2), B(4), I(0, 10), I(1, 20), I(7, 30), B(0), B(9), I(5, 10)]),
    (At(1), InsertBlock(4), Wrote(0), At(1), &[B(2), I(0, 10), B(4), I(1, 20), I(7, 30), B(0), B(9), I(5, 10)]),
    (At(7), InsertBlock(4), Wrote(0), At(7), &[B(2), I(0, 10), I(1, 20), B(4), I(7, 30), B(0), B(9), I(5, 10)]),
    (At(5), InsertBlock(4), Wrote(0), At(5), &[B(2), I(0, 10), I(1, 20), I(7, 30), B(0), B(9), B(4), I(5, 10)]),
    (Before(2), InsertBlock(4), Wrote(0), After(4), &[B(4), B(2), I(0, 10), I(1, 20), I(7, 30), B(0), B(9), I(5, 10)]),
    (Before(0), InsertBlock(4), Wrote(0), After(4), &[B(2), I(0, 10), I(1, 20), I(7, 30), B(4), B(0), B(9), I(5, 10)]),
    (Before(9), InsertBlock(4), Wrote(0), After(4), &[B(2), I(0, 10), I(1, 20), I(7, 30), B(0), B(4), B(9), I(5, 10)]),
    (After(2), InsertBlock(4), Wrote(0), After(4), &[B(2), I(0, 10), I(1, 20), I(7, 30), B(4), B(0), B(9), I(5, 10)]),
    (After(0), InsertBlock(4), Wrote(0), After(4), &[B(2), I(0, 10), I(1, 20), I(7, 30), B(0), B(4), B(9), I(5, 10)]),
    (After(9), InsertBlock(4), Wrote(0), After(4), &[B(2), I(0, 10), I(1, 20), I(7, 30), B(0), B(9), I(5, 10), B(4)]),
];

// Does the edit, by this cursor, answer this, leave the cursor there, and make this walk?
fn edits(cursor: AnyCursor, row: &Case) -> bool {
    let (from, edit, told, then, stops) = *row;
    let mut layout = built();
    leads(&mut layout, cursor, from, edit, told, then) && walks(&layout, stops)
}

#[test]
fn edits_at_every_position(rt: HostRuntime) {
    for row in EDITED {
        for cursor in both_kinds() {
            assert!(rt; edits(cursor, row));
        }
    }
}
