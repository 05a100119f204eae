//! Where do the walks of two layouts first part? Each is asked of the other too.

#[cfg(test)]
use crate::plain::{Make, Thing, built, edited};
use crate::same::{OTHERWISE, point_of};
use Make::{
    AppendBlock, AppendInst, Clear, InsertBlock, InsertInst, RemoveBlock, RemoveBlockAndInsts,
    RemoveInst, SetCold, SplitBlock,
};
use Thing::{B, I};
use layout::Layout;
use parting::Parting;

/// What stands in each walk where the two part.
type Parted = (Option<Thing>, Option<Thing>);

// Edits of what is `built`, and where its walk from then on and the walk from before part.
const EDITED: &[(&[Make], Option<Parted>)] = &[
    (&[], None),
    (&[SetCold(2)], None),
    (&[RemoveBlock(0), InsertBlock(0, 9)], None),
    // an instruction is another, or stands elsewhere, or is not there
    (
        &[RemoveInst(5), AppendInst(3, 9)],
        Some((Some(I(5)), Some(I(3)))),
    ),
    (
        &[RemoveInst(0), InsertInst(0, 7)],
        Some((Some(I(0)), Some(I(1)))),
    ),
    (&[RemoveInst(1)], Some((Some(I(1)), Some(I(7))))),
    // a block is another, or is not there
    (
        &[RemoveBlock(0), InsertBlock(4, 9)],
        Some((Some(B(0)), Some(B(4)))),
    ),
    (&[RemoveBlock(0)], Some((Some(B(0)), Some(B(9))))),
    // a block where the other has an instruction
    (&[AppendInst(3, 2)], Some((Some(B(0)), Some(I(3))))),
    (&[SplitBlock(4, 7)], Some((Some(I(7)), Some(B(4))))),
    // one walk is how the other begins
    (&[AppendBlock(4)], Some((None, Some(B(4))))),
    (&[AppendInst(3, 9)], Some((None, Some(I(3))))),
    (&[RemoveInst(5)], Some((Some(I(5)), None))),
    (&[RemoveBlockAndInsts(9)], Some((Some(B(9)), None))),
    (&[Clear], Some((Some(B(2)), None))),
];

fn parts(a: &Layout, b: &Layout, first: Option<Thing>, second: Option<Thing>) -> bool {
    parting::first_parting(a, b)
        == Some(Parting {
            first: first.map(point_of),
            second: second.map(point_of),
        })
}

fn part(a: &Layout, b: &Layout, parted: Option<Parted>) -> bool {
    match parted {
        Some((first, second)) => parts(a, b, first, second) && parts(b, a, second, first),
        None => { parting::first_parting(a, b).is_none() && parting::first_parting(b, a).is_none() }
    }
}

#[test]
fn part_after_edits(rt: HostRuntime) {
    let a = built();
    for (edits, parted) in EDITED {
        let b = edited(built(), edits);
        assert!(rt; part(&a, &b, *parted));
    }
}

// The same walk has no parting, whatever its numbers.
#[test]
fn part_nowhere_by_other_edits(rt: HostRuntime) {
    let a = built();
    let b = edited(Layout::new(), OTHERWISE);
    assert!(rt; part(&a, &b, None));
    assert!(rt; part(&Layout::new(), &Layout::new(), None));
}

// A block and an instruction of one number are two points.
#[test]
fn part_at_one_number(rt: HostRuntime) {
    let a = edited(Layout::new(), &[AppendBlock(2), AppendBlock(0)]);
    let b = edited(Layout::new(), &[AppendBlock(2), AppendInst(0, 2)]);
    assert!(rt; part(&a, &b, Some((Some(B(0)), Some(I(0))))));
}
