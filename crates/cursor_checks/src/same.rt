//! Do two layouts hold the same program? That is asked of their walks, and neither of their numbers nor of how they were built.

#[cfg(test)]
use crate::plain::{Make, Stop, Thing, built, edited, walks};
use Make::{
    AppendBlock, AppendInst, Clear, InsertBlock, InsertBlockAfter, InsertInst, RemoveBlock,
    RemoveBlockAndInsts, RemoveInst, SetCold, SplitBlock,
};
use Stop::{B, I};
use Thing::{B as InBlock, I as AtInst};
use entities::progpoint::ProgramPoint;
use entities::{Block, Inst};
use layout::Layout;

/// The walk that `built` has, by edits that give other numbers.
pub const OTHERWISE: &[Make] = &[
    AppendBlock(9),
    InsertBlock(2, 9),
    InsertBlockAfter(0, 2),
    AppendInst(7, 2),
    InsertInst(0, 7),
    InsertInst(1, 7),
    AppendInst(5, 9),
];

const OTHER_NUMBERS: &[Stop] = &[B(2), I(0, 5), I(1, 7), I(7, 10), B(0), B(9), I(5, 10)];

// Edits of what is `built`, and whether it is still the same program.
const EDITED: &[(&[Make], bool)] = &[
    (&[], true),
    (&[SetCold(2)], true),
    (&[AppendBlock(2)], true),
    (&[RemoveInst(1), InsertInst(1, 7)], true),
    (&[RemoveBlock(0), InsertBlock(0, 9)], true),
    (&[Clear], false),
    (&[RemoveInst(7)], false),
    (&[AppendInst(3, 0)], false),
    (&[RemoveInst(1), AppendInst(1, 2)], false),
    (&[RemoveInst(5), AppendInst(5, 0)], false),
    (&[RemoveInst(5), AppendInst(3, 9)], false),
    (&[RemoveBlock(0)], false),
    (&[AppendBlock(4)], false),
    (&[RemoveBlock(0), AppendBlock(0)], false),
    (&[RemoveBlock(0), InsertBlock(4, 9)], false),
    (&[RemoveBlockAndInsts(9)], false),
    (&[SplitBlock(4, 7)], false),
];

fn is_same(a: &Layout, b: &Layout) -> bool {
    order::same_program(a, b) && order::same_program(b, a)
}

fn is_other(a: &Layout, b: &Layout) -> bool {
    !order::same_program(a, b) && !order::same_program(b, a)
}

/// The point of the walk that this is.
pub fn point_of(thing: Thing) -> ProgramPoint {
    match thing {
        InBlock(b) => ProgramPoint::Block(Block::from_u32(b)),
        AtInst(i) => ProgramPoint::Inst(Inst::from_u32(i)),
    }
}

// The same program ranks alike, whatever its numbers.
#[test]
fn same_by_other_edits(rt: HostRuntime) {
    let a = built();
    let b = edited(Layout::new(), OTHERWISE);
    assert!(rt; walks(&b, OTHER_NUMBERS) && is_same(&a, &b));
    let points = [
        InBlock(2),
        AtInst(0),
        AtInst(1),
        AtInst(7),
        InBlock(0),
        AtInst(5),
        AtInst(3),
    ];
    for x in points {
        for y in points {
            let (x, y) = (point_of(x), point_of(y));
            assert!(rt; a.pp_cmp(x, y) == b.pp_cmp(x, y));
        }
    }
}

#[test]
fn same_after_edits(rt: HostRuntime) {
    let a = built();
    for (edits, same) in EDITED {
        let b = edited(built(), edits);
        assert!(rt;
            if *same {
                is_same(&a, &b)
            } else {
                is_other(&a, &b)
            }
        );
    }
    assert!(rt; is_same(&Layout::new(), &Layout::new()));
}
