//! The ceiling, tried on the numbering itself: a layout comes to such high numbers only by hundreds of millions of calls. So the nodes of a
//! block are made by hand. Each expected value follows from the rules in docs/RULES.md, and none from our own output.

ghost use Rattle.std.specs.Prelude.{◌<◌, Some};
ghost use Rattle.listing.specs.Numbers.{SomePlaced};

use entities::nodes::{InstNode, SequenceNumber};
use entities::{Block, Inst};
use numbering::assign_inst_seq;

// The numbers of a block's three instructions, of which the new one's means nothing yet, their numbers afterwards, and how many were
// stored.
#[derive(Clone, Copy)]
struct Case([SequenceNumber; 3], [SequenceNumber; 3], u32);

// The third was just appended: one stride behind the second where that is at the ceiling, and the whole block anew where it is above.
const APPENDED: &[Case] = &[
    Case([10, 4294967093, 0], [10, 4294967093, 4294967103], 1),
    Case([4294967093, 4294967103, 0], [10, 20, 30], 3),
    Case([10, 4294967094, 0], [10, 20, 30], 3),
    Case([10, 4294967295, 0], [10, 20, 30], 3),
];

// The second was just inserted ahead of the third: the midpoint where there is one, and else a local renumbering where the first is at the
// ceiling, and the whole block anew where it is above.
const INSERTED: &[Case] = &[
    Case(
        [4294967093, 0, 4294967094],
        [4294967093, 4294967095, 4294967097],
        2,
    ),
    Case([4294967094, 0, 4294967095], [10, 20, 30], 3),
    Case([4294967294, 0, 4294967295], [10, 20, 30], 3),
    Case(
        [4294967094, 0, 4294967096],
        [4294967094, 4294967095, 4294967096],
        1,
    ),
    Case(
        [4294967093, 0, 4294967295],
        [4294967093, 4294967194, 4294967295],
        1,
    ),
];

// Instructions 0, 1 and 2, in this order, are a block and hold these numbers.
#[tactic(auto, using(crate::proofs::Rows::last_placed, crate::proofs::Rows::middle_placed))]
fn row(
    first_seq: SequenceNumber,
    middle_seq: SequenceNumber,
    last_seq: SequenceNumber,
) -> [InstNode; 3]
    ensures last { SomePlaced result (Some (record { 0 = 0 })) (record { 0 = 2 }) }
    ensures middle { first_seq < last_seq → SomePlaced result (Some (record { 0 = 0 })) (record { 0 = 1 }) }
{
    let block = Some(Block::from_u32(0));
    let first = Inst::from_u32(0);
    let middle = Inst::from_u32(1);
    let last = Inst::from_u32(2);
    [
        InstNode {
            block,
            prev: None,
            next: Some(middle),
            seq: first_seq,
        },
        InstNode {
            block,
            prev: Some(first),
            next: Some(last),
            seq: middle_seq,
        },
        InstNode {
            block,
            prev: Some(middle),
            next: None,
            seq: last_seq,
        },
    ]
}

#[test]
fn numbers_about_the_ceiling(rt: HostRuntime) {
    let first = Some(Inst::from_u32(0));
    for Case([a, b, c], numbers, count) in APPENDED {
        let mut insts = row(*a, *b, *c);
        assert!(rt; assign_inst_seq(&mut insts, first, Inst::from_u32(2)) == *count);
        assert!(rt; [insts[0].seq, insts[1].seq, insts[2].seq] == *numbers);
    }
    for Case([a, b, c], numbers, count) in INSERTED {
        // numbering is asked for between rising numbers alone
        assert!(rt; a < c);
        let mut insts = row(*a, *b, *c);
        assert!(rt; assign_inst_seq(&mut insts, first, Inst::from_u32(1)) == *count);
        assert!(rt; [insts[0].seq, insts[1].seq, insts[2].seq] == *numbers);
    }
}
