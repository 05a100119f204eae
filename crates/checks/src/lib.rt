//! Tests of the layout by its public calls, most of them tables of cases. Each expected value follows from the rules in docs/RULES.md,
//! and none from our own output.

#![tactic(auto)]

#[cfg(test)]
mod ceiling;

#[cfg(test)]
mod tests {
    use entities::progpoint::ProgramPoint;
    use entities::{Block, Inst};
    use faults::{Entity, Layer, LayoutFault};
    use layout::Layout;
    use std::cmp::Ordering;
    use std::test::Fail;

    // A block or an instruction by its number: a constant's value may not call `from_u32`, so no table below can hold a `ProgramPoint`.
    #[derive(Clone, Copy)]
    enum Point {
        B(u32),
        I(u32),
    }

    impl From<Point> for ProgramPoint {
        fn from(p: Point) -> ProgramPoint {
            match p {
                Point::B(n) => ProgramPoint::Block(Block::from_u32(n)),
                Point::I(n) => ProgramPoint::Inst(Inst::from_u32(n)),
            }
        }
    }

    impl From<Point> for Entity {
        fn from(p: Point) -> Entity {
            match p {
                Point::B(n) => Entity::Block(Block::from_u32(n)),
                Point::I(n) => Entity::Inst(Inst::from_u32(n)),
            }
        }
    }

    // A call as data, and no closure: so a table shows number and arguments of each.
    #[derive(Clone, Copy)]
    enum Call {
        AppendBlock(u32),
        InsertBlock(u32, u32),
        InsertBlockAfter(u32, u32),
        RemoveBlock(u32),
        RemoveBlockAndInsts(u32),
        SplitBlock(u32, u32),
        AppendInst(u32, u32),
        InsertInst(u32, u32),
        RemoveInst(u32),
        SetCold(u32),
        PpBlock(Point),
        PpCmp(Point, Point),
    }

    // The number of a refusal, which is what a user is told, and the entity at fault.
    #[derive(Clone, Copy)]
    struct Refusal(u32, Point);

    // A call, and how it is refused, if it is.
    #[derive(Clone, Copy)]
    struct Case(Call, Option<Refusal>);

    // Every call at the edges of the two ranges, in turn on one layout. A table is a slice: over an array, a test's proof would have every
    // row in it.
    const EDGES: &[Case] = &[
        Case(Call::AppendBlock(255), None),
        Case(Call::AppendBlock(256), Some(Refusal(2, Point::B(256)))),
        Case(Call::AppendBlock(1023), Some(Refusal(2, Point::B(1023)))),
        Case(Call::AppendBlock(1024), Some(Refusal(2, Point::B(1024)))),
        Case(
            Call::AppendBlock(4294967295),
            Some(Refusal(2, Point::B(4294967295))),
        ),
        Case(Call::SetCold(255), None),
        Case(Call::SetCold(256), Some(Refusal(2, Point::B(256)))),
        Case(Call::SetCold(1023), Some(Refusal(2, Point::B(1023)))),
        Case(Call::SetCold(1024), Some(Refusal(2, Point::B(1024)))),
        Case(
            Call::SetCold(4294967295),
            Some(Refusal(2, Point::B(4294967295))),
        ),
        Case(Call::AppendInst(255, 255), None),
        Case(Call::AppendInst(256, 255), None),
        Case(Call::AppendInst(1023, 255), None),
        Case(
            Call::AppendInst(1024, 255),
            Some(Refusal(2, Point::I(1024))),
        ),
        Case(
            Call::AppendInst(4294967295, 255),
            Some(Refusal(2, Point::I(4294967295))),
        ),
        Case(Call::AppendInst(0, 256), Some(Refusal(2, Point::B(256)))),
        Case(
            Call::AppendInst(0, 4294967295),
            Some(Refusal(2, Point::B(4294967295))),
        ),
        Case(Call::PpBlock(Point::B(254)), None),
        Case(Call::PpBlock(Point::B(255)), None),
        Case(
            Call::PpBlock(Point::B(256)),
            Some(Refusal(2, Point::B(256))),
        ),
        Case(
            Call::PpBlock(Point::B(4294967295)),
            Some(Refusal(2, Point::B(4294967295))),
        ),
        Case(Call::PpBlock(Point::I(1023)), None),
        Case(
            Call::PpBlock(Point::I(1022)),
            Some(Refusal(5, Point::I(1022))),
        ),
        Case(
            Call::PpBlock(Point::I(1024)),
            Some(Refusal(2, Point::I(1024))),
        ),
        Case(
            Call::PpBlock(Point::I(4294967295)),
            Some(Refusal(2, Point::I(4294967295))),
        ),
        Case(Call::PpCmp(Point::B(254), Point::B(254)), None),
        Case(
            Call::PpCmp(Point::B(256), Point::I(1024)),
            Some(Refusal(2, Point::B(256))),
        ),
        Case(
            Call::PpCmp(Point::I(1023), Point::I(1024)),
            Some(Refusal(2, Point::I(1024))),
        ),
        Case(Call::PpCmp(Point::I(1023), Point::I(255)), None),
        Case(
            Call::PpCmp(Point::B(255), Point::I(4294967295)),
            Some(Refusal(2, Point::I(4294967295))),
        ),
    ];

    // A call that would fail two questions names the first: the range of each number as given, then what must be inserted, then what
    // must not be, and for a comparison one block last.
    const FIRST_NO: &[Case] = &[
        Case(
            Call::AppendInst(1024, 256),
            Some(Refusal(2, Point::I(1024))),
        ),
        Case(Call::AppendInst(0, 256), Some(Refusal(2, Point::B(256)))),
        Case(Call::AppendInst(0, 1), Some(Refusal(5, Point::B(1)))),
        Case(Call::AppendBlock(1), None),
        Case(Call::AppendBlock(1), Some(Refusal(6, Point::B(1)))),
        Case(Call::AppendInst(0, 1), None),
        Case(Call::AppendInst(0, 1), Some(Refusal(6, Point::I(0)))),
        Case(Call::AppendInst(0, 7), Some(Refusal(5, Point::B(7)))),
        Case(Call::PpBlock(Point::I(9)), Some(Refusal(5, Point::I(9)))),
        Case(
            Call::PpCmp(Point::I(9), Point::B(256)),
            Some(Refusal(2, Point::B(256))),
        ),
        Case(
            Call::PpCmp(Point::I(9), Point::I(8)),
            Some(Refusal(5, Point::I(9))),
        ),
        Case(
            Call::PpCmp(Point::I(0), Point::I(8)),
            Some(Refusal(5, Point::I(8))),
        ),
        Case(
            Call::PpCmp(Point::B(7), Point::I(8)),
            Some(Refusal(5, Point::I(8))),
        ),
        Case(
            Call::PpCmp(Point::I(0), Point::B(2)),
            Some(Refusal(9, Point::B(2))),
        ),
        Case(
            Call::PpCmp(Point::B(2), Point::I(0)),
            Some(Refusal(9, Point::I(0))),
        ),
    ];

    // Every refusal of every edit, that of each number where a call gets two, and which of two refusals comes first: on a layout with inst0
    // and inst1 in block1, and block2 empty behind it. `clear` is never refused.
    const REFUSED: &[(Call, Refusal)] = &[
        (Call::AppendBlock(256), Refusal(2, Point::B(256))),
        (Call::AppendBlock(1), Refusal(6, Point::B(1))),
        (Call::InsertBlock(256, 1), Refusal(2, Point::B(256))),
        (Call::InsertBlock(3, 256), Refusal(2, Point::B(256))),
        (Call::InsertBlock(257, 256), Refusal(2, Point::B(257))),
        (Call::InsertBlock(3, 7), Refusal(5, Point::B(7))),
        (Call::InsertBlock(2, 7), Refusal(5, Point::B(7))),
        (Call::InsertBlock(2, 1), Refusal(6, Point::B(2))),
        (Call::InsertBlock(1, 1), Refusal(6, Point::B(1))),
        (Call::InsertBlockAfter(256, 1), Refusal(2, Point::B(256))),
        (
            Call::InsertBlockAfter(3, 4294967295),
            Refusal(2, Point::B(4294967295)),
        ),
        (Call::InsertBlockAfter(257, 256), Refusal(2, Point::B(257))),
        (Call::InsertBlockAfter(3, 7), Refusal(5, Point::B(7))),
        (Call::InsertBlockAfter(2, 7), Refusal(5, Point::B(7))),
        (Call::InsertBlockAfter(1, 2), Refusal(6, Point::B(1))),
        (Call::InsertBlockAfter(1, 1), Refusal(6, Point::B(1))),
        (Call::RemoveBlock(256), Refusal(2, Point::B(256))),
        (Call::RemoveBlock(7), Refusal(5, Point::B(7))),
        (Call::RemoveBlock(1), Refusal(7, Point::B(1))),
        (Call::RemoveBlockAndInsts(256), Refusal(2, Point::B(256))),
        (Call::RemoveBlockAndInsts(7), Refusal(5, Point::B(7))),
        (Call::SplitBlock(256, 0), Refusal(2, Point::B(256))),
        (Call::SplitBlock(256, 1024), Refusal(2, Point::B(256))),
        (Call::SplitBlock(3, 1024), Refusal(2, Point::I(1024))),
        (Call::SplitBlock(3, 9), Refusal(5, Point::I(9))),
        (Call::SplitBlock(2, 9), Refusal(5, Point::I(9))),
        (Call::SplitBlock(2, 0), Refusal(6, Point::B(2))),
        (Call::SplitBlock(1, 0), Refusal(6, Point::B(1))),
        (Call::AppendInst(1024, 1), Refusal(2, Point::I(1024))),
        (Call::AppendInst(1024, 256), Refusal(2, Point::I(1024))),
        (Call::AppendInst(5, 256), Refusal(2, Point::B(256))),
        (Call::AppendInst(5, 7), Refusal(5, Point::B(7))),
        (Call::AppendInst(1, 7), Refusal(5, Point::B(7))),
        (Call::AppendInst(1, 2), Refusal(6, Point::I(1))),
        (Call::InsertInst(1024, 0), Refusal(2, Point::I(1024))),
        (Call::InsertInst(1025, 1024), Refusal(2, Point::I(1025))),
        (Call::InsertInst(5, 1024), Refusal(2, Point::I(1024))),
        (Call::InsertInst(5, 9), Refusal(5, Point::I(9))),
        (Call::InsertInst(1, 9), Refusal(5, Point::I(9))),
        (Call::InsertInst(1, 0), Refusal(6, Point::I(1))),
        (Call::InsertInst(0, 0), Refusal(6, Point::I(0))),
        (Call::RemoveInst(1024), Refusal(2, Point::I(1024))),
        (Call::RemoveInst(9), Refusal(5, Point::I(9))),
        (Call::SetCold(256), Refusal(2, Point::B(256))),
    ];

    // Edits in turn on an empty layout, each with how many numbers it writes; and then the blocks in order, each with its instructions and
    // their numbers in order.
    #[derive(Clone, Copy)]
    struct Run {
        edits: &'static [(Call, u32)],
        blocks: &'static [(u32, &'static [(u32, u32)])],
    }

    const RUNS: &[Run] = &[
        // append stride, midpoint down to no room between 19 and 20, and then a local renumbering to the block's end
        Run {
            edits: &[
                (Call::AppendBlock(0), 0),
                (Call::AppendInst(0, 0), 1),
                (Call::AppendInst(1, 0), 1),
                (Call::InsertInst(2, 1), 1),
                (Call::InsertInst(3, 1), 1),
                (Call::InsertInst(4, 1), 1),
                (Call::InsertInst(5, 1), 1),
                (Call::InsertInst(6, 1), 2),
            ],
            blocks: &[(
                0,
                &[
                    (0, 10),
                    (2, 15),
                    (3, 17),
                    (4, 18),
                    (5, 19),
                    (6, 21),
                    (1, 23),
                ],
            )],
        },
        // four insertions at the head of a lone 10, the last of which is a local renumbering that catches up with it
        Run {
            edits: &[
                (Call::AppendBlock(0), 0),
                (Call::AppendInst(0, 0), 1),
                (Call::InsertInst(1, 0), 1),
                (Call::InsertInst(2, 1), 1),
                (Call::InsertInst(3, 2), 1),
                (Call::InsertInst(4, 3), 4),
            ],
            blocks: &[(0, &[(4, 2), (3, 4), (2, 6), (1, 8), (0, 10)])],
        },
        // a block of 3/5, 1/10 and 2/20, instruction and number, split at instruction 1
        Run {
            edits: &[
                (Call::AppendBlock(0), 0),
                (Call::AppendInst(1, 0), 1),
                (Call::AppendInst(2, 0), 1),
                (Call::InsertInst(3, 1), 1),
                (Call::AppendBlock(9), 0),
                (Call::SplitBlock(1, 1), 0),
            ],
            blocks: &[(0, &[(3, 5)]), (1, &[(1, 10), (2, 20)]), (9, &[])],
        },
        // a last block, split at its first instruction: it stays, empty, and the new one is the last
        Run {
            edits: &[
                (Call::AppendBlock(9), 0),
                (Call::AppendBlock(0), 0),
                (Call::AppendInst(1, 0), 1),
                (Call::AppendInst(2, 0), 1),
                (Call::InsertInst(3, 1), 1),
                (Call::SplitBlock(1, 3), 0),
            ],
            blocks: &[(9, &[]), (0, &[]), (1, &[(3, 5), (1, 10), (2, 20)])],
        },
        // blocks put in at both sides of others, and taken out from the middle, from the front and from the end
        Run {
            edits: &[
                (Call::AppendBlock(4), 0),
                (Call::InsertBlock(2, 4), 0),
                (Call::InsertBlockAfter(3, 2), 0),
                (Call::InsertBlockAfter(5, 4), 0),
                (Call::InsertBlock(1, 2), 0),
                (Call::InsertBlock(0, 5), 0),
                (Call::RemoveBlock(3), 0),
                (Call::RemoveBlock(1), 0),
                (Call::RemoveBlock(5), 0),
            ],
            blocks: &[(2, &[]), (4, &[]), (0, &[])],
        },
        // instructions taken out from the middle, the front and the end, and a block with those that it has: the others keep their numbers
        Run {
            edits: &[
                (Call::AppendBlock(6), 0),
                (Call::AppendBlock(4), 0),
                (Call::AppendBlock(2), 0),
                (Call::AppendInst(7, 6), 1),
                (Call::AppendInst(8, 6), 1),
                (Call::AppendInst(9, 6), 1),
                (Call::AppendInst(10, 6), 1),
                (Call::AppendInst(11, 4), 1),
                (Call::AppendInst(12, 4), 1),
                (Call::AppendInst(13, 2), 1),
                (Call::RemoveInst(8), 0),
                (Call::RemoveInst(7), 0),
                (Call::RemoveInst(10), 0),
                (Call::RemoveBlockAndInsts(4), 0),
                (Call::RemoveInst(13), 0),
                (Call::AppendInst(12, 2), 1),
            ],
            blocks: &[(6, &[(9, 30)]), (2, &[(12, 10)])],
        },
    ];

    // Two points of a layout with inst8 and then inst2 in block3, and how the first stands to the second.
    const RANKS: [(Point, Point, Ordering); 8] = [
        (Point::B(9), Point::B(9), Ordering::Equal),
        (Point::B(3), Point::B(3), Ordering::Equal),
        (Point::B(3), Point::I(8), Ordering::Less),
        (Point::B(3), Point::I(2), Ordering::Less),
        (Point::I(8), Point::B(3), Ordering::Greater),
        (Point::I(8), Point::I(2), Ordering::Less),
        (Point::I(2), Point::I(8), Ordering::Greater),
        (Point::I(2), Point::I(2), Ordering::Equal),
    ];

    // What a call answers: an edit how many numbers it wrote, and any other call that it has an answer, by 0.
    fn answer_of(layout: &mut Layout, call: Call) -> Result<u32, LayoutFault> {
        match call {
            Call::AppendBlock(b) => layout.append_block(Block::from_u32(b)),
            Call::InsertBlock(b, at) => layout.insert_block(
                Block::from_u32(b),
                Block::from_u32(at),
            ),
            Call::InsertBlockAfter(b, at) => layout.insert_block_after(
                Block::from_u32(b),
                Block::from_u32(at),
            ),
            Call::RemoveBlock(b) => layout.remove_block(Block::from_u32(b)),
            Call::RemoveBlockAndInsts(b) => layout.remove_block_and_insts(Block::from_u32(b)),
            Call::SplitBlock(b, i) => layout.split_block(Block::from_u32(b), Inst::from_u32(i)),
            Call::AppendInst(i, b) => layout.append_inst(Inst::from_u32(i), Block::from_u32(b)),
            Call::InsertInst(i, at) => layout.insert_inst(Inst::from_u32(i), Inst::from_u32(at)),
            Call::RemoveInst(i) => layout.remove_inst(Inst::from_u32(i)),
            Call::SetCold(b) => layout.set_cold(Block::from_u32(b)),
            Call::PpBlock(p) => layout.pp_block(p.into()).and(Ok(0)),
            Call::PpCmp(a, b) => layout.pp_cmp(a.into(), b.into()).and(Ok(0)),
        }
    }

    // The fault of a call, none where it is accepted: an `Option`, as the refusal of a case is one.
    fn fault_of(layout: &mut Layout, call: Call) -> Option<LayoutFault> {
        answer_of(layout, call).err()
    }

    fn writes(layout: &mut Layout, call: Call, count: u32) -> bool {
        answer_of(layout, call).ok() == Some(count)
    }

    // `block` holds exactly these instructions with these numbers, in this order, forward and backward, and each names it.
    fn holds_slots(layout: &Layout, block: u32, slots: &[(u32, u32)]) -> bool {
        let home = Block::from_u32(block);
        let mut forward = layout.block_insts(home);
        for (i, seq) in slots {
            let inst = Inst::from_u32(*i);
            let named = layout.inst_block(inst) == Some(home);
            if forward.next() != Some(inst) || !named || layout.inst_seq(inst) != Some(*seq) {
                return false;
            }
        }
        let mut backward = layout.block_insts(home);
        for (i, _) in slots.iter().rev() {
            if backward.next_back() != Some(Inst::from_u32(*i)) {
                return false;
            }
        }
        forward.next().is_none() && backward.next_back().is_none()
    }

    // The layout is exactly these blocks with these instructions and numbers, in this order, forward and backward.
    fn holds_blocks(layout: &Layout, blocks: &[(u32, &[(u32, u32)])]) -> bool {
        let mut walk = layout.blocks();
        for (b, slots) in blocks {
            if walk.next() != Some(Block::from_u32(*b)) || !holds_slots(layout, *b, slots) {
                return false;
            }
        }
        let mut back = layout.last_block();
        for (b, _) in blocks.iter().rev() {
            let block = Block::from_u32(*b);
            if back != Some(block) {
                return false;
            }
            back = layout.prev_block(block);
        }
        walk.next().is_none() && back.is_none()
    }

    fn holds(layout: &mut Layout, case: Case) -> bool {
        let told = fault_of(layout, case.0).map(|fault| (
            fault.number(),
            fault.layer(),
            fault.entity(),
        ));
        told == case.1.map(|Refusal(number, point)| (number, Layer::Layout, Entity::from(point)))
    }

    // As any question takes a block and an instruction of this number that never were inserted.
    fn is_stranger(layout: &Layout, n: u32) -> bool {
        let b = Block::from_u32(n);
        let i = Inst::from_u32(n);
        let block_unknown = !layout.is_block_inserted(b) && !layout.is_cold(b);
        let block_alone = layout.prev_block(b).is_none() && layout.next_block(b).is_none();
        let block_empty = layout.first_inst(b).is_none() && layout.last_inst(b).is_none();
        let inst_unknown = layout.inst_block(i).is_none() && layout.inst_seq(i).is_none();
        let inst_alone = layout.prev_inst(i).is_none() && layout.next_inst(i).is_none();
        let not_one = !layout.block_contains_exactly_one_inst(b);
        block_unknown && block_alone && block_empty && inst_unknown && inst_alone && not_one
    }

    #[test]
    fn every_call_at_the_edges(rt: HostRuntime) {
        let mut layout = Layout::new();
        for case in EDGES {
            assert!(rt; holds(&mut layout, *case));
        }
    }

    #[test]
    fn the_first_no_refuses(rt: HostRuntime) {
        let mut layout = Layout::new();
        for case in FIRST_NO {
            assert!(rt; holds(&mut layout, *case));
        }
    }

    #[test]
    fn each_refusal_of_each_edit(rt: HostRuntime) {
        let mut layout = Layout::new();
        for (call, count) in [
            (Call::AppendBlock(1), 0),
            (Call::AppendBlock(2), 0),
            (Call::AppendInst(0, 1), 1),
            (Call::AppendInst(1, 1), 1),
        ] {
            assert!(rt; writes(&mut layout, call, count));
        }
        for (call, refusal) in REFUSED {
            assert!(rt; holds(&mut layout, Case(*call, Some(*refusal))));
            // nothing has changed
            assert!(rt; holds_blocks(&layout, &[(1, &[(0, 10), (1, 20)]), (2, &[])]));
            for n in [3, 5, 7, 9, 256, 257, 1024, 1025, 4294967295] {
                assert!(rt; is_stranger(&layout, n));
            }
        }
    }

    #[test]
    fn edits_in_turn(rt: HostRuntime) {
        let mut layout = Layout::new();
        for run in RUNS {
            for (call, count) in run.edits {
                assert!(rt; writes(&mut layout, *call, *count));
            }
            assert!(rt; holds_blocks(&layout, run.blocks));
            let _ = layout.clear();
        }
    }

    // The 102nd insertion at a block's head finds no room: a local renumbering stores 101 numbers and passes its limit, and then all 103
    // are numbered anew.
    #[test]
    fn full_block_renumbering(rt: HostRuntime) {
        let mut layout = Layout::new();
        assert!(rt; writes(&mut layout, Call::AppendBlock(0), 0));
        assert!(rt; writes(&mut layout, Call::AppendInst(0, 0), 1));
        for n in 0..101 {
            assert!(rt; fault_of(&mut layout, Call::InsertInst(n + 1, n)).is_none());
        }
        assert!(rt; writes(&mut layout, Call::InsertInst(102, 101), 204));
        for n in 0..103 {
            assert!(rt; layout.inst_seq(Inst::from_u32(102 - n)) == Some(10 * (n + 1)));
        }
    }

    // Filled to the last block and instruction, four to a block, and emptied in another order: the odd instructions from the highest down,
    // the blocks that are empty then from the lowest up, and the others with their instructions from the highest down.
    #[test]
    fn filled_and_emptied(rt: HostRuntime) {
        let mut layout = Layout::new();
        for n in 0..256 {
            assert!(rt; writes(&mut layout, Call::AppendBlock(n), 0));
        }
        for n in 0..1024 {
            assert!(rt; writes(&mut layout, Call::AppendInst(n, n % 256), 1));
        }
        for n in 0..512 {
            assert!(rt; writes(&mut layout, Call::RemoveInst(1023 - 2 * n), 0));
        }
        for n in 0..128 {
            assert!(rt; writes(&mut layout, Call::RemoveBlock(2 * n + 1), 0));
        }
        for n in 0..128 {
            assert!(rt; writes(&mut layout, Call::RemoveBlockAndInsts(254 - 2 * n), 0));
        }
        for n in 0..1024 {
            assert!(rt; is_stranger(&layout, n));
        }
        assert!(rt; layout.entry_block().is_none() && layout.last_block().is_none());
    }

    // 1,000 instructions, each put in at the head, write 31,865 numbers in all; then each is taken out again from the head.
    #[test]
    fn a_thousand_at_the_head(rt: HostRuntime) {
        let mut layout = Layout::new();
        let home = Block::from_u32(0);
        assert!(rt; writes(&mut layout, Call::AppendBlock(0), 0));
        let mut total = layout
            .append_inst(Inst::from_u32(0), home)
            .ok()
            .unwrap_or(0);
        for n in 0..999 {
            let inst = Inst::from_u32(n + 1);
            let count = layout
                .insert_inst(inst, Inst::from_u32(n))
                .ok()
                .unwrap_or(0);
            assert!(rt; count > 0 && layout.first_inst(home) == Some(inst));
            total = total.saturating_add(count);
        }
        assert!(rt; total == 31865 && layout.inst_seq(Inst::from_u32(999)) == Some(1));
        assert!(rt; layout.inst_seq(Inst::from_u32(0)) == Some(9230));
        for n in 0..1000 {
            assert!(rt; writes(&mut layout, Call::RemoveInst(999 - n), 0));
        }
        assert!(rt; layout.first_inst(home).is_none() && layout.last_inst(home).is_none());
    }

    #[test]
    fn strangers_are_answered(rt: HostRuntime) {
        let layout = Layout::new();
        for n in [0, 255, 256, 1023, 1024, 4294967295] {
            assert!(rt; is_stranger(&layout, n));
            assert!(rt; layout.block_insts(Block::from_u32(n)).next() == None);
        }
        assert!(rt; layout.blocks().next() == None && layout.block_capacity() == 256);
    }

    #[test]
    fn points_of_one_block(rt: HostRuntime) {
        let mut layout = Layout::new();
        let home = Block::from_u32(3);
        let _ = layout.append_block(home);
        let _ = layout.append_inst(Inst::from_u32(8), home);
        assert!(rt; layout.block_contains_exactly_one_inst(home));
        let _ = layout.append_inst(Inst::from_u32(2), home);
        assert!(rt; !layout.block_contains_exactly_one_inst(home));
        for (a, b, order) in RANKS {
            assert!(rt; layout.pp_cmp(a.into(), b.into()) == Ok(order));
        }
    }

    // 256 blocks and 1,024 instructions, four to a block, numbered 10 to 40: then nothing more goes in.
    #[test]
    fn a_full_layout(rt: HostRuntime) {
        let mut layout = Layout::new();
        for n in 0..256 {
            assert!(rt; holds(&mut layout, Case(Call::AppendBlock(255 - n), None)));
        }
        for n in 0..1024 {
            assert!(rt; holds(&mut layout, Case(Call::AppendInst(n, n % 256), None)));
        }
        for n in 0..1024 {
            let seq = layout.inst_seq(Inst::from_u32(n)) == Some(10 * (n / 256 + 1));
            let full = holds(
                &mut layout,
                Case(Call::AppendInst(n, 0), Some(Refusal(6, Point::I(n)))),
            );
            assert!(rt; seq && full);
        }
        for n in 0..256 {
            assert!(rt;
                holds(
                    &mut layout,
                    Case(Call::AppendBlock(n), Some(Refusal(6, Point::B(n))))
                )
            );
        }
        assert!(rt; layout.clear() == 0 && layout.entry_block() == None);
    }

    // The blocks of a full layout come in order, each once.
    #[test]
    fn a_full_walk(rt: HostRuntime) {
        let mut layout = Layout::new();
        for n in 0..256 {
            let _ = layout.append_block(Block::from_u32(255 - n));
        }
        assert!(rt; layout.blocks().eq((0..256).rev().map(Block::from_u32)));
    }

    // All 1,024 in one block: each append writes one number, and the last is 10,240.
    #[test]
    fn a_full_block(rt: HostRuntime) {
        let mut layout = Layout::new();
        let home = Block::from_u32(0);
        let _ = layout.append_block(home);
        for n in 0..1024 {
            assert!(rt; layout.append_inst(Inst::from_u32(n), home) == Ok(1));
            assert!(rt; layout.inst_seq(Inst::from_u32(n)) == Some(10 * (n + 1)));
        }
        assert!(rt; layout.block_insts(home).eq((0..1024).map(Inst::from_u32)));
    }

    // Five instructions, taken in turn from the front and from the back: each comes once, and then none from either end.
    #[test]
    fn ends_meet_in_the_middle(rt: HostRuntime) {
        let mut layout = Layout::new();
        let home = Block::from_u32(6);
        let _ = layout.append_block(home);
        for n in 10..15 {
            let _ = layout.append_inst(Inst::from_u32(n), home);
        }
        let mut walk = layout.block_insts(home);
        let first = walk.next();
        let last = walk.next_back();
        let second = walk.next();
        let fourth = walk.next_back();
        let middle = walk.next_back();
        let over = walk.next().is_none() && walk.next_back().is_none();
        assert!(rt; first == Some(Inst::from_u32(10)) && last == Some(Inst::from_u32(14)));
        assert!(rt; second == Some(Inst::from_u32(11)) && fourth == Some(Inst::from_u32(13)));
        assert!(rt; middle == Some(Inst::from_u32(12)) && over);
    }

    #[test]
    fn marks_stay_until_cleared(rt: HostRuntime) {
        let mut layout = Layout::new();
        let home = Block::from_u32(9);
        let _ = layout.set_cold(home);
        let marked = layout.is_cold(home) && !layout.is_block_inserted(home);
        let _ = layout.append_block(home);
        let kept = layout.is_cold(home) && !layout.is_cold(Block::from_u32(8));
        let removed = layout.remove_block(home) == Ok(0) && !layout.is_block_inserted(home);
        let outlives = layout.is_cold(home);
        let _ = layout.clear();
        assert!(rt; marked && kept && removed && outlives && !layout.is_cold(home));
    }

    #[test]
    fn refusals_read_well(rt: HostRuntime) -> Result<(), Fail> {
        let mut layout = Layout::new();
        match layout.append_inst(Inst::from_u32(5), Block::from_u32(7)) {
            Ok(_) => Err(Fail::new("accepted")),
            Err(fault) => {
                let text = format!(in rt.alloc(); "{fault}")?;
                assert!(rt;
                    text.as_str() == "refused with 5 by the layout: block7 is not inserted"
                );
                Ok(())
            }
        }
    }

    // The numbers themselves are what is asked for here, so they are compared as numbers.
    #[test]
    fn numbers_of_entities(rt: HostRuntime) {
        let highest = Block::from_u32(4294967295).as_u32() == Inst::from_u32(4294967295).as_u32();
        let all_but_one = Block::with_number(4294967294).is_some()
            && Block::with_number(4294967295).is_none();
        let inst = ProgramPoint::from(Point::I(4)).unwrap_inst() == Some(Inst::from_u32(4));
        assert!(rt;
            highest && all_but_one && inst && ProgramPoint::from(Point::B(4)).unwrap_inst() == None
        );
    }
}
