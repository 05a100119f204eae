//! Tests of the audit by its public calls, most of them tables of cases. Each expected value follows from the five rules, and none from our
//! own output.

#![tactic(auto)]

#[cfg(test)]
mod tests {
    use audit::{audit, audit_layout};
    use chain::Ends;
    use entities::nodes::{BlockNode, InstNode};
    use entities::{Block, Inst};
    use faults::{Entity, Layer};
    use layout::Layout;
    use std::test::Fail;
    use verdicts::{AuditFault, Breach, Rule, Verdict};

    // The node of a block by its numbers: previous and next block, first and last instruction.
    #[derive(Clone, Copy)]
    struct B(Option<u32>, Option<u32>, Option<u32>, Option<u32>);

    // The node of an instruction by its numbers: its block, previous and next instruction, and sequence number.
    #[derive(Clone, Copy)]
    struct I(Option<u32>, Option<u32>, Option<u32>, u32);

    // Two tables, each row the node of the next number, with the first and the last block; and the text of their verdict.
    #[derive(Clone, Copy)]
    struct Case {
        ends: (Option<u32>, Option<u32>),
        blocks: &'static [B],
        insts: &'static [I],
        verdict: &'static str,
    }

    impl From<B> for BlockNode {
        fn from(row: B) -> BlockNode {
            let B(prev, next, first, last) = row;
            BlockNode {
                prev: prev.map(Block::from_u32),
                next: next.map(Block::from_u32),
                first_inst: first.map(Inst::from_u32),
                last_inst: last.map(Inst::from_u32),
                cold: false,
            }
        }
    }

    impl From<I> for InstNode {
        fn from(row: I) -> InstNode {
            let I(block, prev, next, seq) = row;
            InstNode {
                block: block.map(Block::from_u32),
                prev: prev.map(Inst::from_u32),
                next: next.map(Inst::from_u32),
                seq,
            }
        }
    }

    // Tables that keep all five rules.
    const LAWFUL: &[Case] = &[
        // no nodes at all
        Case {
            ends: (None, None),
            blocks: &[],
            insts: &[],
            verdict: "lawful",
        },
        // one bare node each
        Case {
            ends: (None, None),
            blocks: &[B(None, None, None, None)],
            insts: &[I(None, None, None, 0)],
            verdict: "lawful",
        },
        // one empty block alone
        Case {
            ends: (Some(0), Some(0)),
            blocks: &[B(None, None, None, None)],
            insts: &[],
            verdict: "lawful",
        },
        // two blocks, against the order of their numbers, and instructions with gaps between
        Case {
            ends: (Some(1), Some(0)),
            blocks: &[
                B(Some(1), None, Some(2), Some(2)),
                B(None, Some(0), Some(0), Some(3)),
            ],
            insts: &[
                I(Some(1), None, Some(3), 10),
                I(None, None, None, 0),
                I(Some(0), None, None, 10),
                I(Some(1), Some(0), None, 11),
            ],
            verdict: "lawful",
        },
        // the first number may be 0, and the highest there is may follow
        Case {
            ends: (Some(0), Some(0)),
            blocks: &[B(None, None, Some(0), Some(1))],
            insts: &[
                I(Some(0), None, Some(1), 0),
                I(Some(0), Some(0), None, 4294967295),
            ],
            verdict: "lawful",
        },
    ];

    // What leads outside its table.
    const IN_TABLE: &[Case] = &[
        // the first end
        Case {
            ends: (Some(1), Some(0)),
            blocks: &[B(None, None, None, None)],
            insts: &[],
            verdict: "in-table: -",
        },
        // the last end
        Case {
            ends: (Some(0), Some(1)),
            blocks: &[B(None, None, None, None)],
            insts: &[],
            verdict: "in-table: -",
        },
        // an end of a table of no blocks
        Case {
            ends: (Some(0), None),
            blocks: &[],
            insts: &[],
            verdict: "in-table: -",
        },
        // a block's previous link
        Case {
            ends: (None, None),
            blocks: &[B(Some(1), None, None, None)],
            insts: &[],
            verdict: "in-table: block0",
        },
        // a block's next link
        Case {
            ends: (None, None),
            blocks: &[B(None, None, None, None), B(None, Some(2), None, None)],
            insts: &[],
            verdict: "in-table: block1",
        },
        // a block's first instruction
        Case {
            ends: (None, None),
            blocks: &[B(None, None, None, None), B(None, None, Some(1), None)],
            insts: &[I(None, None, None, 0)],
            verdict: "in-table: block1",
        },
        // a block's last instruction
        Case {
            ends: (None, None),
            blocks: &[B(None, None, None, None), B(None, None, None, Some(1))],
            insts: &[I(None, None, None, 0)],
            verdict: "in-table: block1",
        },
        // an instruction of a table of none
        Case {
            ends: (Some(0), Some(0)),
            blocks: &[B(None, None, Some(0), Some(0))],
            insts: &[],
            verdict: "in-table: block0",
        },
        // an instruction's block
        Case {
            ends: (None, None),
            blocks: &[B(None, None, None, None)],
            insts: &[I(None, None, None, 0), I(Some(1), None, None, 0)],
            verdict: "in-table: inst1",
        },
        // an instruction's previous link
        Case {
            ends: (None, None),
            blocks: &[],
            insts: &[I(None, None, None, 0), I(None, Some(2), None, 0)],
            verdict: "in-table: inst1",
        },
        // an instruction's next link
        Case {
            ends: (None, None),
            blocks: &[],
            insts: &[I(None, None, Some(1), 0)],
            verdict: "in-table: inst0",
        },
        // the lowest of two blocks
        Case {
            ends: (None, None),
            blocks: &[
                B(None, None, None, None),
                B(Some(3), None, None, None),
                B(Some(3), None, None, None),
            ],
            insts: &[],
            verdict: "in-table: block1",
        },
        // the lowest of two instructions
        Case {
            ends: (None, None),
            blocks: &[],
            insts: &[
                I(None, None, None, 0),
                I(None, Some(3), None, 0),
                I(None, Some(3), None, 0),
            ],
            verdict: "in-table: inst1",
        },
        // a block ahead of an instruction
        Case {
            ends: (None, None),
            blocks: &[B(None, None, None, None), B(Some(2), None, None, None)],
            insts: &[I(None, Some(4294967295), None, 0)],
            verdict: "in-table: block1",
        },
        // an end ahead of a block
        Case {
            ends: (None, Some(4294967295)),
            blocks: &[B(Some(7), None, None, None)],
            insts: &[],
            verdict: "in-table: -",
        },
    ];

    // Blocks that are no chain between the two ends.
    const BLOCK_CHAIN: &[Case] = &[
        // the first end alone is absent
        Case {
            ends: (None, Some(0)),
            blocks: &[B(None, None, None, None)],
            insts: &[],
            verdict: "block chain: -",
        },
        // the last end alone is absent
        Case {
            ends: (Some(0), None),
            blocks: &[B(None, None, None, None)],
            insts: &[],
            verdict: "block chain: -",
        },
        // a block that is its own next
        Case {
            ends: (Some(0), Some(0)),
            blocks: &[B(None, Some(0), None, None)],
            insts: &[],
            verdict: "block chain: -",
        },
        // a block that is its own next and previous
        Case {
            ends: (Some(0), Some(0)),
            blocks: &[B(Some(0), Some(0), None, None)],
            insts: &[],
            verdict: "block chain: -",
        },
        // two blocks that go round
        Case {
            ends: (Some(0), Some(1)),
            blocks: &[
                B(Some(1), Some(1), None, None),
                B(Some(0), Some(0), None, None),
            ],
            insts: &[],
            verdict: "block chain: -",
        },
        // two that go round and miss the last
        Case {
            ends: (Some(0), Some(2)),
            blocks: &[
                B(None, Some(1), None, None),
                B(Some(0), Some(0), None, None),
                B(None, None, None, None),
            ],
            insts: &[],
            verdict: "block chain: -",
        },
        // a tail that goes round
        Case {
            ends: (Some(0), Some(2)),
            blocks: &[
                B(None, Some(1), None, None),
                B(Some(0), Some(2), None, None),
                B(Some(1), Some(1), None, None),
            ],
            insts: &[],
            verdict: "block chain: -",
        },
        // a last that leads on
        Case {
            ends: (Some(0), Some(0)),
            blocks: &[B(None, Some(1), None, None), B(Some(0), None, None, None)],
            insts: &[],
            verdict: "block chain: -",
        },
        // a walk that ends ahead of the last
        Case {
            ends: (Some(0), Some(1)),
            blocks: &[B(None, None, None, None), B(None, None, None, None)],
            insts: &[],
            verdict: "block chain: -",
        },
        // a first with a previous link
        Case {
            ends: (Some(0), Some(0)),
            blocks: &[B(Some(1), None, None, None), B(None, None, None, None)],
            insts: &[],
            verdict: "block chain: -",
        },
        // a previous link that does not mirror the next
        Case {
            ends: (Some(0), Some(1)),
            blocks: &[B(None, Some(1), None, None), B(None, None, None, None)],
            insts: &[],
            verdict: "block chain: -",
        },
        // a previous link to another
        Case {
            ends: (Some(0), Some(2)),
            blocks: &[
                B(None, Some(1), None, None),
                B(Some(0), Some(2), None, None),
                B(Some(0), None, None, None),
            ],
            insts: &[],
            verdict: "block chain: -",
        },
    ];

    // Instructions that are no chain of their block between its ends.
    const INST_CHAINS: &[Case] = &[
        // a first instruction alone
        Case {
            ends: (Some(0), Some(0)),
            blocks: &[B(None, None, Some(0), None)],
            insts: &[I(Some(0), None, None, 0)],
            verdict: "instruction chains: block0",
        },
        // a last instruction alone
        Case {
            ends: (Some(0), Some(0)),
            blocks: &[B(None, None, None, Some(0))],
            insts: &[I(Some(0), None, None, 0)],
            verdict: "instruction chains: block0",
        },
        // an instruction that is its own next
        Case {
            ends: (Some(0), Some(0)),
            blocks: &[B(None, None, Some(0), Some(0))],
            insts: &[I(Some(0), None, Some(0), 0)],
            verdict: "instruction chains: block0",
        },
        // two that go round and miss the last
        Case {
            ends: (Some(0), Some(0)),
            blocks: &[B(None, None, Some(0), Some(2))],
            insts: &[
                I(Some(0), None, Some(1), 0),
                I(Some(0), Some(0), Some(0), 0),
                I(Some(0), None, None, 0),
            ],
            verdict: "instruction chains: block0",
        },
        // a last that leads on
        Case {
            ends: (Some(0), Some(0)),
            blocks: &[B(None, None, Some(0), Some(0))],
            insts: &[I(Some(0), None, Some(1), 0), I(Some(0), Some(0), None, 0)],
            verdict: "instruction chains: block0",
        },
        // a first with a previous link
        Case {
            ends: (Some(0), Some(0)),
            blocks: &[B(None, None, Some(0), Some(0))],
            insts: &[I(Some(0), Some(1), None, 0), I(Some(0), None, None, 0)],
            verdict: "instruction chains: block0",
        },
        // a previous link that does not mirror the next
        Case {
            ends: (Some(0), Some(0)),
            blocks: &[B(None, None, Some(0), Some(1))],
            insts: &[I(Some(0), None, Some(1), 10), I(Some(0), None, None, 20)],
            verdict: "instruction chains: block0",
        },
        // an instruction that names no block
        Case {
            ends: (Some(0), Some(0)),
            blocks: &[B(None, None, Some(0), Some(0))],
            insts: &[I(None, None, None, 0)],
            verdict: "instruction chains: block0",
        },
        // an instruction that names another block
        Case {
            ends: (Some(0), Some(1)),
            blocks: &[
                B(None, Some(1), Some(0), Some(0)),
                B(Some(0), None, None, None),
            ],
            insts: &[I(Some(1), None, None, 0)],
            verdict: "instruction chains: block0",
        },
        // an instruction in two chains names but one
        Case {
            ends: (Some(0), Some(1)),
            blocks: &[
                B(None, Some(1), Some(0), Some(0)),
                B(Some(0), None, Some(0), Some(0)),
            ],
            insts: &[I(Some(0), None, None, 0)],
            verdict: "instruction chains: block1",
        },
        // the earliest of two in walk order
        Case {
            ends: (Some(1), Some(0)),
            blocks: &[
                B(Some(1), None, Some(0), None),
                B(None, Some(0), None, Some(0)),
            ],
            insts: &[I(None, None, None, 0)],
            verdict: "instruction chains: block1",
        },
        // the second of two blocks alone
        Case {
            ends: (Some(1), Some(0)),
            blocks: &[
                B(Some(1), None, Some(0), None),
                B(None, Some(0), None, None),
            ],
            insts: &[I(Some(0), None, None, 0)],
            verdict: "instruction chains: block0",
        },
    ];

    // Nodes that are in no chain and hold something all the same.
    const UNMET_BARE: &[Case] = &[
        // a block with a previous link
        Case {
            ends: (None, None),
            blocks: &[B(Some(0), None, None, None)],
            insts: &[],
            verdict: "unmet nodes are bare: block0",
        },
        // a block with a next link
        Case {
            ends: (Some(0), Some(0)),
            blocks: &[B(None, None, None, None), B(None, Some(0), None, None)],
            insts: &[],
            verdict: "unmet nodes are bare: block1",
        },
        // a block with a first instruction
        Case {
            ends: (Some(0), Some(0)),
            blocks: &[B(None, None, None, None), B(None, None, Some(0), None)],
            insts: &[I(None, None, None, 0)],
            verdict: "unmet nodes are bare: block1",
        },
        // a block with a last instruction
        Case {
            ends: (Some(0), Some(0)),
            blocks: &[B(None, None, None, None), B(None, None, None, Some(0))],
            insts: &[I(None, None, None, 0)],
            verdict: "unmet nodes are bare: block1",
        },
        // blocks that go round by themselves
        Case {
            ends: (Some(0), Some(0)),
            blocks: &[
                B(None, None, None, None),
                B(Some(2), Some(2), None, None),
                B(Some(1), Some(1), None, None),
            ],
            insts: &[],
            verdict: "unmet nodes are bare: block1",
        },
        // an instruction that names a block
        Case {
            ends: (Some(0), Some(0)),
            blocks: &[B(None, None, None, None)],
            insts: &[I(None, None, None, 0), I(Some(0), None, None, 0)],
            verdict: "unmet nodes are bare: inst1",
        },
        // an instruction with a previous link
        Case {
            ends: (None, None),
            blocks: &[],
            insts: &[I(None, Some(0), None, 0)],
            verdict: "unmet nodes are bare: inst0",
        },
        // an instruction with a next link
        Case {
            ends: (None, None),
            blocks: &[],
            insts: &[I(None, None, None, 0), I(None, None, Some(0), 0)],
            verdict: "unmet nodes are bare: inst1",
        },
        // the lowest of two instructions
        Case {
            ends: (None, None),
            blocks: &[],
            insts: &[
                I(None, None, None, 0),
                I(None, Some(0), None, 0),
                I(None, Some(0), None, 0),
            ],
            verdict: "unmet nodes are bare: inst1",
        },
        // the lowest of two blocks
        Case {
            ends: (None, None),
            blocks: &[
                B(None, None, None, None),
                B(Some(0), None, None, None),
                B(Some(0), None, None, None),
            ],
            insts: &[],
            verdict: "unmet nodes are bare: block1",
        },
        // a block ahead of an instruction
        Case {
            ends: (None, None),
            blocks: &[B(None, None, None, None), B(Some(0), None, None, None)],
            insts: &[I(None, Some(0), None, 0)],
            verdict: "unmet nodes are bare: block1",
        },
        // an instruction of a block that is not inserted
        Case {
            ends: (Some(0), Some(0)),
            blocks: &[B(None, None, None, None), B(None, None, Some(0), Some(0))],
            insts: &[I(Some(1), None, None, 0)],
            verdict: "unmet nodes are bare: block1",
        },
    ];

    // Numbers that do not rise along a block.
    const RISING_NUMBERS: &[Case] = &[
        // two numbers that are level
        Case {
            ends: (Some(0), Some(0)),
            blocks: &[B(None, None, Some(0), Some(1))],
            insts: &[I(Some(0), None, Some(1), 10), I(Some(0), Some(0), None, 10)],
            verdict: "rising numbers: block0",
        },
        // two numbers that fall
        Case {
            ends: (Some(0), Some(0)),
            blocks: &[B(None, None, Some(0), Some(1))],
            insts: &[I(Some(0), None, Some(1), 11), I(Some(0), Some(0), None, 10)],
            verdict: "rising numbers: block0",
        },
        // the last two of three are level
        Case {
            ends: (Some(0), Some(0)),
            blocks: &[B(None, None, Some(2), Some(1))],
            insts: &[
                I(Some(0), Some(2), Some(1), 9),
                I(Some(0), Some(0), None, 9),
                I(Some(0), None, Some(0), 0),
            ],
            verdict: "rising numbers: block0",
        },
        // the second of two blocks
        Case {
            ends: (Some(0), Some(1)),
            blocks: &[
                B(None, Some(1), Some(0), Some(0)),
                B(Some(0), None, Some(1), Some(2)),
            ],
            insts: &[
                I(Some(0), None, None, 50),
                I(Some(1), None, Some(2), 1),
                I(Some(1), Some(1), None, 1),
            ],
            verdict: "rising numbers: block1",
        },
        // the earliest of two in walk order
        Case {
            ends: (Some(1), Some(0)),
            blocks: &[
                B(Some(1), None, Some(0), Some(1)),
                B(None, Some(0), Some(2), Some(3)),
            ],
            insts: &[
                I(Some(0), None, Some(1), 5),
                I(Some(0), Some(0), None, 5),
                I(Some(1), None, Some(3), 5),
                I(Some(1), Some(2), None, 5),
            ],
            verdict: "rising numbers: block1",
        },
    ];

    // Two rules broken at once: the first is named.
    const TWO_BROKEN: &[Case] = &[
        // in-table and block chain
        Case {
            ends: (Some(0), None),
            blocks: &[B(None, None, None, None)],
            insts: &[I(Some(9), None, None, 0)],
            verdict: "in-table: inst0",
        },
        // in-table and unmet nodes are bare
        Case {
            ends: (None, None),
            blocks: &[B(Some(0), None, None, None), B(Some(9), None, None, None)],
            insts: &[],
            verdict: "in-table: block1",
        },
        // block chain and instruction chains
        Case {
            ends: (Some(0), None),
            blocks: &[B(None, None, Some(0), None)],
            insts: &[I(None, None, None, 0)],
            verdict: "block chain: -",
        },
        // block chain and unmet nodes are bare
        Case {
            ends: (Some(0), Some(0)),
            blocks: &[B(None, Some(0), None, None), B(Some(1), None, None, None)],
            insts: &[],
            verdict: "block chain: -",
        },
        // instruction chains and unmet nodes are bare
        Case {
            ends: (Some(0), Some(0)),
            blocks: &[B(None, None, Some(0), None), B(Some(0), None, None, None)],
            insts: &[I(None, None, None, 0)],
            verdict: "instruction chains: block0",
        },
        // instruction chains of the second block and rising numbers of the first
        Case {
            ends: (Some(0), Some(1)),
            blocks: &[
                B(None, Some(1), Some(0), Some(1)),
                B(Some(0), None, Some(2), None),
            ],
            insts: &[
                I(Some(0), None, Some(1), 5),
                I(Some(0), Some(0), None, 5),
                I(Some(1), None, None, 0),
            ],
            verdict: "instruction chains: block1",
        },
        // unmet nodes are bare and rising numbers
        Case {
            ends: (Some(0), Some(0)),
            blocks: &[B(None, None, Some(0), Some(1))],
            insts: &[
                I(Some(0), None, Some(1), 5),
                I(Some(0), Some(0), None, 5),
                I(Some(0), None, None, 0),
            ],
            verdict: "unmet nodes are bare: inst2",
        },
        // all five
        Case {
            ends: (Some(0), None),
            blocks: &[B(Some(0), None, None, None), B(Some(9), None, None, None)],
            insts: &[I(None, Some(0), None, 0)],
            verdict: "in-table: block1",
        },
    ];

    // The most rows that a table of a case has.
    const ROWS: usize = 4;

    // Is the verdict on the case's tables the one that it wants?
    fn is_told(rt: &HostRuntime, case: Case) -> Result<bool, Fail> {
        let mut blocks = [BlockNode::EMPTY; ROWS];
        for (node, row) in blocks.iter_mut().zip(case.blocks) {
            *node = (*row).into();
        }
        let mut insts = [InstNode::EMPTY; ROWS];
        for (node, row) in insts.iter_mut().zip(case.insts) {
            *node = (*row).into();
        }
        let blocks = blocks.get(..case.blocks.len()).ok_or("too many rows")?;
        let insts = insts.get(..case.insts.len()).ok_or("too many rows")?;
        let (first, last) = case.ends;
        let ends = Ends {
            first: first.map(Block::from_u32),
            last: last.map(Block::from_u32),
        };
        let verdict = audit(blocks, insts, ends)?;
        let text = format!(in rt.alloc(); "{verdict}")?;
        Ok(text.as_str() == case.verdict)
    }

    // The number of the first case that is told otherwise.
    fn first_wrong(rt: &HostRuntime, cases: &[Case]) -> Result<Option<usize>, Fail> {
        for (i, case) in cases.iter().enumerate() {
            if !is_told(rt, *case)? {
                return Ok(Some(i));
            }
        }
        Ok(None)
    }

    #[test]
    fn lawful(rt: HostRuntime) -> Result<(), Fail> {
        assert!(rt; first_wrong(&rt, LAWFUL)? == None);
        Ok(())
    }

    #[test]
    fn in_table(rt: HostRuntime) -> Result<(), Fail> {
        assert!(rt; first_wrong(&rt, IN_TABLE)? == None);
        Ok(())
    }

    #[test]
    fn block_chain(rt: HostRuntime) -> Result<(), Fail> {
        assert!(rt; first_wrong(&rt, BLOCK_CHAIN)? == None);
        Ok(())
    }

    #[test]
    fn inst_chains(rt: HostRuntime) -> Result<(), Fail> {
        assert!(rt; first_wrong(&rt, INST_CHAINS)? == None);
        Ok(())
    }

    #[test]
    fn unmet_bare(rt: HostRuntime) -> Result<(), Fail> {
        assert!(rt; first_wrong(&rt, UNMET_BARE)? == None);
        Ok(())
    }

    #[test]
    fn rising_numbers(rt: HostRuntime) -> Result<(), Fail> {
        assert!(rt; first_wrong(&rt, RISING_NUMBERS)? == None);
        Ok(())
    }

    #[test]
    fn two_broken(rt: HostRuntime) -> Result<(), Fail> {
        assert!(rt; first_wrong(&rt, TWO_BROKEN)? == None);
        Ok(())
    }

    // A layout with all 256 blocks and 1,024 instructions, four to a block, numbered 10 to 40. Its last block in order is block 0.
    fn full_layout() -> Layout {
        let mut layout = Layout::new();
        for n in 0..256 {
            let _ = layout.append_block(Block::from_u32(255 - n));
        }
        for n in 0..1024 {
            let _ = layout.append_inst(Inst::from_u32(n), Block::from_u32(n % 256));
        }
        layout
    }

    #[test]
    fn layouts_are_lawful(rt: HostRuntime) {
        assert!(rt; audit_layout(&Layout::new()) == Ok(Verdict::Lawful));
        assert!(rt; audit_layout(&full_layout()) == Ok(Verdict::Lawful));
    }

    // A copy of a layout's nodes of instructions, with another node for the last.
    fn with_last_inst(layout: &Layout, last: InstNode) -> [InstNode; 1024] {
        let mut insts = [InstNode::EMPTY; 1024];
        for (to, from) in insts.iter_mut().zip(layout.inst_nodes()) {
            *to = *from;
        }
        insts[1023] = last;
        insts
    }

    // Full tables, with the last node of each at fault.
    #[test]
    fn full_tables(rt: HostRuntime) -> Result<(), Fail> {
        let layout = full_layout();
        let blocks = layout.block_nodes();
        let insts = layout.inst_nodes();
        let ends = layout.block_ends();
        assert!(rt; audit(blocks, insts, ends) == Ok(Verdict::Lawful));

        let mut changed = [BlockNode::EMPTY; 256];
        for (to, from) in changed.iter_mut().zip(blocks) {
            *to = *from;
        }
        changed[255].prev = Some(Block::from_u32(256));
        let outside = Entity::Block(Block::from_u32(255));
        let verdict = Verdict::Broken(Breach::InTable(Some(outside)));
        assert!(rt; audit(&changed, insts, ends) == Ok(verdict));

        let last = *insts.last().ok_or("no instruction")?;
        let next = Some(Inst::from_u32(1024));
        let changed = with_last_inst(&layout, InstNode { next, ..last });
        let outside = Entity::Inst(Inst::from_u32(1023));
        let verdict = Verdict::Broken(Breach::InTable(Some(outside)));
        assert!(rt; audit(blocks, &changed, ends) == Ok(verdict));

        let changed = with_last_inst(&layout, InstNode { seq: 30, ..last });
        let verdict = Verdict::Broken(Breach::RisingNumbers(Block::from_u32(255)));
        assert!(rt; audit(blocks, &changed, ends) == Ok(verdict));
        Ok(())
    }

    #[test]
    fn one_too_many(rt: HostRuntime) -> Result<(), Fail> {
        let none = Ends {
            first: None,
            last: None,
        };
        let full = audit(&[BlockNode::EMPTY; 256], &[InstNode::EMPTY; 1024], none);
        assert!(rt; full == Ok(Verdict::Lawful));
        let refused = Err(AuditFault::TooManyNodes);
        assert!(rt; audit(&[BlockNode::EMPTY; 257], &[], none) == refused);
        assert!(rt; audit(&[], &[InstNode::EMPTY; 1025], none) == refused);
        let fault = AuditFault::TooManyNodes;
        assert!(rt; fault.number() == 1 && fault.layer() == Layer::Audit && fault.entity() == None);
        let text = format!(in rt.alloc(); "{fault}")?;
        assert!(rt; text.as_str() == "refused with 1 by the audit: too many nodes");
        Ok(())
    }

    // A node that is met by no walk keeps any number and any mark.
    #[test]
    fn numbers_and_marks_are_free(rt: HostRuntime) -> Result<(), Fail> {
        let cold = BlockNode {
            cold: true,
            ..BlockNode::EMPTY
        };
        let numbered = InstNode {
            seq: 7,
            ..InstNode::EMPTY
        };
        let none = Ends {
            first: None,
            last: None,
        };
        assert!(rt; audit(&[cold], &[numbered], none)? == Verdict::Lawful);
        Ok(())
    }

    #[test]
    fn verdicts_tell_rule_and_entity(rt: HostRuntime) {
        let block = Entity::Block(Block::from_u32(3));
        let chains = Verdict::Broken(Breach::InstChains(Block::from_u32(3)));
        assert!(rt; chains.rule() == Some(Rule::InstChains) && chains.entity() == Some(block));
        let blocks = Verdict::Broken(Breach::BlockChain);
        assert!(rt; blocks.rule() == Some(Rule::BlockChain) && blocks.entity() == None);
        let ends = Verdict::Broken(Breach::InTable(None));
        assert!(rt; ends.rule() == Some(Rule::InTable) && ends.entity() == None);
        let bare = Verdict::Broken(Breach::UnmetBare(block));
        assert!(rt; bare.rule() == Some(Rule::UnmetBare) && bare.entity() == Some(block));
        let rising = Verdict::Broken(Breach::RisingNumbers(Block::from_u32(3)));
        assert!(rt; rising.rule() == Some(Rule::RisingNumbers) && rising.entity() == Some(block));
        assert!(rt; Verdict::Lawful.rule() == None && Verdict::Lawful.entity() == None);
    }
}
