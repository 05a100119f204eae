//! Tests of scripts: texts that are read and written, texts that are refused, and answers as they are printed.

#![tactic(auto)]

#[cfg(test)]
mod tests {
    use calls::{Answer, CallFault};
    use cursor::CursorPosition;
    use cursor_faults::CursorFault;
    use entities::{Block, Inst};
    use faults::{Entity, LayoutFault};
    use script::{BlockLine, Command, CursorKind, Entry, Printed, Reply, What};
    use std::cmp::Ordering;
    use std::fmt::Display;
    use std::test::Fail;

    // Every call, as it is written.
    const CALLS: &str = "\
append_block block3
insert_block block1 block3
insert_block_after block1 block3
remove_block block3
remove_block_and_insts block3
split_block block6 inst8
append_inst inst7 block3
insert_inst inst8 inst7
remove_inst inst7
set_cold block3
clear
pp_cmp inst8 block3
pp_cmp block3 inst8
pp_cmp block3 block3
pp_cmp inst8 inst7
pp_block inst8
pp_block block3
is_block_inserted block3
inst_block inst7
entry_block
last_block
prev_block block3
next_block block3
first_inst block3
last_inst block3
next_inst inst7
prev_inst inst7
inst_seq inst7
is_cold block3
block_contains_exactly_one_inst block3
block_capacity
walk
walk_back
cursor a func
cursor b_2 word
cursor 3 func
a.goto_inst inst0
a.goto_after_inst inst4294967295
a.goto_first_inst block0
a.goto_last_inst block4294967295
b_2.goto_first_insertion_point block3
b_2.goto_top block3
b_2.goto_bottom block3
3.at_inst inst7
3.after_inst inst7
3.at_first_inst block3
3.at_last_inst block3
3.at_first_insertion_point block3
3.at_top block3
3.at_bottom block3
a.next_inst
a.prev_inst
a.next_block
a.prev_block
a.next_inst_position
a.prev_inst_position
a.next_block_position
a.prev_block_position
a.next_position
a.prev_position
a.insert_inst inst9
a.remove_inst
a.remove_inst_and_step_back
a.replace_inst inst9
a.insert_block block9
a.set_position nowhere
a.set_position at inst5
a.set_position before block3
a.set_position after block3
a.at_position nowhere
a.at_position at inst5
a.at_position before block3
a.at_position after block3
a.current_inst
a.current_block
a.position
";

    // The same calls in other spacing, and comments.
    const SPACED: &str =
        "# two blocks\n\n  append_block\tblock3   # the first\r\n\t# no call\ncursor a func#made\n a.set_position   at  inst5 ";

    const AS_WRITTEN: &str = "append_block block3\ncursor a func\na.set_position at inst5\n";

    // A text, the number of the first line that cannot be read, and why.
    const REFUSED: [(&str, usize, What); 38] = [
        ("hello", 1, What::NotACall),
        ("\n\nwalk\nAppend_block block3", 4, What::NotACall),
        ("append_block", 1, What::NotACall),
        ("append_block inst3", 1, What::NotACall),
        ("append_block block3 block4", 1, What::NotACall),
        ("append_block block3 block4 block5", 1, What::NotACall),
        ("append_block block", 1, What::NotACall),
        ("append_block block03", 1, What::NotACall),
        ("append_block block00", 1, What::NotACall),
        ("append_block block+3", 1, What::NotACall),
        ("append_block block-3", 1, What::NotACall),
        ("append_block block 3", 1, What::NotACall),
        ("append_block block3x", 1, What::NotACall),
        ("append_block Block3", 1, What::NotACall),
        ("append_block block3.", 1, What::NotACall),
        ("append_block bl\u{f6}ck3", 1, What::NotACall),
        ("append_block block4294967296", 1, What::NumberTooLarge),
        (
            "append_block block99999999999999999999999999",
            1,
            What::NumberTooLarge,
        ),
        ("append_block block04294967296", 1, What::NotACall),
        ("append_inst inst4294967296 block3", 1, What::NumberTooLarge),
        ("hello inst4294967296", 1, What::NumberTooLarge),
        ("walk block3", 1, What::NotACall),
        ("walk.", 1, What::NotACall),
        ("insert_inst inst8", 1, What::NotACall),
        ("pp_cmp at inst8", 1, What::NotACall),
        ("cursor a", 1, What::NotACall),
        ("cursor a funk", 1, What::NotACall),
        ("cursor a func word", 1, What::NotACall),
        ("cursor a.b func", 1, What::NotACall),
        ("cursor \u{e9} func", 1, What::NotACall),
        ("cursor a func\ncursor a word", 2, What::NameTaken),
        ("a.next_inst\ncursor a func", 1, What::UnknownCursor),
        ("cursor a func\nb.next_inst", 2, What::UnknownCursor),
        ("cursor a func\na.next_insts", 2, What::NotACall),
        ("cursor a func\na.next_inst inst3", 2, What::NotACall),
        ("cursor a func\na.set_position inst3", 2, What::NotACall),
        ("cursor a func\na.set_position at block3", 2, What::NotACall),
        ("cursor a func\n.next_inst", 2, What::NotACall),
    ];

    fn same<T: Display + Drop>(rt: &HostRuntime, shown: T, text: &str) -> Result<bool, Fail> {
        let written = format!(in rt.alloc(); "{shown}")?;
        Ok(written.as_str() == text)
    }

    #[test]
    fn every_call_is_read_and_written(rt: HostRuntime) -> Result<(), Fail> {
        let script = script::parse(rt.alloc(), CALLS)?;
        assert_eq!(rt; script.commands.len(), 76);
        for (command, line) in script.commands.iter().zip(CALLS.lines()) {
            assert!(rt; same(&rt, script.names.line(*command), line)?);
        }
        Ok(())
    }

    #[test]
    fn spaces_and_comments_are_passed_over(rt: HostRuntime) -> Result<(), Fail> {
        let script = script::parse(rt.alloc(), SPACED)?;
        assert_eq!(rt; script.commands.len(), 3);
        for (command, line) in script.commands.iter().zip(AS_WRITTEN.lines()) {
            assert!(rt; same(&rt, script.names.line(*command), line)?);
        }
        Ok(())
    }

    #[test]
    fn cursors_count_in_order_of_making(rt: HostRuntime) -> Result<(), Fail> {
        let script = script::parse(rt.alloc(), "cursor b word\nwalk\ncursor a func\n")?;
        assert!(rt;
            script.commands.get(0).copied() == Some(Command::NewCursor(0, CursorKind::Word))
        );
        assert!(rt;
            script.commands.get(2).copied() == Some(Command::NewCursor(1, CursorKind::Func))
        );
        Ok(())
    }

    #[test]
    fn the_first_bad_line_is_told(rt: HostRuntime) -> Result<(), Fail> {
        for (text, line, what) in REFUSED {
            let fault = script::parse(rt.alloc(), text).err().ok_or("read")?;
            assert_eq!(rt; fault.line, line, "in {text:?}");
            assert_eq!(rt; fault.what, what, "in {text:?}");
        }
        Ok(())
    }

    #[test]
    fn faults_read_well(rt: HostRuntime) -> Result<(), Fail> {
        let fault = script::parse(rt.alloc(), "walk\na.next_inst")
            .err()
            .ok_or("read")?;
        assert!(rt; same(&rt, fault, "line 2: no cursor with this name")?);
        Ok(())
    }

    #[test]
    fn answers_are_printed(rt: HostRuntime) -> Result<(), Fail> {
        let inst = Inst::from_u32(7);
        let block = Block::from_u32(3);
        assert!(rt; same(&rt, Printed(Answer::Wrote(1)), "wrote 1")?);
        assert!(rt; same(&rt, Printed(Answer::Took(inst, 1)), "took inst7, wrote 1")?);
        assert!(rt; same(&rt, Printed(Answer::Inst(Some(inst))), "inst7")?);
        assert!(rt; same(&rt, Printed(Answer::Inst(None)), "none")?);
        assert!(rt; same(&rt, Printed(Answer::Block(Some(block))), "block3")?);
        assert!(rt; same(&rt, Printed(Answer::Block(None)), "none")?);
        assert!(rt;
            same(
                &rt,
                Printed(Answer::Position(Some(CursorPosition::At(inst)))),
                "at inst7"
            )?
        );
        assert!(rt; same(&rt, Printed(Answer::Position(None)), "none")?);
        assert!(rt; same(&rt, Printed(Answer::Done), "done")?);
        assert!(rt; same(&rt, Reply::Order(Ok(Ordering::Less)), "Less")?);
        assert!(rt; same(&rt, Reply::Order(Ok(Ordering::Equal)), "Equal")?);
        assert!(rt; same(&rt, Reply::Order(Ok(Ordering::Greater)), "Greater")?);
        assert!(rt; same(&rt, Reply::PointBlock(Ok(block)), "block3")?);
        assert!(rt; same(&rt, Reply::Flag(true), "true")?);
        assert!(rt; same(&rt, Reply::Flag(false), "false")?);
        assert!(rt; same(&rt, Reply::Number(Some(256)), "256")?);
        assert!(rt; same(&rt, Reply::Number(None), "none")?);
        assert!(rt; same(&rt, Reply::Position(CursorPosition::Nowhere), "nowhere")?);
        assert!(rt;
            same(
                &rt,
                Reply::Position(CursorPosition::Before(block)),
                "before block3"
            )?
        );
        assert!(rt;
            same(
                &rt,
                Reply::Position(CursorPosition::After(block)),
                "after block3"
            )?
        );
        Ok(())
    }

    #[test]
    fn refusals_are_printed(rt: HostRuntime) -> Result<(), Fail> {
        let inst = Entity::Inst(Inst::from_u32(9));
        let by_layout = LayoutFault::NotInserted(inst);
        let carried = CursorFault::Layout(by_layout);
        assert!(rt;
            same(
                &rt,
                Printed(CallFault::Layout(by_layout)),
                "refused 5 by layout: inst9"
            )?
        );
        assert!(rt;
            same(
                &rt,
                Printed(CallFault::Cursor(carried)),
                "refused 5 by layout in cursor: inst9"
            )?
        );
        assert!(rt;
            same(
                &rt,
                Printed(CallFault::Cursor(CursorFault::Stale(inst))),
                "refused 3 by cursor: inst9"
            )?
        );
        assert!(rt;
            same(
                &rt,
                Printed(CallFault::Cursor(CursorFault::WrongPosition)),
                "refused 4 by cursor: -"
            )?
        );
        assert!(rt;
            same(
                &rt,
                Reply::Outcome(Err(CallFault::Layout(by_layout))),
                "refused 5 by layout: inst9"
            )?
        );
        assert!(rt;
            same(
                &rt,
                Reply::Order(Err(by_layout)),
                "refused 5 by layout: inst9"
            )?
        );
        Ok(())
    }

    #[test]
    fn entries_are_printed(rt: HostRuntime) -> Result<(), Fail> {
        let script = script::parse(rt.alloc(), "cursor a func\na.next_inst")?;
        let command = script.commands.get(1).copied().ok_or("no call")?;
        let inst = Inst::from_u32(7);
        let entry = Entry {
            line: script.names.line(command),
            reply: Reply::Outcome(Ok(Answer::Inst(Some(inst)))),
            position: Some(CursorPosition::At(inst)),
        };
        assert!(rt; same(&rt, entry, "a.next_inst -> inst7; at inst7")?);
        assert!(rt;
            same(
                &rt,
                Entry {
                    position: None,
                    ..entry
                },
                "a.next_inst -> inst7"
            )?
        );
        Ok(())
    }

    #[test]
    fn walks_are_printed(rt: HostRuntime) -> Result<(), Fail> {
        let slots = [(Inst::from_u32(7), 10), (Inst::from_u32(8), 20)];
        let line = BlockLine {
            block: Block::from_u32(3),
            cold: false,
            slots: &slots,
        };
        assert!(rt; same(&rt, line, "block3: inst7/10 inst8/20")?);
        assert!(rt;
            same(
                &rt,
                BlockLine { cold: true, ..line },
                "block3 cold: inst7/10 inst8/20"
            )?
        );
        assert!(rt; same(&rt, BlockLine { slots: &[], ..line }, "block3:")?);
        Ok(())
    }
}
