//! Tests of dumps: tables that are read and printed, and texts that are refused.

#![tactic(auto)]

#[cfg(test)]
mod tests {
    use chain::Ends;
    use dump::{Dump, DumpRef, Line, What};
    use entities::nodes::{BlockNode, InstNode};
    use entities::{Block, Inst};
    use std::fmt::Display;
    use std::test::Fail;

    // Two blocks of three that stand, the second cold, and one instruction of two.
    const PRINTED: &str = "\
ends block2 block0
block0 block2 none none none cold
block1 none none none none
block2 none block0 inst1 inst1
inst0 none none none 0
inst1 block2 none none 10
";

    // The same in other spacing, with comments.
    const SPACED: &str =
        "# of the east car\n\n\tends block2  block0 # first and last\r\nblock0 block2 none none none cold#marked\n block1 none none none none\n#block1 none none none none\nblock2 none block0 inst1 inst1\ninst0 none none none 0\n   \ninst1 block2 none none 10";

    // A text, the number of the first line that cannot be read, and why.
    const REFUSED: &[(&str, usize, What)] = &[
        ("", 1, What::NoEnds),
        ("\n# nothing\n", 3, What::NoEnds),
        ("hello", 1, What::NotALine),
        ("ends", 1, What::NotALine),
        ("ends block0", 1, What::NotALine),
        ("ends block0 block0 block0", 1, What::NotALine),
        ("ends inst0 none", 1, What::NotALine),
        ("ends block00 none", 1, What::NotALine),
        ("ends none none\n\nblock0 none none none", 3, What::NotALine),
        (
            "ends none none\nblock0 none none none none warm",
            2,
            What::NotALine,
        ),
        (
            "ends none none\nblock0 none none none none cold cold",
            2,
            What::NotALine,
        ),
        (
            "ends none none\nblock0 none none block0 none",
            2,
            What::NotALine,
        ),
        ("ends none none\ninst0 none none none", 2, What::NotALine),
        (
            "ends none none\ninst0 none none none none",
            2,
            What::NotALine,
        ),
        ("ends none none\ninst0 none none none -1", 2, What::NotALine),
        (
            "ends none none\ninst0 none none none 0 cold",
            2,
            What::NotALine,
        ),
        ("ends block4294967296 none", 1, What::NumberTooLarge),
        (
            "ends none none\ninst0 none inst4294967296 none 0",
            2,
            What::NumberTooLarge,
        ),
        (
            "ends none none\ninst0 none none none 4294967296",
            2,
            What::NumberTooLarge,
        ),
        ("block0 none none none none", 1, What::OutOfOrder),
        ("ends none none\nends none none", 2, What::OutOfOrder),
        (
            "ends none none\nblock1 none none none none",
            2,
            What::OutOfOrder,
        ),
        (
            "ends none none\nblock0 none none none none\nblock0 none none none none",
            3,
            What::OutOfOrder,
        ),
        (
            "ends none none\ninst1 none none none 0",
            2,
            What::OutOfOrder,
        ),
        (
            "ends none none\ninst0 none none none 0\nblock0 none none none none",
            3,
            What::OutOfOrder,
        ),
    ];

    fn same<T: Display + Drop>(rt: &HostRuntime, shown: T, text: &str) -> Result<bool, Fail> {
        let written = format!(in rt.alloc(); "{shown}")?;
        Ok(written.as_str() == text)
    }

    fn prints_as(rt: &HostRuntime, dump: &Dump, text: &str) -> Result<bool, Fail> {
        let tables = DumpRef {
            ends: dump.ends,
            blocks: &dump.blocks,
            insts: &dump.insts,
        };
        same(rt, tables, text)
    }

    #[test]
    fn tables_are_read_and_printed(rt: HostRuntime) -> Result<(), Fail> {
        let dump = dump::read(rt.alloc(), PRINTED)?;
        assert_eq!(rt; dump.blocks.len(), 3);
        assert_eq!(rt; dump.insts.len(), 2);
        let last = dump.blocks.get(2).copied().ok_or("no block")?;
        assert!(rt; last.next == Some(Block::from_u32(0)));
        assert!(rt; last.first_inst == Some(Inst::from_u32(1)));
        assert!(rt; prints_as(&rt, &dump, PRINTED)?);
        Ok(())
    }

    #[test]
    fn spaces_and_comments_are_passed_over(rt: HostRuntime) -> Result<(), Fail> {
        let dump = dump::read(rt.alloc(), SPACED)?;
        assert!(rt; prints_as(&rt, &dump, PRINTED)?);
        Ok(())
    }

    #[test]
    fn tables_may_be_empty_and_links_lead_anywhere(rt: HostRuntime) -> Result<(), Fail> {
        let text = "ends block4294967295 none\n";
        let dump = dump::read(rt.alloc(), text)?;
        assert!(rt; dump.blocks.is_empty() && dump.insts.is_empty());
        assert!(rt; prints_as(&rt, &dump, text)?);
        Ok(())
    }

    #[test]
    fn lines_are_printed(rt: HostRuntime) -> Result<(), Fail> {
        let block = Block::from_u32(3);
        let inst = Inst::from_u32(4);
        let ends = Ends {
            first: Some(block),
            last: None,
        };
        let node = BlockNode {
            last_inst: Some(inst),
            cold: true,
            ..BlockNode::EMPTY
        };
        let slot = InstNode {
            block: Some(block),
            seq: 4294967295,
            ..InstNode::EMPTY
        };
        assert!(rt; same(&rt, Line::Ends(ends), "ends block3 none")?);
        assert!(rt;
            same(
                &rt,
                Line::Block(block, node),
                "block3 none none none inst4 cold"
            )?
        );
        assert!(rt;
            same(
                &rt,
                Line::Inst(inst, slot),
                "inst4 block3 none none 4294967295"
            )?
        );
        Ok(())
    }

    #[test]
    fn the_first_bad_line_is_told(rt: HostRuntime) -> Result<(), Fail> {
        for (text, line, what) in REFUSED {
            let fault = dump::read(rt.alloc(), text).err().ok_or("read")?;
            assert_eq!(rt; fault.line, *line, "in {text:?}");
            assert_eq!(rt; fault.what, *what, "in {text:?}");
        }
        Ok(())
    }

    #[test]
    fn faults_read_well(rt: HostRuntime) -> Result<(), Fail> {
        let fault = dump::read(rt.alloc(), "ends none none\nblock1 none none none none")
            .err()
            .ok_or("read")?;
        assert!(rt; same(&rt, fault, "line 2: out of its order")?);
        Ok(())
    }
}
