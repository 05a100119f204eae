//! Tests of what the subcommands print. The expected texts are written by hand from the rules.

#![tactic(auto)]

#[cfg(test)]
mod tests {
    use std::process::ExitCode;
    use std::test::Fail;
    use subcommands::Subcommand;

    // A script, and what its run prints.
    struct Case {
        script: &'static str,
        printed: &'static str,
    }

    const RUNS: &[Case] = &[
        Case {
            script: "walk\nwalk_back\n",
            printed: "empty\nempty\n",
        },
        Case {
            script: "append_block block3 # the first\n\nappend_inst inst7 block3\nappend_inst inst8 block3\nset_cold block4\nappend_block block4\nwalk\nwalk_back\n",
            printed: "append_block block3 -> wrote 0\nappend_inst inst7 block3 -> wrote 1\nappend_inst inst8 block3 -> wrote 1\nset_cold block4 -> wrote 0\nappend_block block4 -> wrote 0\nblock3: inst7/10 inst8/20\nblock4 cold:\nblock4 cold:\nblock3: inst8/20 inst7/10\n",
        },
        Case {
            script: "append_block block3\nappend_inst inst7 block3\npp_cmp inst7 block3\npp_cmp block3 inst9\npp_block inst7\nis_block_inserted block4\ninst_seq inst7\nnext_inst inst7\nblock_capacity\nremove_inst inst9\n",
            printed: "append_block block3 -> wrote 0\nappend_inst inst7 block3 -> wrote 1\npp_cmp inst7 block3 -> Greater\npp_cmp block3 inst9 -> refused 5 by layout: inst9\npp_block inst7 -> block3\nis_block_inserted block4 -> false\ninst_seq inst7 -> 10\nnext_inst inst7 -> none\nblock_capacity -> 256\nremove_inst inst9 -> refused 5 by layout: inst9\n",
        },
        Case {
            script: "cursor a func\ncursor b word\na.next_block\na.insert_block block2\nb.goto_inst inst5\nb.set_position at inst5\nb.next_inst\na.insert_inst inst5\nb.next_inst_position\nb.replace_inst inst5\na.replace_inst inst6\na.insert_inst inst5\nb.current_inst\nb.current_block\nb.position\na.at_top block2\na.prev_inst\na.prev_inst_position\n",
            printed: "cursor a func -> nowhere\ncursor b word -> nowhere\na.next_block -> none; nowhere\na.insert_block block2 -> wrote 0; after block2\nb.goto_inst inst5 -> refused 5 by layout in cursor: inst5; nowhere\nb.set_position at inst5 -> done; at inst5\nb.next_inst -> refused 3 by cursor: inst5; at inst5\na.insert_inst inst5 -> wrote 1; after block2\nb.next_inst_position -> after block2; at inst5\nb.replace_inst inst5 -> took inst5, wrote 1; after block2\na.replace_inst inst6 -> refused 4 by cursor: -; after block2\na.insert_inst inst5 -> refused 6 by layout in cursor: inst5; after block2\nb.current_inst -> none; after block2\nb.current_block -> block2; after block2\nb.position -> after block2; after block2\na.at_top block2 -> done; before block2\na.prev_inst -> none; before block2\na.prev_inst_position -> none; before block2\n",
        },
    ];

    #[test]
    fn scripts_run(rt: HostRuntime) -> Result<(), Fail> {
        for case in RUNS {
            let mut out = Vec::new(rt.alloc());
            let status = Subcommand::Run(case.script).obey(rt.alloc(), &mut out)?;
            assert!(rt; status == ExitCode::SUCCESS, "{}", case.script);
            assert_eq!(rt; out.as_slice(), case.printed.as_bytes(), "{}", case.script);
        }
        Ok(())
    }

    // A text that is no script, and what is said of it.
    struct Fault {
        script: &'static str,
        told: &'static str,
    }

    const FAULTS: &[Fault] = &[
        Fault {
            script: "append_block block3\nwalk\nappend_blok block4\n",
            told: "line 3: no call",
        },
        Fault {
            script: "append_block inst3\n",
            told: "line 1: no call",
        },
        Fault {
            script: "# big\nappend_block block4294967296\n",
            told: "line 2: a number of more than 32 bits",
        },
        Fault {
            script: "cursor a func\nb.next_inst\n",
            told: "line 2: no cursor with this name",
        },
        Fault {
            script: "cursor a func\ncursor a word\n",
            told: "line 2: another cursor has this name",
        },
    ];

    #[test]
    fn bad_scripts_do_nothing(rt: HostRuntime) -> Result<(), Fail> {
        for fault in FAULTS {
            let mut out = Vec::new(rt.alloc());
            match Subcommand::Run(fault.script).obey(rt.alloc(), &mut out) {
                Ok(_) => assert!(rt; false, "{}", fault.script),
                Err(error) => {
                    let told = format!(in rt.alloc(); "{error}")?;
                    assert_eq!(rt; told.as_str(), fault.told, "{}", fault.script);
                }
            }
            assert!(rt; out.is_empty(), "{}", fault.script);
        }
        Ok(())
    }

    // Two scripts, and what is said of them with which status.
    struct Pair {
        first: &'static str,
        second: &'static str,
        told: &'static str,
        status: u8,
    }

    const PAIRS: &[Pair] = &[
        Pair {
            first: "",
            second: "append_block block1\nclear\nwalk\n",
            told: "the same program\n",
            status: 0,
        },
        // other numbers, another mark, and a refused call
        Pair {
            first: "append_block block1\nappend_inst inst1 block1\nappend_inst inst2 block1\n",
            second: "set_cold block1\nappend_block block1\nappend_inst inst2 block1\ncursor c word\nc.goto_inst inst2\nc.insert_inst inst1\nc.insert_inst inst1\n",
            told: "the same program\n",
            status: 0,
        },
        Pair {
            first: "append_block block1\nappend_inst inst1 block1\nappend_inst inst2 block1\n",
            second: "append_block block1\nappend_inst inst1 block1\nappend_inst inst3 block1\n",
            told: "not the same program: the walks part at inst2 in the first and inst3 in the second\n",
            status: 2,
        },
        Pair {
            first: "append_block block1\nappend_inst inst1 block1\nappend_block block2\n",
            second: "append_block block1\nappend_inst inst1 block1\nappend_inst inst3 block1\n",
            told: "not the same program: the walks part at block2 in the first and inst3 in the second\n",
            status: 2,
        },
        Pair {
            first: "append_block block1\n",
            second: "",
            told: "not the same program: the walks part at block1 in the first and the end in the second\n",
            status: 2,
        },
    ];

    #[test]
    fn pairs_are_compared(rt: HostRuntime) -> Result<(), Fail> {
        for pair in PAIRS {
            let mut out = Vec::new(rt.alloc());
            let compare = Subcommand::Compare(pair.first, pair.second);
            let status = compare.obey(rt.alloc(), &mut out)?;
            assert!(rt; status == ExitCode::from(pair.status), "{}", pair.second);
            assert_eq!(rt; out.as_slice(), pair.told.as_bytes(), "{}", pair.second);
        }
        Ok(())
    }
}
