//! A script replayed, with what each of its lines answers, or with the tables to which it leads.

ghost use Rattle.std.specs.Prelude.{◌≡◌, IfOk, IsErr};
ghost use Rattle.subcommands.specs.Compared.{IsScript};
ghost use Rattle.subcommands.specs.Runs.{PrintsAnswers, PrintsTables, PrintsTablesOf};

use anyhow::{Context, Result};
use dump::DumpRef;
use layout::Layout;
use std::alloc::Global;
use std::io::Write;
use std::process::ExitCode;

/// Reads a script whole, and then replays it and prints what each line answers.
pub(crate) fn run<W: Write>(alloc: Global, text: &str, out: &mut W) -> Result<ExitCode>
    ensures printed { IfOk result (PrintsAnswers text.now (W.contents out.old) (W.contents out.new)) }
    ensures unread { ¬ IsScript text.now → IsErr result × (out.new ≡ out.old) }
{
    let script = script::parse(alloc, text)?;
    transcript::play(alloc, &script, out)?;
    Ok(ExitCode::SUCCESS)
}

/// Reads a script whole, replays it, and prints the node tables of the layout to which it leads.
pub(crate) fn tables<W: Write>(alloc: Global, text: &str, out: &mut W) -> Result<ExitCode>
    ensures printed { IfOk result (PrintsTables text.now (W.contents out.old) (W.contents out.new)) }
    ensures unread { ¬ IsScript text.now → IsErr result × (out.new ≡ out.old) }
{
    let script = script::parse(alloc, text)?;
    let layout = comparison::reached(alloc, &script.commands)?;
    print_tables(&layout.context("a cursor that no line made")?, out)
}

// Prints the node tables of a layout.
fn print_tables<W: Write>(layout: &Layout, out: &mut W) -> Result<ExitCode>
    ensures { IfOk result (PrintsTablesOf layout.now (W.contents out.old) (W.contents out.new)) }
{
    let dump = DumpRef {
        ends: layout.block_ends(),
        blocks: layout.block_nodes(),
        insts: layout.inst_nodes(),
    };
    write!(out, "{dump}")?;
    Ok(ExitCode::SUCCESS)
}
