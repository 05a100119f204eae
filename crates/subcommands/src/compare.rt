//! Two scripts, and whether they reach the same program.

ghost use Rattle.std.specs.Prelude.{◌≡◌, IfOk, IsErr};
ghost use Rattle.std.specs.Process.{exit_status};
ghost use Rattle.subcommands.specs.Compared.{AreScripts, TellsComparison, status_of};

use anyhow::Result;
use comparison::Comparison;
use std::alloc::Global;
use std::io::Write;
use std::process::ExitCode;

// The status that tells that two programs are not the same.
const NOT_THE_SAME: u8 = 2;

/// Reads two scripts whole, replays them, and says whether both reach the same program, or else where their walks first part.
pub(crate) fn compare<W: Write>(
    alloc: Global,
    first: &str,
    second: &str,
    out: &mut W,
) -> Result<ExitCode>
    ensures compared { IfOk result (TellsComparison first.now second.now (W.contents out.old) (W.contents out.new)) }
    ensures unread { ¬ AreScripts first.now second.now → IsErr result × (out.new ≡ out.old) }
{
    let compared = Comparison::of_scripts(alloc, first, second)?;
    writeln!(out, "{compared}")?;
    Ok(status(compared))
}

// The status that tells how two programs compare.
fn status(compared: Comparison) -> ExitCode
    ensures { exit_status result ≡ status_of compared.0 }
{
    if compared.is_same() {
        ExitCode::SUCCESS
    } else {
        ExitCode::from(NOT_THE_SAME)
    }
}
