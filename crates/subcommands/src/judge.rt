//! Tables from another controller, judged.

ghost use Rattle.std.specs.Prelude.{◌≡◌, IfOk, IsErr, Some};
ghost use Rattle.subcommands.specs.Judged.{IsDumped, Judges, judgement_text};

use anyhow::Result;
use std::alloc::Global;
use std::fmt;
use std::io::Write;
use std::process::ExitCode;
use verdicts::{AuditFault, Verdict};

// The status that tells that tables are not lawful, or too large to be.
const NOT_LAWFUL: u8 = 2;

/// Reads a dump whole, and prints what the audit says of its tables. The status tells whether they are lawful.
pub(crate) fn judge<W: Write>(alloc: Global, text: &str, out: &mut W) -> Result<ExitCode>
    ensures judged { IfOk result (Judges text.now (W.contents out.old) (W.contents out.new)) }
    ensures unread { ¬ IsDumped text.now → IsErr result × (out.new ≡ out.old) }
{
    let dump = dump::read(alloc, text)?;
    let judgement = Judgement(audit::audit(&dump.blocks, &dump.insts, dump.ends));
    writeln!(out, "{judgement}")?;
    Ok(match judgement.0 {
        Ok(Verdict::Lawful) => ExitCode::SUCCESS,
        _ => ExitCode::from(NOT_LAWFUL),
    })
}

// What an audit says.
#[derive(Clone, Copy)]
struct Judgement(std::result::Result<Verdict, AuditFault>);

impl fmt::Display for Judgement {
    ghost output = { λ j. Some (judgement_text j.0) };

    fn fmt<W: fmt::Write>(&self, f: &mut fmt::Formatter<W>) -> fmt::Result {
        match self.0 {
            Ok(verdict) => verdict.fmt(f),
            Err(fault) => fault.fmt(f),
        }
    }
}
