//! What the handset can be told to do: each subcommand, on the texts that it reads.

#![tactic(auto)]

ghost use Rattle.std.specs.Prelude.{◌≡◌, IfOk, IsErr};
ghost use Rattle.subcommands.specs.declared.Subcommand.TheVariants as the_subcommand;
ghost use Rattle.subcommands.specs.Obeyed.{Obeys, Unreadable};

use anyhow::Result;
use std::alloc::Global;
use std::io::Write;
use std::process::ExitCode;

mod compare;
mod example;
mod judge;
mod run;

/// What `help` prints.
pub const HELP: &str = "\
./handset                     shows the built-in example: one dispatch program, reached by two controllers
./handset run FILE            replays the script in FILE, and prints what each call answers
./handset run FILE --tables   replays it, and prints the node tables to which it leads
./handset compare FILE FILE   replays two scripts, and says whether both reach the same program
./handset audit FILE          judges the node tables in FILE
./handset help                prints this

FILE may be -, for standard input. docs/HANDSET.md tells how scripts and tables are written.
";

/// What the handset is told to do, with the texts that it is to read.
#[derive(Clone, Copy)]
pub enum Subcommand<'a> {
    /// Show the built-in example.
    Example,
    /// Replay a script, and print what each of its lines answers.
    Run(&'a str),
    /// Replay a script, and print the node tables to which it leads.
    Tables(&'a str),
    /// Replay two scripts, and say whether both reach the same program.
    Compare(&'a str, &'a str),
    /// Judge the node tables in a dump.
    Audit(&'a str),
    /// Tell what there is to tell it.
    Help,
}

impl Subcommand<'_> {
    /// Does it, prints what it tells, and answers the status with which the program is to end.
    pub fn obey<W: Write>(self, alloc: Global, out: &mut W) -> Result<ExitCode>
        ensures obeyed { IfOk result (Obeys self.entry (W.contents out.old) (W.contents out.new)) }
        ensures unread { Unreadable self.entry → IsErr result × (out.new ≡ out.old) }
    {
        match self {
            Subcommand::Example => example::show(alloc, example::FIRST, example::SECOND, out),
            Subcommand::Run(text) => run::run(alloc, text, out),
            Subcommand::Tables(text) => run::tables(alloc, text, out),
            Subcommand::Compare(first, second) => compare::compare(alloc, first, second, out),
            Subcommand::Audit(text) => judge::judge(alloc, text, out),
            Subcommand::Help => help(out),
        }
    }
}

// Prints what can be told.
fn help<W: Write>(out: &mut W) -> Result<ExitCode>
    ensures { IfOk result (Obeys the_subcommand.Help (W.contents out.old) (W.contents out.new)) }
{
    out.write_all(HELP.as_bytes())?;
    Ok(ExitCode::SUCCESS)
}
