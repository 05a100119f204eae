//! The handset: replays scripts of calls on a layout with its cursors, prints what they answer, compares two of them, and judges tables.

#![tactic(auto)]

ghost use Rattle.std.specs.Prelude.{◌≡◌, IfOk, Ok};
ghost use Rattle.std.specs.Fn.{FnReturnsAt};
ghost use Rattle.words.specs.Words.{texts};
ghost use Rattle.handset.specs.Told.{Told};

use anyhow::{Context, Result, bail};
use std::alloc::Global;
use std::io::{BufWriter, Write};
use std::process::ExitCode;
use std::{env, fs, io};
use subcommands::Subcommand;

fn main(rt: HostRuntime) -> Result<ExitCode> {
    let alloc = rt.alloc();
    let args = env::args(&rt)?.skip(1).collect::<Vec<String>>(alloc)?;
    let words = args
        .iter()
        .map(|arg| arg.as_str())
        .collect::<Vec<&str>>(alloc)?;
    let read = |file: &str| match file {
        "-" => io::read_to_string(alloc, rt.reader()).context(file),
        _ => fs::read_to_string(&rt, file).context(file),
    };
    let mut out = BufWriter::new(alloc, io::writer(&rt))?;
    let status = obey(alloc, &words, read, &mut out)?;
    out.flush()?;
    Ok(status)
}

// Does what the words tell, with the texts that `read` gives of the files that they name.
fn obey<F: Fn(&str) -> Result<String>, W: Write>(
    alloc: Global,
    words: &[&str],
    read: F,
    out: &mut W,
) -> Result<ExitCode>
    requires { F.IsAlwaysCallable read }
    ensures { IfOk result (Told (λ file text. (got : _) × FnReturnsAt F.Fn read file (Ok got) × (got.bytes.items ≡ text)) (texts words.now) (W.contents out.old) (W.contents out.new)) }
{
    match *words {
        [] => Subcommand::Example.obey(alloc, out),
        ["run", file] => {
            let text = read(file)?;
            Subcommand::Run(&text).obey(alloc, out).context(file)
        }
        ["run", file, "--tables"] => {
            let text = read(file)?;
            Subcommand::Tables(&text).obey(alloc, out).context(file)
        }
        ["compare", first, second] => {
            let one = read(first)?;
            let other = read(second)?;
            Subcommand::Compare(&one, &other).obey(alloc, out)
        }
        ["audit", file] => {
            let text = read(file)?;
            Subcommand::Audit(&text).obey(alloc, out).context(file)
        }
        ["help"] => Subcommand::Help.obey(alloc, out),
        _ => bail!("no such command; ./handset help tells which there are"),
    }
}
