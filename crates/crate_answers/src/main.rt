//! Replays the script on standard input, and prints what each line answers. What it must print is what the Rust crate itself answers to that
//! script (docs/DIFFERENCES.md tells how it was asked).

#![tactic(auto)]

use anyhow::Result;
use std::io;
use std::io::{BufWriter, Write};

fn main(rt: HostRuntime) -> Result<()> {
    let alloc = rt.alloc();
    let text = io::read_to_string(alloc, rt.reader())?;
    let script = script::parse(alloc, &text)?;
    let mut out = BufWriter::new(alloc, io::writer(&rt))?;
    transcript::play(alloc, &script, &mut out)?;
    out.flush()?;
    Ok(())
}
