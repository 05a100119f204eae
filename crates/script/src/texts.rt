//! A script's text, read whole.

ghost use Rattle.std.specs.Prelude.{◌≡◌, IfOk, Some, filter};
ghost use Rattle.script.specs.declared.texts.What.TheVariants.{OutOfMemory};
ghost use Rattle.words.specs.Words.{texts, has_some, rows, words_of};
ghost use Rattle.lines.specs.Lines.{said};
ghost use Rattle.script.specs.Scripts.{Parses, RowsTold, RowTold, LineTold, WordsTold, content, written};
ghost use Rattle.script.specs.Text.{what_text, script_fault_text};

use crate::Command;
use crate::names::Names;
use lines::Line;
use std::alloc::{AllocError, AllocFailed, Global};
use std::error::Error;
use std::fmt;

/// What is wrong with a line.
#[derive(Clone, Copy, PartialEq, Eq, Debug)]
pub enum What {
    /// It is no call.
    NotACall,
    /// It is no call, and a block or an instruction in it has a number of more than 32 bits.
    NumberTooLarge,
    /// It is a call of a cursor that no line above makes.
    UnknownCursor,
    /// It makes a cursor by a name that another has.
    NameTaken,
    /// There was no memory left to read it.
    OutOfMemory,
}

/// The first line that was not read.
#[derive(Clone, Copy, PartialEq, Eq, Debug)]
pub struct ScriptFault {
    /// The line's number, 1 for the first.
    pub line: usize,
    pub what: What,
}

impl From<AllocError> for What {
    ghost from_gives = { λ _ w. w ≡ OutOfMemory };

    fn from(_error: AllocError) -> What {
        Self::OutOfMemory
    }
}

impl<T: Drop> From<AllocFailed<T>> for What {
    ghost from_gives = { λ _ w. w ≡ OutOfMemory };

    fn from(error: AllocFailed<T>) -> What {
        AllocError::from(error).into()
    }
}

impl fmt::Display for What {
    ghost output = { λ w. Some (what_text w) };

    fn fmt<W: fmt::Write>(&self, f: &mut fmt::Formatter<W>) -> fmt::Result {
        match self {
            What::NotACall => f.write_str("no call"),
            What::NumberTooLarge => f.write_str("a number of more than 32 bits"),
            What::UnknownCursor => f.write_str("no cursor with this name"),
            What::NameTaken => f.write_str("another cursor has this name"),
            What::OutOfMemory => f.write_str("out of memory"),
        }
    }
}

impl fmt::Display for ScriptFault {
    ghost output = { λ f. Some (script_fault_text f) };

    fn fmt<W: fmt::Write>(&self, f: &mut fmt::Formatter<W>) -> fmt::Result {
        write!(f, "line {}: {}", self.line, self.what)
    }
}

impl Error for ScriptFault {}

/// A script: its commands in order, and the names of the cursors that they make.
#[derive(Drop)]
pub struct Script<'a> {
    pub commands: Vec<Command>,
    pub names: Names<'a>,
}

/// Reads a whole script, or tells the first line that cannot be read.
#[tactic(auto, using(crate::proofs::Written::written_again))]
pub fn parse(alloc: Global, text: &str) -> Result<Script<'_>, ScriptFault>
    ensures reads { Parses text.now result }
    ensures written { IfOk result (λ s. written (content s) ≡ filter has_some (rows text.now)) }
{
    let mut script = Script {
        commands: Vec::new(alloc),
        names: Names::new(alloc),
    };
    add_lines(&mut script, alloc, text)?;
    Ok(script)
}

// Adds what all lines say.
fn add_lines<'a>(script: &mut Script<'a>, alloc: Global, text: &'a str) -> Result<(), ScriptFault>
    ensures { RowsTold (rows text.now) (content script.old) result (content script.new) }
{
    for (i, line) in text.lines().enumerate() {
        match add_line(script, alloc, line) {
            Ok(()) => {}
            Err(what) => return Err(ScriptFault { line: i + 1, what }),
        }
    }
    Ok(())
}

// Adds what a line says.
fn add_line<'a>(script: &mut Script<'a>, alloc: Global, text: &'a str) -> Result<(), What>
    ensures { RowTold (words_of text.now) (content script.old) result (content script.new) }
{
    let words = words::words(alloc, text)?;
    if words.is_empty() {
        return Ok(());
    }
    script.push(read(&words)?)
}

impl<'a> Script<'a> {
    // Adds the command of a line, and the name of a cursor that it makes.
    fn push(&mut self, line: Line<'a>) -> Result<(), What>
        ensures { LineTold (said line.entry) (content self.old) result (content self.new) }
    {
        let command = self.names.command(line)?;
        if let Line::NewCursor(name, _) = line {
            self.names.push(name)?;
        }
        self.commands.push(command)?;
        Ok(())
    }
}

// The line that has these words.
fn read<'a>(words: &[&'a str]) -> Result<Line<'a>, What>
    ensures { WordsTold (texts words.now) result }
{
    if let Some(line) = Line::read(words) {
        return Ok(line);
    }
    if words.iter().any(|word| words::is_too_large(word)) {
        Err(What::NumberTooLarge)
    } else {
        Err(What::NotACall)
    }
}
