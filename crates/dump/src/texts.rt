//! A dump's text, read whole.

ghost use Rattle.std.specs.Prelude.{◌≡◌, ◌||◌, Some};
ghost use Rattle.entities.specs.declared.nodes.Tables.{Tables as Kept};
ghost use Rattle.dump.specs.declared.texts.What.TheVariants.{OutOfMemory};
ghost use Rattle.std.specs.List.{All};
ghost use Rattle.dump.specs.Lines.{FitsLine};
ghost use Rattle.words.specs.Words.{texts, rows, words_of};
ghost use Rattle.dump.specs.Dumps.{Reads, ReadsBack, dump_lines, dump_text, names_too_large};
ghost use Rattle.dump.specs.Parts.{AddsRows, LineTold, RowTold, RowsTold, TextTold, WordsTold, is_next, nothing, part};
ghost use Rattle.dump.specs.Text.{what_text, dump_fault_text};

use crate::lines::Line;
use chain::{Ends, Key};
use entities::Block;
use entities::nodes::{BlockNode, InstNode};
use std::alloc::{AllocError, AllocFailed, Global};
use std::error::Error;
use std::fmt;

/// What is wrong with a line.
#[derive(Clone, Copy, PartialEq, Eq, Debug)]
pub enum What {
    /// It is no line of a dump.
    NotALine,
    /// It is no line of a dump, and a number in it has more than 32 bits.
    NumberTooLarge,
    /// It is a line of a dump, but not behind the lines ahead: the ends come first and once, then the blocks, then the instructions, each
    /// with the next number.
    OutOfOrder,
    /// It is behind the last line, and none ahead of it says anything: the text has no ends.
    NoEnds,
    /// There was no memory left to read it.
    OutOfMemory,
}

/// The first line that was not read.
#[derive(Clone, Copy, PartialEq, Eq, Debug)]
pub struct DumpFault {
    /// The line's number, 1 for the first.
    pub line: usize,
    pub what: What,
}

impl From<AllocError> for What {
    ghost from_gives = { λ _ w. w ≡ OutOfMemory };

    fn from(_error: AllocError) -> What {
        Self::OutOfMemory
    }
}

impl<T: Drop> From<AllocFailed<T>> for What {
    ghost from_gives = { λ _ w. w ≡ OutOfMemory };

    fn from(error: AllocFailed<T>) -> What {
        AllocError::from(error).into()
    }
}

impl fmt::Display for What {
    ghost output = { λ w. Some (what_text w) };

    fn fmt<W: fmt::Write>(&self, f: &mut fmt::Formatter<W>) -> fmt::Result {
        match self {
            What::NotALine => f.write_str("no line of a dump"),
            What::NumberTooLarge => f.write_str("a number of more than 32 bits"),
            What::OutOfOrder => f.write_str("out of its order"),
            What::NoEnds => f.write_str("no ends"),
            What::OutOfMemory => f.write_str("out of memory"),
        }
    }
}

impl fmt::Display for DumpFault {
    ghost output = { λ f. Some (dump_fault_text f) };

    fn fmt<W: fmt::Write>(&self, f: &mut fmt::Formatter<W>) -> fmt::Result {
        write!(f, "line {}: {}", self.line, self.what)
    }
}

impl Error for DumpFault {}

/// Two node tables, and the ends of the chain of blocks. They may be of any length, and links may lead anywhere.
#[derive(Drop)]
pub struct Dump {
    pub ends: Ends<Block>,
    pub blocks: Vec<BlockNode>,
    pub insts: Vec<InstNode>,
}

/// Reads a whole dump, or tells the first line that cannot be read.
pub fn read(alloc: Global, text: &str) -> Result<Dump, DumpFault>
    ensures reads { Reads text.now result }
    ensures back { (t : Kept) → All FitsLine (dump_lines t) → text.now ≡ dump_text t → ReadsBack t result }
{
    read_lines(alloc, text)?.finish(text)
}

// What all lines say.
fn read_lines(alloc: Global, text: &str) -> Result<Partial, DumpFault>
    ensures { TextTold text.now result }
{
    let mut partial = Partial {
        ends: None,
        blocks: Vec::new(alloc),
        insts: Vec::new(alloc),
    };
    partial.add_lines(alloc, text)?;
    Ok(partial)
}

// What was read so far.
#[derive(Drop)]
struct Partial {
    ends: Option<Ends<Block>>,
    blocks: Vec<BlockNode>,
    insts: Vec<InstNode>,
}

impl Partial {
    // The whole of what the text says, if it says anything.
    fn finish(self, text: &str) -> Result<Dump, DumpFault>
        requires { AddsRows (rows text.now) nothing (part self) }
        ensures reads { Reads text.now result }
        ensures back { (t : Kept) → All FitsLine (dump_lines t) → text.now ≡ dump_text t → ReadsBack t result }
    {
        match self.ends {
            Some(ends) => Ok(Dump {
                ends,
                blocks: self.blocks,
                insts: self.insts,
            }),
            None => Err(DumpFault {
                line: text.lines().count() + 1,
                what: What::NoEnds,
            }),
        }
    }

    // Adds what all lines say.
    fn add_lines(&mut self, alloc: Global, text: &str) -> Result<(), DumpFault>
        ensures { RowsTold (rows text.now) (part self.old) result (part self.new) }
    {
        for (i, line) in text.lines().enumerate() {
            match self.add_line(alloc, line) {
                Ok(()) => {}
                Err(what) => return Err(DumpFault { line: i + 1, what }),
            }
        }
        Ok(())
    }

    // Adds what a line says.
    fn add_line(&mut self, alloc: Global, text: &str) -> Result<(), What>
        ensures { RowTold (words_of text.now) (part self.old) result (part self.new) }
    {
        let words = words::words(alloc, text)?;
        if words.is_empty() {
            return Ok(());
        }
        self.push(read_line(&words)?)
    }

    // Adds a line, where it is the next one.
    fn push(&mut self, line: Line) -> Result<(), What>
        ensures { LineTold line (part self.old) result (part self.new) }
    {
        if !self.is_next(line) {
            return Err(What::OutOfOrder);
        }
        match line {
            Line::Ends(ends) => self.ends = Some(ends),
            Line::Block(_, node) => self.blocks.push(node)?,
            Line::Inst(_, node) => self.insts.push(node)?,
        }
        Ok(())
    }

    // Can it stand behind the lines ahead?
    fn is_next(&self, line: Line) -> bool
        ensures { result ≡ is_next (part self.now) line }
    {
        match line {
            Line::Ends(_) => self.ends.is_none(),
            Line::Block(block, _) => {
                self.ends.is_some() && self.insts.is_empty() && block.index() == self.blocks.len()
            }
            Line::Inst(inst, _) => self.ends.is_some() && inst.index() == self.insts.len(),
        }
    }
}

// The line that has these words.
fn read_line(words: &[&str]) -> Result<Line, What>
    ensures { WordsTold (texts words.now) result }
{
    if let Some(line) = Line::read(words) {
        return Ok(line);
    }
    if words.iter().any(|word| names_too_large(word)) {
        Err(What::NumberTooLarge)
    } else {
        Err(What::NotALine)
    }
}

// Has the word a number of more than 32 bits, be it the number of a block, of an instruction or none?
fn names_too_large(word: &str) -> bool
    ensures { result ≡ names_too_large word.now }
{
    words::is_too_large(word) || words::is_past(word)
}
