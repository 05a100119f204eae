//! Lines and tables as a dump has them.

ghost use Rattle.std.specs.Prelude.{Some};
ghost use Rattle.std.specs.List.{flat_map};
ghost use Rattle.words.specs.Words.{unwords};
ghost use Rattle.words.specs.Entities.{block_text, inst_text};
ghost use Rattle.dump.specs.Lines.{ends_words, block_words, inst_words, line_words};
ghost use Rattle.dump.specs.Dumps.{block_lines, inst_lines, line_text, dump_text};
ghost use Rattle.dump.specs.Printed.{tables_behind};

use crate::lines::Line;
use chain::Ends;
use entities::nodes::{BlockNode, InstNode};
use entities::{Block, Inst};
use faults::Entity;
use std::fmt;

// A part of a line, as a dump has it.
#[derive(Clone, Copy)]
struct Part<T>(T);

impl fmt::Display for Part<Option<Block>> {
    ghost output = { λ p. Some (block_text p.0) };

    fn fmt<W: fmt::Write>(&self, f: &mut fmt::Formatter<W>) -> fmt::Result {
        match self.0 {
            Some(block) => Entity::Block(block).fmt(f),
            None => f.write_str("none"),
        }
    }
}

impl fmt::Display for Part<Option<Inst>> {
    ghost output = { λ p. Some (inst_text p.0) };

    fn fmt<W: fmt::Write>(&self, f: &mut fmt::Formatter<W>) -> fmt::Result {
        match self.0 {
            Some(inst) => Entity::Inst(inst).fmt(f),
            None => f.write_str("none"),
        }
    }
}

impl fmt::Display for Part<Ends<Block>> {
    ghost output = { λ p. Some (unwords (ends_words p.0)) };

    fn fmt<W: fmt::Write>(&self, f: &mut fmt::Formatter<W>) -> fmt::Result {
        write!(f, "{} {}", Part(self.0.first), Part(self.0.last))
    }
}

impl fmt::Display for Part<BlockNode> {
    ghost output = { λ p. Some (unwords (block_words p.0)) };

    fn fmt<W: fmt::Write>(&self, f: &mut fmt::Formatter<W>) -> fmt::Result {
        let node = self.0;
        let mark = if node.cold { " cold" } else { "" };
        write!(
            f,
            "{} {} {} {}{mark}",
            Part(node.prev),
            Part(node.next),
            Part(node.first_inst),
            Part(node.last_inst)
        )
    }
}

impl fmt::Display for Part<InstNode> {
    ghost output = { λ p. Some (unwords (inst_words p.0)) };

    fn fmt<W: fmt::Write>(&self, f: &mut fmt::Formatter<W>) -> fmt::Result {
        let node = self.0;
        write!(
            f,
            "{} {} {} {}",
            Part(node.block),
            Part(node.prev),
            Part(node.next),
            node.seq
        )
    }
}

impl fmt::Display for Part<&[BlockNode]> {
    ghost output = { λ p. Some (flat_map line_text (block_lines 0 p.0.now)) };

    fn fmt<W: fmt::Write>(&self, f: &mut fmt::Formatter<W>) -> fmt::Result {
        for (number, node) in self.0.iter().enumerate() {
            writeln!(f, "block{number} {}", Part(*node))?;
        }
        Ok(())
    }
}

impl fmt::Display for Part<&[InstNode]> {
    ghost output = { λ p. Some (flat_map line_text (inst_lines 0 p.0.now)) };

    fn fmt<W: fmt::Write>(&self, f: &mut fmt::Formatter<W>) -> fmt::Result {
        for (number, node) in self.0.iter().enumerate() {
            writeln!(f, "inst{number} {}", Part(*node))?;
        }
        Ok(())
    }
}

impl fmt::Display for Line {
    ghost output = { λ l. Some (unwords (line_words l)) };

    fn fmt<W: fmt::Write>(&self, f: &mut fmt::Formatter<W>) -> fmt::Result {
        match *self {
            Line::Ends(ends) => write!(f, "ends {}", Part(ends)),
            Line::Block(block, node) => write!(f, "{} {}", Entity::Block(block), Part(node)),
            Line::Inst(inst, node) => write!(f, "{} {}", Entity::Inst(inst), Part(node)),
        }
    }
}

/// Two node tables and two ends that are kept elsewhere, to be printed.
#[derive(Clone, Copy)]
pub struct DumpRef<'a> {
    pub ends: Ends<Block>,
    pub blocks: &'a [BlockNode],
    pub insts: &'a [InstNode],
}

impl fmt::Display for DumpRef<'_> {
    ghost output = { λ d. Some (dump_text (tables_behind d)) };

    fn fmt<W: fmt::Write>(&self, f: &mut fmt::Formatter<W>) -> fmt::Result {
        let ends = Line::Ends(self.ends);
        write!(f, "{ends}\n{}{}", Part(self.blocks), Part(self.insts))
    }
}
