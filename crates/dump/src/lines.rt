//! The lines of a dump.

ghost use Rattle.std.specs.Prelude.{◌≡◌, ℕ, ◌<◌, ◌^◌, ◌↔◌, Option, Some, decimal};
ghost use Rattle.chain.specs.declared.Ends.{Ends as Pair};
ghost use Rattle.entities.specs.declared.Block.{Block as BlockName};
ghost use Rattle.entities.specs.declared.Inst.{Inst as InstName};
ghost use Rattle.entities.specs.declared.nodes.BlockNode.{BlockNode as NodeOfBlock};
ghost use Rattle.entities.specs.declared.nodes.InstNode.{InstNode as NodeOfInst};
ghost use Rattle.words.specs.Words.{texts};
ghost use Rattle.words.specs.Entities.{block_text, inst_text};
ghost use Rattle.dump.specs.declared.lines.Line.{Line as Said};
ghost use Rattle.dump.specs.Lines.{Says, ends_words, block_words, inst_words, FitsBlock, FitsInst, FitsEnds, FitsBlockNode, FitsInstNode};

use chain::Ends;
use entities::nodes::{BlockNode, InstNode};
use entities::{Block, Inst};
use faults::Entity;

/// What a line of a dump says.
#[derive(Clone, Copy)]
pub enum Line {
    /// The first and the last block.
    Ends(Ends<Block>),
    /// The node of a block.
    Block(Block, BlockNode),
    /// The node of an instruction.
    Inst(Inst, InstNode),
}

impl Line {
    /// The line that has these words.
    pub fn read(words: &[&str]) -> Option<Line>
        ensures { (l : Said) → result ≡ Some l ↔ Says (texts words.now) l }
    {
        let (first, rest) = words.split_first()?;
        match *first {
            "ends" => ends(rest).map(Line::Ends),
            _ => match words::entity(first)? {
                Entity::Block(block) => Some(Line::Block(block, block_node(rest)?)),
                Entity::Inst(inst) => Some(Line::Inst(inst, inst_node(rest)?)),
            },
        }
    }
}

// The ends that have these words.
fn ends(words: &[&str]) -> Option<Ends<Block>>
    ensures { (e : Pair BlockName) → result ≡ Some e ↔ (texts words.now ≡ ends_words e) × FitsEnds e }
{
    match *words {
        [first, last] => Some(Ends {
            first: block_link(first)?,
            last: block_link(last)?,
        }),
        _ => None,
    }
}

// The node of a block that has these words.
fn block_node(words: &[&str]) -> Option<BlockNode>
    ensures { (n : NodeOfBlock) → result ≡ Some n ↔ (texts words.now ≡ block_words n) × FitsBlockNode n }
{
    match *words {
        [prev, next, first, last] => marked_node(prev, next, first, last, false),
        [prev, next, first, last, "cold"] => marked_node(prev, next, first, last, true),
        _ => None,
    }
}

// The node of a block that has these four words, and this mark.
fn marked_node(prev: &str, next: &str, first: &str, last: &str, cold: bool) -> Option<BlockNode>
    ensures { (n : NodeOfBlock) → result ≡ Some n ↔ (prev.now ≡ block_text n.prev) × (next.now ≡ block_text n.next) × (first.now ≡ inst_text n.first_inst) × (last.now ≡ inst_text n.last_inst) × (cold ≡ n.cold) × FitsBlockNode n }
{
    Some(BlockNode {
        prev: block_link(prev)?,
        next: block_link(next)?,
        first_inst: inst_link(first)?,
        last_inst: inst_link(last)?,
        cold,
    })
}

// The node of an instruction that has these words.
fn inst_node(words: &[&str]) -> Option<InstNode>
    ensures { (n : NodeOfInst) → result ≡ Some n ↔ (texts words.now ≡ inst_words n) × FitsInstNode n }
{
    match *words {
        [block, prev, next, seq] => Some(InstNode {
            block: block_link(block)?,
            prev: inst_link(prev)?,
            next: inst_link(next)?,
            seq: words::number(seq)?,
        }),
        _ => None,
    }
}

// The block that a word names, or that there is none.
fn block_link(word: &str) -> Option<Option<Block>>
    ensures { (b : Option BlockName) → result ≡ Some b ↔ (word.now ≡ block_text b) × FitsBlock b }
{
    match word {
        "none" => Some(None),
        _ => block(word).map(Some),
    }
}

fn block(word: &str) -> Option<Block>
    ensures { (b : BlockName) → result ≡ Some b ↔ (word.now ≡ block_text (Some b)) × FitsBlock (Some b) }
{
    match words::entity(word)? {
        Entity::Block(block) => Some(block),
        Entity::Inst(_) => None,
    }
}

// The instruction that a word names, or that there is none.
fn inst_link(word: &str) -> Option<Option<Inst>>
    ensures { (i : Option InstName) → result ≡ Some i ↔ (word.now ≡ inst_text i) × FitsInst i }
{
    match word {
        "none" => Some(None),
        _ => inst(word).map(Some),
    }
}

fn inst(word: &str) -> Option<Inst>
    ensures { (i : InstName) → result ≡ Some i ↔ (word.now ≡ inst_text (Some i)) × FitsInst (Some i) }
{
    match words::entity(word)? {
        Entity::Inst(inst) => Some(inst),
        Entity::Block(_) => None,
    }
}
