//! The words of a text: those of a line ahead of its comment, and the numbers, blocks and instructions that words name.

#![tactic(auto)]

ghost use Rattle.std.specs.Prelude.{◌≡◌, ◌<◌, ◌^◌, ◌↔◌, IfOk, Some};
ghost use Rattle.faults.specs.declared.Entity.{Entity as Named};
ghost use Rattle.faults.specs.Text.{entity_text};
ghost use Rattle.words.specs.Words.{texts, code_of, words_in, words_of};
ghost use Rattle.words.specs.Entities.{FitsEntity};

use entities::{Block, Inst};
use faults::Entity;
use std::alloc::{AllocError, Global};

mod numbers;

pub use numbers::{is_past, is_too_large, number};

/// The words of a line, ahead of its comment.
pub fn words(alloc: Global, line: &str) -> Result<Vec<&str>, AllocError>
    ensures { IfOk result (λ ws. texts ws.items ≡ words_of line.now) }
{
    words_in(alloc, code(line))
}

// What stands between white space.
fn words_in(alloc: Global, text: &str) -> Result<Vec<&str>, AllocError>
    ensures { IfOk result (λ ws. texts ws.items ≡ words_in text.now) }
{
    text.split_ascii_whitespace().collect(alloc)
}

// A line ahead of its comment.
fn code(line: &str) -> &str
    ensures { result.now ≡ code_of line.now }
{
    match line.split_once('#') {
        Some((code, _)) => code,
        None => line,
    }
}

/// The block or the instruction that is written so.
pub fn entity(word: &str) -> Option<Entity>
    ensures { (e : Named) → result ≡ Some e ↔ (word.now ≡ entity_text e) × FitsEntity e }
{
    match word.strip_prefix("block") {
        Some(digits) => number(digits).map(|n| Entity::Block(Block::from_u32(n))),
        None => number(word.strip_prefix("inst")?).map(|n| Entity::Inst(Inst::from_u32(n))),
    }
}
