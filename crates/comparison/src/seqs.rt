//! The instructions that two layouts number differently.

ghost use Rattle.std.specs.Prelude.{◌≡◌, ◌++◌, filter_map, IfOk, OnOk, Some};
ghost use Rattle.entities.specs.Reading.{block_insts};
ghost use Rattle.layout.specs.Program.{program};
ghost use Rattle.comparison.specs.Numbering.{difference, differences, walked};
ghost use Rattle.comparison.specs.Text.{numbers_text, numbers_lines};

use entities::{Block, Inst};
use faults::Entity;
use layout::Layout;
use script::Reply;
use std::alloc::{AllocError, Global};
use std::fmt;

/// An instruction with its sequence number in each of two layouts; none where it is not inserted.
#[derive(Clone, Copy)]
pub struct Numbers {
    pub inst: Inst,
    pub first: Option<u32>,
    pub second: Option<u32>,
}

/// Instructions that two layouts number differently.
#[derive(Drop)]
pub struct Differences(pub Vec<Numbers>);

/// The instructions of the first layout that have another number in the second, in the order of the walk.
pub fn compare_numbers(
    alloc: Global,
    first: &Layout,
    second: &Layout,
) -> Result<Differences, AllocError>
    ensures { IfOk result (λ d. d.0.items ≡ differences (program first.now) (program second.now)) }
{
    let insts = walked(alloc, first)?;
    Ok(Differences(differing(alloc, first, second, &insts)?))
}

// Those of the instructions that have different numbers.
fn differing(
    alloc: Global,
    first: &Layout,
    second: &Layout,
    insts: &[Inst],
) -> Result<Vec<Numbers>, AllocError>
    ensures { IfOk result (λ v. v.items ≡ filter_map (λ i. difference i (program first.now) (program second.now)) insts.now) }
{
    let mut differing = Vec::new(alloc);
    for inst in insts {
        if let Some(numbers) = difference(first, second, *inst) {
            differing.push(numbers)?;
        }
    }
    Ok(differing)
}

// The numbers of an instruction, where they are not the same.
fn difference(first: &Layout, second: &Layout, inst: Inst) -> Option<Numbers>
    ensures { result ≡ difference inst (program first.now) (program second.now) }
{
    let numbers = Numbers {
        inst,
        first: first.inst_seq(inst),
        second: second.inst_seq(inst),
    };
    if numbers.first == numbers.second {
        None
    } else {
        Some(numbers)
    }
}

// Every instruction, in the order of the walk.
fn walked(alloc: Global, layout: &Layout) -> Result<Vec<Inst>, AllocError>
    ensures { IfOk result (λ v. v.items ≡ walked (program layout.now)) }
{
    let mut walked = Vec::new(alloc);
    for block in layout.blocks() {
        walk_block(layout, block, &mut walked)?;
    }
    Ok(walked)
}

// Adds the instructions of a block.
pub(crate) fn walk_block(
    layout: &Layout,
    block: Block,
    walked: &mut Vec<Inst>,
) -> Result<(), AllocError>
    ensures { OnOk result (walked.new.items ≡ walked.old.items ++ block_insts block (program layout.now)) }
{
    for inst in layout.block_insts(block) {
        walked.push(inst)?;
    }
    Ok(())
}

impl fmt::Display for Numbers {
    ghost output = { λ n. Some (numbers_text n) };

    fn fmt<W: fmt::Write>(&self, f: &mut fmt::Formatter<W>) -> fmt::Result {
        let inst = Entity::Inst(self.inst);
        let first = Reply::Number(self.first);
        let second = Reply::Number(self.second);
        write!(f, "{inst}: {first} in the first, {second} in the second")
    }
}

impl fmt::Display for Differences {
    ghost output = { λ d. Some (numbers_lines d.0.items) };

    fn fmt<W: fmt::Write>(&self, f: &mut fmt::Formatter<W>) -> fmt::Result {
        for numbers in self.0.iter() {
            writeln!(f, "{numbers}")?;
        }
        Ok(())
    }
}
