//! The walk of a layout, printed a line a block.

ghost use Rattle.std.specs.Prelude.{◌≡◌, map, reverse, IfOk, OnOk};
ghost use Rattle.std.specs.Io.KnownBytes.{Appends};
ghost use Rattle.entities.specs.Program.{blocks_of};
ghost use Rattle.entities.specs.Reading.{slots_of};
ghost use Rattle.layout.specs.Program.{program};
ghost use Rattle.transcript.specs.Walks.{slot_at, slots_along, block_row, rows, walk_text, walk_back_text};

use entities::{Block, Inst};
use layout::Layout;
use printed::BlockLine;
use std::alloc::{AllocError, Global};
use std::io;
use std::io::Write;

// From which end a walk goes.
#[derive(Clone, Copy)]
pub(crate) enum Direction {
    Forward,
    Backward,
}

/// Prints the walk from the front, each block a line with its instructions; of a layout without blocks, that it is empty.
pub fn walk<W: Write>(alloc: Global, layout: &Layout, out: &mut W) -> io::Result<()>
    ensures { OnOk result (Appends (W.contents out.old) (W.contents out.new) (walk_text (program layout.now))) }
{
    let blocks = blocks(alloc, layout)?;
    write_rows(alloc, layout, &blocks, Direction::Forward, out)
}

/// The same from the back.
pub fn walk_back<W: Write>(alloc: Global, layout: &Layout, out: &mut W) -> io::Result<()>
    ensures { OnOk result (Appends (W.contents out.old) (W.contents out.new) (walk_back_text (program layout.now))) }
{
    let blocks = blocks_back(alloc, layout)?;
    write_rows(alloc, layout, &blocks, Direction::Backward, out)
}

// The blocks in order.
#[tactic(auto, using(order::proofs::Comparing::blocks_ended))]
fn blocks(alloc: Global, layout: &Layout) -> Result<Vec<Block>, AllocError>
    ensures { IfOk result (λ v. v.items ≡ blocks_of (program layout.now).lines) }
{
    layout.blocks().collect::<Vec<Block>>(alloc)
}

// The blocks from the back, each the one ahead of the one that was given last.
#[tactic(auto, using(crate::proofs::Back::from_the_back))]
fn blocks_back(alloc: Global, layout: &Layout) -> Result<Vec<Block>, AllocError>
    ensures { IfOk result (λ v. v.items ≡ reverse (blocks_of (program layout.now).lines)) }
{
    let mut blocks = Vec::new(alloc);
    let mut next = layout.last_block();
    while let Some(block) = next {
        blocks.push(block)?;
        next = layout.prev_block(block);
    }
    Ok(blocks)
}

// Writes a line for each of the blocks, or that there is none.
#[tactic(auto, using(crate::proofs::Known::known_rows))]
fn write_rows<W: Write>(
    alloc: Global,
    layout: &Layout,
    blocks: &[Block],
    way: Direction,
    out: &mut W,
) -> io::Result<()>
    ensures { OnOk result (Appends (W.contents out.old) (W.contents out.new) (rows way (program layout.now) blocks.now)) }
{
    if blocks.is_empty() {
        return writeln!(out, "empty");
    }
    for block in blocks {
        write_row(alloc, layout, *block, way, out)?;
    }
    Ok(())
}

// Writes the line of a block.
fn write_row<W: Write>(
    alloc: Global,
    layout: &Layout,
    block: Block,
    way: Direction,
    out: &mut W,
) -> io::Result<()>
    ensures { OnOk result (Appends (W.contents out.old) (W.contents out.new) (block_row way (program layout.now) block)) }
{
    let slots = slots(alloc, layout, block, way)?;
    let cold = layout.is_cold(block);
    let slots = &slots;
    writeln!(out, "{}", BlockLine { block, cold, slots })
}

// The instructions of a block in the order of the walk, each with its number.
fn slots(
    alloc: Global,
    layout: &Layout,
    block: Block,
    way: Direction,
) -> Result<Vec<(Inst, u32)>, AllocError>
    ensures { IfOk result (λ v. v.items ≡ slots_along way block (program layout.now)) }
{
    match way {
        Direction::Forward => slots_forward(alloc, layout, block),
        Direction::Backward => slots_backward(alloc, layout, block),
    }
}

// The instructions of a block from the front, each with its number.
fn slots_forward(
    alloc: Global,
    layout: &Layout,
    block: Block,
) -> Result<Vec<(Inst, u32)>, AllocError>
    ensures { IfOk result (λ v. v.items ≡ map slot_at (slots_of block (program layout.now))) }
{
    let mut slots = Vec::new(alloc);
    for inst in layout.block_insts(block) {
        if let Some(seq) = layout.inst_seq(inst) {
            slots.push((inst, seq))?;
        }
    }
    Ok(slots)
}

// The same from the back.
fn slots_backward(
    alloc: Global,
    layout: &Layout,
    block: Block,
) -> Result<Vec<(Inst, u32)>, AllocError>
    ensures { IfOk result (λ v. v.items ≡ reverse (map slot_at (slots_of block (program layout.now)))) }
{
    let mut slots = Vec::new(alloc);
    for inst in layout.block_insts(block).rev() {
        if let Some(seq) = layout.inst_seq(inst) {
            slots.push((inst, seq))?;
        }
    }
    Ok(slots)
}
