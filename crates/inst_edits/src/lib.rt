//! The edits of a listing's instructions, each by what it does to the program that the listing holds.

#![tactic(auto)]

ghost use Rattle.std.specs.Prelude.{◌≡◌, ◌<◌, true, length, None, Some};
ghost use Rattle.entities.specs.declared.Inst.{Inst as InstOf};
ghost use Rattle.entities.specs.declared.nodes.Tables.{Tables as TablesOf};
ghost use Rattle.entities.specs.Numbering.{appended_inst, inserted_before, numbered_before, numbered_last};
ghost use Rattle.entities.specs.Program.{remove_inst, with_lines};
ghost use Rattle.entities.specs.Reading.{inserted_block, inst_block, slots_of, slots_with, InstFree};
ghost use Rattle.listing.specs.Edits.{Becomes};
ghost use Rattle.listing.specs.Held.{program};
ghost use Rattle.listing.specs.Lawful.{Sound, listed, program_of};
ghost use Rattle.inst_edits.specs.Put.{Appended, Inserted, LinkedBefore, LinkedLast, SomeLinked};
ghost use Rattle.inst_edits.specs.Removal.{LeftOut};

use chain::Ends;
use entities::nodes::Tables;
use entities::{Block, Inst};
use listing::Listing;

// That an instruction is free, or stands in a block, is a fact of this listing until its next edit. No type of the number could hold it, so
// it is a clause.

/// Puts `inst` at the end of `block` and numbers it. Returns how many numbers were stored.
// Inlined, with the call of `Layout` that it serves: a program is entered by appending.
#[inline(always)]
pub fn append_inst(listing: &mut Listing, inst: Inst, block: Block) -> u32
    requires free { InstFree inst (program listing.old) }
    requires inserted { inserted_block block (program listing.old) ≡ true }
    ensures count { result ≡ (numbered_last (slots_of block (program listing.old)) inst).writes }
    ensures program { program listing.new ≡ appended_inst inst block (program listing.old) }
{
    let tables = &mut listing.tables;
    link_last(tables, inst, block);
    number_linked(tables, inst, block)
}

/// Puts `inst` directly ahead of `before`, which stands in `block`, and numbers it. Returns how many numbers were stored.
pub fn insert_inst(listing: &mut Listing, inst: Inst, before: Inst, block: Block) -> u32
    requires free { InstFree inst (program listing.old) }
    requires stands { inst_block before (program listing.old) ≡ Some block }
    ensures count { result ≡ (numbered_before inst before (slots_with before (program listing.old))).writes }
    ensures program { program listing.new ≡ inserted_before inst before (program listing.old) }
{
    link_before(&mut listing.tables, inst, before, block);
    number_linked(&mut listing.tables, inst, block)
}

/// Takes `inst` out of `block`, in which it stands.
pub fn remove_inst(listing: &mut Listing, inst: Inst, block: Block)
    requires { inst_block inst (program listing.old) ≡ Some block }
    ensures { program listing.new ≡ with_lines (program listing.old) (remove_inst inst (program listing.old).lines) }
{
    let tables = &mut listing.tables;
    let old = fields::inst_ends(&tables.blocks, block);
    let new = chain::remove(&mut tables.insts, old, inst);
    close_up(tables, inst, block, new, None);
}

// Between linking and numbering the tables are no listing, since the number that the node happens to hold may not rise. So these steps
// ask for `Sound` by a clause. The two ways of linking and `close_up` are no plainer as one function: each finds its neighbours by another
// fact.

// Links `inst` in at the end of `block`, which it then names.
fn link_last(tables: &mut Tables, inst: Inst, block: Block)
    requires sound { Sound tables.old }
    requires free { InstFree inst (program_of tables.old) }
    requires inserted { inserted_block block (program_of tables.old) ≡ true }
    ensures { LinkedLast tables.old tables.new inst block }
{
    let old = fields::inst_ends(&tables.blocks, block);
    let new = chain::append(&mut tables.insts, old, inst);
    fields::set_inst_ends(&mut tables.blocks, block, new);
    fields::set_block(&mut tables.insts, inst, Some(block));
}

// Links `inst` in directly ahead of `before`, in its block, which `inst` then names.
fn link_before(tables: &mut Tables, inst: Inst, before: Inst, block: Block)
    requires sound { Sound tables.old }
    requires free { InstFree inst (program_of tables.old) }
    requires stands { inst_block before (program_of tables.old) ≡ Some block }
    ensures { LinkedBefore tables.old tables.new inst before block }
{
    let old = fields::inst_ends(&tables.blocks, block);
    let new = chain::insert_before(&mut tables.insts, old, inst, before);
    fields::set_inst_ends(&mut tables.blocks, block, new);
    fields::set_block(&mut tables.insts, inst, Some(block));
}

// Numbers `inst`, which was just linked into `block`. Returns how many numbers were stored.
// Inlined, since it reads what linking has just written.
#[inline(always)]
fn number_linked(tables: &mut Tables, inst: Inst, block: Block) -> u32
    requires { SomeLinked tables.old inst block }
    ensures sound { Sound tables.new }
    ensures last { (t : TablesOf) → LinkedLast t tables.old inst block → Appended t tables.new inst block result }
    ensures before { (t : TablesOf) (before : InstOf) → LinkedBefore t tables.old inst before block → Inserted t tables.new inst before result }
{
    let first = fields::inst_ends(&tables.blocks, block).first;
    numbering::assign_inst_seq(&mut tables.insts, first, inst)
}

// After `inst` was taken out of the chain of `block`: the block gets the new `ends`, and the node of `inst` names `name`,
// which is none: it is a parameter so that a wrong name is refused where it is given.
fn close_up(tables: &mut Tables, inst: Inst, block: Block, ends: Ends<Inst>, name: Option<Block>)
    requires inst { inst.0 < length tables.old.insts }
    requires block { block.0 < length tables.old.blocks }
    ensures { (t : TablesOf) → LeftOut t tables.old inst block ends → name ≡ None → Becomes t tables.new (remove_inst inst (listed t)) }
{
    fields::set_inst_ends(&mut tables.blocks, block, ends);
    fields::set_block(&mut tables.insts, inst, name);
}
