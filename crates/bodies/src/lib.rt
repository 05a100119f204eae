//! The edits of a block together with its instructions, each by the list that the listing then holds.

#![tactic(auto)]

ghost use Rattle.std.specs.Prelude.{◌≡◌, ◌<◌, true, length, Some};
ghost use Rattle.chain.specs.Chain.{keys_from};
ghost use Rattle.chain.specs.Table.{read_at, Within};
ghost use Rattle.entities.specs.Nodes.{ends_of, inst_links, inst_place};
ghost use Rattle.entities.specs.Program.{remove_block, split_block, with_lines};
ghost use Rattle.entities.specs.Reading.{inserted_block, inst_block, BlockFree};
ghost use Rattle.listing.specs.Edits.{cut_off, ends_ahead, named};
ghost use Rattle.listing.specs.Held.{program};
ghost use Rattle.listing.specs.Numbers.{SomeRun};

use chain::{Ends, Key};
use entities::nodes::{InstNode, Tables};
use entities::{Block, Inst};
use listing::Listing;

// As in `block_edits` and `inst_edits`, that a block is free or inserted and where an instruction stands are facts until the next edit, and
// so clauses.

/// Puts `new_block` directly behind `block`, in which `before` stands, and moves `before` and all that follow it into it.
#[tactic(auto, using(crate::proofs::Splitting::steps))]
pub fn split_block(listing: &mut Listing, new_block: Block, before: Inst, block: Block)
    requires free { BlockFree new_block (program listing.old) }
    requires stands { inst_block before (program listing.old) ≡ Some block }
    ensures { program listing.new ≡ with_lines (program listing.old) (split_block new_block before (program listing.old).lines) }
{
    block_edits::insert_block_after(listing, new_block, block);

    let tables = &mut listing.tables;
    cut_off(tables, block, before, new_block);
    name_all(&mut tables.insts, Some(before), new_block);
}

/// Takes out `block`, its instructions first.
#[tactic(auto, using(crate::proofs::Emptying::emptying))]
pub fn remove_block_and_insts(listing: &mut Listing, block: Block)
    requires { inserted_block block (program listing.old) ≡ true }
    ensures { program listing.new ≡ with_lines (program listing.old) (remove_block block (program listing.old).lines) }
{
    while let Some(inst) = reads::block_node(listing, block).first_inst {
        inst_edits::remove_inst(listing, inst, block);
    }
    block_edits::remove_block(listing, block);
}

// Links `before` and all that follow it as the chain of `new_block`, and leaves `block` what is ahead of them; they still name `block`, so
// the tables are no listing before `name_all`. A step of its own, since with all writes in one body the
// caller's proof did not close.
#[tactic(auto, using(listing::proofs::Splits::cut_written))]
fn cut_off(tables: &mut Tables, block: Block, before: Inst, new_block: Block)
    requires block { block.0 < length tables.old.blocks }
    requires new_block { new_block.0 < length tables.old.blocks }
    requires before { before.0 < length tables.old.insts }
    requires prev { Within inst_place (length tables.old.insts) (read_at inst_links.prev_of tables.old.insts before.0) }
    ensures { tables.new ≡ cut_off tables.old (ends_of tables.old.blocks block) (read_at inst_links.prev_of tables.old.insts before.0) new_block before block }
{
    let old = fields::inst_ends(&tables.blocks, block);
    let prev = chain::cut(&mut tables.insts, before);
    let kept = ahead_of(old, prev);
    fields::set_inst_ends(&mut tables.blocks, block, kept);
    let moved = Ends {
        first: Some(before),
        last: old.last,
    };
    fields::set_inst_ends(&mut tables.blocks, new_block, moved);
}

// The ends of what stays ahead of a cut, where `prev` is directly ahead of it.
fn ahead_of(ends: Ends<Inst>, prev: Option<Inst>) -> Ends<Inst>
    ensures { result ≡ ends_ahead ends prev }
{
    Ends {
        first: prev.and(ends.first),
        last: prev,
    }
}

// Has each instruction from `first` on name `block`. An iterator along the links would borrow the nodes that the loop writes.
fn name_all(insts: &mut [InstNode], first: Option<Inst>, block: Block)
    requires { SomeRun insts.old first }
    ensures { insts.new ≡ named insts.old (keys_from inst_place inst_links insts.old first) block }
{
    let mut at = first;
    while let Some(inst) = at {
        fields::set_block(insts, inst, Some(block));
        at = insts[inst.index()].next;
    }
}
