//! Edits. Each asks its questions first, then works on the tables in place and tells how many sequence numbers it wrote.

ghost use Rattle.std.specs.Prelude.{◌≡◌, [], ◌∷◌};
ghost use Rattle.entities.specs.Laws.{CutInTwo, PutAhead, PutBehind, PutLast, TakenOut, walk};
ghost use Rattle.entities.specs.Program.{no_program, remove_block, remove_inst};
ghost use Rattle.entities.specs.Reading.{walk_of};
ghost use Rattle.entities.specs.declared.progpoint.ProgramPoint.TheVariants.{Block as block_point, Inst as inst_point};
ghost use Rattle.faults.specs.Refusals.{IfAccepted, SameIfRefused};
ghost use Rattle.faults.specs.Rules.{Follows, append_block_rule, insert_block_rule, insert_block_after_rule, remove_block_rule, remove_block_and_insts_rule, split_block_rule, append_inst_rule, insert_inst_rule, remove_inst_rule, set_cold_rule};
ghost use Rattle.layout.specs.Program.{program};

use crate::Layout;
use asked::placed;
use entities::{Block, Inst};
use faults::LayoutFault;

impl Layout {
    /// An empty layout with no block marked cold.
    pub fn new() -> Layout
        ensures { program result ≡ no_program }
    {
        Layout {
            listing: tables::unlinked(false),
        }
    }

    /// Takes everything out and every mark off. Writes no number.
    pub fn clear(&mut self) -> u32
        ensures answer { result ≡ 0 }
        ensures program { program self.new ≡ no_program }
    {
        tables::clear(&mut self.listing);
        0
    }

    /// Puts `block` in as the last block. Writes no number.
    #[tactic(auto, using(crate::proofs::Laws::append_block_laws))]
    pub fn append_block(&mut self, block: Block) -> Result<u32, LayoutFault>
        ensures rule { Follows (append_block_rule block (program self.old)) result (program self.new) }
        ensures refused { SameIfRefused result self.old self.new }
        ensures order { IfAccepted result (λ _. PutLast (block_point block) (program self.old) (program self.new)) }
        ensures undone { IfAccepted result (λ _. remove_block block (program self.new).lines ≡ (program self.old).lines) }
    {
        asked::append_block(&self.listing, block)?;
        block_edits::append_block(&mut self.listing, block);
        Ok(0)
    }

    /// Puts `block` in directly ahead of `before`. Writes no number.
    #[tactic(auto, using(crate::proofs::Laws::insert_block_laws))]
    pub fn insert_block(&mut self, block: Block, before: Block) -> Result<u32, LayoutFault>
        ensures rule { Follows (insert_block_rule block before (program self.old)) result (program self.new) }
        ensures refused { SameIfRefused result self.old self.new }
        ensures order { IfAccepted result (λ _. PutAhead (block_point block) (block_point before) (program self.old) (program self.new)) }
        ensures undone { IfAccepted result (λ _. remove_block block (program self.new).lines ≡ (program self.old).lines) }
    {
        placed::insert_block(&self.listing, block, before)?;
        block_edits::insert_block(&mut self.listing, block, before);
        Ok(0)
    }

    /// Puts `block` in directly behind `after`. Writes no number.
    #[tactic(auto, using(crate::proofs::Laws::insert_block_after_laws))]
    pub fn insert_block_after(&mut self, block: Block, after: Block) -> Result<u32, LayoutFault>
        ensures rule { Follows (insert_block_after_rule block after (program self.old)) result (program self.new) }
        ensures refused { SameIfRefused result self.old self.new }
        ensures order { IfAccepted result (λ _. PutBehind (block_point block) after (program self.old) (program self.new)) }
        ensures undone { IfAccepted result (λ _. remove_block block (program self.new).lines ≡ (program self.old).lines) }
    {
        placed::insert_block(&self.listing, block, after)?;
        block_edits::insert_block_after(&mut self.listing, block, after);
        Ok(0)
    }

    /// Takes `block` out, which has no instructions. Writes no number.
    #[tactic(auto, using(crate::proofs::Laws::empty_block_out))]
    pub fn remove_block(&mut self, block: Block) -> Result<u32, LayoutFault>
        ensures rule { Follows (remove_block_rule block (program self.old)) result (program self.new) }
        ensures refused { SameIfRefused result self.old self.new }
        ensures order { IfAccepted result (λ _. TakenOut (block_point block ∷ []) (program self.old) (program self.new)) }
    {
        placed::remove_block(&self.listing, block)?;
        block_edits::remove_block(&mut self.listing, block);
        Ok(0)
    }

    /// Takes `block` out, its instructions first. Writes no number.
    #[tactic(auto, using(crate::proofs::Laws::block_out))]
    pub fn remove_block_and_insts(&mut self, block: Block) -> Result<u32, LayoutFault>
        ensures rule { Follows (remove_block_and_insts_rule block (program self.old)) result (program self.new) }
        ensures refused { SameIfRefused result self.old self.new }
        ensures order { IfAccepted result (λ _. TakenOut (walk_of block (program self.old)) (program self.old) (program self.new)) }
    {
        placed::remove_block_and_insts(&self.listing, block)?;
        bodies::remove_block_and_insts(&mut self.listing, block);
        Ok(0)
    }

    /// Puts `block` in directly behind the block of `before`, and moves `before` and all that follow it there into it. Writes no number.
    #[tactic(auto, using(crate::proofs::Laws::split_block_laws))]
    pub fn split_block(&mut self, block: Block, before: Inst) -> Result<u32, LayoutFault>
        ensures rule { Follows (split_block_rule block before (program self.old)) result (program self.new) }
        ensures refused { SameIfRefused result self.old self.new }
        ensures order { IfAccepted result (λ _. PutAhead (block_point block) (inst_point before) (program self.old) (program self.new)) }
        ensures parts { IfAccepted result (λ _. CutInTwo before block (program self.old) (program self.new)) }
    {
        let old = placed::split_block(&self.listing, block, before)?;
        bodies::split_block(&mut self.listing, block, before, old);
        Ok(0)
    }

    /// Puts `inst` in as the last instruction of `block`, and numbers it.
    #[inline(always)]
    #[tactic(auto, using(crate::proofs::Laws::append_inst_laws))]
    pub fn append_inst(&mut self, inst: Inst, block: Block) -> Result<u32, LayoutFault>
        ensures rule { Follows (append_inst_rule inst block (program self.old)) result (program self.new) }
        ensures refused { SameIfRefused result self.old self.new }
        ensures order { IfAccepted result (λ _. PutBehind (inst_point inst) block (program self.old) (program self.new)) }
        ensures undone { IfAccepted result (λ _. walk (remove_inst inst (program self.new).lines) ≡ walk (program self.old).lines) }
    {
        asked::append_inst(&self.listing, inst, block)?;
        let writes = inst_edits::append_inst(&mut self.listing, inst, block);
        Ok(writes)
    }

    /// Puts `inst` in directly ahead of `before`, in its block, and numbers it.
    #[tactic(auto, using(crate::proofs::Laws::insert_inst_laws))]
    pub fn insert_inst(&mut self, inst: Inst, before: Inst) -> Result<u32, LayoutFault>
        ensures rule { Follows (insert_inst_rule inst before (program self.old)) result (program self.new) }
        ensures refused { SameIfRefused result self.old self.new }
        ensures order { IfAccepted result (λ _. PutAhead (inst_point inst) (inst_point before) (program self.old) (program self.new)) }
        ensures undone { IfAccepted result (λ _. walk (remove_inst inst (program self.new).lines) ≡ walk (program self.old).lines) }
    {
        let block = placed::insert_inst(&self.listing, inst, before)?;
        let writes = inst_edits::insert_inst(&mut self.listing, inst, before, block);
        Ok(writes)
    }

    /// Takes `inst` out. Writes no number.
    #[tactic(auto, using(crate::proofs::Laws::inst_out))]
    pub fn remove_inst(&mut self, inst: Inst) -> Result<u32, LayoutFault>
        ensures rule { Follows (remove_inst_rule inst (program self.old)) result (program self.new) }
        ensures refused { SameIfRefused result self.old self.new }
        ensures order { IfAccepted result (λ _. TakenOut (inst_point inst ∷ []) (program self.old) (program self.new)) }
    {
        let block = placed::remove_inst(&self.listing, inst)?;
        inst_edits::remove_inst(&mut self.listing, inst, block);
        Ok(0)
    }

    /// Marks `block` as cold, inserted or not. Writes no number.
    pub fn set_cold(&mut self, block: Block) -> Result<u32, LayoutFault>
        ensures rule { Follows (set_cold_rule block (program self.old)) result (program self.new) }
        ensures refused { SameIfRefused result self.old self.new }
    {
        asked::set_cold(block)?;
        tables::set_cold(&mut self.listing, block);
        Ok(0)
    }
}
