//! The nodes of the two chains, and the tables that hold them.

ghost use Rattle.std.specs.Prelude.{◌≡◌};
ghost use Rattle.entities.specs.Nodes.{block_links, inst_links};

use crate::{BLOCK_CAPACITY, Block, INST_CAPACITY, Inst};
use chain::{Ends, LinkedNode};

/// A number that tells where in its block an instruction stands: as line numbers in BASIC, rising and with gaps.
pub type SequenceNumber = u32;

/// A node of the chain of blocks.
#[derive(Clone, Copy)]
pub struct BlockNode {
    pub prev: Option<Block>,
    pub next: Option<Block>,
    // two fields and no `Ends`, as in the crate that this is a port of
    pub first_inst: Option<Inst>,
    pub last_inst: Option<Inst>,
    pub cold: bool,
}

impl BlockNode {
    /// The node of a block that is neither inserted nor marked.
    pub const EMPTY: BlockNode = BlockNode {
        prev: None,
        next: None,
        first_inst: None,
        last_inst: None,
        cold: false,
    };
}

impl LinkedNode for BlockNode {
    type Key = Block;

    ghost links = { block_links };

    fn prev(self) -> Option<Block> {
        self.prev
    }

    fn next(self) -> Option<Block> {
        self.next
    }

    fn set_prev(&mut self, block: Option<Block>)
        ensures { self.new ≡ block_links.with_prev self.old block }
    {
        self.prev = block;
    }

    fn set_next(&mut self, block: Option<Block>)
        ensures { self.new ≡ block_links.with_next self.old block }
    {
        self.next = block;
    }
}

/// A node of a block's chain of instructions.
#[derive(Clone, Copy)]
pub struct InstNode {
    /// The block in which the instruction stands, none where it is not inserted.
    pub block: Option<Block>,
    pub prev: Option<Inst>,
    pub next: Option<Inst>,
    pub seq: SequenceNumber,
}

impl InstNode {
    /// The node of an instruction that never was inserted.
    pub const EMPTY: InstNode = InstNode {
        block: None,
        prev: None,
        next: None,
        seq: 0,
    };
}

// As for `BlockNode`: each kind of node shows for itself that a link set is the link read, and that setting it spares the rest
// (docs/DECISIONS.md, "Two numbers").
impl LinkedNode for InstNode {
    type Key = Inst;

    ghost links = { inst_links };

    fn prev(self) -> Option<Inst> {
        self.prev
    }

    fn next(self) -> Option<Inst> {
        self.next
    }

    fn set_prev(&mut self, inst: Option<Inst>)
        ensures { self.new ≡ inst_links.with_prev self.old inst }
    {
        self.prev = inst;
    }

    fn set_next(&mut self, inst: Option<Inst>)
        ensures { self.new ≡ inst_links.with_next self.old inst }
    {
        self.next = inst;
    }
}

/// The two node tables with the ends of the chain of blocks. Nodes name one another by index in arrays of fixed size, and not by `Box`: a
/// controller has that much memory and no heap, and such tables are what another controller sends
/// (docs/DECISIONS.md, "Fixed tables inside the layout").
#[derive(Drop)]
pub struct Tables {
    pub blocks: [BlockNode; BLOCK_CAPACITY],
    pub insts: [InstNode; INST_CAPACITY],
    pub ends: Ends<Block>,
}
