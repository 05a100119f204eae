//! The things a layout orders, and the nodes that hold them.

#![tactic(auto)]

ghost use Rattle.std.specs.Prelude.{◌≡◌};
ghost use Rattle.entities.specs.Nodes.{block_place, inst_place, block_with_number};
ghost use Rattle.std.proofs.Common.{rules};

use chain::Key;

pub mod nodes;
pub mod progpoint;

/// How many blocks a layout keeps: numbers 0 to 255.
pub const BLOCK_CAPACITY: usize = 256;

/// How many instructions a layout keeps: numbers 0 to 1,023.
pub const INST_CAPACITY: usize = 1024;

/// A block of the program, by its number.
#[derive(Clone, Copy, PartialEq, Eq, Debug)]
pub struct Block(u32);

// The conversions have the names of the crate that this is a port of.
impl Block {
    /// The block with this number; none for 4,294,967,295.
    pub fn with_number(n: u32) -> Option<Block>
        ensures { result ≡ block_with_number n }
    {
        (n < u32::MAX).then_some(Block::from_u32(n))
    }

    /// The block with this number, whatever it is.
    pub fn from_u32(n: u32) -> Block
        ensures { result ≡ record { 0 = n } }
    {
        Block(n)
    }

    /// The block's number.
    pub fn as_u32(self) -> u32
        ensures { result ≡ self.0 }
    {
        let Block(number) = self;
        number
    }
}

impl Key for Block {
    ghost place = { block_place };

    ghost apart = { Prim.search rules };

    fn index(self) -> usize {
        self.as_u32() as usize
    }
}

// `Inst` has the methods of `Block` over again: the two numbers are structs of their own, with no type between them through which one could
// pass for the other (docs/DECISIONS.md, "Two numbers").

/// An instruction of the program, by its number.
#[derive(Clone, Copy, PartialEq, Eq, Debug)]
pub struct Inst(u32);

impl Inst {
    /// The instruction with this number, whatever it is.
    pub fn from_u32(n: u32) -> Inst
        ensures { result ≡ record { 0 = n } }
    {
        Inst(n)
    }

    /// The instruction's number.
    pub fn as_u32(self) -> u32
        ensures { result ≡ self.0 }
    {
        let Inst(number) = self;
        number
    }
}

impl Key for Inst {
    ghost place = { inst_place };

    ghost apart = { Prim.search rules };

    fn index(self) -> usize {
        self.as_u32() as usize
    }
}
