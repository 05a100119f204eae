//! The cursor that is one word.

ghost use Rattle.std.specs.Prelude.{◌≡◌, ◌<◌, ◌≤◌};
ghost use Rattle.cursor.specs.Words.{position_of, word_of};

use crate::{Cursor, CursorPosition};
use entities::{Block, Inst};

// What stands above a word's lower half: the kind of position.
const AT: u64 = 0x1_0000_0000;

const BEFORE: u64 = 0x2_0000_0000;

const AFTER: u64 = 0x3_0000_0000;

/// A position as one 64-bit word: 0 for Nowhere, else the number of the instruction or block plus 100000000 (hexadecimal) for At, 200000000
/// for Before and 300000000 for After.
#[derive(Drop)]
pub struct WordCursor {
    word: u64,
    // the word of some position
    ghost low: { (0 < word → 0x1_0000_0000 ≤ word) },
    ghost high: { word < 0x4_0000_0000 },
}

impl WordCursor {
    /// The word.
    pub fn word(&self) -> u64
        ensures { result ≡ word_of (position_of self.now.word) }
    {
        self.word
    }
}

impl Cursor for WordCursor {
    ghost pos = { λ c. position_of c.word };

    fn new() -> WordCursor {
        WordCursor { word: 0 }
    }

    fn position(&self) -> CursorPosition {
        let word = self.word;
        if word == 0 {
            CursorPosition::Nowhere
        } else if word < BEFORE {
            CursorPosition::At(Inst::from_u32((word - AT) as u32))
        } else if word < AFTER {
            CursorPosition::Before(Block::from_u32((word - BEFORE) as u32))
        } else {
            CursorPosition::After(Block::from_u32((word - AFTER) as u32))
        }
    }

    fn set_position(&mut self, position: CursorPosition) {
        self.word = match position {
            CursorPosition::Nowhere => 0,
            CursorPosition::At(inst) => inst.as_u32() as u64 + AT,
            CursorPosition::Before(block) => block.as_u32() as u64 + BEFORE,
            CursorPosition::After(block) => block.as_u32() as u64 + AFTER,
        };
    }
}
