//! Cursors: what it is to be one, and the kinds there are. A cursor means a position; the layout is handed to each call beside it.

#![tactic(auto)]

ghost use Rattle.std.specs.Prelude.{◌≡◌};
ghost use Rattle.cursor.specs.declared.CursorPosition.{CursorPosition as Position};
ghost use Rattle.cursor.specs.declared.CursorPosition.TheVariants.{Nowhere};

use entities::{Block, Inst};

pub mod any;
pub mod func;
pub mod sourceloc;
pub mod word;

/// Where a cursor is.
#[derive(Clone, Copy, PartialEq, Eq, Debug)]
pub enum CursorPosition {
    /// At nothing. No instruction can be put in.
    Nowhere,
    /// At an instruction. An instruction that is put in goes ahead of it.
    At(Inst),
    /// Ahead of a block's instructions. No instruction can be put in; a step forward leads to the first.
    Before(Block),
    /// Behind a block's instructions. An instruction that is put in goes to the block's end.
    After(Block),
}

/// What means a position. The calls on cursors ask no more of one than this.
pub trait Cursor {
    // the position that it means
    ghost pos: { Self → Position };

    /// One that is Nowhere.
    fn new() -> Self
        ensures { pos result ≡ Nowhere };

    /// Where it is.
    fn position(&self) -> CursorPosition
        ensures { result ≡ pos self.now };

    /// Goes to any position, inserted or not.
    fn set_position(&mut self, position: CursorPosition)
        ensures { pos self.new ≡ position };
}
