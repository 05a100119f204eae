//! The cursor that also keeps a source location.

ghost use Rattle.std.specs.Prelude.{◌≡◌};
ghost use Rattle.cursor.specs.SourceLocs.{no_location};
ghost use Rattle.cursor.specs.declared.CursorPosition.TheVariants.{Nowhere};

use crate::sourceloc::SourceLoc;
use crate::{Cursor, CursorPosition};

/// A position and a source location. It borrows no layout: a call gets the layout beside it.
#[derive(Drop)]
pub struct FuncCursor {
    pos: CursorPosition,
    srcloc: SourceLoc,
}

impl FuncCursor {
    /// The source location.
    pub fn srcloc(&self) -> SourceLoc
        ensures { result ≡ self.now.srcloc }
    {
        self.srcloc
    }

    /// Keeps another source location, and the position.
    pub fn set_srcloc(&mut self, srcloc: SourceLoc)
        ensures { self.new ≡ record { pos = self.old.pos; srcloc = srcloc } }
    {
        self.srcloc = srcloc;
    }

    /// This cursor with another source location.
    pub fn with_srcloc(mut self, srcloc: SourceLoc) -> FuncCursor
        ensures { result ≡ record { pos = self.pos; srcloc = srcloc } }
    {
        self.set_srcloc(srcloc);
        self
    }
}

impl Cursor for FuncCursor {
    ghost pos = { λ c. c.pos };

    fn new() -> FuncCursor
        ensures { result ≡ record { pos = Nowhere; srcloc = no_location } }
    {
        FuncCursor {
            pos: CursorPosition::Nowhere,
            srcloc: SourceLoc::default(),
        }
    }

    fn position(&self) -> CursorPosition {
        self.pos
    }

    fn set_position(&mut self, position: CursorPosition)
        ensures { self.new ≡ record { pos = position; srcloc = self.old.srcloc } }
    {
        self.pos = position;
    }
}
