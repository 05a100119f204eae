//! A cursor of either kind, so that both can be in one slice.

ghost use Rattle.std.specs.Prelude.{◌≡◌};
ghost use Rattle.cursor.specs.Kinds.{any_position, SameKind};

use crate::func::FuncCursor;
use crate::word::WordCursor;
use crate::{Cursor, CursorPosition};

/// A cursor of one of the kinds.
#[derive(Drop)]
pub enum AnyCursor {
    Func(FuncCursor),
    Word(WordCursor),
}

impl Cursor for AnyCursor {
    ghost pos = { any_position };

    fn new() -> AnyCursor {
        AnyCursor::Func(FuncCursor::new())
    }

    fn position(&self) -> CursorPosition {
        match self {
            AnyCursor::Func(cursor) => cursor.position(),
            AnyCursor::Word(cursor) => cursor.position(),
        }
    }

    fn set_position(&mut self, position: CursorPosition)
        ensures position { any_position self.new ≡ position }
        ensures kind { SameKind self.old self.new }
    {
        match self {
            AnyCursor::Func(cursor) => cursor.set_position(position),
            AnyCursor::Word(cursor) => cursor.set_position(position),
        }
    }
}
