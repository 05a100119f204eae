//! Scripts of calls: their text read into commands, and commands and answers written as text.

#![tactic(auto)]

mod names;
mod texts;

pub use commands::{CursorCommand, CursorKind, CursorQuestion, LayoutCommand, Question};
pub use lines::Line;
pub use names::Names;
pub use printed::{BlockLine, Entry, Printed, Reply};
pub use texts::{Script, ScriptFault, What, parse};

/// A line of a script. Cursors are known by index, in order of making.
#[derive(Clone, Copy, PartialEq, Eq)]
pub enum Command {
    Layout(LayoutCommand),
    /// Makes the cursor with this index.
    NewCursor(usize, CursorKind),
    Cursor(usize, CursorCommand),
}
