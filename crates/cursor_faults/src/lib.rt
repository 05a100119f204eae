//! Refusals of cursor calls: the cursor's own, and the layout's carried whole; and their text.

#![tactic(auto)]

ghost use Rattle.std.specs.Prelude.{◌≡◌, Some};
ghost use Rattle.cursor_faults.specs.Refusals.{cursor_refusal_of, carried};
ghost use Rattle.cursor_faults.specs.Text.{cursor_fault_text, own_reason_text};
ghost use Rattle.cursor_faults.specs.declared.CursorFault.TheVariants.{Layout as layout_refused};

use faults::{Entity, Layer, LayoutFault};
use std::error::Error;
use std::fmt;

/// Why a cursor call is refused.
#[derive(Clone, Copy, PartialEq, Eq, Debug)]
pub enum CursorFault {
    /// The cursor is on something that is not inserted.
    Stale(Entity),
    /// The position does not allow the edit.
    WrongPosition,
    /// The block has no instruction to go to.
    Empty(Entity),
    /// The layout refused.
    Layout(LayoutFault),
}

impl CursorFault {
    /// The number of the question that was answered no.
    pub fn number(self) -> u32
        ensures { result ≡ (cursor_refusal_of self).number }
    {
        match self {
            CursorFault::Stale(_) => 3,
            CursorFault::WrongPosition => 4,
            CursorFault::Empty(_) => 8,
            CursorFault::Layout(fault) => fault.number(),
        }
    }

    /// Who asked.
    pub fn layer(self) -> Layer
        ensures { result ≡ (cursor_refusal_of self).layer }
    {
        match self {
            CursorFault::Stale(_) | CursorFault::WrongPosition | CursorFault::Empty(_) =>
                Layer::Cursor,
            CursorFault::Layout(fault) => fault.layer(),
        }
    }

    /// The block or instruction at fault; none where it is the position that does not allow the edit.
    pub fn entity(self) -> Option<Entity>
        ensures { result ≡ (cursor_refusal_of self).entity }
    {
        match self {
            CursorFault::Stale(entity) | CursorFault::Empty(entity) => Some(entity),
            CursorFault::WrongPosition => None,
            CursorFault::Layout(fault) => Some(fault.entity()),
        }
    }

    /// The layout's refusal, where the layout refused.
    pub fn layout_fault(self) -> Option<LayoutFault>
        ensures { result ≡ carried self }
    {
        match self {
            CursorFault::Layout(fault) => Some(fault),
            _ => None,
        }
    }

    // What is wrong where it is the cursor that refused: with the entity at fault, or else with the position.
    fn reason(self) -> &'static str
        ensures { result.now ≡ own_reason_text self }
    {
        match self {
            CursorFault::Stale(_) => "is not inserted",
            CursorFault::WrongPosition => "not at this position",
            CursorFault::Empty(_) => "has no instructions",
            CursorFault::Layout(_) => "",
        }
    }
}

impl From<LayoutFault> for CursorFault {
    ghost from_gives = { λ f r. r ≡ layout_refused f };

    fn from(fault: LayoutFault) -> CursorFault {
        CursorFault::Layout(fault)
    }
}

impl fmt::Display for CursorFault {
    ghost output = { λ f. Some (cursor_fault_text f) };

    fn fmt<W: fmt::Write>(&self, f: &mut fmt::Formatter<W>) -> fmt::Result {
        match (self.layout_fault(), self.entity()) {
            (Some(fault), _) => write!(f, "{fault}"),
            (None, Some(entity)) => write!(
                f,
                "refused with {} by the {}: {} {}",
                self.number(),
                self.layer(),
                entity,
                self.reason()
            ),
            (None, None) => write!(
                f,
                "refused with {} by the {}: {}",
                self.number(),
                self.layer(),
                self.reason()
            ),
        }
    }
}

impl Error for CursorFault {}
