//! Answers and refusals as a script's output has them.

#![tactic(auto)]

ghost use Rattle.std.specs.Prelude.{◌≡◌, Some, codes};
ghost use Rattle.std.specs.List.{flat_map};
ghost use Rattle.words.specs.Entities.{block_text, inst_text};
ghost use Rattle.printed.specs.Printed.{found_position_text, order_text, position_text, carried_text, call_fault_text, answer_text, reply_text, then_text, entry_text, entity_or, slot_text, block_line_text};

use calls::{Answer, CallFault, Outcome};
use cursor::CursorPosition;
use cursor_faults::CursorFault;
use entities::{Block, Inst};
use faults::{Entity, LayoutFault};
use lines::Line;
use std::cmp::Ordering;
use std::fmt;

/// What a line of a script answers.
#[derive(Clone, Copy, PartialEq, Eq, Debug)]
pub enum Reply {
    /// An edit or a call of a cursor.
    Outcome(Outcome),
    /// Which of two points comes first.
    Order(Result<Ordering, LayoutFault>),
    /// The block of a point.
    PointBlock(Result<Block, LayoutFault>),
    Flag(bool),
    Block(Option<Block>),
    Inst(Option<Inst>),
    Number(Option<u32>),
    /// Where a cursor is.
    Position(CursorPosition),
}

/// A line of a script with what it answers, and where the cursor that it calls then is.
#[derive(Clone, Copy)]
pub struct Entry<'a> {
    pub line: Line<'a>,
    pub reply: Reply,
    pub position: Option<CursorPosition>,
}

/// A line of a walk: a block, and its instructions in the order of the walk, each with its sequence number.
#[derive(Clone, Copy)]
pub struct BlockLine<'a> {
    pub block: Block,
    pub cold: bool,
    pub slots: &'a [(Inst, u32)],
}

/// As a script's output has it.
#[derive(Clone, Copy)]
pub struct Printed<T>(pub T);

impl fmt::Display for Printed<Option<Block>> {
    ghost output = { λ p. Some (block_text p.0) };

    fn fmt<W: fmt::Write>(&self, f: &mut fmt::Formatter<W>) -> fmt::Result {
        match self.0 {
            Some(block) => Entity::Block(block).fmt(f),
            None => f.write_str("none"),
        }
    }
}

impl fmt::Display for Printed<Option<Inst>> {
    ghost output = { λ p. Some (inst_text p.0) };

    fn fmt<W: fmt::Write>(&self, f: &mut fmt::Formatter<W>) -> fmt::Result {
        match self.0 {
            Some(inst) => Entity::Inst(inst).fmt(f),
            None => f.write_str("none"),
        }
    }
}

impl fmt::Display for Printed<CursorPosition> {
    ghost output = { λ p. Some (position_text p.0) };

    fn fmt<W: fmt::Write>(&self, f: &mut fmt::Formatter<W>) -> fmt::Result {
        call_names::position_args(self.0).fmt(f)
    }
}

impl fmt::Display for Printed<Option<CursorPosition>> {
    ghost output = { λ p. Some (found_position_text p.0) };

    fn fmt<W: fmt::Write>(&self, f: &mut fmt::Formatter<W>) -> fmt::Result {
        match self.0 {
            Some(position) => Printed(position).fmt(f),
            None => f.write_str("none"),
        }
    }
}

impl fmt::Display for Printed<Ordering> {
    ghost output = { λ p. Some (order_text p.0) };

    fn fmt<W: fmt::Write>(&self, f: &mut fmt::Formatter<W>) -> fmt::Result {
        match self.0 {
            Ordering::Less => f.write_str("Less"),
            Ordering::Equal => f.write_str("Equal"),
            Ordering::Greater => f.write_str("Greater"),
        }
    }
}

impl fmt::Display for Printed<CallFault> {
    ghost output = { λ p. Some (call_fault_text p.0) };

    fn fmt<W: fmt::Write>(&self, f: &mut fmt::Formatter<W>) -> fmt::Result {
        let fault = self.0;
        let carried = carried(fault);
        let entity = Refused(fault.entity());
        write!(
            f,
            "refused {} by {}{carried}: {entity}",
            fault.number(),
            fault.layer()
        )
    }
}

// The entity that is refused, if there is one.
#[derive(Clone, Copy)]
struct Refused(Option<Entity>);

impl fmt::Display for Refused {
    ghost output = { λ r. Some (entity_or (codes "-") r.0) };

    fn fmt<W: fmt::Write>(&self, f: &mut fmt::Formatter<W>) -> fmt::Result {
        match self.0 {
            Some(entity) => entity.fmt(f),
            None => f.write_str("-"),
        }
    }
}

// What tells that a cursor carries the layout's refusal.
fn carried(fault: CallFault) -> &'static str
    ensures { result.now ≡ carried_text fault }
{
    match fault {
        CallFault::Cursor(CursorFault::Layout(_)) => " in cursor",
        _ => "",
    }
}

impl fmt::Display for Printed<Answer> {
    ghost output = { λ p. Some (answer_text p.0) };

    fn fmt<W: fmt::Write>(&self, f: &mut fmt::Formatter<W>) -> fmt::Result {
        match self.0 {
            Answer::Wrote(writes) => write!(f, "wrote {writes}"),
            Answer::Took(inst, writes) => write!(f, "took {}, wrote {writes}", Entity::Inst(inst)),
            Answer::Inst(inst) => Printed(inst).fmt(f),
            Answer::Block(block) => Printed(block).fmt(f),
            Answer::Position(position) => Printed(position).fmt(f),
            Answer::Done => f.write_str("done"),
        }
    }
}

impl fmt::Display for Reply {
    ghost output = { λ r. Some (reply_text r) };

    fn fmt<W: fmt::Write>(&self, f: &mut fmt::Formatter<W>) -> fmt::Result {
        match *self {
            Reply::Outcome(Ok(answer)) => Printed(answer).fmt(f),
            Reply::Outcome(Err(fault)) => Printed(fault).fmt(f),
            Reply::Order(Ok(order)) => Printed(order).fmt(f),
            Reply::Order(Err(fault)) => Printed(CallFault::Layout(fault)).fmt(f),
            Reply::PointBlock(Ok(block)) => Entity::Block(block).fmt(f),
            Reply::PointBlock(Err(fault)) => Printed(CallFault::Layout(fault)).fmt(f),
            Reply::Flag(flag) => f.write_str(if flag { "true" } else { "false" }),
            Reply::Block(block) => Printed(block).fmt(f),
            Reply::Inst(inst) => Printed(inst).fmt(f),
            Reply::Number(Some(number)) => write!(f, "{number}"),
            Reply::Number(None) => f.write_str("none"),
            Reply::Position(position) => Printed(position).fmt(f),
        }
    }
}

impl fmt::Display for Entry<'_> {
    ghost output = { λ e. Some (entry_text e) };

    fn fmt<W: fmt::Write>(&self, f: &mut fmt::Formatter<W>) -> fmt::Result {
        write!(f, "{} -> {}{}", self.line, self.reply, Then(self.position))
    }
}

// Where the cursor that is called then is, if one is called.
#[derive(Clone, Copy)]
struct Then(Option<CursorPosition>);

impl fmt::Display for Then {
    ghost output = { λ t. Some (then_text t.0) };

    fn fmt<W: fmt::Write>(&self, f: &mut fmt::Formatter<W>) -> fmt::Result {
        match self.0 {
            Some(position) => write!(f, "; {}", Printed(position)),
            None => Ok(()),
        }
    }
}

impl fmt::Display for BlockLine<'_> {
    ghost output = { λ b. Some (block_line_text b) };

    fn fmt<W: fmt::Write>(&self, f: &mut fmt::Formatter<W>) -> fmt::Result {
        let mark = if self.cold { " cold" } else { "" };
        write!(
            f,
            "{}{mark}:{}",
            Entity::Block(self.block),
            Slots(self.slots)
        )
    }
}

// The instructions of a block, each with its sequence number.
#[derive(Clone, Copy)]
struct Slots<'a>(&'a [(Inst, u32)]);

impl fmt::Display for Slots<'_> {
    ghost output = { λ s. Some (flat_map slot_text s.0.now) };

    fn fmt<W: fmt::Write>(&self, f: &mut fmt::Formatter<W>) -> fmt::Result {
        for slot in self.0 {
            write!(f, " {}/{}", Entity::Inst(slot.0), slot.1)?;
        }
        Ok(())
    }
}
