//! Positions, calls and answers by plain numbers, since a constant's value may not call `from_u32`; and the layout on which most cases run.

#[cfg(test)]
use calls::{
    Answer, Call, CallFault, CursorCall, CursorEdit, Edit, Goto, Outcome, PositionQuestion, Step,
};
use cursor::any::AnyCursor;
use cursor::func::FuncCursor;
use cursor::word::WordCursor;
use cursor::{Cursor, CursorPosition};
use cursor_faults::CursorFault;
use entities::{Block, Inst};
use faults::{Entity, Layer};
use layout::Layout;

/// A position.
#[derive(Clone, Copy, PartialEq)]
pub enum Place {
    Nowhere,
    At(u32),
    Before(u32),
    After(u32),
}

/// A block or an instruction.
#[derive(Clone, Copy, PartialEq)]
pub enum Thing {
    B(u32),
    I(u32),
}

/// Where a goto goes.
#[derive(Clone, Copy)]
pub enum To {
    Inst(u32),
    AfterInst(u32),
    FirstInst(u32),
    LastInst(u32),
    FirstInsertionPoint(u32),
    Top(u32),
    Bottom(u32),
}

/// A call of a cursor.
#[derive(Clone, Copy)]
pub enum Do {
    Goto(To),
    At(To),
    Step(Step),
    Ask(PositionQuestion),
    InsertInst(u32),
    Remove,
    RemoveAndBack,
    Replace(u32),
    InsertBlock(u32),
    SetPosition(Place),
    AtPosition(Place),
}

/// An edit of the layout.
#[derive(Clone, Copy)]
pub enum Make {
    Clear,
    SetCold(u32),
    AppendBlock(u32),
    InsertBlock(u32, u32),
    InsertBlockAfter(u32, u32),
    RemoveBlock(u32),
    RemoveBlockAndInsts(u32),
    SplitBlock(u32, u32),
    AppendInst(u32, u32),
    InsertInst(u32, u32),
    RemoveInst(u32),
}

/// A call of a run: an edit of the layout, or a call of the cursor with this index.
#[derive(Clone, Copy)]
pub enum Turn {
    Layout(Make),
    Cursor(usize, Do),
}

/// What a call is to answer, or how it is to be refused.
#[derive(Clone, Copy)]
pub enum Told {
    Wrote(u32),
    Took(u32, u32),
    Inst(Option<u32>),
    Block(Option<u32>),
    Position(Option<Place>),
    Done,
    /// The cursor refuses, with this number and this at fault.
    ByCursor(u32, Option<Thing>),
    /// The cursor hands on a refusal of the layout, with this number and this at fault.
    Carried(u32, Thing),
    /// The layout refuses an edit of it.
    ByLayout(u32, Thing),
}

/// A block of a walk, or an instruction with its number.
#[derive(Clone, Copy, PartialEq)]
pub enum Stop {
    B(u32),
    I(u32, u32),
}

impl From<Place> for CursorPosition {
    fn from(place: Place) -> CursorPosition {
        match place {
            Place::Nowhere => CursorPosition::Nowhere,
            Place::At(i) => CursorPosition::At(Inst::from_u32(i)),
            Place::Before(b) => CursorPosition::Before(Block::from_u32(b)),
            Place::After(b) => CursorPosition::After(Block::from_u32(b)),
        }
    }
}

impl From<Thing> for Entity {
    fn from(thing: Thing) -> Entity {
        match thing {
            Thing::B(b) => Entity::Block(Block::from_u32(b)),
            Thing::I(i) => Entity::Inst(Inst::from_u32(i)),
        }
    }
}

impl From<To> for Goto {
    fn from(to: To) -> Goto {
        match to {
            To::Inst(i) => Goto::Inst(Inst::from_u32(i)),
            To::AfterInst(i) => Goto::AfterInst(Inst::from_u32(i)),
            To::FirstInst(b) => Goto::FirstInst(Block::from_u32(b)),
            To::LastInst(b) => Goto::LastInst(Block::from_u32(b)),
            To::FirstInsertionPoint(b) => Goto::FirstInsertionPoint(Block::from_u32(b)),
            To::Top(b) => Goto::Top(Block::from_u32(b)),
            To::Bottom(b) => Goto::Bottom(Block::from_u32(b)),
        }
    }
}

impl From<Do> for CursorCall {
    fn from(call: Do) -> CursorCall {
        match call {
            Do::Goto(to) => CursorCall::Goto(to.into()),
            Do::At(to) => CursorCall::At(to.into()),
            Do::Step(step) => CursorCall::Step(step),
            Do::Ask(question) => CursorCall::Position(question),
            Do::InsertInst(i) => CursorCall::Edit(CursorEdit::InsertInst(Inst::from_u32(i))),
            Do::Remove => CursorCall::Edit(CursorEdit::RemoveInst),
            Do::RemoveAndBack => CursorCall::Edit(CursorEdit::RemoveInstAndStepBack),
            Do::Replace(i) => CursorCall::Edit(CursorEdit::ReplaceInst(Inst::from_u32(i))),
            Do::InsertBlock(b) => CursorCall::Edit(CursorEdit::InsertBlock(Block::from_u32(b))),
            Do::SetPosition(place) => CursorCall::SetPosition(place.into()),
            Do::AtPosition(place) => CursorCall::AtPosition(place.into()),
        }
    }
}

impl From<Make> for Edit {
    fn from(edit: Make) -> Edit {
        match edit {
            Make::Clear => Edit::Clear,
            Make::SetCold(b) => Edit::SetCold(Block::from_u32(b)),
            Make::AppendBlock(b) => Edit::AppendBlock(Block::from_u32(b)),
            Make::InsertBlock(b, c) => Edit::InsertBlock(Block::from_u32(b), Block::from_u32(c)),
            Make::InsertBlockAfter(b, c) => {
                Edit::InsertBlockAfter(Block::from_u32(b), Block::from_u32(c))
            }
            Make::RemoveBlock(b) => Edit::RemoveBlock(Block::from_u32(b)),
            Make::RemoveBlockAndInsts(b) => Edit::RemoveBlockAndInsts(Block::from_u32(b)),
            Make::SplitBlock(b, i) => Edit::SplitBlock(Block::from_u32(b), Inst::from_u32(i)),
            Make::AppendInst(i, b) => Edit::AppendInst(Inst::from_u32(i), Block::from_u32(b)),
            Make::InsertInst(i, j) => Edit::InsertInst(Inst::from_u32(i), Inst::from_u32(j)),
            Make::RemoveInst(i) => Edit::RemoveInst(Inst::from_u32(i)),
        }
    }
}

impl From<Turn> for Call {
    fn from(turn: Turn) -> Call {
        match turn {
            Turn::Layout(edit) => Call::Layout(edit.into()),
            Turn::Cursor(k, call) => Call::Cursor(k, call.into()),
        }
    }
}

impl Told {
    /// Is this what came back?
    pub fn is(self, outcome: Outcome) -> bool {
        match outcome {
            Ok(answer) => self.is_answer(answer),
            Err(fault) => self.is_refusal(fault),
        }
    }

    fn is_answer(self, answer: Answer) -> bool {
        match self {
            Told::Wrote(n) => answer == Answer::Wrote(n),
            Told::Took(i, n) => answer == Answer::Took(Inst::from_u32(i), n),
            Told::Inst(i) => answer == Answer::Inst(i.map(Inst::from_u32)),
            Told::Block(b) => answer == Answer::Block(b.map(Block::from_u32)),
            Told::Position(place) => answer == Answer::Position(place.map(CursorPosition::from)),
            Told::Done => answer == Answer::Done,
            Told::ByCursor(..) | Told::Carried(..) | Told::ByLayout(..) => false,
        }
    }

    fn is_refusal(self, fault: CallFault) -> bool {
        match (self, fault) {
            (Told::ByCursor(n, thing), CallFault::Cursor(own)) => {
                tells(fault, n, Layer::Cursor, thing) && own.layout_fault().is_none()
            }
            (Told::Carried(n, thing), CallFault::Cursor(own)) => {
                tells(fault, n, Layer::Layout, Some(thing)) && carries(own, n, thing)
            }
            (Told::ByLayout(n, thing), CallFault::Layout(_)) => {
                tells(fault, n, Layer::Layout, Some(thing))
            }
            _ => false,
        }
    }
}

fn tells(fault: CallFault, number: u32, layer: Layer, thing: Option<Thing>) -> bool {
    fault.number() == number && fault.layer() == layer && fault.entity() == thing.map(Entity::from)
}

// Is there a refusal of the layout inside, whole?
fn carries(fault: CursorFault, number: u32, thing: Thing) -> bool {
    match fault.layout_fault() {
        Some(inside) => inside.number() == number
            && inside.layer() == Layer::Layout
            && inside.entity() == thing.into(),
        None => false,
    }
}

const BUILDING: &[Make] = &[
    Make::AppendBlock(2),
    Make::AppendBlock(0),
    Make::AppendBlock(4),
    Make::AppendBlock(9),
    Make::AppendInst(0, 2),
    Make::AppendInst(1, 2),
    Make::AppendInst(7, 2),
    Make::AppendInst(3, 2),
    Make::AppendInst(5, 9),
    Make::RemoveInst(3),
    Make::RemoveBlock(4),
];

/// The layout on which most cases run. block4 and inst3 were inserted once, and taken out.
pub fn built() -> Layout {
    edited(Layout::new(), BUILDING)
}

/// The walk of that layout.
pub const BUILT_WALK: &[Stop] = &[
    Stop::B(2),
    Stop::I(0, 10),
    Stop::I(1, 20),
    Stop::I(7, 30),
    Stop::B(0),
    Stop::B(9),
    Stop::I(5, 10),
];

/// Every kind of position on it: Nowhere; at the first, the middle and the last instruction of a block, and at a lone one; beside a block
/// with instructions, one without, and the last. Then those on what was taken out, and on what is out of range.
pub const EVERYWHERE: &[Place] = &[
    Place::Nowhere,
    Place::At(0),
    Place::At(1),
    Place::At(7),
    Place::At(5),
    Place::Before(2),
    Place::Before(0),
    Place::Before(9),
    Place::After(2),
    Place::After(0),
    Place::After(9),
    Place::At(3),
    Place::At(1024),
    Place::At(4294967295),
    Place::Before(4),
    Place::Before(256),
    Place::Before(4294967295),
    Place::After(4),
    Place::After(256),
    Place::After(4294967295),
];

/// What these edits make of a layout.
pub fn edited(mut layout: Layout, edits: &[Make]) -> Layout {
    for edit in edits {
        let _ = call_kinds::edit_layout(&mut layout, (*edit).into());
    }
    layout
}

/// Are these, in this order, all the blocks and instructions of the walk, each instruction with its number?
pub fn walks(layout: &Layout, stops: &[Stop]) -> bool {
    let mut rest = stops.iter();
    for block in layout.blocks() {
        if rest.next() != Some(&Stop::B(block.as_u32())) {
            return false;
        }
        for inst in layout.block_insts(block) {
            let Some(seq) = layout.inst_seq(inst) else {
                return false;
            };
            if rest.next() != Some(&Stop::I(inst.as_u32(), seq)) {
                return false;
            }
        }
    }
    rest.next().is_none()
}

/// A cursor of each kind.
pub fn both_kinds() -> [AnyCursor; 2] {
    [
        AnyCursor::Func(FuncCursor::new()),
        AnyCursor::Word(WordCursor::new()),
    ]
}

/// Does the call, by this cursor from this position, answer this and leave the cursor there?
pub fn leads(
    layout: &mut Layout,
    mut cursor: AnyCursor,
    from: Place,
    call: Do,
    told: Told,
    then: Place,
) -> bool {
    cursor.set_position(from.into());
    let mut cursors = [cursor];
    match replay::apply(layout, &mut cursors, Call::Cursor(0, call.into())) {
        Some(outcome) => told.is(outcome) && cursors[0].position() == then.into(),
        None => false,
    }
}

/// Does it with a cursor of either kind?
pub fn both_lead(layout: &mut Layout, from: Place, call: Do, told: Told, then: Place) -> bool {
    for cursor in both_kinds() {
        if !leads(layout, cursor, from, call, told, then) {
            return false;
        }
    }
    true
}
