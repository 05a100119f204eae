//! The program that a script's commands reach.

ghost use Rattle.std.specs.Prelude.{◌≡◌, IfOk};
ghost use Rattle.comparison.specs.Reached.{Reaches, call_of, calls_of, kind_of, kinds_of, IsFresh, Runs};

use calls::{Answer, Call};
use commands::{CursorCommand, CursorKind, LayoutCommand};
use layout::Layout;
use script::Command;
use session::Session;
use std::alloc::{AllocError, Global};

/// A layout that holds the program that the commands reach: all their calls are made in one run, with all cursors there from its start. None
/// where a cursor is called that no command makes.
#[tactic(auto, using(crate::proofs::Made::run_reaches))]
pub fn reached(alloc: Global, commands: &[Command]) -> Result<Option<Layout>, AllocError>
    ensures { IfOk result (Reaches commands.now) }
{
    let calls = calls(alloc, commands)?;
    run(alloc, fresh(alloc, commands)?, &calls)
}

// The calls of the commands.
fn calls(alloc: Global, commands: &[Command]) -> Result<Vec<Call>, AllocError>
    ensures { IfOk result (λ v. v.items ≡ calls_of commands.now) }
{
    let mut calls = Vec::new(alloc);
    for command in commands {
        if let Some(call) = call(*command) {
            calls.push(call)?;
        }
    }
    Ok(calls)
}

// The call that a command makes: questions and walks make none.
fn call(command: Command) -> Option<Call>
    ensures { result ≡ call_of command }
{
    match command {
        Command::Layout(LayoutCommand::Edit(edit)) => Some(Call::Layout(edit)),
        Command::Cursor(index, CursorCommand::Call(call)) => Some(Call::Cursor(index, call)),
        _ => None,
    }
}

// An empty layout, with all the cursors that the commands make.
fn fresh(alloc: Global, commands: &[Command]) -> Result<Session, AllocError>
    ensures { IfOk result (IsFresh (kinds_of commands.now)) }
{
    let mut session = Session::new(alloc);
    for command in commands {
        if let Some(kind) = kind(*command) {
            session.add_cursor(kind)?;
        }
    }
    Ok(session)
}

// The kind of the cursor that a command makes.
fn kind(command: Command) -> Option<CursorKind>
    ensures { result ≡ kind_of command }
{
    match command {
        Command::NewCursor(_, kind) => Some(kind),
        _ => None,
    }
}

// The layout behind the calls, made in one run on the session.
fn run(alloc: Global, mut session: Session, calls: &[Call]) -> Result<Option<Layout>, AllocError>
    ensures { IfOk result (Runs session calls.now) }
{
    let mut answers = vec![in alloc; Ok(Answer::Done); calls.len()]?;
    let made = session.replay(calls, &mut answers);
    Ok(made.then_some(session.layout))
}
