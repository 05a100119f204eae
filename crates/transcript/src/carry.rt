//! The commands of a script carried out on a session, with what each of them prints.

ghost use Rattle.std.specs.Prelude.{◌≡◌, false, length, nat_lt, is_ok, IfOk, IfErr, OnOk};
ghost use Rattle.std.specs.Io.KnownBytes.{Appends};
ghost use Rattle.std.specs.IoError.{error_kind};
ghost use Rattle.std.specs.declared.io.ErrorKind.TheVariants.{InvalidInput};
ghost use Rattle.commands.specs.declared.LayoutCommand.TheVariants as layout_command;
ghost use Rattle.commands.specs.declared.CursorCommand.TheVariants as cursor_command;
ghost use Rattle.replay.specs.Histories.{fits};
ghost use Rattle.script.specs.declared.Command.TheVariants as the_command;
ghost use Rattle.session.specs.Sessions.{Unchanged};
ghost use Rattle.transcript.specs.Carried.{CarryTold, Makes, NothingDone, Plays, entry_row, is_there};

use crate::rows::{walk, walk_back};
use calls::{Call, CursorCall, Edit, Outcome};
use commands::{CursorCommand, CursorKind, CursorQuestion, LayoutCommand, Question};
use cursor::CursorPosition;
use printed::{Entry, Reply};
use script::{Command, Names, Script};
use session::Session;
use std::alloc::Global;
use std::io;
use std::io::Write;

/// Carries out a command of a script, and prints what it answers. It is an error to name a cursor that was not made: then nothing is done.
pub fn carry_out<W: Write>(
    alloc: Global,
    session: &mut Session,
    names: &Names<'_>,
    command: Command,
    out: &mut W,
) -> io::Result<()>
    ensures told { CarryTold result names.now command session.old session.new (W.contents out.old) (W.contents out.new) }
    ensures not_there { is_there (length session.old.cursors.items) command ≡ false → NothingDone result session.old session.new (W.contents out.old) (W.contents out.new) }
{
    match command {
        Command::Layout(command) => tell_layout(alloc, session, names, command, out),
        Command::NewCursor(index, kind) => add_cursor(session, names, index, kind, out),
        Command::Cursor(index, command) => tell_cursor(session, names, index, command, out),
    }
}

// Carries out what the layout is told.
fn tell_layout<W: Write>(
    alloc: Global,
    session: &mut Session,
    names: &Names<'_>,
    command: LayoutCommand,
    out: &mut W,
) -> io::Result<()>
    ensures { CarryTold result names.now (the_command.Layout command) session.old session.new (W.contents out.old) (W.contents out.new) }
{
    match command {
        LayoutCommand::Edit(edit) => edit_layout(session, names, edit, out),
        LayoutCommand::Ask(question) => ask_layout(session, names, question, out),
        LayoutCommand::Walk => walk(alloc, &session.layout, out),
        LayoutCommand::WalkBack => walk_back(alloc, &session.layout, out),
    }
}

// Makes an edit of the layout.
fn edit_layout<W: Write>(
    session: &mut Session,
    names: &Names<'_>,
    edit: Edit,
    out: &mut W,
) -> io::Result<()>
    ensures { CarryTold result names.now (the_command.Layout (layout_command.Edit edit)) session.old session.new (W.contents out.old) (W.contents out.new) }
{
    let reply = Reply::Outcome(call(session, Call::Layout(edit))?);
    let command = Command::Layout(LayoutCommand::Edit(edit));
    write_entry(names, command, reply, None, out)
}

// Asks a question of the layout.
fn ask_layout<W: Write>(
    session: &Session,
    names: &Names<'_>,
    question: Question,
    out: &mut W,
) -> io::Result<()>
    ensures { CarryTold result names.now (the_command.Layout (layout_command.Ask question)) session.now session.now (W.contents out.old) (W.contents out.new) }
{
    let reply = session.ask(question);
    let command = Command::Layout(LayoutCommand::Ask(question));
    write_entry(names, command, reply, None, out)
}

// Makes one more cursor.
fn add_cursor<W: Write>(
    session: &mut Session,
    names: &Names<'_>,
    index: usize,
    kind: CursorKind,
    out: &mut W,
) -> io::Result<()>
    ensures { CarryTold result names.now (the_command.NewCursor index kind) session.old session.new (W.contents out.old) (W.contents out.new) }
{
    session.add_cursor(kind)?;
    let reply = Reply::Position(CursorPosition::Nowhere);
    write_entry(names, Command::NewCursor(index, kind), reply, None, out)
}

// Carries out what a cursor is told.
fn tell_cursor<W: Write>(
    session: &mut Session,
    names: &Names<'_>,
    index: usize,
    command: CursorCommand,
    out: &mut W,
) -> io::Result<()>
    ensures told { CarryTold result names.now (the_command.Cursor index command) session.old session.new (W.contents out.old) (W.contents out.new) }
    ensures not_there { nat_lt index (length session.old.cursors.items) ≡ false → NothingDone result session.old session.new (W.contents out.old) (W.contents out.new) }
{
    match command {
        CursorCommand::Call(call) => call_cursor(session, names, index, call, out),
        CursorCommand::Ask(question) => ask_cursor(session, names, index, question, out),
    }
}

// Makes a call of a cursor.
fn call_cursor<W: Write>(
    session: &mut Session,
    names: &Names<'_>,
    index: usize,
    made: CursorCall,
    out: &mut W,
) -> io::Result<()>
    ensures told { CarryTold result names.now (the_command.Cursor index (cursor_command.Call made)) session.old session.new (W.contents out.old) (W.contents out.new) }
    ensures not_there { nat_lt index (length session.old.cursors.items) ≡ false → NothingDone result session.old session.new (W.contents out.old) (W.contents out.new) }
{
    let reply = Reply::Outcome(call(session, Call::Cursor(index, made))?);
    let position = session.position(index);
    let command = Command::Cursor(index, CursorCommand::Call(made));
    write_entry(names, command, reply, position, out)
}

// Asks a question of a cursor.
fn ask_cursor<W: Write>(
    session: &Session,
    names: &Names<'_>,
    index: usize,
    question: CursorQuestion,
    out: &mut W,
) -> io::Result<()>
    ensures told { CarryTold result names.now (the_command.Cursor index (cursor_command.Ask question)) session.now session.now (W.contents out.old) (W.contents out.new) }
    ensures not_there { nat_lt index (length session.now.cursors.items) ≡ false → NothingDone result session.now session.now (W.contents out.old) (W.contents out.new) }
{
    let reply = session.ask_cursor(index, question).ok_or(no_cursor())?;
    let position = session.position(index);
    let command = Command::Cursor(index, CursorCommand::Ask(question));
    write_entry(names, command, reply, position, out)
}

// Makes a call; an error where its cursor was not made, and then nothing is done.
fn call(session: &mut Session, call: Call) -> io::Result<Outcome>
    ensures made { is_ok result ≡ fits (length session.old.cursors.items) call }
    ensures ok { IfOk result (λ o. Makes call o session.old session.new) }
    ensures err { IfErr result (λ e. Unchanged session.old session.new × (error_kind e ≡ InvalidInput)) }
{
    session.call(call).ok_or(no_cursor())
}

// The error where a cursor was not made.
fn no_cursor() -> io::Error
    ensures { error_kind result ≡ InvalidInput }
{
    io::Error::from(io::ErrorKind::InvalidInput)
}

// Prints the line of a command with its reply, and where the cursor that it calls then is.
fn write_entry<W: Write>(
    names: &Names<'_>,
    command: Command,
    reply: Reply,
    position: Option<CursorPosition>,
    out: &mut W,
) -> io::Result<()>
    ensures { OnOk result (Appends (W.contents out.old) (W.contents out.new) (entry_row names.now command reply position)) }
{
    let line = names.line(command);
    writeln!(
        out,
        "{}",
        Entry {
            line,
            reply,
            position
        }
    )
}

/// Replays a script on an empty layout, prints what each line answers, and gives what it led to.
pub fn play<W: Write>(alloc: Global, script: &Script<'_>, out: &mut W) -> io::Result<Session>
    ensures { IfOk result (λ t. Plays script.now.names script.now.commands.items t (W.contents out.old) (W.contents out.new)) }
{
    play_commands(alloc, &script.names, &script.commands, out)
}

// Carries out commands in turn on an empty layout.
#[tactic(auto, using(crate::proofs::InTurn::none_carried, crate::proofs::InTurn::next_carried))]
fn play_commands<W: Write>(
    alloc: Global,
    names: &Names<'_>,
    commands: &[Command],
    out: &mut W,
) -> io::Result<Session>
    ensures { IfOk result (λ t. Plays names.now commands.now t (W.contents out.old) (W.contents out.new)) }
{
    let mut session = Session::new(alloc);
    for command in commands {
        carry_out(alloc, &mut session, names, *command, out)?;
    }
    Ok(session)
}
