//! The names of cursors.

ghost use Rattle.std.specs.Prelude.{◌≡◌, List, [], ◌∷◌, ◌++◌, slice_index_or, OnOk, OnErr, None};
ghost use Rattle.lines.specs.Lines.{said};
ghost use Rattle.script.specs.Names.{place_of, command_of, line_of};

use crate::Command;
use crate::texts::What;
use lines::Line;
use std::alloc::{AllocError, Global};
use std::collections::HashMap;
use std::marker::Model;

/// The names of a script's cursors, in order of making.
#[derive(Drop)]
pub struct Names<'a> {
    order: Vec<&'a str>,
    // where in that order a name stands, so that each line is read in the same time
    places: HashMap<&'a str, usize>,
}

impl<'a> Model for Names<'a> {
    ghost use Rattle.std.specs.Prelude.{ℕ, List};
    ghost use Rattle.words.specs.Words.{texts};
    ghost use Rattle.script.specs.Names.{Indexes};

    ghost Value = { List (List ℕ) };

    ghost view = { λ n. texts n.order.items };

    ghost invariant = { λ n. Indexes n.places n.order.items };
}

impl<'a> Names<'a> {
    // No names.
    pub(crate) fn new(alloc: Global) -> Names<'a>
        ensures { result ≡ [] }
    {
        Names {
            order: Vec::new(alloc),
            places: HashMap::new(alloc),
        }
    }

    // Adds a name that is not there.
    pub(crate) fn push(&mut self, name: &'a str) -> Result<(), AllocError>
        requires { place_of name.now self.old ≡ None }
        ensures ok { OnOk result (self.new ≡ self.old ++ (name.now ∷ [])) }
        ensures err { OnErr result (self.new ≡ self.old) }
    {
        let index = self.order.len();
        self.order.reserve(1)?;
        self.places.insert(name, index)?;
        self.order.push_reserved(name);
        Ok(())
    }

    // The index of the cursor with this name.
    fn find(&self, name: &str) -> Option<usize>
        ensures { result ≡ place_of name.now self.now }
    {
        self.places.get(name).copied()
    }

    // The name of the cursor with this index; none is empty.
    fn name(&self, index: usize) -> &'a str
        ensures { result.now ≡ slice_index_or self.now index [] }
    {
        self.order.get(index).copied().unwrap_or("")
    }

    // The command that a line gives behind those that made these cursors.
    pub(crate) fn command(&self, line: Line<'_>) -> Result<Command, What>
        ensures { result ≡ command_of self.now (said line.entry) }
    {
        match line {
            Line::Layout(command) => Ok(Command::Layout(command)),
            Line::NewCursor(name, kind) => match self.find(name) {
                None => Ok(Command::NewCursor(self.order.len(), kind)),
                Some(_) => Err(What::NameTaken),
            },
            Line::Cursor(name, command) => match self.find(name) {
                Some(index) => Ok(Command::Cursor(index, command)),
                None => Err(What::UnknownCursor),
            },
        }
    }

    /// The line of a command.
    pub fn line(&self, command: Command) -> Line<'a>
        ensures { said result ≡ line_of self.now command }
    {
        match command {
            Command::Layout(command) => Line::Layout(command),
            Command::NewCursor(index, kind) => Line::NewCursor(self.name(index), kind),
            Command::Cursor(index, command) => Line::Cursor(self.name(index), command),
        }
    }
}
