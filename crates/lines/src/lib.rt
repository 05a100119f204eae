//! What a line says, by itself: a cursor goes by its name.

#![tactic(auto)]

ghost use Rattle.std.specs.Prelude.{◌≡◌, ◌↔◌, ◌∷◌, Some};
ghost use Rattle.std.specs.Option.{option_map};
ghost use Rattle.words.specs.Words.{texts, unwords};
ghost use Rattle.lines.specs.Lines.{Said, said, said_words, Says, IsCall, IsNewCursor, is_name_byte, is_name};

use commands::{CursorCommand, CursorKind, LayoutCommand};
use forms::Args;
use std::fmt;

/// What a line says.
#[derive(Clone, Copy)]
pub enum Line<'a> {
    Layout(LayoutCommand),
    NewCursor(&'a str, CursorKind),
    Cursor(&'a str, CursorCommand),
}

impl<'a> Line<'a> {
    /// The line that has these words.
    pub fn read(words: &[&'a str]) -> Option<Line<'a>>
        ensures { (l : Said) → option_map said result ≡ Some l ↔ Says (texts words.now) l }
    {
        let (word, args) = words.split_first()?;
        begun_by(word, args)
    }
}

// The line with this first word and these behind it.
fn begun_by<'a>(word: &'a str, args: &[&'a str]) -> Option<Line<'a>>
    ensures { (l : Said) → option_map said result ≡ Some l ↔ Says (word.now ∷ texts args.now) l }
{
    if word == "cursor" {
        new_cursor(args)
    } else {
        call(word, Args::read(args)?)
    }
}

// What makes a cursor, by the words behind the first.
fn new_cursor<'a>(words: &[&'a str]) -> Option<Line<'a>>
    ensures { (l : Said) → option_map said result ≡ Some l ↔ IsNewCursor (texts words.now) l }
{
    match *words {
        [name, kind] if is_name(name) => call_names::kind(kind).map(|kind| Line::NewCursor(
            name, kind,
        )),
        _ => None,
    }
}

// The call with this first word and these arguments.
fn call(word: &str, args: Args) -> Option<Line<'_>>
    ensures { (l : Said) → option_map said result ≡ Some l ↔ IsCall word.now args l }
{
    Some(match word.split_once('.') {
        None => Line::Layout(call_names::layout_command(word, args)?),
        Some((name, call)) if is_name(name) => Line::Cursor(
            name,
            call_names::cursor_command(call, args)?,
        ),
        Some(_) => return None,
    })
}

// Can a cursor have this name? It is of letters, digits and underscores.
fn is_name(word: &str) -> bool
    ensures { result ≡ is_name word.now }
{
    let bytes = word.as_bytes();
    !bytes.is_empty() && bytes.iter().all(|byte| is_name_byte(*byte))
}

fn is_name_byte(byte: u8) -> bool
    ensures { result ≡ is_name_byte byte }
{
    byte.is_ascii_alphanumeric() || byte == b'_'
}

impl fmt::Display for Line<'_> {
    ghost output = { λ l. Some (unwords (said_words (said l))) };

    fn fmt<W: fmt::Write>(&self, f: &mut fmt::Formatter<W>) -> fmt::Result {
        match *self {
            Line::Layout(command) => call_names::layout_form(command).fmt(f),
            Line::NewCursor(name, kind) => write!(
                f,
                "cursor {name} {}",
                call_names::kind_name(kind)
            ),
            Line::Cursor(name, command) => write!(f, "{name}.{}", call_names::cursor_form(command)),
        }
    }
}
