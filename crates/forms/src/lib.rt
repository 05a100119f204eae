//! The words of a call: its name, and up to two arguments.

#![tactic(auto)]

ghost use Rattle.std.specs.Prelude.{◌≡◌, ◌↔◌, Some};
ghost use Rattle.entities.specs.declared.progpoint.ProgramPoint.{ProgramPoint as Point};
ghost use Rattle.words.specs.Words.{texts, unwords};
ghost use Rattle.forms.specs.declared.Arg.{Arg as Argument};
ghost use Rattle.forms.specs.declared.Args.{Args as Arguments};
ghost use Rattle.forms.specs.Args.{arg_text, args_words, FitsArg, FitsArgs, entity_arg, point_arg};
ghost use Rattle.forms.specs.Forms.{form_of, form_words, bare, one, two};

use entities::progpoint::ProgramPoint;
use entities::{Block, Inst};
use faults::Entity;
use std::fmt;

/// A word behind a call's name.
#[derive(Clone, Copy, PartialEq, Eq, Debug)]
pub enum Arg {
    Block(Block),
    Inst(Inst),
    Nowhere,
    At,
    Before,
    After,
}

/// The words behind a call's name.
#[derive(Clone, Copy, PartialEq, Eq, Debug)]
pub enum Args {
    None,
    One(Arg),
    Two(Arg, Arg),
}

/// A call as it is written.
#[derive(Clone, Copy)]
pub struct Form {
    pub name: &'static str,
    pub args: Args,
}

impl Form {
    pub fn bare(name: &'static str) -> Form
        ensures { form_of result ≡ bare name.now }
    {
        Form {
            name,
            args: Args::None,
        }
    }

    pub fn one(name: &'static str, arg: Arg) -> Form
        ensures { form_of result ≡ one name.now arg }
    {
        Form {
            name,
            args: Args::One(arg),
        }
    }

    pub fn two(name: &'static str, first: Arg, second: Arg) -> Form
        ensures { form_of result ≡ two name.now first second }
    {
        Form {
            name,
            args: Args::Two(first, second),
        }
    }
}

impl From<Entity> for Arg {
    ghost from_gives = { λ e r. r ≡ entity_arg e };

    fn from(entity: Entity) -> Arg {
        match entity {
            Entity::Block(block) => Arg::Block(block),
            Entity::Inst(inst) => Arg::Inst(inst),
        }
    }
}

impl From<ProgramPoint> for Arg {
    ghost from_gives = { λ p r. r ≡ point_arg p };

    fn from(point: ProgramPoint) -> Arg {
        match point {
            ProgramPoint::Block(block) => Arg::Block(block),
            ProgramPoint::Inst(inst) => Arg::Inst(inst),
        }
    }
}

impl Arg {
    // The argument that is written so.
    fn read(word: &str) -> Option<Arg>
        ensures { (a : Argument) → result ≡ Some a ↔ (word.now ≡ arg_text a) × FitsArg a }
    {
        match word {
            "nowhere" => Some(Arg::Nowhere),
            "at" => Some(Arg::At),
            "before" => Some(Arg::Before),
            "after" => Some(Arg::After),
            _ => Some(words::entity(word)?.into()),
        }
    }

    /// The point that it names.
    pub fn point(self) -> Option<ProgramPoint>
        ensures { (p : Point) → result ≡ Some p ↔ point_arg p ≡ self }
    {
        match self {
            Arg::Block(block) => Some(ProgramPoint::Block(block)),
            Arg::Inst(inst) => Some(ProgramPoint::Inst(inst)),
            _ => None,
        }
    }
}

impl Args {
    /// The arguments that are written so.
    pub fn read(words: &[&str]) -> Option<Args>
        ensures { (a : Arguments) → result ≡ Some a ↔ (texts words.now ≡ args_words a) × FitsArgs a }
    {
        match *words {
            [] => Some(Args::None),
            [first] => Some(Args::One(Arg::read(first)?)),
            [first, second] => Some(Args::Two(Arg::read(first)?, Arg::read(second)?)),
            _ => None,
        }
    }
}

impl fmt::Display for Arg {
    ghost output = { λ a. Some (arg_text a) };

    fn fmt<W: fmt::Write>(&self, f: &mut fmt::Formatter<W>) -> fmt::Result {
        match self {
            Arg::Block(block) => Entity::Block(*block).fmt(f),
            Arg::Inst(inst) => Entity::Inst(*inst).fmt(f),
            Arg::Nowhere => f.write_str("nowhere"),
            Arg::At => f.write_str("at"),
            Arg::Before => f.write_str("before"),
            Arg::After => f.write_str("after"),
        }
    }
}

impl fmt::Display for Args {
    ghost output = { λ a. Some (unwords (args_words a)) };

    fn fmt<W: fmt::Write>(&self, f: &mut fmt::Formatter<W>) -> fmt::Result {
        match self {
            Args::None => Ok(()),
            Args::One(arg) => arg.fmt(f),
            Args::Two(first, second) => write!(f, "{first} {second}"),
        }
    }
}

impl fmt::Display for Form {
    ghost output = { λ f. Some (unwords (form_words (form_of f))) };

    fn fmt<W: fmt::Write>(&self, f: &mut fmt::Formatter<W>) -> fmt::Result {
        let name = self.name;
        match self.args {
            Args::None => f.write_str(name),
            Args::One(arg) => write!(f, "{name} {arg}"),
            Args::Two(first, second) => write!(f, "{name} {first} {second}"),
        }
    }
}
