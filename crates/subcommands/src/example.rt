//! The built-in example: two controllers of a pair reach one dispatch program by different edits.

ghost use Rattle.std.specs.Prelude.{◌≡◌, IfOk, Some};
ghost use Rattle.layout.specs.Program.{program};
ghost use Rattle.script.specs.Scripts.{content};
ghost use Rattle.subcommands.specs.Contrasts.{Contrasts, PlaysBelow, Shows, ShowsContrast, ShowsScripts, contrast_text, same_text};

use anyhow::Result;
use comparison::{Differences, Ties};
use layout::Layout;
use script::Script;
use session::Session;
use std::alloc::{AllocError, Global};
use std::fmt;
use std::io::Write;
use std::process::ExitCode;

/// The script of the first controller.
pub(crate) const FIRST: &str = "\
append_block block0         # morning peak
append_block block4         # hall calls
append_block block2         # parking
append_block block4         # a slip: it is in already
append_inst inst7 block0    # send car A to the lobby
append_inst inst0 block0    # hold its doors for 8 seconds
append_inst inst8 block4    # light the hall lanterns
append_inst inst9 block4    # car B answers landing 5
append_inst inst3 block4    # car A answers landing 5
append_inst inst12 block4   # car C stays where it is
append_inst inst5 block2    # park car A at landing 0
append_inst inst1 block2    # park car B at landing 8
cursor a func
a.goto_inst inst3
a.insert_inst inst6         # the patch, ahead of it: car D answers landing 5 if it is empty
pp_cmp inst9 inst6
walk
";

/// The script of the second controller.
pub(crate) const SECOND: &str = "\
append_block block4         # hall calls and parking, in one block
append_inst inst8 block4
append_inst inst9 block4
append_inst inst6 block4
append_inst inst3 block4
append_inst inst12 block4
append_inst inst5 block4
append_inst inst1 block4
split_block block2 inst5    # cut: parking gets a block of its own
insert_block block0 block4  # the morning peak, in two blocks
append_inst inst7 block0
insert_block_after block6 block0
append_inst inst0 block6
cursor b word
b.goto_first_inst block6
b.remove_inst               # joined otherwise: what block 6 has goes to block 0
b.goto_bottom block0
b.insert_inst inst0
remove_block block6
pp_cmp inst9 inst6
walk
";

// What stands above what the first script answers.
const FIRST_HEADING: &str =
    "Two controllers of a pair are to hold one dispatch program. The first enters it in order, and a patch is squeezed in:\n";

// What stands above what the second answers.
const SECOND_HEADING: &str =
    "\nThe second enters two blocks as one and cuts it, and joins one from two:\n";

/// Replays the edits of two controllers, prints what they answer, and shows where their numbers differ and how they rank every tie.
pub(crate) fn show<W: Write>(
    alloc: Global,
    first: &str,
    second: &str,
    out: &mut W,
) -> Result<ExitCode>
    ensures { IfOk result (Shows first.now second.now (W.contents out.old) (W.contents out.new)) }
{
    let first = script::parse(alloc, first)?;
    let second = script::parse(alloc, second)?;
    show_scripts(alloc, &first, &second, out)
}

// Replays two scripts, each below its heading, and shows how the layouts compare to which they lead.
fn show_scripts<W: Write>(
    alloc: Global,
    first: &Script<'_>,
    second: &Script<'_>,
    out: &mut W,
) -> Result<ExitCode>
    ensures { IfOk result (ShowsScripts (content first.now) (content second.now) (W.contents out.old) (W.contents out.new)) }
{
    let one = play_below(alloc, FIRST_HEADING, first, out)?;
    let other = play_below(alloc, SECOND_HEADING, second, out)?;
    show_contrast(alloc, &one.layout, &other.layout, out)
}

// Prints a heading, and replays a script below it.
fn play_below<W: Write>(
    alloc: Global,
    heading: &str,
    script: &Script<'_>,
    out: &mut W,
) -> Result<Session>
    ensures { IfOk result (λ s. PlaysBelow heading.now (content script.now) s (W.contents out.old) (W.contents out.new)) }
{
    writeln!(out, "{heading}")?;
    Ok(transcript::play(alloc, script, out)?)
}

// Prints how two layouts compare.
fn show_contrast<W: Write>(
    alloc: Global,
    first: &Layout,
    second: &Layout,
    out: &mut W,
) -> Result<ExitCode>
    ensures { IfOk result (ShowsContrast (program first.now) (program second.now) (W.contents out.old) (W.contents out.new)) }
{
    let contrast = contrasted(alloc, first, second)?;
    writeln!(out, "\n{contrast}")?;
    Ok(ExitCode::SUCCESS)
}

// How two controllers' layouts compare.
#[derive(Drop)]
struct Contrast {
    differences: Differences,
    ties: Ties,
    same: bool,
}

// Compares the numbers of two layouts, their ranks and their walks.
fn contrasted(alloc: Global, first: &Layout, second: &Layout) -> Result<Contrast, AllocError>
    ensures { IfOk result (Contrasts (program first.now) (program second.now)) }
{
    Ok(Contrast {
        differences: comparison::compare_numbers(alloc, first, second)?,
        ties: comparison::rank_all(alloc, first, second)?,
        same: order::same_program(first, second),
    })
}

impl fmt::Display for Contrast {
    ghost output = { λ c. Some (contrast_text c) };

    fn fmt<W: fmt::Write>(&self, f: &mut fmt::Formatter<W>) -> fmt::Result {
        write!(
            f,
            "Their sequence numbers differ:\n\n{}\nTheir order does not. How does each instruction of a block rank against those behind it?\n\n{}\n{}",
            self.differences,
            self.ties,
            conclusion(self.same)
        )
    }
}

// What is said of whether both hold the same program.
fn conclusion(same: bool) -> &'static str
    ensures { result.now ≡ same_text same }
{
    if same {
        "Every tie is ranked alike: both hold the same program."
    } else {
        "They do not hold the same program."
    }
}
