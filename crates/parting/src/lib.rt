//! Where the walks of two layouts first part.

#![tactic(auto)]

ghost use Rattle.entities.specs.Laws.{walk};
ghost use Rattle.layout.specs.Program.{program};
ghost use Rattle.parting.specs.Parts.{Parts};
ghost use Rattle.parting.specs.Points.{points_left};

use entities::progpoint::ProgramPoint;
use layout::Layout;
use walk::Points;

mod walk;

/// Where two walks first part: what stands there in each, and none where a walk has ended.
#[derive(Clone, Copy, PartialEq, Eq)]
pub struct Parting {
    pub first: Option<ProgramPoint>,
    pub second: Option<ProgramPoint>,
}

/// Where the walks of two layouts first part; none where they are the same.
pub fn first_parting(a: &Layout, b: &Layout) -> Option<Parting>
    ensures { Parts result (walk (program a.now).lines) (walk (program b.now).lines) }
{
    part(Points::new(a), Points::new(b))
}

// Where two walks first part, from here on.
fn part(firsts: Points<'_>, mut seconds: Points<'_>) -> Option<Parting>
    ensures { Parts result (points_left firsts.entry) (points_left seconds.entry) }
{
    for first in firsts {
        let second = seconds.next();
        if second != Some(first) {
            return Some(Parting {
                first: Some(first),
                second,
            });
        }
    }
    let second = seconds.next()?;
    Some(Parting {
        first: None,
        second: Some(second),
    })
}
