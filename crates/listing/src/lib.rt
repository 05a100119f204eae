//! When two node tables stand for a list of lines, and what follows from it: a type whose values do, definitions and lemmas. There are
//! no functions here: they stand apart, so that an edit of one does not have the lemmas proved again.

#![tactic(auto)]

ghost use Rattle.listing.specs.Lawful.{Sound};

use entities::nodes::Tables;

/// Two node tables that stand for a list of lines, with numbers that rise in each of them. It has no `Model`: a refused call promises the
/// very same tables, and a clause must see them for that.
#[derive(Drop)]
pub struct Listing {
    pub tables: Tables,
    // the tables stand for their list, and its numbers rise
    ghost sound: { Sound tables },
}
