//! The layout: the order of the blocks, which block an instruction stands in, and the order of the instructions in a block.

#![tactic(auto)]

use listing::Listing;

mod edits;
mod iteration;
mod program_points;
mod questions;

/// A dispatch program's blocks and instructions in order, over tables of fixed size.
#[derive(Drop)]
pub struct Layout {
    // its type says that the tables stand for a list whose numbers rise in every block
    listing: Listing,
}
