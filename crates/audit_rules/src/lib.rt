//! The five rules of lawful tables, each asked of tables of any content that fit the capacity and keep the rules ahead of it.

#![tactic(auto)]

use chain::Ends;
use entities::Block;
use entities::nodes::{BlockNode, InstNode};

mod chains;
mod inside;
mod rising;
mod unmet;

/// Two node tables and the ends of the chain of blocks, as another controller sent them.
#[derive(Clone, Copy)]
pub struct Received<'t> {
    pub blocks: &'t [BlockNode],
    pub insts: &'t [InstNode],
    pub ends: Ends<Block>,
}
