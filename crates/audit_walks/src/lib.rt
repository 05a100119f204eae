//! Walks along the links to the next in a table of nodes of any content, cyclic links included.

#![tactic(auto)]

ghost use Rattle.std.specs.Prelude.{◌≡◌, ◌≤◌, ◌↔◌, true, false, IsTrue, length};
ghost use Rattle.std.specs.Iterator.{YieldsFirst, item_count};
ghost use Rattle.chain.specs.Chain.{keys_from, walk};
ghost use Rattle.chain.specs.Table.{read_at, Within};
ghost use Rattle.audit_walks.specs.Marks.{MoreMarked};
ghost use Rattle.audit_walks.specs.Met.{Met, NextsWithin, Unmet};

use chain::{Ends, Key, LinkedNode};

/// The keys that come by following the links to the next: no more than there are nodes, so that it ends where the links go round.
#[derive(Drop)]
pub struct Keys<'t, N: LinkedNode> {
    nodes: &'t [N],
    next: Option<N::Key>,
    left: usize,
}

impl<'t, N: LinkedNode> Keys<'t, N> {
    /// Those from `first` on.
    pub fn new(nodes: &'t [N], first: Option<N::Key>) -> Keys<'t, N>
        ensures { walk (λ k. read_at N.links.next_of result.nodes.now (N.Key.place k)) result.left result.next ≡ keys_from N.Key.place N.links nodes.now first }
    {
        Keys {
            nodes,
            next: first,
            left: nodes.len(),
        }
    }
}

impl<N: LinkedNode> Iterator for Keys<'_, N> {
    type Item = N::Key;

    ghost next_gives = { YieldsFirst (λ (s : _). walk (λ k. read_at N.links.next_of s.nodes.now (N.Key.place k)) s.left s.next) };

    ghost remaining = { item_count (λ (s : _). walk (λ k. read_at N.links.next_of s.nodes.now (N.Key.place k)) s.left s.next) };

    #[tactic(auto, using(crate::proofs::Links::walk_steps))]
    fn next(&mut self) -> Option<N::Key> {
        if self.left == 0 {
            return None;
        }
        let key = self.next?;
        self.left -= 1;
        self.next = next_of(self.nodes, key);
        Some(key)
    }
}

/// Are the nodes between `ends` a chain, of nodes that are not marked yet? Marks each that it meets; where they are no such chain, those that
/// it met before it found that.
#[tactic(auto, using(crate::proofs::Going::walked))]
pub fn walk<N: LinkedNode>(nodes: &[N], ends: Ends<N::Key>, met: &mut [bool]) -> bool
    requires nexts { NextsWithin N.Key.place N.links nodes.now }
    requires first { Within N.Key.place (length nodes.now) ends.first }
    requires room { length nodes.now ≤ length met.old }
    ensures met { result ≡ true → Met N.Key.place N.links nodes.now ends met.old met.new }
    ensures unmet { result ≡ false → Unmet N.Key.place N.links nodes.now ends met.old }
    ensures marks { MoreMarked N.Key.place met.old met.new }
{
    let mut ahead = None;
    let mut at = ends.first;
    while let Some(key) = at {
        let place = key.index();
        if met[place] {
            return false;
        }
        if !is_same(prev_of(nodes, key), ahead) {
            return false;
        }
        met[place] = true;
        ahead = Some(key);
        at = next_of(nodes, key);
    }
    is_same(ahead, ends.last)
}

// Are these the same key, or both none?
fn is_same<K: Key>(a: Option<K>, b: Option<K>) -> bool
    ensures { IsTrue result ↔ (a ≡ b) }
{
    match (a, b) {
        (Some(a), Some(b)) => a.index() == b.index(),
        (None, None) => true,
        _ => false,
    }
}

// The link of `key` to the one ahead of it; none past the table.
#[tactic(auto, using(crate::proofs::Links::reads))]
fn prev_of<N: LinkedNode>(nodes: &[N], key: N::Key) -> Option<N::Key>
    ensures { result ≡ read_at N.links.prev_of nodes.now (N.Key.place key) }
{
    nodes.get(key.index()).and_then(|node| node.prev())
}

// The link of `key` to the one behind it; none past the table.
#[tactic(auto, using(crate::proofs::Links::reads))]
fn next_of<N: LinkedNode>(nodes: &[N], key: N::Key) -> Option<N::Key>
    ensures { result ≡ read_at N.links.next_of nodes.now (N.Key.place key) }
{
    nodes.get(key.index()).and_then(|node| node.next())
}
