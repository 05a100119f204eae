//! Chains: runs of nodes linked both ways, kept in a table and named by key.
//!
//! The operations are written once, for every node that has both links; they know nothing of blocks or instructions.

#![tactic(auto)]

ghost use Rattle.std.specs.Prelude.{◌≡◌, ℕ, ◌<◌, length, Some, None, Option};
ghost use Rattle.std.specs.Fn.{FnOnceReturnsAtMut};
ghost use Rattle.chain.specs.Links.{Links};
ghost use Rattle.chain.specs.Chain.{Inserts, Removes, Cuts};
ghost use Rattle.chain.specs.Table.{alter_at, read_at, Within, inserted_table, inserted_ends, removed_table, removed_ends, cut_table};

/// The number by which a table names its nodes.
pub trait Key: Copy {
    // the place of the node that the key names
    ghost place: { Self → ℕ };

    fn index(self) -> usize
        ensures { result ≡ place self };

    // different keys name different places
    ghost apart: { (a b : Self) → place a ≡ place b → a ≡ b };
}

/// A node with a link to the one ahead of it and a link to the one behind it.
pub trait LinkedNode: Copy {
    /// The sort of number that the links hold.
    type Key: Key;

    // the two links, how they are set, and what setting one spares
    ghost links: { Links Self Self.Key };

    fn prev(self) -> Option<Self::Key>
        ensures { result ≡ links.prev_of self };

    fn next(self) -> Option<Self::Key>
        ensures { result ≡ links.next_of self };

    fn set_prev(&mut self, link: Option<Self::Key>)
        ensures { self.new ≡ links.with_prev self.old link };

    fn set_next(&mut self, link: Option<Self::Key>)
        ensures { self.new ≡ links.with_next self.old link };
}

/// The ends of a chain: its first key and its last, or neither where it is empty.
#[derive(Clone, Copy)]
pub struct Ends<K> {
    pub first: Option<K>,
    pub last: Option<K>,
}

// The operations take the slice and the ends apart, and no struct that holds both: they are to serve any slice of nodes, also one that came
// from elsewhere (docs/DECISIONS.md, "Chains over slices"). So each asks that the links and keys which it touches lie inside the slice.

/// Puts `key` at the end of the chain.
pub fn append<N: LinkedNode>(nodes: &mut [N], ends: Ends<N::Key>, key: N::Key) -> Ends<N::Key>
    requires key { N.Key.place key < length nodes.old }
    requires last { Within N.Key.place (length nodes.old) ends.last }
    ensures table { nodes.new ≡ inserted_table N.Key.place N.links nodes.old ends.last None key }
    ensures ends { result ≡ inserted_ends ends ends.last None key }
    ensures chain { Inserts N.Key.place N.links nodes.old ends key ends.last None nodes.new result }
{
    put_between(nodes, ends, ends.last, None, key)
}

/// Puts `key` directly ahead of `before`.
pub fn insert_before<N: LinkedNode>(
    nodes: &mut [N],
    ends: Ends<N::Key>,
    key: N::Key,
    before: N::Key,
) -> Ends<N::Key>
    requires key { N.Key.place key < length nodes.old }
    requires before { N.Key.place before < length nodes.old }
    requires prev { Within N.Key.place (length nodes.old) (read_at N.links.prev_of nodes.old (N.Key.place before)) }
    ensures table { nodes.new ≡ inserted_table N.Key.place N.links nodes.old (read_at N.links.prev_of nodes.old (N.Key.place before)) (Some before) key }
    ensures ends { result ≡ inserted_ends ends (read_at N.links.prev_of nodes.old (N.Key.place before)) (Some before) key }
    ensures chain { Inserts N.Key.place N.links nodes.old ends key (read_at N.links.prev_of nodes.old (N.Key.place before)) (Some before) nodes.new result }
{
    let prev = node_at(nodes, before).prev();
    put_between(nodes, ends, prev, Some(before), key)
}

/// Puts `key` directly behind `after`.
pub fn insert_after<N: LinkedNode>(
    nodes: &mut [N],
    ends: Ends<N::Key>,
    key: N::Key,
    after: N::Key,
) -> Ends<N::Key>
    requires key { N.Key.place key < length nodes.old }
    requires after { N.Key.place after < length nodes.old }
    requires next { Within N.Key.place (length nodes.old) (read_at N.links.next_of nodes.old (N.Key.place after)) }
    ensures table { nodes.new ≡ inserted_table N.Key.place N.links nodes.old (Some after) (read_at N.links.next_of nodes.old (N.Key.place after)) key }
    ensures ends { result ≡ inserted_ends ends (Some after) (read_at N.links.next_of nodes.old (N.Key.place after)) key }
    ensures chain { Inserts N.Key.place N.links nodes.old ends key (Some after) (read_at N.links.next_of nodes.old (N.Key.place after)) nodes.new result }
{
    let next = node_at(nodes, after).next();
    put_between(nodes, ends, Some(after), next, key)
}

/// Takes `key` out of the chain and leaves its node with neither link.
pub fn remove<N: LinkedNode>(nodes: &mut [N], ends: Ends<N::Key>, key: N::Key) -> Ends<N::Key>
    requires key { N.Key.place key < length nodes.old }
    requires prev { Within N.Key.place (length nodes.old) (read_at N.links.prev_of nodes.old (N.Key.place key)) }
    requires next { Within N.Key.place (length nodes.old) (read_at N.links.next_of nodes.old (N.Key.place key)) }
    ensures table { nodes.new ≡ removed_table N.Key.place N.links nodes.old (read_at N.links.prev_of nodes.old (N.Key.place key)) (read_at N.links.next_of nodes.old (N.Key.place key)) key }
    ensures ends { result ≡ removed_ends ends (read_at N.links.prev_of nodes.old (N.Key.place key)) (read_at N.links.next_of nodes.old (N.Key.place key)) }
    ensures chain { Removes N.Key.place N.links nodes.old ends key (read_at N.links.prev_of nodes.old (N.Key.place key)) (read_at N.links.next_of nodes.old (N.Key.place key)) nodes.new result }
{
    let node = node_at(nodes, key);
    take_between(nodes, ends, node.prev(), node.next(), key)
}

/// Parts the chain directly ahead of `key`, and gives the key that was ahead of it.
pub fn cut<N: LinkedNode>(nodes: &mut [N], key: N::Key) -> Option<N::Key>
    requires key { N.Key.place key < length nodes.old }
    requires prev { Within N.Key.place (length nodes.old) (read_at N.links.prev_of nodes.old (N.Key.place key)) }
    ensures prev { result ≡ read_at N.links.prev_of nodes.old (N.Key.place key) }
    ensures table { nodes.new ≡ cut_table N.Key.place N.links nodes.old (read_at N.links.prev_of nodes.old (N.Key.place key)) key }
    ensures chain { Cuts N.Key.place N.links nodes.old key nodes.new }
{
    let prev = node_at(nodes, key).prev();
    cut_between(nodes, prev, key);
    prev
}

// The law of each operation has a proof by hand. So these three are steps of their own: in a public function such a proof would hide a
// wrong edit. Putting in and taking out share two changes of a node and two tests of other values, and would be no plainer as one.

// Puts `key` between `prev` and `next`, either of which may be absent.
fn put_between<N: LinkedNode>(
    nodes: &mut [N],
    ends: Ends<N::Key>,
    prev: Option<N::Key>,
    next: Option<N::Key>,
    key: N::Key,
) -> Ends<N::Key>
    requires key { N.Key.place key < length nodes.old }
    requires prev { Within N.Key.place (length nodes.old) prev }
    requires next { Within N.Key.place (length nodes.old) next }
    ensures table { nodes.new ≡ inserted_table N.Key.place N.links nodes.old prev next key }
    ensures ends { result ≡ inserted_ends ends prev next key }
    ensures chain { Inserts N.Key.place N.links nodes.old ends key prev next nodes.new result }
{
    let here = Some(key);
    alter(nodes, here, |node| node.set_prev(prev));
    alter(nodes, here, |node| node.set_next(next));
    alter(nodes, prev, |node| node.set_next(here));
    alter(nodes, next, |node| node.set_prev(here));
    Ends {
        first: if prev.is_none() { here } else { ends.first },
        last: if next.is_none() { here } else { ends.last },
    }
}

// Takes `key` out from between `prev` and `next`, either of which may be absent, and leaves it with neither link.
fn take_between<N: LinkedNode>(
    nodes: &mut [N],
    ends: Ends<N::Key>,
    prev: Option<N::Key>,
    next: Option<N::Key>,
    key: N::Key,
) -> Ends<N::Key>
    requires key { N.Key.place key < length nodes.old }
    requires prev { Within N.Key.place (length nodes.old) prev }
    requires next { Within N.Key.place (length nodes.old) next }
    ensures table { nodes.new ≡ removed_table N.Key.place N.links nodes.old prev next key }
    ensures ends { result ≡ removed_ends ends prev next }
    ensures chain { Removes N.Key.place N.links nodes.old ends key prev next nodes.new result }
{
    alter(nodes, Some(key), |node| node.set_prev(None));
    alter(nodes, Some(key), |node| node.set_next(None));
    alter(nodes, prev, |node| node.set_next(next));
    alter(nodes, next, |node| node.set_prev(prev));
    Ends {
        first: if prev.is_none() { next } else { ends.first },
        last: if next.is_none() { prev } else { ends.last },
    }
}

// Parts `prev`, which may be absent, from `key`, which it is directly ahead of.
fn cut_between<N: LinkedNode>(nodes: &mut [N], prev: Option<N::Key>, key: N::Key)
    requires key { N.Key.place key < length nodes.old }
    requires prev { Within N.Key.place (length nodes.old) prev }
    requires ahead { prev ≡ read_at N.links.prev_of nodes.old (N.Key.place key) }
    ensures table { nodes.new ≡ cut_table N.Key.place N.links nodes.old prev key }
    ensures chain { Cuts N.Key.place N.links nodes.old key nodes.new }
{
    alter(nodes, prev, |node| node.set_next(None));
    alter(nodes, Some(key), |node| node.set_prev(None));
}

// Changes the node at `at`, if there is one, and no other.
fn alter<N: LinkedNode, F: FnOnce(&mut N)>(nodes: &mut [N], at: Option<N::Key>, change: F)
    requires at { Within N.Key.place (length nodes.old) at }
    requires change { F.IsAlwaysCallable change }
    ensures { (f : N → N) → ((n n' : N) → FnOnceReturnsAtMut F.FnOnce change n tt n' → n' ≡ f n) → nodes.new ≡ alter_at N.Key.place nodes.old at f }
{
    if let Some(key) = at {
        change(&mut nodes[key.index()]);
    }
}

// The node at `key`.
#[tactic(auto, using(crate::proofs::Writes::read_is))]
fn node_at<N: LinkedNode>(nodes: &[N], key: N::Key) -> N
    requires { N.Key.place key < length nodes.now }
    ensures { (link : N → Option N.Key) → link result ≡ read_at link nodes.now (N.Key.place key) }
{
    nodes[key.index()]
}
