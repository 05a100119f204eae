//! The sequence number of an instruction that was just put into a block.
//!
//! Numbers are assigned like line numbers in BASIC, 10, 20, 30 and so on, and rise strictly within a block.

#![tactic(auto)]

ghost use Rattle.std.specs.Prelude.{◌≡◌, ◌+◌, ◌*◌, ◌^◌, ◌<◌, ◌≤◌, length, nat_lt};
ghost use Rattle.chain.specs.Table.{read_at, Within};
ghost use Rattle.entities.specs.Nodes.{inst_place, inst_links};
ghost use Rattle.entities.specs.Numbering.{midpoint, seq_ceiling};
ghost use Rattle.listing.specs.Numbers.{SomePlaced, SomeRun};
ghost use Rattle.numbering.specs.Assigned.{AllAnew, AloneBetween, AloneLast, AnewAbove, AnewFrom, AssignedAt, number_if, seq_ahead_of, seq_behind_of, with_number};
ghost use Rattle.numbering.specs.Local.{BehindAnew, Crowded, LocallyAnew, SomeFollowed, ended};

use chain::Key;
use entities::Inst;
use entities::nodes::{InstNode, SequenceNumber};

/// Initial stride of new sequence numbers.
const MAJOR_STRIDE: SequenceNumber = 10;

/// Secondary stride, of local renumbering.
const MINOR_STRIDE: SequenceNumber = 2;

/// How far above the number ahead a local renumbering goes on; past that, the whole block is renumbered.
const LOCAL_LIMIT: SequenceNumber = 200;

/// The highest number behind which a local renumbering still fits 32 bits; above it a block is numbered anew.
const SEQ_CEILING: SequenceNumber = SequenceNumber::MAX - LOCAL_LIMIT - MINOR_STRIDE;

/// A local renumbering passed its limit, when it had stored this many numbers.
#[derive(Clone, Copy)]
pub struct PastLimit(pub u32);

/// Numbers `inst`, which was just put into the block whose first instruction is `first`: half way between its neighbours, or one
/// stride behind the one ahead of it, if it is the last. Where its neighbours leave no number, it renumbers those behind it too. Where
/// that goes too far, or above the ceiling, it renumbers the whole block. Returns how many numbers were stored.
// Inlined: a caller has just written the links that are read here. Where more than one number is
// stored, which is seldom, stands apart.
#[inline(always)]
pub fn assign_inst_seq(insts: &mut [InstNode], first: Option<Inst>, inst: Inst) -> u32
    requires { SomePlaced insts.old first inst }
    ensures { AssignedAt insts.old insts.new first inst result }
{
    let prev_seq = seq_ahead(insts, inst);
    let next_seq = seq_behind(insts, inst);
    if let Some(seq) = next_seq.and_then(|next_seq| midpoint(prev_seq, next_seq)) {
        set_seq(insts, inst, seq);
        return 1;
    }
    // Above the ceiling there may be no room for either of the other two ways.
    if prev_seq > SEQ_CEILING {
        return renumber_whole(insts, first);
    }
    match next_seq {
        None => {
            set_seq(insts, inst, prev_seq + MAJOR_STRIDE);
            1
        }
        Some(_) => renumber_crowded(insts, first, inst, prev_seq),
    }
}

/// The number half way between `a` and `b`, rounded down, if that is above `a`.
pub fn midpoint(a: SequenceNumber, b: SequenceNumber) -> Option<SequenceNumber>
    requires { a < b }
    ensures { result ≡ midpoint a b }
{
    let m = a + (b - a) / 2;
    (m > a).then_some(m)
}

/// Numbers `inst` with `seq`, and those behind it with two more each, until it has caught up with the numbers that are there. Returns
/// how many numbers were stored, also in an `Err`, where it has passed `limit` before that.
pub fn renumber_insts(
    insts: &mut [InstNode],
    inst: Inst,
    seq: SequenceNumber,
    limit: SequenceNumber,
) -> Result<u32, PastLimit>
    requires followed { SomeFollowed insts.old inst }
    requires room { limit + 2 < 2 ^ 32 }
    ensures { LocallyAnew insts.old insts.new inst seq limit result }
{
    set_seq(insts, inst, seq);
    renumber_behind(insts, inst, seq, limit)
}

/// Numbers all instructions of the block that begins with `first` anew: 10, 20, 30 and so on. Returns how many those are.
pub fn full_block_renumber(insts: &mut [InstNode], first: Option<Inst>) -> u32
    requires { SomeRun insts.old first }
    ensures { AllAnew insts.old insts.new first result }
{
    renumber_from(insts, first, MAJOR_STRIDE)
}

// `full_block_renumber` for a caller that has put an instruction in: where the number ahead of it is above the ceiling, and there is no
// midpoint, this is how the block is to be numbered. A step of its own, since the caller's proof did not close without one.
#[inline(never)]
fn renumber_whole(insts: &mut [InstNode], first: Option<Inst>) -> u32
    requires { SomeRun insts.old first }
    ensures { AnewAbove insts.old insts.new first result }
{
    full_block_renumber(insts, first)
}

// Numbers `inst` where the numbers of its neighbours leave none: local renumbering, and if that passes its limit, the whole block.
// Returns how many numbers were stored by both. A step of its own, since its proof is by hand.
#[inline(never)]
fn renumber_crowded(
    insts: &mut [InstNode],
    first: Option<Inst>,
    inst: Inst,
    prev_seq: SequenceNumber,
) -> u32
    requires placed { SomePlaced insts.old first inst }
    requires room { prev_seq ≤ seq_ceiling }
    ensures { Crowded insts.old insts.new first inst prev_seq result }
{
    match renumber_insts(insts, inst, prev_seq + MINOR_STRIDE, prev_seq + LOCAL_LIMIT) {
        Ok(count) => count,
        Err(PastLimit(count)) => count + full_block_renumber(insts, first),
    }
}

// Goes on with a local renumbering that has given `inst` the number `seq`. A step of its own: the loop's proof begins by hand, which in the
// public function would hide a wrong edit of it. No iterator goes along the links here and in `renumber_from`: it would borrow the nodes
// that the loop writes.
fn renumber_behind(
    insts: &mut [InstNode],
    inst: Inst,
    mut seq: SequenceNumber,
    limit: SequenceNumber,
) -> Result<u32, PastLimit>
    requires followed { SomeFollowed insts.old inst }
    requires room { limit + 2 < 2 ^ 32 }
    ensures { BehindAnew insts.old insts.new inst seq limit result }
{
    let mut count = 1;
    let mut next_inst = insts[inst.index()].next;
    while let Some(next) = next_inst {
        if has_caught_up(seq, insts[next.index()].seq, limit, count)? {
            return Ok(count);
        }
        seq += MINOR_STRIDE;
        set_seq(insts, next, seq);
        count += 1;
        next_inst = insts[next.index()].next;
    }
    Ok(count)
}

// Whether a local renumbering that gave the number `seq` last, `count` numbers stored so far, has caught up with the number that is there
// next. If not, it goes on, unless it has passed its limit. A step of its own, so that a wrong test is refused where it stands: the loop's
// own answers are by hand.
fn has_caught_up(
    seq: SequenceNumber,
    next_seq: SequenceNumber,
    limit: SequenceNumber,
    count: u32,
) -> Result<bool, PastLimit>
    ensures { result ≡ ended (nat_lt seq next_seq) (nat_lt limit seq) count }
{
    if seq < next_seq {
        return Ok(true);
    }
    if seq > limit {
        return Err(PastLimit(count));
    }
    Ok(false)
}

// Numbers the instructions from `first` to the end of its block: `seq`, a stride more, and so on. Returns how many those are. A step of its
// own, since its loop's proof is by hand.
fn renumber_from(insts: &mut [InstNode], first: Option<Inst>, mut seq: SequenceNumber) -> u32
    requires run { SomeRun insts.old first }
    requires room { seq + 10 * 1024 < 2 ^ 32 }
    ensures { AnewFrom insts.old insts.new first seq result }
{
    let mut count = 0;
    let mut next_inst = first;
    while let Some(inst) = next_inst {
        set_seq(insts, inst, seq);
        seq += MAJOR_STRIDE;
        count += 1;
        next_inst = insts[inst.index()].next;
    }
    count
}

// The reads and writes below work on the slice itself, as the operations of chains do, and ask that what they are given lies inside.

// The number of the instruction ahead of `inst`, or 0, the number of the block itself.
#[tactic(auto, using(crate::proofs::Renumbering::reads_prev, crate::proofs::Renumbering::reads_seq))]
fn seq_ahead(insts: &[InstNode], inst: Inst) -> SequenceNumber
    requires here { inst.0 < length insts.now }
    requires prev { Within inst_place (length insts.now) (read_at inst_links.prev_of insts.now inst.0) }
    ensures { result ≡ seq_ahead_of insts.now inst }
{
    insts[inst.index()]
        .prev
        .map_or(0, |prev| insts[prev.index()].seq)
}

// The number of the instruction behind `inst`, if one stands there.
#[tactic(auto, using(crate::proofs::Renumbering::reads_next))]
fn seq_behind(insts: &[InstNode], inst: Inst) -> Option<SequenceNumber>
    requires here { inst.0 < length insts.now }
    requires next { Within inst_place (length insts.now) (read_at inst_links.next_of insts.now inst.0) }
    ensures { result ≡ seq_behind_of insts.now inst }
{
    seq_at(insts, insts[inst.index()].next)
}

// The number of the instruction at a link, if it leads to one.
#[tactic(auto, using(crate::proofs::Renumbering::reads_seq))]
fn seq_at(insts: &[InstNode], link: Option<Inst>) -> Option<SequenceNumber>
    requires { Within inst_place (length insts.now) link }
    ensures { result ≡ number_if insts.now link }
{
    link.map(|inst| insts[inst.index()].seq)
}

// The node of `inst` gets the number `seq`. For a caller that has put `inst` in: where that is the number that its neighbours leave it,
// the block is then numbered as it is to be.
fn set_seq(insts: &mut [InstNode], inst: Inst, seq: SequenceNumber)
    requires { inst.0 < length insts.old }
    ensures stored { insts.new ≡ with_number insts.old inst seq }
    ensures last { AloneLast insts.old insts.new inst seq }
    ensures between { AloneBetween insts.old insts.new inst seq }
{
    insts[inst.index()].seq = seq;
}
