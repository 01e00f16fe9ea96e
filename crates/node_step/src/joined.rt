// A joined node's own step, after its parts have stepped: whether it is failing now, and its entry.
ghost use Rattle.std.specs.Prelude.{◌≡◌, true, false, ◌+◌, ◌<◌};
ghost use Rattle.meaning.specs.State.{least, offered, min_trigger_at};
ghost use Rattle.node_step.specs.Lists.{memory_of, SameLists};
ghost use Rattle.node_step.specs.Joined.{parts_of, joined_now, joined_of, PairReady, Finished};

use crate::state::{Memory, MonState};
use monitor::node::MonNode;

// How a node's parts are joined, if it has parts: it fails with any of them, or with all of them.
pub fn parts_of(node: MonNode) -> Option<bool>
    ensures { result ≡ parts_of node }
{
    match node {
        MonNode::RangeCheck { .. } | MonNode::DelayedCheck { .. } | MonNode::Obligation { .. } => {
            None
        }
        MonNode::And => Some(true),
        MonNode::Or => Some(false),
    }
}

pub fn joined_now(any: bool, left: bool, right: bool) -> bool
    ensures { result ≡ joined_now any left right }
{
    if any {
        return left || right;
    }
    left && right
}

// The culprit that a part offers: its own while it is failing now, else none.
fn offer(now: bool, culprit: i64) -> i64
    ensures { result ≡ offered now culprit }
{
    if now {
        return culprit;
    }
    -1
}

// The least of two from 0 up, else minus 1.
fn least_of(a: i64, b: i64) -> i64
    ensures { result ≡ least a b }
{
    if a < 0 {
        if b < 0 {
            return -1;
        }
        return b;
    }
    if b < 0 {
        return a;
    }
    if a < b {
        return a;
    }
    b
}

// The least culprit from 0 up of the parts that are failing now.
fn min_trigger_at(left: bool, a: i64, right: bool, b: i64) -> i64
    ensures { result ≡ min_trigger_at left a right b }
{
    least_of(offer(left, a), offer(right, b))
}

// A joined node's entry after its parts have stepped: at its first alarm it fails, and takes `min_trigger_at`.
fn joined(
    st: MonState,
    failing: bool,
    left: bool,
    a: MonState,
    right: bool,
    b: MonState,
) -> MonState
    ensures { result ≡ joined_of st failing left a right b }
{
    if st.failed {
        return st;
    }
    if failing {
        let culprit = min_trigger_at(left, a.culprit, right, b.culprit);
        return MonState {
            failed: true,
            culprit,
            ..st
        };
    }
    st
}

// Steps the entry of joined node k, whose right part begins at `mid`.
pub fn finish(memory: &mut Memory, k: usize, mid: usize, failing: bool, left: bool, right: bool)
    requires { PairReady (memory_of memory.old) k mid }
    ensures stepped { Finished (memory_of memory.old) k mid failing left right
        (memory_of memory.new) }
    ensures same { SameLists memory.old memory.new }
{
    let st = memory.load(k);
    let a = memory.load(k + 1);
    let b = memory.load(mid);
    let next = joined(st, failing, left, a, right, b);
    memory.store(k, next);
}
