// The formula table, and the formulas in it.
ghost use Rattle.std.specs.Prelude.{◌≡◌, ◌≤◌, length};
ghost use Rattle.formula.specs.Walk.{Walked};
ghost use Rattle.formula.specs.Table.{node_at, in_word, is_some, rule_of, roomy};

use terms::limit::{BOOK_NODES, DEEPEST, RULE_NODES, SIGNALS};
use terms::op::{AND, NOT, WORDS};

// A lent table: an operation and a number for each node, in prefix order.
#[derive(Clone, Copy)]
pub struct FormulaTable<'a> {
    pub ops: &'a [u8],
    pub nums: &'a [u64],
}

// Where a rule's formula stands in a table: its first place, and how many nodes it has.
#[derive(Clone, Copy, Debug, PartialEq, Eq)]
pub struct Span {
    pub first: usize,
    pub count: usize,
}

impl FormulaTable<'_> {
    // Where the formula at i ends, if it ends by `end` and is at most `room` deep.
    fn tree_at(&self, i: usize, end: usize, room: usize) -> Option<usize>
        requires { (end ≤ length self.now.ops.now) × (end ≤ length self.now.nums.now) }
        ensures { Walked (node_at self.now.ops.now self.now.nums.now) in_word i end room result }
    {
        if end <= i {
            return None;
        }
        if room == 0 {
            return None;
        }
        let op = self.ops[i];
        if WORDS <= op {
            return None;
        }
        if op < NOT {
            if self.nums[i] < SIGNALS {
                return Some(i + 1);
            }
            return None;
        }
        let first = self.tree_at(i + 1, end, room - 1);
        if op < AND {
            return first;
        }
        let e = first?;
        self.tree_at(e, end, room - 1)
    }

    // Whether a rule's part of the table is a formula within the limits.
    pub fn is_rule(&self, span: Span) -> bool
        ensures { result ≡ is_some (rule_of self.now.ops.now self.now.nums.now span.first span.count) }
    {
        if RULE_NODES < span.count {
            return false;
        }
        if BOOK_NODES - span.count < span.first {
            return false;
        }
        let end = span.first + span.count;
        if self.ops.len() < end {
            return false;
        }
        if self.nums.len() < end {
            return false;
        }
        self.tree_at(span.first, end, DEEPEST) == Some(end)
    }

    // Whether the lent slices have room for 1,024 nodes.
    pub fn is_roomy(&self) -> bool
        ensures { result ≡ roomy self.now.ops.now self.now.nums.now }
    {
        if self.ops.len() < BOOK_NODES {
            return false;
        }
        if self.nums.len() < BOOK_NODES {
            return false;
        }
        true
    }
}
