// Signals: pure formulas, found and evaluated by recursion on their place in the table.
ghost use Rattle.std.specs.Prelude.{◌≡◌, ◌&&◌, ◌||◌, ◌≤◌, ◌<◌, get_or};
ghost use Rattle.terms.specs.Ops.{not_op};
ghost use Rattle.terms.specs.Limits.{signals};
ghost use Rattle.formula.specs.Table.{Placed};
ghost use Rattle.formula.specs.Pure.{bit, joined};
ghost use Rattle.formula.specs.Signal.{Purely, Signalled, Valued};

use crate::table::FormulaTable;
use terms::op::{AND, IMPLIES, NEXT, NOT, OR, UNTIL};

// Bit n of a word of truths.
fn truth(word: u64, n: u64) -> bool
    requires { n < signals }
    ensures { result ≡ bit n word }
{
    (word >> n) % 2 == 1
}

// A signal's value, and where the formula ends.
#[derive(Clone, Copy, Debug, PartialEq, Eq)]
pub struct Value {
    pub value: bool,
    pub end: usize,
}

// The value of a pure word with two operands.
fn join(op: u8, left: bool, right: bool) -> bool
    ensures { result ≡ joined op left right }
{
    if op < OR {
        if left {
            return right;
        }
        return false;
    }
    if op < IMPLIES {
        if left {
            return true;
        }
        return right;
    }
    if left {
        return right;
    }
    true
}

impl FormulaTable<'_> {
    // Where the formula at i ends, if it is pure: of atoms, not, and, or, implies only.
    pub fn boolean_over_atoms(&self, i: usize) -> Option<usize>
        requires { Placed self.now.ops.now self.now.nums.now i }
        ensures { Purely self.now.ops.now self.now.nums.now i result }
    {
        let op = self.ops[i];
        if UNTIL <= op {
            return None;
        }
        if op < NOT {
            return Some(i + 1);
        }
        if op < NEXT {
            return self.boolean_over_atoms(i + 1);
        }
        if op < AND {
            return None;
        }
        let e = self.boolean_over_atoms(i + 1)?;
        self.boolean_over_atoms(e)
    }

    // The value of the pure formula at i under a word of truths: an atom is read in place. Inlined, without which the largest listing takes 1.18 of its time.
    #[cycle(node_at_value_at)]
    #[inline(always)]
    pub fn value_at(&self, i: usize, word: u64) -> Value
        requires { Signalled self.now.ops.now self.now.nums.now i }
        ensures { Valued self.now.ops.now self.now.nums.now i word result }
    {
        if self.ops[i] < NOT {
            return Value {
                value: truth(word, self.nums[i]),
                end: i + 1,
            };
        }
        self.node_at(i, word)
    }

    // The value of a pure formula that has operands.
    #[cycle(node_at_value_at)]
    fn node_at(&self, i: usize, word: u64) -> Value
        requires { Signalled self.now.ops.now self.now.nums.now i × (not_op ≤ get_or self.now.ops.now i 0) }
        ensures { Valued self.now.ops.now self.now.nums.now i word result }
    {
        let op = self.ops[i];
        let left = self.value_at(i + 1, word);
        if op < NEXT {
            return Value {
                value: !left.value,
                end: left.end,
            };
        }
        let right = self.value_at(left.end, word);
        Value {
            value: join(op, left.value, right.value),
            end: right.end,
        }
    }
}
