// Two signals' texts, compared sign by sign off the formula table.
ghost use Rattle.std.specs.Prelude.{◌≡◌, ◌+◌, ◌≤◌, length};
ghost use Rattle.alike.specs.Text.{alike_atoms, alike_signs, agree};
ghost use Rattle.alike.specs.Signs.{atom_of, sign_of, rest, taken, IsSpelt, LikenedAt, IsMeant, Likened};

use formula::table::FormulaTable;
use monitor::node::SignalExpr;
use terms::op::{IMPLIES, NEXT, NOT, OR};

// A sign of a text: an atom by its operation and signal, or a word's byte.
#[derive(Clone, Copy, Debug, PartialEq, Eq)]
pub enum Sign {
    Atom(u8, u64),
    Word(u8),
}

// A place, and whether the `!` of the implies before it is still owed.
#[derive(Clone, Copy, Debug, PartialEq, Eq)]
pub struct Cursor {
    pub at: usize,
    pub owes: bool,
}

// The sign at a cursor and the cursor behind it, if a text that ends at `end` has one there. An implies gives `|` and then owes its `!`.
#[tactic(auto, unfolding(crate::specs::Signs::rest, crate::specs::Signs::signs_from))]
fn sign_at(table: &FormulaTable, c: Cursor, end: usize) -> Option<(Sign, Cursor)>
    requires { (end ≤ length table.now.ops.now) × (end ≤ length table.now.nums.now) }
    ensures { rest table.now.ops.now table.now.nums.now c end ≡ taken table.now.ops.now table.now.nums.now end result }
{
    let at = c.at;
    let owes = c.owes;
    if owes {
        return Some((Sign::Word(b'!'), Cursor { at, owes: false }));
    }
    if end <= at {
        return None;
    }
    let op = table.ops[at];
    let behind = Cursor {
        at: at + 1,
        owes: false,
    };
    if op < NOT {
        return Some((Sign::Atom(op, table.nums[at]), behind));
    }
    if op < NEXT {
        return Some((Sign::Word(b'!'), behind));
    }
    if op < OR {
        return Some((Sign::Word(b'&'), behind));
    }
    if op < IMPLIES {
        return Some((Sign::Word(b'|'), behind));
    }
    Some((
        Sign::Word(b'|'),
        Cursor {
            at: at + 1,
            owes: true,
        },
    ))
}

// Whether two atoms are alike: both read the same signal, whatever their letters.
fn same_atom(o: u8, m: u64, p: u8, n: u64) -> bool
    ensures { result ≡ alike_atoms (atom_of o m) (atom_of p n) }
{
    m == n
}

// Whether two signs are alike.
fn same_sign(a: Sign, b: Sign) -> bool
    ensures { result ≡ alike_signs (sign_of a) (sign_of b) }
{
    match (a, b) {
        (Sign::Atom(o, m), Sign::Atom(p, n)) => same_atom(o, m, p, n),
        (Sign::Word(v), Sign::Word(w)) => v == w,
        _ => false,
    }
}

// Whether the texts from two cursors to their ends agree.
#[tactic(auto, unfolding(crate::specs::Text::agree))]
fn same_text(table: &FormulaTable, a: Cursor, m: usize, b: Cursor, n: usize) -> bool
    requires { ((m ≤ length table.now.ops.now) × (m ≤ length table.now.nums.now)) × ((n ≤ length table.now.ops.now) × (n ≤ length table.now.nums.now)) }
    ensures { result ≡ agree (rest table.now.ops.now table.now.nums.now a m) (rest table.now.ops.now table.now.nums.now b n) }
{
    let mut c = a;
    let mut d = b;
    // two cursors that move at their own pace, until a sign or a text ends
    loop {
        let x = sign_at(table, c, m);
        let y = sign_at(table, d, n);
        match (x, y) {
            (None, None) => return true,
            (Some((s, c2)), Some((t, d2))) => {
                if !same_sign(s, t) {
                    return false;
                }
                c = c2;
                d = d2;
            }
            _ => return false,
        }
    }
}

// Whether the pure formulas at two places have the same text.
fn same_at(table: &FormulaTable, p: usize, q: usize) -> bool
    requires { IsSpelt table.now.ops.now table.now.nums.now p × IsSpelt table.now.ops.now table.now.nums.now q }
    ensures { LikenedAt table.now.ops.now table.now.nums.now p q result }
{
    let e = table.boolean_over_atoms(p).unwrap();
    let f = table.boolean_over_atoms(q).unwrap();
    let a = Cursor { at: p, owes: false };
    let b = Cursor { at: q, owes: false };
    same_text(table, a, e, b, f)
}

// Whether two signals are alike.
pub(crate) fn same_signal(table: &FormulaTable, d: SignalExpr, e: SignalExpr) -> bool
    requires { IsMeant table.now.ops.now table.now.nums.now d × IsMeant table.now.ops.now table.now.nums.now e }
    ensures { Likened table.now.ops.now table.now.nums.now d e result }
{
    match (d, e) {
        (SignalExpr::True, SignalExpr::True) => true,
        (SignalExpr::At(p), SignalExpr::At(q)) => same_at(table, p, q),
        _ => false,
    }
}
