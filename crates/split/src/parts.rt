// The liveness split: a property's skeleton and its obligations, or the refusal that its walk meets first.
ghost use Rattle.std.specs.Prelude.{◌≡◌, [], ◌∷◌, ◌+◌, ◌*◌, ◌<◌, ◌≤◌, length};
ghost use Rattle.std.proofs.lemmas.List.Edits.{sets};
ghost use Rattle.split.specs.Held.{outcome, splitting, Purity, Ends, SplitReady, Decomposed};

use formula::table::{FormulaTable, Span};
use liveness::walk::{contains_liveness, judge_top};
use result::Refusal;
use terms::entry;
use terms::limit::{OWED_ROOM, SKELETON_ROOM};
use terms::op::{AND, NEXT, NOT, UNTIL};

// How many entries a split's skeleton has, and how many obligations.
#[derive(Clone, Copy, Debug, PartialEq, Eq)]
pub struct Parts {
    pub skeleton: usize,
    pub owed: usize,
}

// Where the pure formula at i ends.
fn end_of(table: &FormulaTable, i: usize) -> usize
    requires { Purity table.now.ops.now table.now.nums.now i }
    ensures { Ends table.now.ops.now table.now.nums.now i result }
{
    table.boolean_over_atoms(i).unwrap()
}

// Stores entry k of those that take N numbers each.
fn put<const N: usize>(to: &mut [u64], k: usize, numbers: [u64; N])
    requires { N * (k + 1) ≤ length to.old }
    ensures { to.new ≡ sets to.old (N * k) numbers.entry }
{
    to[N * k..N * k + N].copy_from_slice(&numbers);
}

// What decomposing leaves: where the formula ends, the next entry, the next obligation.
#[derive(Clone, Copy, Debug, PartialEq, Eq)]
pub struct Filled {
    pub end: usize,
    pub entries: usize,
    pub owed: usize,
}

// The skeleton of the formula at i, from entry k on, and its obligations, from obligation o on.
fn decompose_top(
    table: &FormulaTable,
    i: usize,
    skeleton: &mut [u64],
    k: usize,
    owed: &mut [u64],
    o: usize,
) -> Filled
    requires { SplitReady table.now.ops.now table.now.nums.now i skeleton.old k owed.old o }
    ensures { Decomposed table.now.ops.now table.now.nums.now i skeleton.old skeleton.new k owed.old owed.new o result }
{
    let op = table.ops[i];
    if op < NOT {
        // `as`: the number fits, and a `TryFrom` would have an error that cannot be
        put(skeleton, k, [entry::SAFETY, i as u64]);
        return Filled {
            end: i + 1,
            entries: k + 1,
            owed: o,
        };
    }
    if op < NEXT {
        put(skeleton, k, [entry::NOT, 0]);
        return decompose_top(table, i + 1, skeleton, k + 1, owed, o);
    }
    if op < AND {
        let e = end_of(table, i + 1);
        put(skeleton, k, [entry::OWED, o as u64]);
        put(owed, o, [entry::EVENTUALLY, (i + 1) as u64, 0]);
        return Filled {
            end: e,
            entries: k + 1,
            owed: o + 1,
        };
    }
    if op < UNTIL {
        put(skeleton, k, [u64::from(op), 0]);
        let left = decompose_top(table, i + 1, skeleton, k + 1, owed, o);
        return decompose_top(table, left.end, skeleton, left.entries, owed, left.owed);
    }
    let m = end_of(table, i + 1);
    let e = end_of(table, m);
    put(skeleton, k, [entry::OWED, o as u64]);
    put(owed, o, [entry::UNTIL, (i + 1) as u64, m as u64]);
    Filled {
        end: e,
        entries: k + 1,
        owed: o + 1,
    }
}

// The liveness split of the rule whose formula stands there, if one is asked for: an assumption has none.
#[tactic(auto, unfolding(crate::specs::Held::splitting))]
pub fn split(
    table: &FormulaTable,
    span: Span,
    assumed: bool,
    skeleton: &mut [u64],
    owed: &mut [u64],
) -> Result<Option<Parts>, Refusal>
    ensures { outcome result skeleton.new owed.new ≡ splitting table.now.ops.now table.now.nums.now span.first span.count assumed
        skeleton.old owed.old }
{
    if !table.is_roomy() {
        return Err(Refusal::Short);
    }
    if skeleton.len() < SKELETON_ROOM {
        return Err(Refusal::Short);
    }
    if owed.len() < OWED_ROOM {
        return Err(Refusal::Short);
    }
    if !table.is_rule(span) {
        return Err(Refusal::Unfit);
    }
    if assumed {
        return Ok(None);
    }
    let lives = contains_liveness(table, span.first);
    if !lives {
        return Ok(None);
    }
    judge_top(table, span.first)?;
    let filled = decompose_top(table, span.first, skeleton, 0, owed, 0);
    Ok(Some(Parts {
        skeleton: filled.entries,
        owed: filled.owed,
    }))
}
