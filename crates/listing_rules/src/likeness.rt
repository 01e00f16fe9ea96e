// The first earlier rule of a book that is alike.
ghost use Rattle.std.specs.Prelude.{◌<◌};
ghost use Rattle.listing_rules.specs.Answers.{KnownRule, Like, Earlier};

use alike::node::same_nodes;
use plan::layout::RuleList;

// Whether rule q compiles and is like rule r.
fn is_like(rules: &RuleList, q: usize, r: usize) -> bool
    requires { KnownRule rules.now.tables.formulas.ops.now rules.now.tables.formulas.nums.now rules.now.firsts.now rules.now.counts.now
        rules.now.tables.nodes.now
        rules.now.nfirsts.now rules.now.ncounts.now rules.now.refusals.now r × (q < r) }
    ensures { Like rules.now.tables.formulas.ops.now rules.now.tables.formulas.nums.now rules.now.firsts.now rules.now.counts.now rules.now.tables.nodes.now
        rules.now.nfirsts.now rules.now.ncounts.now rules.now.refusals.now q r result }
{
    if rules.refusals[q] != 0 {
        return false;
    }
    same_nodes(&rules.tables, rules.part(q), rules.part(r))
}

// The first rule before rule r that compiles and is like it.
pub(crate) fn first_alike(rules: &RuleList, r: usize) -> Option<u64>
    requires { KnownRule rules.now.tables.formulas.ops.now rules.now.tables.formulas.nums.now rules.now.firsts.now rules.now.counts.now
        rules.now.tables.nodes.now rules.now.nfirsts.now rules.now.ncounts.now rules.now.refusals.now r }
    ensures { Earlier rules.now.tables.formulas.ops.now rules.now.tables.formulas.nums.now rules.now.firsts.now rules.now.counts.now rules.now.tables.nodes.now
        rules.now.nfirsts.now rules.now.ncounts.now rules.now.refusals.now r result }
{
    for q in 0..r {
        if is_like(rules, q, r) {
            // `as`: the number fits, and a `TryFrom` would have an error that cannot be
            return Some(q as u64);
        }
    }
    None
}
