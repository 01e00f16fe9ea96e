// The last four fields of a rule's line.
ghost use Rattle.listing_rules.specs.Answers.{Tellable, ToldRule};

use crate::likeness::first_alike;
use crate::lists::PlacedRules;
use listing_line::rule::Compiled;

impl PlacedRules<'_> {
    // The refusal of rule r, or its first bit, its bits and its likeness.
    pub fn compiling_at(&self, r: usize) -> Result<Compiled, u64>
        requires { Tellable self.now.rules.tables.formulas.ops.now self.now.rules.tables.formulas.nums.now self.now.rules.firsts.now self.now.rules.counts.now
            self.now.rules.tables.nodes.now self.now.rules.nfirsts.now self.now.rules.ncounts.now self.now.rules.refusals.now self.now.starts.now
            self.now.bits.now r }
        ensures { ToldRule self.now.rules.tables.formulas.ops.now self.now.rules.tables.formulas.nums.now self.now.rules.firsts.now self.now.rules.counts.now
            self.now.rules.tables.nodes.now self.now.rules.nfirsts.now self.now.rules.ncounts.now self.now.rules.refusals.now self.now.starts.now
            self.now.bits.now r result }
    {
        let m = self.rules.refusals[r];
        if m != 0 {
            return Err(m);
        }
        let alike = first_alike(&self.rules, r);
        Ok(Compiled {
            first: self.starts[r],
            bits: self.bits[r],
            alike,
        })
    }
}
