// First bits and bits of a book's rules, and the numbers of the whole.
ghost use Rattle.plan.specs.Lists.{SameBits};
ghost use Rattle.listing_rules.specs.Answers.{Placeable, Places, Encodable, Encodes};

use encoding::{ConfigEncoding, encoding_of, monitor_bits};
use plan::layout::{RuleBits, RuleList};

// Lays out the rules, from bit `base`.
pub fn place_rules(rules: &RuleList, base: u64, out: &mut RuleBits)
    requires { Placeable rules.now.kinds.now rules.now.tables.nodes.now rules.now.nfirsts.now rules.now.ncounts.now rules.now.refusals.now rules.now.len base
        out.old.starts.now out.old.bits.now }
    ensures placed { Places rules.now.kinds.now rules.now.tables.nodes.now rules.now.nfirsts.now rules.now.ncounts.now rules.now.refusals.now rules.now.len base
        out.new.starts.now out.new.bits.now }
    ensures same { SameBits out.old out.new }
{
    rules.arrange(base, out);
}

// The numbers of a configuration with the rules, from the bits of the state and of the slots.
pub fn encode_rules(rules: &RuleList, state: u64, vars: u64) -> ConfigEncoding
    requires { Encodable rules.now.kinds.now rules.now.tables.nodes.now rules.now.nfirsts.now rules.now.ncounts.now rules.now.refusals.now rules.now.len state vars }
    ensures { Encodes rules.now.kinds.now rules.now.tables.nodes.now rules.now.nfirsts.now rules.now.ncounts.now rules.now.refusals.now rules.now.len
        state vars result }
{
    encoding_of(state, vars, monitor_bits(rules))
}
