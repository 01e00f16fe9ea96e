// The layout of a book: the first bits of its slots, the first bits and bits of its rules, and the numbers of the whole.
ghost use Rattle.std.specs.Prelude.{◌≡◌, ◌<◌, ◌≤◌, length};
ghost use Rattle.terms.specs.Limits.{book_nodes, book_rules, book_slots};
ghost use Rattle.result.specs.Refusal.{told};
ghost use Rattle.monitor.specs.Tables.{rule_in, compiled_in};
ghost use Rattle.encoding.specs.Below.{all_below};
ghost use Rattle.plan.specs.Lists.{SameBits};
ghost use Rattle.layout.specs.Entry.{roomy_rules, roomy_tables, roomy_outputs, fine, sound, outcome, layout_of, InRules, Layable, Laid};
ghost use Rattle.layout.specs.Lists.{formula_of, mon_of, fine_in, RulesWithin};

use compiler::compile_formula;
use encoding::{ConfigEncoding, Opening, encoding_of, monitor_bits};
use monitor::table::{Part, Tables};
use plan::layout::{RuleBits, RuleList};
use result::Refusal;
use terms::limit::{BOOK_RULES, BOOK_SLOTS, NODE_CELLS};

// Whether each list has room for 64 rules.
fn rules_fit(rules: &RuleList) -> bool
    ensures { result ≡ roomy_rules rules.now.kinds.now rules.now.refusals.now
        rules.now.firsts.now rules.now.counts.now rules.now.nfirsts.now rules.now.ncounts.now }
{
    BOOK_RULES <= rules.kinds.len()
        && BOOK_RULES <= rules.refusals.len()
        && BOOK_RULES <= rules.firsts.len()
        && BOOK_RULES <= rules.counts.len()
        && BOOK_RULES <= rules.nfirsts.len()
        && BOOK_RULES <= rules.ncounts.len()
}

// Whether each table and list has room: for 1,024 formula nodes, 256 monitor nodes, 64 rules and 32 slots.
fn tables_fit(rules: &RuleList, widths: &[u64]) -> bool
    ensures { result ≡ roomy_tables rules.now.tables.formulas.ops.now rules.now.tables.formulas.nums.now rules.now.tables.nodes.now
        rules.now.kinds.now rules.now.refusals.now
        rules.now.firsts.now rules.now.counts.now rules.now.nfirsts.now rules.now.ncounts.now widths.now }
{
    rules.tables.is_roomy() && rules_fit(rules) && BOOK_SLOTS <= widths.len()
}

// Whether outputs of these lengths have room for 64 rules and 32 slots.
fn outputs_fit(starts: usize, bits: usize, places: usize) -> bool
    ensures { result ≡ roomy_outputs starts bits places }
{
    BOOK_RULES <= starts && BOOK_RULES <= bits && BOOK_SLOTS <= places
}

// Whether a rule is compiled as its flag says: 0, or the number of its refusal. What is compiled goes into `aside`, which all rules share: cleared for
// each, 14 KB a rule, it takes a book of 64 short rules a third more time.
fn is_flagged(tables: &Tables, part: Part, flag: u64, aside: &mut [u64; NODE_CELLS]) -> bool
    requires { (book_nodes ≤ length tables.now.formulas.ops.now) × (book_nodes ≤ length tables.now.formulas.nums.now) }
    ensures { result ≡ fine (rule_in tables.now part) flag (compiled_in tables.now part) }
{
    let span = part.formula();
    if !tables.formulas.is_rule(span) {
        return false;
    }
    match compile_formula(&tables.formulas, span, aside) {
        Ok(_) => flag == 0 && tables.is_compiled(part),
        Err(refusal) => flag != 0 && flag == u64::from(refusal),
    }
}

// Whether rule r is compiled as its flag in the lent list says.
fn fine_at(rules: &RuleList, r: usize, aside: &mut [u64; NODE_CELLS]) -> bool
    requires { InRules rules.now.tables.formulas.ops.now rules.now.tables.formulas.nums.now rules.now.refusals.now rules.now.firsts.now
        rules.now.counts.now rules.now.nfirsts.now rules.now.ncounts.now r }
    ensures { result ≡ fine_in rules.now r }
{
    is_flagged(&rules.tables, rules.part(r), rules.refusals[r], aside)
}

// Whether each rule is compiled as its flag says.
fn all_fine(rules: &RuleList) -> bool
    requires { RulesWithin rules.now rules.now.len }
    ensures { result ≡ all_below (fine_in rules.now) rules.now.len }
{
    let mut aside = [0u64; NODE_CELLS];
    for r in 0..rules.len {
        if !fine_at(rules, r, &mut aside) {
            return false;
        }
    }
    true
}

// Whether a book may open so, has at most 64 rules, and each is compiled as its flag says.
fn is_sound(rules: &RuleList, opening: &Opening) -> bool
    requires { (RulesWithin rules.now book_rules) × (book_slots ≤ length opening.now.widths.now) }
    ensures { result ≡ sound opening.now.states opening.now.widths.now opening.now.slots
        (formula_of rules.now) rules.now.refusals.now (mon_of rules.now) rules.now.len }
{
    opening.is_allowed() && rules.len <= BOOK_RULES && all_fine(rules)
}

// The state from bit 0 on, then the slots, then the rules by the rows of the node table.
fn lay(
    rules: &RuleList,
    opening: &Opening,
    out: &mut RuleBits,
    places: &mut [u64],
) -> ConfigEncoding
    requires { Layable rules.now.kinds.now rules.now.refusals.now rules.now.tables.nodes.now rules.now.nfirsts.now rules.now.ncounts.now rules.now.len
        opening.now.states opening.now.widths.now opening.now.slots out.old.starts.now out.old.bits.now places.old }
    ensures laid { Laid rules.now.kinds.now rules.now.refusals.now rules.now.tables.nodes.now rules.now.nfirsts.now rules.now.ncounts.now rules.now.len
        opening.now.states opening.now.widths.now opening.now.slots out.old.starts.now out.new.starts.now out.old.bits.now out.new.bits.now
        places.old places.new result }
    ensures same { SameBits out.old out.new }
{
    let state = opening.state_bits();
    let vars = opening.slot_bits();
    opening.place_slots(state, places);
    rules.arrange(state + vars, out);
    encoding_of(state, vars, monitor_bits(rules))
}

// First bits of the slots, first bits and bits of the rules: the state from bit 0 on, then the slots, then the properties, then the assumptions,
// each in book order.
pub fn layout(
    rules: &RuleList,
    opening: &Opening,
    out: &mut RuleBits,
    places: &mut [u64],
) -> Result<ConfigEncoding, Refusal>
    ensures laid { outcome (told result) out.new.starts.now out.new.bits.now places.new ≡ layout_of
        rules.now.tables.formulas.ops.now rules.now.tables.formulas.nums.now rules.now.firsts.now rules.now.counts.now
        rules.now.tables.nodes.now rules.now.nfirsts.now rules.now.ncounts.now
        rules.now.kinds.now rules.now.refusals.now rules.now.len opening.now.states opening.now.widths.now opening.now.slots
        out.old.starts.now out.old.bits.now places.old }
    ensures same { SameBits out.old out.new }
{
    if !tables_fit(rules, opening.widths) {
        return Err(Refusal::Short);
    }
    if !outputs_fit(out.starts.len(), out.bits.len(), places.len()) {
        return Err(Refusal::Short);
    }
    if !is_sound(rules, opening) {
        return Err(Refusal::Unfit);
    }
    Ok(lay(rules, opening, out, places))
}
