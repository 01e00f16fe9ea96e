// The lines of a book's steps.
ghost use Rattle.text.specs.Lent.{tape_of, SameOut};
ghost use Rattle.listing.specs.Whole.{Compiled, TailListed};

use listing_report::put_end;
use listing_steps::report_steps;
use plan::layout::RuleList;
use text::write::Tape;

// The reports of the steps from a place of the text on, each rule's monitor being fresh, and the last line.
pub(crate) fn put_tail(text: &[u8], from: usize, rules: &RuleList, tape: &mut Tape)
    requires { Compiled text.now rules.now.tables.formulas.ops.now rules.now.tables.formulas.nums.now rules.now.firsts.now rules.now.counts.now
        rules.now.tables.nodes.now
        rules.now.nfirsts.now rules.now.ncounts.now rules.now.refusals.now rules.now.len }
    ensures listed { TailListed text.now from rules.now.tables.formulas.ops.now rules.now.tables.formulas.nums.now rules.now.firsts.now rules.now.counts.now
        rules.now.tables.nodes.now rules.now.nfirsts.now rules.now.ncounts.now rules.now.refusals.now rules.now.len (tape_of tape.old)
        (tape_of tape.new) }
    ensures same { SameOut tape.old tape.new }
{
    let count = report_steps(text, from, rules, tape);
    put_end(tape, count);
}
