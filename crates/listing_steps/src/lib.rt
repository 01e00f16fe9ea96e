// The step lines of a book: each rule that compiles is stepped once for each line, and its first alarm is reported.
#![tactic(auto)]

ghost use Rattle.stepping.specs.Walk.{Walkable};
ghost use Rattle.text.specs.Lent.{tape_of, SameOut};
ghost use Rattle.listing_steps.specs.Stepped.{RuleStepped, Due, OneStepped, LineDue, LineStepped, LinesDue, LinesStepped, StepsDue, StepsReported};
ghost use Rattle.node_step.specs.Lists.{memory_of, SameLists};

use listing_report::put_report;
use monitor::table::Tables;
use node_step::state::Memory;
use plan::layout::RuleList;
use reader::steps::{StepLine, next_step};
use stepping::walk::step_node;
use terms::limit::BOOK_ROWS;
use text::write::Tape;

// The monitor whose root is at entry k: whether it is newly failed at this step.
fn step_rule(tables: &Tables, memory: &mut Memory, k: usize, line: StepLine) -> bool
    requires { Walkable tables.now.formulas.ops.now tables.now.formulas.nums.now tables.now.nodes.now 0 (memory_of memory.old) k line.step }
    ensures stepped { RuleStepped tables.now.formulas.ops.now tables.now.formulas.nums.now tables.now.nodes.now
        (memory_of memory.old) k line.step line.truths
        (memory_of memory.new) result }
    ensures same { SameLists memory.old memory.new }
{
    let before = memory.failed[k];
    step_node(tables, 0, memory, k, line.step, line.truths);
    !before && memory.failed[k]
}

// Rule r at a step line: a rule that does not compile is left out.
fn report_rule(
    rules: &RuleList,
    r: usize,
    memory: &mut Memory,
    line: StepLine,
    tape: &mut Tape,
) -> u64
    requires { Due rules.now.tables.formulas.ops.now rules.now.tables.formulas.nums.now rules.now.tables.nodes.now
        rules.now.nfirsts.now rules.now.refusals.now rules.now.len r (memory_of memory.old) line.step line.truths }
    ensures stepped { OneStepped rules.now.tables.formulas.ops.now rules.now.tables.formulas.nums.now rules.now.tables.nodes.now
        rules.now.nfirsts.now rules.now.refusals.now rules.now.len r
        (memory_of memory.old) line.step line.truths (tape_of tape.old)
        (memory_of memory.new) (tape_of tape.new)
        result }
    ensures same { SameLists memory.old memory.new }
    ensures out { SameOut tape.old tape.new }
{
    if rules.refusals[r] != 0 {
        return 0;
    }
    let k = rules.nfirsts[r];
    let broken = step_rule(&rules.tables, memory, k, line);
    if broken {
        // `as`: the number fits, and a `TryFrom` would have an error that cannot be
        put_report(tape, line.step, r as u64, memory.culprits[k]);
        return 1;
    }
    0
}

// All rules at a step line, in their order.
pub(crate) fn step_rules(
    rules: &RuleList,
    memory: &mut Memory,
    line: StepLine,
    tape: &mut Tape,
) -> u64
    requires { LineDue rules.now.tables.formulas.ops.now rules.now.tables.formulas.nums.now rules.now.tables.nodes.now
        rules.now.nfirsts.now rules.now.refusals.now rules.now.len (memory_of memory.old) line.step }
    ensures stepped { LineStepped rules.now.tables.formulas.ops.now rules.now.tables.formulas.nums.now rules.now.tables.nodes.now
        rules.now.nfirsts.now rules.now.refusals.now rules.now.len
        (memory_of memory.old) line.step line.truths (tape_of tape.old)
        (memory_of memory.new) (tape_of tape.new)
        result }
    ensures same { SameLists memory.old memory.new }
    ensures out { SameOut tape.old tape.new }
{
    let mut count: u64 = 0;
    for r in 0..rules.len {
        count += report_rule(rules, r, memory, line, tape);
    }
    count
}

// The step lines of a text from a place on.
pub(crate) fn put_reports(
    text: &[u8],
    from: usize,
    rules: &RuleList,
    memory: &mut Memory,
    tape: &mut Tape,
) -> u64
    requires { LinesDue text.now rules.now.tables.formulas.ops.now rules.now.tables.formulas.nums.now rules.now.tables.nodes.now
        rules.now.nfirsts.now rules.now.refusals.now rules.now.len (memory_of memory.old) }
    ensures stepped { LinesStepped text.now from rules.now.tables.formulas.ops.now rules.now.tables.formulas.nums.now rules.now.tables.nodes.now rules.now.nfirsts.now
        rules.now.refusals.now rules.now.len (memory_of memory.old)
        (tape_of tape.old) (memory_of memory.new)
        (tape_of tape.new) result }
    ensures same { SameLists memory.old memory.new }
    ensures out { SameOut tape.old tape.new }
{
    let mut total: u64 = 0;
    let mut cursor = from;
    // the call hands out a line and the place of the next, as C takes them
    while let Some(line) = next_step(text, cursor) {
        total += step_rules(rules, memory, line, tape);
        cursor = line.next;
    }
    total
}

// The same from fresh monitors: nothing pending, failed or remembered, and every culprit minus 1.
pub fn report_steps(text: &[u8], from: usize, rules: &RuleList, tape: &mut Tape) -> u64
    requires { StepsDue text.now rules.now.tables.formulas.ops.now rules.now.tables.formulas.nums.now rules.now.tables.nodes.now
        rules.now.nfirsts.now rules.now.refusals.now rules.now.len }
    ensures reported { StepsReported text.now from rules.now.tables.formulas.ops.now rules.now.tables.formulas.nums.now rules.now.tables.nodes.now rules.now.nfirsts.now
        rules.now.refusals.now rules.now.len (tape_of tape.old) (tape_of tape.new) result }
    ensures out { SameOut tape.old tape.new }
{
    let mut held = [false; BOOK_ROWS];
    let mut remaining = [0u64; BOOK_ROWS];
    let mut failed = [false; BOOK_ROWS];
    let mut culprits = [-1i64; BOOK_ROWS];
    let mut memory = Memory {
        held: &mut held,
        remaining: &mut remaining,
        failed: &mut failed,
        culprits: &mut culprits,
    };
    put_reports(text, from, rules, &mut memory, tape)
}
