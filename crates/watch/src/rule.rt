// Watching one rule of a table of node structs over the step lines of a book. Table and monitor are lent to every call (crate `lending`).
ghost use Rattle.std.specs.Prelude.{◌≡◌};
ghost use Rattle.node_table.specs.Node.{ops_of, nums_of};
ghost use Rattle.reader.specs.Steps.{steps_from};
ghost use Rattle.result.specs.Refusal.{told};
ghost use Rattle.table_step.specs.Over.{part_over};
ghost use Rattle.watch.specs.Watch.{report_of, watched, blank_monitor, compiled_watched, rule_watched};

use formula::table::Span;
use in_place::ReferenceMonitor;
use lending::{compile_over, fresh_over, step_over};
use monitor::table::Part;
use node_table::FormulaNode;
use reader::steps::next_step;
use result::Refusal;
use std::fmt;
use terms::limit::{BOOK_NODES, NODE_CELLS, RULE_NODES};

// The first report: its step, and the step to blame or minus 1.
#[derive(Clone, Copy, Debug, PartialEq, Eq)]
pub struct Report {
    pub step: u64,
    pub culprit: i64,
}

impl fmt::Display for Report {
    fn fmt<W: fmt::Write>(&self, f: &mut fmt::Formatter<W>) -> fmt::Result {
        write!(f, "report {} {}", self.step, self.culprit)
    }
}

// What a monitor reports at a step: its root's culprit.
fn report_of(m: &ReferenceMonitor, step: u64) -> Report
    ensures { result ≡ report_of m.now step }
{
    Report {
        step,
        culprit: m.culprits[0],
    }
}

// Steps a monitor over the step lines from a place of the text on, up to its report.
fn watch_steps(
    m: ReferenceMonitor,
    text: &[u8],
    from: usize,
    table: [FormulaNode; BOOK_NODES],
    nodes: &[u64],
    part: Part,
) -> Result<Option<Report>, Refusal>
    ensures { told result ≡ watched (part_over table nodes.now part) m (steps_from text.now from) }
{
    let mut k = m;
    let mut at = from;
    // the call hands out a line and the place of the next, as C takes them
    while let Some(line) = next_step(text, at) {
        let a = step_over(k, table, nodes, part, line.step, line.truths);
        k = a.monitor;
        if a.verdict? {
            return Ok(Some(report_of(&k, line.step)));
        }
        at = line.next;
    }
    Ok(None)
}

// A monitor before it is made.
fn blank_monitor() -> ReferenceMonitor
    ensures { result ≡ blank_monitor }
{
    ReferenceMonitor {
        size: 0,
        forms: [0; RULE_NODES],
        bounds: [0; RULE_NODES],
        held: [false; RULE_NODES],
        remaining: [0; RULE_NODES],
        failed: [false; RULE_NODES],
        culprits: [0; RULE_NODES],
    }
}

// Watches a compiled rule from its fresh monitor.
fn watch_compiled(
    text: &[u8],
    from: usize,
    table: [FormulaNode; BOOK_NODES],
    nodes: &[u64],
    part: Part,
) -> Result<Option<Report>, Refusal>
    ensures { told result ≡ compiled_watched (part_over table nodes.now part) (steps_from text.now from) }
{
    let started = fresh_over(blank_monitor(), table, nodes, part);
    started.outcome?;
    watch_steps(started.monitor, text, from, table, nodes, part)
}

// Watches a rule.
pub fn watch_rule(
    text: &[u8],
    from: usize,
    table: [FormulaNode; BOOK_NODES],
    span: Span,
) -> Result<Option<Report>, Refusal>
    ensures { told result ≡ rule_watched text.now from (ops_of table) (nums_of table) span.first span.count }
{
    let mut nodes = [0u64; NODE_CELLS];
    let n = compile_over(table, span, &mut nodes)?;
    let part = Part {
        first: span.first,
        count: span.count,
        nfirst: 0,
        ncount: n,
    };
    watch_compiled(text, from, table, &nodes, part)
}
