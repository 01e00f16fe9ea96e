// Making and stepping a lent monitor over a formula table that is lent as a slice of node structs. The rule's own places are read into columns, and
// these and the lent monitor are handed on to `in_place::fresh::fresh` or `in_place::step::step`. Callers with plain slices call those themselves.
#![tactic(auto)]

ghost use Rattle.std.specs.Prelude.{◌≡◌};
ghost use Rattle.in_place.specs.InPlace.{fresh_in, step_in};
ghost use Rattle.table_step.specs.Over.{part_over};

use in_place::ReferenceMonitor;
use in_place::fresh::fresh;
use in_place::step::step;
use monitor::table::{Part, Tables};
use node_table::{FormulaNode, unpack};
use result::Refusal;

// Steps a lent monitor once, at step s with truths w, over the tables that hold its rule.
pub fn step_table(
    m: &mut ReferenceMonitor,
    table: &[FormulaNode],
    nodes: &[u64],
    part: Part,
    s: u64,
    w: u64,
) -> Result<bool, Refusal>
    ensures { (result ≡ (step_in (part_over table.now nodes.now part) m.old s w).verdict)
        × (m.new ≡ (step_in (part_over table.now nodes.now part) m.old s w).monitor) }
{
    let c = unpack(table, part.formula());
    let tables = Tables::new(c.ops(), c.nums(), nodes);
    step(m, &tables, part, s, w)
}

// Makes a lent monitor the fresh one of the compiled rule that the tables hold.
pub fn fresh_table(
    m: &mut ReferenceMonitor,
    table: &[FormulaNode],
    nodes: &[u64],
    part: Part,
) -> Result<usize, Refusal>
    ensures { (result ≡ (fresh_in (part_over table.now nodes.now part) m.old).outcome)
        × (m.new ≡ (fresh_in (part_over table.now nodes.now part) m.old).monitor) }
{
    let c = unpack(table, part.formula());
    let tables = Tables::new(c.ops(), c.nums(), nodes);
    fresh(m, &tables, part)
}
