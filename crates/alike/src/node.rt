// Two compiled rules' nodes, compared one for one.
ghost use Rattle.std.specs.Prelude.{◌≡◌, ◌+◌, ◌*◌, ◌≤◌, length, Some};
ghost use Rattle.terms.specs.Limits.{row_cells};
ghost use Rattle.monitor.specs.Table.{row_of};
ghost use Rattle.alike.specs.Alike.{alike_some, part_of};
ghost use Rattle.alike.specs.Rows.{IsShown, SameRow, IsCompiled};

use crate::text::same_signal;
use formula::table::FormulaTable;
use monitor::node::{MonNode, row_at};
use monitor::table::{Part, Tables};

// Whether two nodes agree.
fn same_node(table: &FormulaTable, m: MonNode, n: MonNode) -> bool
    requires { IsShown table.now.ops.now table.now.nums.now (Some m) × IsShown table.now.ops.now table.now.nums.now (Some n) }
    ensures { SameRow table.now.ops.now table.now.nums.now (Some m) (Some n) result }
{
    match (m, n) {
        (MonNode::RangeCheck { expr: s, range: a }, MonNode::RangeCheck { expr: t, range: b }) => {
            a == b && same_signal(table, s, t)
        }
        (
            MonNode::DelayedCheck {
                antecedent: s,
                consequent: s2,
                range: a,
            },
            MonNode::DelayedCheck {
                antecedent: t,
                consequent: t2,
                range: b,
            },
        ) => a == b && same_signal(table, s, t) && same_signal(table, s2, t2),
        (
            MonNode::Obligation {
                bound: k,
                trigger: s,
                body: s2,
                range: a,
            },
            MonNode::Obligation {
                bound: l,
                trigger: t,
                body: t2,
                range: b,
            },
        ) => k == l && a == b && same_signal(table, s, t) && same_signal(table, s2, t2),
        (MonNode::And, MonNode::And) | (MonNode::Or, MonNode::Or) => true,
        _ => false,
    }
}

// Whether the nodes in rows i and j agree.
fn same_row(tables: &Tables, i: usize, j: usize) -> bool
    requires { (row_cells * (i + 1) ≤ length tables.now.nodes.now) × (row_cells * (j + 1) ≤ length tables.now.nodes.now)
        × IsShown tables.now.formulas.ops.now tables.now.formulas.nums.now (row_of tables.now.nodes.now i)
        × IsShown tables.now.formulas.ops.now tables.now.formulas.nums.now (row_of tables.now.nodes.now j) }
    ensures { SameRow tables.now.formulas.ops.now tables.now.formulas.nums.now (row_of tables.now.nodes.now i) (row_of tables.now.nodes.now j) result }
{
    let m = row_at(tables.nodes, i).unwrap();
    let n = row_at(tables.nodes, j).unwrap();
    same_node(&tables.formulas, m, n)
}

// Whether two compiled rules are alike.
pub fn same_nodes(tables: &Tables, a: Part, b: Part) -> bool
    requires { IsCompiled tables.now.formulas.ops.now tables.now.formulas.nums.now tables.now.nodes.now a × IsCompiled tables.now.formulas.ops.now tables.now.formulas.nums.now tables.now.nodes.now b }
    ensures { result ≡ alike_some (part_of tables.now.formulas.ops.now tables.now.formulas.nums.now tables.now.nodes.now a)
        (part_of tables.now.formulas.ops.now tables.now.formulas.nums.now tables.now.nodes.now b) }
{
    let n = a.ncount;
    if n != b.ncount {
        return false;
    }
    for k in 0..n {
        if !same_row(tables, a.nfirst + k, b.nfirst + k) {
            return false;
        }
    }
    true
}
