// The calls over a lent table of node structs and a lent monitor, for callers that hold both by value: each lends its own for one call, and hands
// the monitor back.
#![tactic(auto)]

ghost use Rattle.std.specs.Prelude.{◌≡◌};
ghost use Rattle.compiler.specs.Compiled.{Answers, compile_call};
ghost use Rattle.in_place.specs.InPlace.{fresh_in, step_in};
ghost use Rattle.node_table.specs.Node.{ops_of, nums_of};
ghost use Rattle.split.specs.Held.{outcome, splitting};
ghost use Rattle.table_step.specs.Over.{part_over};

use formula::table::Span;
use in_place::ReferenceMonitor;
use in_place::fresh::Started;
use in_place::step::Advanced;
use monitor::table::Part;
use node_table::FormulaNode;
use result::Refusal;
use split::parts::Parts;
use table_calls::{compile_table, split_table};
use table_step::{fresh_table, step_table};
use terms::limit::BOOK_NODES;

// Steps a monitor once in place, over a table of node structs.
pub fn step_over(
    mut m: ReferenceMonitor,
    table: [FormulaNode; BOOK_NODES],
    nodes: &[u64],
    part: Part,
    s: u64,
    w: u64,
) -> Advanced
    ensures { result ≡ step_in (part_over table nodes.now part) m s w }
{
    let verdict = step_table(&mut m, &table, nodes, part, s, w);
    Advanced {
        monitor: m,
        verdict,
    }
}

// Makes the monitor of a compiled rule in place, over a table of node structs.
pub fn fresh_over(
    mut m: ReferenceMonitor,
    table: [FormulaNode; BOOK_NODES],
    nodes: &[u64],
    part: Part,
) -> Started
    ensures { result ≡ fresh_in (part_over table nodes.now part) m }
{
    let outcome = fresh_table(&mut m, &table, nodes, part);
    Started {
        monitor: m,
        outcome,
    }
}

// Compiles a rule of a table of node structs.
pub fn compile_over(
    table: [FormulaNode; BOOK_NODES],
    span: Span,
    out: &mut [u64],
) -> Result<usize, Refusal>
    ensures { Answers (compile_call (ops_of table) (nums_of table) span.first span.count out.old) result out.new }
{
    compile_table(&table, span, out)
}

// Splits a rule of a table of node structs.
pub fn split_over(
    table: [FormulaNode; BOOK_NODES],
    span: Span,
    assumed: bool,
    skeleton: &mut [u64],
    owed: &mut [u64],
) -> Result<Option<Parts>, Refusal>
    ensures { outcome result skeleton.new owed.new
        ≡ splitting (ops_of table) (nums_of table) span.first span.count assumed skeleton.old owed.old }
{
    split_table(&table, span, assumed, skeleton, owed)
}
