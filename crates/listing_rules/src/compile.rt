// Compiles the rules of a book into one node table, one behind the other.
ghost use Rattle.std.specs.Prelude.{◌≡◌, ◌+◌, ◌*◌, ◌≤◌, ◌<◌, length, get_or};
ghost use Rattle.terms.specs.Limits.{book_nodes, node_cells};
ghost use Rattle.listing_rules.specs.Made.{Made, Enterable, Entering, Fillable, FilledRules};
ghost use Rattle.listing_rules.specs.Lists.{SameRules};

use crate::lists::{BookLists, RuleTables};
use compiler::compile_formula;
use formula::table::{FormulaTable, Span};
use result::Refusal;
use terms::limit::ROW_CELLS;

// Compiles one rule into the rows from row `at` on.
fn compile_at(
    table: &FormulaTable,
    span: Span,
    nodes: &mut [u64],
    at: usize,
) -> Result<usize, Refusal>
    requires { (book_nodes ≤ length table.now.ops.now) × ((book_nodes ≤ length table.now.nums.now) × (7 * at + node_cells ≤ length nodes.old)) }
    ensures { Made table.now.ops.now table.now.nums.now span.first span.count at nodes.old nodes.new result }
{
    let from = ROW_CELLS * at;
    compile_formula(table, span, &mut nodes[from..])
}

// Compiles rule r into the rows from row `at` on, and enters its first row, its count and its refusal. Answers the row behind.
fn compile_one(book: &BookLists, r: usize, at: usize, compiled: &mut RuleTables) -> usize
    requires { Enterable book.now.formulas.ops.now book.now.formulas.nums.now book.now.firsts.now book.now.counts.now
        compiled.old.nodes.now compiled.old.nfirsts.now compiled.old.ncounts.now compiled.old.refusals.now r at }
    ensures entered { Entering book.now.formulas.ops.now book.now.formulas.nums.now (get_or book.now.firsts.now r 0) (get_or book.now.counts.now r 0)
        r at result
        compiled.old.nodes.now compiled.new.nodes.now compiled.old.nfirsts.now compiled.new.nfirsts.now
        compiled.old.ncounts.now compiled.new.ncounts.now compiled.old.refusals.now compiled.new.refusals.now }
    ensures same { SameRules compiled.old compiled.new }
{
    let span = Span {
        first: book.firsts[r],
        count: book.counts[r],
    };
    let c = compile_at(&book.formulas, span, compiled.nodes, at);
    compiled.nfirsts[r] = at;
    match c {
        Ok(k) => {
            compiled.ncounts[r] = k;
            compiled.refusals[r] = 0;
            at + k
        }
        Err(refusal) => {
            compiled.ncounts[r] = 0;
            compiled.refusals[r] = u64::from(refusal);
            at
        }
    }
}

// Compiles the rules of a book. A rule that is refused has no rows.
pub fn compile_rules(book: &BookLists, compiled: &mut RuleTables)
    requires { Fillable book.now.formulas.ops.now book.now.formulas.nums.now book.now.kinds.now book.now.firsts.now book.now.counts.now
        compiled.old.nodes.now compiled.old.nfirsts.now compiled.old.ncounts.now compiled.old.refusals.now book.now.len }
    ensures filled { FilledRules book.now.formulas.ops.now book.now.formulas.nums.now book.now.kinds.now book.now.firsts.now book.now.counts.now
        compiled.new.nodes.now compiled.new.nfirsts.now compiled.new.ncounts.now compiled.new.refusals.now book.now.len }
    ensures same { SameRules compiled.old compiled.new }
{
    let mut at: usize = 0;
    for r in 0..book.len {
        at = compile_one(book, r, at, compiled);
    }
}
