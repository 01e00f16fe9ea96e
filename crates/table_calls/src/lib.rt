// Compiling and splitting a rule of a formula table that is lent as a slice of node structs. Each entry point reads the rule's own places into
// columns and hands them on to the core, `compile_formula` or `split`, which callers with plain slices call themselves.
#![tactic(auto)]

ghost use Rattle.std.specs.Prelude.{◌≡◌};
ghost use Rattle.compiler.specs.Compiled.{Answers, compile_call};
ghost use Rattle.node_table.specs.Node.{ops_of, nums_of};
ghost use Rattle.split.specs.Held.{outcome, splitting};

use compiler::compile_formula;
use formula::table::Span;
use node_table::{FormulaNode, unpack};
use result::Refusal;
use split::parts::{Parts, split};

// Compiles a rule into the rows of `out`.
pub fn compile_table(table: &[FormulaNode], span: Span, out: &mut [u64]) -> Result<usize, Refusal>
    ensures { Answers (compile_call (ops_of table.now) (nums_of table.now) span.first span.count out.old) result out.new }
{
    let c = unpack(table, span);
    compile_formula(&c.table(), span, out)
}

// The liveness split of a rule.
pub fn split_table(
    table: &[FormulaNode],
    span: Span,
    assumed: bool,
    skeleton: &mut [u64],
    owed: &mut [u64],
) -> Result<Option<Parts>, Refusal>
    ensures { outcome result skeleton.new owed.new
        ≡ splitting (ops_of table.now) (nums_of table.now) span.first span.count assumed skeleton.old owed.old }
{
    let c = unpack(table, span);
    split(&c.table(), span, assumed, skeleton, owed)
}
