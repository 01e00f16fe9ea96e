// The walks that come before a split: whether a formula has liveness, and the first refusal of its split.
ghost use Rattle.formula.specs.Table.{Placed};
ghost use Rattle.liveness.specs.Judge.{Calm, Lives, Judged, Operand};

use formula::table::FormulaTable;
use result::Refusal;
use terms::op::{AND, EVENTUALLY, NEXT, NOT, UNTIL};

// Where the formula at i ends, if it has no `eventually` or `until`.
fn calm_at(table: &FormulaTable, i: usize) -> Option<usize>
    requires { Placed table.now.ops.now table.now.nums.now i }
    ensures { Calm table.now.ops.now table.now.nums.now i result }
{
    let word = table.ops[i];
    if word < NOT {
        return Some(i + 1);
    }
    if word == EVENTUALLY {
        return None;
    }
    if UNTIL <= word {
        return None;
    }
    let first = calm_at(table, i + 1);
    if word < AND {
        return first;
    }
    let e = first?;
    calm_at(table, e)
}

// Whether the formula at i has `eventually` or `until`.
pub fn contains_liveness(table: &FormulaTable, i: usize) -> bool
    requires { Placed table.now.ops.now table.now.nums.now i }
    ensures { Lives table.now.ops.now table.now.nums.now i result }
{
    calm_at(table, i).is_none()
}

// The operand at i of `eventually` or `until`: where it ends, if it is pure; else the refusal.
fn operand_at(table: &FormulaTable, i: usize, refusal: Refusal) -> Result<usize, Refusal>
    requires { Placed table.now.ops.now table.now.nums.now i }
    ensures { Operand table.now.ops.now table.now.nums.now i refusal result }
{
    table.boolean_over_atoms(i).ok_or(refusal)
}

// Where the formula at i ends, if nothing in it refuses the split; else the first refusal of the walk over it, parents first and left before right.
pub fn judge_top(table: &FormulaTable, i: usize) -> Result<usize, Refusal>
    requires { Placed table.now.ops.now table.now.nums.now i }
    ensures { Judged table.now.ops.now table.now.nums.now i result }
{
    let op = table.ops[i];
    if op < NOT {
        return Ok(i + 1);
    }
    if op < NEXT {
        return judge_top(table, i + 1);
    }
    if op == EVENTUALLY {
        return operand_at(table, i + 1, Refusal::EventuallyOperand);
    }
    if op < AND {
        if contains_liveness(table, i + 1) {
            return Err(Refusal::LivenessBelow);
        }
        return Err(Refusal::NoLivenessBelow);
    }
    if op < UNTIL {
        let right = judge_top(table, i + 1)?;
        return judge_top(table, right);
    }
    let m = operand_at(table, i + 1, Refusal::UntilOperand)?;
    operand_at(table, m, Refusal::UntilOperand)
}
