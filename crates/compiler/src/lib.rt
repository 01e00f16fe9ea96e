// The compiler: a rule's formula into monitor nodes (`compile_formula`).
#![tactic(auto)]

ghost use Rattle.std.specs.Prelude.{◌≡◌, true, false, ◌+◌, ◌*◌, ◌≤◌, ◌<◌, ◌^◌, length, get_or, take};
ghost use Rattle.terms.specs.Limits.{node_cells, row_cells};
ghost use Rattle.terms.specs.Ops.{not_op, next_op, always_for_op, within_op, and_op, implies_op};
ghost use Rattle.formula.specs.Table.{IsRule, Placed};
ghost use Rattle.monitor.specs.Table.{NodeNumbered};
ghost use Rattle.monitor.specs.Compile.{anchor};
ghost use Rattle.monitor.specs.Mon.{join_node};
ghost use Rattle.monitor.specs.Tape.{SameOut};
ghost use Rattle.compiler.specs.Compiled.{CompileReady, Implied, CheckLaid, CompiledAt, Answers, rule_call, compile_call};

use formula::table::{FormulaTable, Span};
use monitor::node::{MonNode, NodeTape, SignalExpr};
use monitor::range::AnchorRange;
use result::Refusal;
use terms::limit::{NODE_CELLS, ROW_CELLS};
use terms::op::{ALWAYS, ALWAYS_FOR, AND, IMPLIES, IN, NEXT, NOT, OR, OUT, VAR, WITHIN};

// Where a formula is checked: the steps, and whether it stands under a temporal operator.
// It stands beside the table, which is looked at, and the tape, which is written: of a tape lent in a struct nothing is known afterwards (lent, `Blank`).
#[derive(Clone, Copy, Debug, PartialEq, Eq)]
struct Scope {
    range: AnchorRange,
    temporal: bool,
}

impl Scope {
    // A `within` that is not under a temporal operator has range 0 to 0.
    fn anchored(self) -> AnchorRange
        ensures { result ≡ anchor self.temporal self.range }
    {
        if self.temporal {
            self.range
        } else {
            AnchorRange::upto(0)
        }
    }
}

// Stores one check, if the formula at p, with which the check's own ends, is pure; else refuses.
fn lay_if_pure(
    table: &FormulaTable,
    p: usize,
    refusal: Refusal,
    tape: &mut NodeTape,
    node: MonNode,
) -> Result<usize, Refusal>
    requires { Placed table.now.ops.now table.now.nums.now p × (row_cells * (tape.old.at + 1) ≤ length tape.old.out.now) × NodeNumbered node }
    ensures laid { CheckLaid table.now.ops.now table.now.nums.now p refusal tape.old node tape.new result }
    ensures same { SameOut tape.old tape.new }
{
    let e = table.boolean_over_atoms(p).ok_or(refusal)?;
    tape.put(node);
    Ok(e)
}

// An atom: a check at its range.
fn compile_atom(
    table: &FormulaTable,
    i: usize,
    scope: Scope,
    tape: &mut NodeTape,
) -> Result<usize, Refusal>
    requires { CompileReady table.now.ops.now table.now.nums.now i scope tape.old × (get_or table.now.ops.now i 0 < not_op) }
    ensures compiled { CompiledAt table.now.ops.now table.now.nums.now i scope tape.old tape.new result }
    ensures same { SameOut tape.old tape.new }
{
    let node = MonNode::RangeCheck {
        expr: SignalExpr::At(i),
        range: scope.range,
    };
    tape.put(node);
    Ok(i + 1)
}

fn compile_not(
    table: &FormulaTable,
    i: usize,
    scope: Scope,
    tape: &mut NodeTape,
) -> Result<usize, Refusal>
    requires { CompileReady table.now.ops.now table.now.nums.now i scope tape.old × (get_or table.now.ops.now i 0 ≡ not_op) }
    ensures compiled { CompiledAt table.now.ops.now table.now.nums.now i scope tape.old tape.new result }
    ensures same { SameOut tape.old tape.new }
{
    let node = MonNode::RangeCheck {
        expr: SignalExpr::At(i),
        range: scope.range,
    };
    lay_if_pure(table, i + 1, Refusal::NotOperand, tape, node)
}

fn compile_next(
    table: &FormulaTable,
    i: usize,
    scope: Scope,
    tape: &mut NodeTape,
) -> Result<usize, Refusal>
    requires { CompileReady table.now.ops.now table.now.nums.now i scope tape.old × (get_or table.now.ops.now i 0 ≡ next_op) }
    ensures compiled { CompiledAt table.now.ops.now table.now.nums.now i scope tape.old tape.new result }
    ensures same { SameOut tape.old tape.new }
{
    let node = MonNode::RangeCheck {
        expr: SignalExpr::At(i + 1),
        range: scope.range.shifted(),
    };
    lay_if_pure(table, i + 1, Refusal::NextOperand, tape, node)
}

fn compile_within(
    table: &FormulaTable,
    i: usize,
    scope: Scope,
    tape: &mut NodeTape,
) -> Result<usize, Refusal>
    requires { CompileReady table.now.ops.now table.now.nums.now i scope tape.old × (get_or table.now.ops.now i 0 ≡ within_op) }
    ensures compiled { CompiledAt table.now.ops.now table.now.nums.now i scope tape.old tape.new result }
    ensures same { SameOut tape.old tape.new }
{
    let node = MonNode::Obligation {
        bound: table.nums[i],
        trigger: SignalExpr::True,
        body: SignalExpr::At(i + 1),
        range: scope.anchored(),
    };
    lay_if_pure(table, i + 1, Refusal::WithinOperand, tape, node)
}

// `l implies within b f`: the right part stands at j.
fn compile_owed(
    table: &FormulaTable,
    i: usize,
    j: usize,
    scope: Scope,
    tape: &mut NodeTape,
) -> Result<usize, Refusal>
    requires { Implied table.now.ops.now table.now.nums.now i j scope tape.old × (get_or table.now.ops.now j 0 ≡ within_op) }
    ensures compiled { CompiledAt table.now.ops.now table.now.nums.now i scope tape.old tape.new result }
    ensures same { SameOut tape.old tape.new }
{
    let node = MonNode::Obligation {
        bound: table.nums[j],
        trigger: SignalExpr::At(i + 1),
        body: SignalExpr::At(j + 1),
        range: scope.anchored(),
    };
    lay_if_pure(table, j + 1, Refusal::WithinOperand, tape, node)
}

// `l implies next f`.
fn compile_delayed(
    table: &FormulaTable,
    i: usize,
    j: usize,
    scope: Scope,
    tape: &mut NodeTape,
) -> Result<usize, Refusal>
    requires { Implied table.now.ops.now table.now.nums.now i j scope tape.old × (get_or table.now.ops.now j 0 ≡ next_op) }
    ensures compiled { CompiledAt table.now.ops.now table.now.nums.now i scope tape.old tape.new result }
    ensures same { SameOut tape.old tape.new }
{
    let node = MonNode::DelayedCheck {
        antecedent: SignalExpr::At(i + 1),
        consequent: SignalExpr::At(j + 1),
        range: scope.range.shifted(),
    };
    lay_if_pure(table, j + 1, Refusal::NextConsequent, tape, node)
}

// A pure implication is itself the signal of its check.
fn compile_pure_implies(
    table: &FormulaTable,
    i: usize,
    j: usize,
    scope: Scope,
    tape: &mut NodeTape,
) -> Result<usize, Refusal>
    requires { Implied table.now.ops.now table.now.nums.now i j scope tape.old × (get_or table.now.ops.now j 0 ≡ within_op → ⊥) ×
        (get_or table.now.ops.now j 0 ≡ next_op → ⊥) }
    ensures compiled { CompiledAt table.now.ops.now table.now.nums.now i scope tape.old tape.new result }
    ensures same { SameOut tape.old tape.new }
{
    let node = MonNode::RangeCheck {
        expr: SignalExpr::At(i),
        range: scope.range,
    };
    lay_if_pure(table, j, Refusal::Consequent, tape, node)
}

fn compile_implies(
    table: &FormulaTable,
    i: usize,
    scope: Scope,
    tape: &mut NodeTape,
) -> Result<usize, Refusal>
    requires { CompileReady table.now.ops.now table.now.nums.now i scope tape.old × (get_or table.now.ops.now i 0 ≡ implies_op) }
    ensures compiled { CompiledAt table.now.ops.now table.now.nums.now i scope tape.old tape.new result }
    ensures same { SameOut tape.old tape.new }
{
    let j = table.boolean_over_atoms(i + 1).ok_or(Refusal::Antecedent)?;
    let op = table.ops[j];
    if op == WITHIN {
        return compile_owed(table, i, j, scope, tape);
    }
    if op == NEXT {
        return compile_delayed(table, i, j, scope, tape);
    }
    compile_pure_implies(table, i, j, scope, tape)
}

// The node that joins two parts.
fn join_node(op: u8) -> MonNode
    ensures { result ≡ join_node op }
{
    if op < OR { MonNode::And } else { MonNode::Or }
}

// Two parts joined: the node, then the left part's nodes, then the right's.
#[cycle(compile_always_for_compile_check_compile_pair)]
fn compile_pair(
    table: &FormulaTable,
    i: usize,
    scope: Scope,
    tape: &mut NodeTape,
) -> Result<usize, Refusal>
    requires { CompileReady table.now.ops.now table.now.nums.now i scope tape.old × (and_op ≤ get_or table.now.ops.now i 0) ×
        (get_or table.now.ops.now i 0 < implies_op) }
    ensures compiled { CompiledAt table.now.ops.now table.now.nums.now i scope tape.old tape.new result }
    ensures same { SameOut tape.old tape.new }
{
    tape.put(join_node(table.ops[i]));
    let right = compile_check(table, i + 1, scope, tape)?;
    compile_check(table, right, scope, tape)
}

// `always-for` is not allowed under a temporal operator, nor with bound 0.
#[cycle(compile_always_for_compile_check_compile_pair)]
fn compile_always_for(
    table: &FormulaTable,
    i: usize,
    scope: Scope,
    tape: &mut NodeTape,
) -> Result<usize, Refusal>
    requires { CompileReady table.now.ops.now table.now.nums.now i scope tape.old × (get_or table.now.ops.now i 0 ≡ always_for_op) }
    ensures compiled { CompiledAt table.now.ops.now table.now.nums.now i scope tape.old tape.new result }
    ensures same { SameOut tape.old tape.new }
{
    if scope.temporal {
        return Err(Refusal::NestedFor);
    }
    let b = table.nums[i];
    if b == 0 {
        return Err(Refusal::ZeroFor);
    }
    let under = Scope {
        range: AnchorRange::upto(b - 1),
        temporal: true,
    };
    compile_check(table, i + 1, under, tape)
}

// The formula at i, checked at the steps of the range. Its nodes go onto the tape; the answer is where the formula ends.
#[cycle(compile_always_for_compile_check_compile_pair)]
fn compile_check(
    table: &FormulaTable,
    i: usize,
    scope: Scope,
    tape: &mut NodeTape,
) -> Result<usize, Refusal>
    requires { CompileReady table.now.ops.now table.now.nums.now i scope tape.old }
    ensures compiled { CompiledAt table.now.ops.now table.now.nums.now i scope tape.old tape.new result }
    ensures same { SameOut tape.old tape.new }
{
    match table.ops[i] {
        VAR | IN | OUT => compile_atom(table, i, scope, tape),
        NOT => compile_not(table, i, scope, tape),
        NEXT => compile_next(table, i, scope, tape),
        ALWAYS => {
            let under = Scope {
                temporal: true,
                ..scope
            };
            compile_check(table, i + 1, under, tape)
        }
        ALWAYS_FOR => compile_always_for(table, i, scope, tape),
        WITHIN => compile_within(table, i, scope, tape),
        AND | OR => compile_pair(table, i, scope, tape),
        IMPLIES => compile_implies(table, i, scope, tape),
        _ => Err(Refusal::Liveness),
    }
}

// A rule that is a formula within the limits. Its nodes are laid aside first, so that a refusal leaves the output as it was.
fn compile_rule(table: &FormulaTable, span: Span, out: &mut [u64]) -> Result<usize, Refusal>
    requires { IsRule table.now.ops.now table.now.nums.now span.first span.count × (node_cells ≤ length out.old) }
    ensures { Answers (rule_call table.now.ops.now table.now.nums.now span.first span.count out.old) result out.new }
{
    let mut aside = [0u64; NODE_CELLS];
    let scope = Scope {
        range: AnchorRange::all(),
        temporal: false,
    };
    let mut tape = NodeTape {
        out: &mut aside,
        at: 0,
    };
    compile_check(table, span.first, scope, &mut tape)?;
    let rows = tape.at;
    let cells = ROW_CELLS * rows;
    out[..cells].copy_from_slice(&aside[..cells]);
    Ok(rows)
}

// Compiles the rule whose formula stands there into the rows of `out`, and answers how many they are.
#[tactic(auto, unfolding(crate::specs::Compiled::compile_call))]
pub fn compile_formula(table: &FormulaTable, span: Span, out: &mut [u64]) -> Result<usize, Refusal>
    ensures { Answers (compile_call table.now.ops.now table.now.nums.now span.first span.count out.old) result out.new }
{
    if out.len() < NODE_CELLS {
        return Err(Refusal::Short);
    }
    if !table.is_roomy() {
        return Err(Refusal::Short);
    }
    if !table.is_rule(span) {
        return Err(Refusal::Unfit);
    }
    compile_rule(table, span, out)
}
