// The `node` line of a compiled rule's node.
ghost use Rattle.std.specs.Prelude.{[], ◌∷◌};
ghost use Rattle.number.specs.Digits.{decimal};
ghost use Rattle.text.specs.Tape.{Wrote};
ghost use Rattle.text.specs.Lent.{tape_of, SameOut};
ghost use Rattle.listing_line.specs.Line.{tabbed, marked};
ghost use Rattle.listing_line.specs.Node.{node_word, end_text, SignalReady, NodeReady, ExprWrote, NodeWrote};

use crate::field::{put_absent, put_number, put_text};
use formula::table::FormulaTable;
use monitor::node::{MonNode, SignalExpr};
use monitor::range::{AnchorRange, End};
use spelling::scan::put_signal;
use text::write::Tape;

// The first three fields: the word, the id and the form.
fn put_head(tape: &mut Tape, id: u64, form: u8)
    ensures wrote { Wrote (tape_of tape.old) (tabbed (node_word ∷ decimal id ∷ (form ∷ []) ∷ [])) (tape_of tape.new) }
    ensures same { SameOut tape.old tape.new }
{
    put_text(tape, b"node", 9);
    put_number(tape, id, 9);
    tape.put_byte(form);
    tape.put_byte(9);
}

// The end of a range: its last step, or `*`.
fn put_end(tape: &mut Tape, to: End)
    ensures wrote { Wrote (tape_of tape.old) (marked (end_text to) 9) (tape_of tape.new) }
    ensures same { SameOut tape.old tape.new }
{
    match to {
        End::Step(t) => put_number(tape, t, 9),
        End::Open => put_text(tape, b"*", 9),
    }
}

fn put_range(tape: &mut Tape, range: AnchorRange)
    ensures wrote { Wrote (tape_of tape.old) (tabbed (decimal range.from ∷ end_text range.to ∷ [])) (tape_of tape.new) }
    ensures same { SameOut tape.old tape.new }
{
    put_number(tape, range.from, 9);
    put_end(tape, range.to);
}

// A signal's text, and the mark behind it.
fn put_expr(tape: &mut Tape, table: &FormulaTable, e: SignalExpr, mark: u8)
    requires { SignalReady table.now.ops.now table.now.nums.now e }
    ensures wrote { ExprWrote table.now.ops.now table.now.nums.now e mark (tape_of tape.old) (tape_of tape.new) }
    ensures same { SameOut tape.old tape.new }
{
    match e {
        SignalExpr::True => put_text(tape, b"T", mark),
        SignalExpr::At(p) => {
            put_signal(tape, table, p);
            tape.put_byte(mark);
        }
    }
}

// The line of a node with number `id`.
pub fn put_node(tape: &mut Tape, table: &FormulaTable, id: u64, node: MonNode)
    requires { NodeReady table.now.ops.now table.now.nums.now node }
    ensures wrote { NodeWrote table.now.ops.now table.now.nums.now id node (tape_of tape.old) (tape_of tape.new) }
    ensures same { SameOut tape.old tape.new }
{
    match node {
        MonNode::RangeCheck { expr, range } => {
            put_head(tape, id, 67);
            put_absent(tape, 9);
            put_range(tape, range);
            put_expr(tape, table, expr, 9);
            put_absent(tape, 10);
        }
        MonNode::DelayedCheck {
            antecedent,
            consequent,
            range,
        } => {
            put_head(tape, id, 68);
            put_absent(tape, 9);
            put_range(tape, range);
            put_expr(tape, table, antecedent, 9);
            put_expr(tape, table, consequent, 10);
        }
        MonNode::Obligation {
            bound,
            trigger,
            body,
            range,
        } => {
            put_head(tape, id, 66);
            put_number(tape, bound, 9);
            put_range(tape, range);
            put_expr(tape, table, trigger, 9);
            put_expr(tape, table, body, 10);
        }
        MonNode::And => {
            put_head(tape, id, 65);
            put_text(tape, b"-\t-\t-\t-\t-", 10);
        }
        MonNode::Or => {
            put_head(tape, id, 79);
            put_text(tape, b"-\t-\t-\t-\t-", 10);
        }
    }
}
