// A pure formula's prefix text: its nodes stand in prefix order, so the table is read from left to right.
ghost use Rattle.std.specs.Prelude.{true, false, [], ◌∷◌, ◌-◌, ◌<◌};
ghost use Rattle.formula.specs.Formula.{node};
ghost use Rattle.formula.specs.Spells.{run};
ghost use Rattle.formula.specs.Table.{node_at};
ghost use Rattle.text.specs.Tape.{Wrote};
ghost use Rattle.text.specs.Lent.{tape_of, SameOut};
ghost use Rattle.spelling.specs.Scan.{letter, node_text, run_text, Pure, Inside, Spelled};

use formula::table::FormulaTable;
use terms::op::{AND, IMPLIES, IN, NEXT, NOT, OR, OUT, UNTIL};
use text::write::Tape;

// An atom's letter: v, i or o.
fn put_letter(tape: &mut Tape, op: u8)
    requires { op < 3 }
    ensures wrote { Wrote (tape_of tape.old) (letter op ∷ []) (tape_of tape.new) }
    ensures same { SameOut tape.old tape.new }
{
    if op < IN {
        return tape.put_byte(b'v');
    }
    if op < OUT {
        return tape.put_byte(b'i');
    }
    tape.put_byte(b'o');
}

// What the node of word `op` with number `n` adds to the text.
pub fn put_word(tape: &mut Tape, op: u8, n: u64, owing: bool)
    ensures wrote { Wrote (tape_of tape.old) (node_text owing (node op n)) (tape_of tape.new) }
    ensures same { SameOut tape.old tape.new }
{
    if op < NOT {
        put_letter(tape, op);
        return tape.put_decimal(n);
    }
    if op < NEXT {
        return tape.put_byte(b'!');
    }
    if op < AND {
        return;
    }
    if op < OR {
        return tape.put_byte(b'&');
    }
    if op < IMPLIES {
        return tape.put_byte(b'|');
    }
    if UNTIL <= op {
        return;
    }
    if owing {
        return tape.put_byte(b'>');
    }
    tape.put_byte(b'|');
    tape.put_byte(b'!');
}

// What the nodes from i up to e add to the text.
fn put_run(tape: &mut Tape, table: &FormulaTable, i: usize, e: usize, owing: bool)
    requires { Inside table.now.ops.now table.now.nums.now i e }
    ensures wrote { Wrote (tape_of tape.old) (run_text owing (run (node_at table.now.ops.now table.now.nums.now) i (e - i))) (tape_of tape.new) }
    ensures same { SameOut tape.old tape.new }
{
    for j in i..e {
        put_word(tape, table.ops[j], table.nums[j], owing);
    }
}

// The text of the pure formula at i, as an operand or as a signal.
fn put_formula(tape: &mut Tape, table: &FormulaTable, i: usize, owing: bool)
    requires { Pure table.now.ops.now table.now.nums.now i }
    ensures wrote { Spelled table.now.ops.now table.now.nums.now i owing (tape_of tape.old) (tape_of tape.new) }
    ensures same { SameOut tape.old tape.new }
{
    if let Some(e) = table.boolean_over_atoms(i) {
        return put_run(tape, table, i, e, owing);
    }
}

// A signal's text: implies is `|!`.
pub fn put_signal(tape: &mut Tape, table: &FormulaTable, i: usize)
    requires { Pure table.now.ops.now table.now.nums.now i }
    ensures wrote { Spelled table.now.ops.now table.now.nums.now i false (tape_of tape.old) (tape_of tape.new) }
    ensures same { SameOut tape.old tape.new }
{
    put_formula(tape, table, i, false);
}

// An operand's text: implies is `>`.
pub fn put_operand(tape: &mut Tape, table: &FormulaTable, i: usize)
    requires { Pure table.now.ops.now table.now.nums.now i }
    ensures wrote { Spelled table.now.ops.now table.now.nums.now i true (tape_of tape.old) (tape_of tape.new) }
    ensures same { SameOut tape.old tape.new }
{
    put_formula(tape, table, i, true);
}
