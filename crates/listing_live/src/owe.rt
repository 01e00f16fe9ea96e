// The `owe` line of an obligation.
ghost use Rattle.std.specs.Prelude.{[], ◌∷◌};
ghost use Rattle.number.specs.Digits.{decimal};
ghost use Rattle.text.specs.Tape.{Wrote};
ghost use Rattle.text.specs.Lent.{tape_of, SameOut};
ghost use Rattle.listing_line.specs.Line.{tabbed};
ghost use Rattle.spelling.specs.Scan.{Pure};
ghost use Rattle.listing_live.specs.Live.{owe_word};
ghost use Rattle.listing_live.specs.Entry.{OweReady, OweWrote, OperandWrote, OwesReady, OwesWrote};

use formula::table::FormulaTable;
use listing_line::field::{put_number, put_text};
use spelling::scan::put_operand;
use terms::entry::UNTIL;
use text::write::Tape;

// The first three fields: the word, the index and the letter.
fn put_owe_head(tape: &mut Tape, k: u64, letter: u8)
    ensures wrote { Wrote (tape_of tape.old) (tabbed (owe_word ∷ decimal k ∷ (letter ∷ []) ∷ [])) (tape_of tape.new) }
    ensures same { SameOut tape.old tape.new }
{
    put_text(tape, b"owe", 9);
    put_number(tape, k, 9);
    tape.put_byte(letter);
    tape.put_byte(9);
}

// The text of the operand at i, and the mark behind it.
fn put_owed(tape: &mut Tape, table: &FormulaTable, i: u64, mark: u8)
    requires { Pure table.now.ops.now table.now.nums.now i }
    ensures wrote { OperandWrote table.now.ops.now table.now.nums.now i mark (tape_of tape.old) (tape_of tape.new) }
    ensures same { SameOut tape.old tape.new }
{
    // `as`: the number fits, and a `TryFrom` would have an error that cannot be
    put_operand(tape, table, i as usize);
    tape.put_byte(mark);
}

// Obligation k, from its three numbers: 0 and a place for `eventually`, 1 and two places for `until`.
pub(crate) fn put_owe(
    tape: &mut Tape,
    table: &FormulaTable,
    k: u64,
    kind: u64,
    first: u64,
    second: u64,
)
    requires { OweReady table.now.ops.now table.now.nums.now kind first second }
    ensures wrote { OweWrote table.now.ops.now table.now.nums.now k kind first second (tape_of tape.old) (tape_of tape.new) }
    ensures same { SameOut tape.old tape.new }
{
    if kind < UNTIL {
        put_owe_head(tape, k, 69);
        return put_owed(tape, table, first, 10);
    }
    put_owe_head(tape, k, 85);
    put_owed(tape, table, first, 9);
    put_owed(tape, table, second, 10);
}

// The lines of the first n obligations, numbered from 0: n is the split's own answer, beside its lent output.
pub fn put_owes(tape: &mut Tape, table: &FormulaTable, owed: &[u64], n: usize)
    requires { OwesReady table.now.ops.now table.now.nums.now owed.now n }
    ensures wrote { OwesWrote table.now.ops.now table.now.nums.now owed.now n (tape_of tape.old) (tape_of tape.new) }
    ensures same { SameOut tape.old tape.new }
{
    for k in 0..n {
        let kind = owed[3 * k];
        let first = owed[3 * k + 1];
        let second = owed[3 * k + 2];
        put_owe(tape, table, k as u64, kind, first, second);
    }
}
