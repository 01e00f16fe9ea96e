// The `live` line, with the skeleton's text.
ghost use Rattle.text.specs.Tape.{Wrote};
ghost use Rattle.text.specs.Lent.{tape_of, SameOut};
ghost use Rattle.listing_live.specs.Entry.{entry_text, entries_text, EntryIn, EntriesIn, live_text, LiveReady};

use formula::table::FormulaTable;
use listing_line::field::{put_number, put_text};
use result::Refusal;
use spelling::scan::put_word;
use split::parts::Parts;
use terms::entry::{OWED, WORD};
use text::write::Tape;

// One entry of a skeleton: a safety leaf with its place, an obligation with its number, or a word as operands have it.
fn put_entry(tape: &mut Tape, table: &FormulaTable, kind: u64, n: u64)
    requires { EntryIn table.now.ops.now table.now.nums.now kind n }
    ensures wrote { Wrote (tape_of tape.old) (entry_text table.now.ops.now table.now.nums.now kind n) (tape_of tape.new) }
    ensures same { SameOut tape.old tape.new }
{
    if kind < OWED {
        // `as`: the number fits, and a `TryFrom` would have an error that cannot be
        let p = n as usize;
        tape.put_byte(115);
        return put_word(tape, table.ops[p], table.nums[p], true);
    }
    if kind < WORD {
        tape.put_byte(35);
        return tape.put_decimal(n);
    }
    put_word(tape, kind as u8, 0, true);
}

// The first n entries of a skeleton: n is the split's own answer, beside its lent output.
pub(crate) fn put_skeleton(tape: &mut Tape, table: &FormulaTable, skeleton: &[u64], n: usize)
    requires { EntriesIn table.now.ops.now table.now.nums.now skeleton.now n }
    ensures wrote { Wrote (tape_of tape.old) (entries_text table.now.ops.now table.now.nums.now n skeleton.now) (tape_of tape.new) }
    ensures same { SameOut tape.old tape.new }
{
    for k in 0..n {
        put_entry(tape, table, skeleton[2 * k], skeleton[2 * k + 1]);
    }
}

// The line of a split's answer, with the skeleton's entries.
pub fn put_live(
    tape: &mut Tape,
    table: &FormulaTable,
    answer: Result<Option<Parts>, Refusal>,
    skeleton: &[u64],
)
    requires { LiveReady table.now.ops.now table.now.nums.now answer skeleton.now }
    ensures wrote { Wrote (tape_of tape.old) (live_text table.now.ops.now table.now.nums.now answer skeleton.now) (tape_of tape.new) }
    ensures same { SameOut tape.old tape.new }
{
    match answer {
        Ok(None) => put_text(tape, b"live\tnone\t-", 10),
        Ok(Some(parts)) => {
            put_text(tape, b"live\t0", 9);
            put_skeleton(tape, table, skeleton, parts.skeleton);
            tape.put_byte(10);
        }
        Err(refusal) => {
            put_text(tape, b"live", 9);
            put_number(tape, u64::from(refusal), 9);
            put_text(tape, b"-", 10);
        }
    }
}
