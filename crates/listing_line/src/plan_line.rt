// The `plan` line.
ghost use Rattle.std.specs.Prelude.{[], ◌∷◌};
ghost use Rattle.number.specs.Digits.{decimal};
ghost use Rattle.text.specs.Tape.{Wrote};
ghost use Rattle.text.specs.Lent.{tape_of, SameOut};
ghost use Rattle.listing_line.specs.Line.{tabbed};
ghost use Rattle.listing_line.specs.Plan.{plan_word, plan_line};

use crate::field::{put_number, put_text};
use encoding::ConfigEncoding;
use text::write::Tape;

// The first three fields: the word, the bits of the state and those of the slots.
fn put_plan_head(tape: &mut Tape, state: u64, vars: u64)
    ensures wrote { Wrote (tape_of tape.old) (tabbed (plan_word ∷ decimal state ∷ decimal vars ∷ [])) (tape_of tape.new) }
    ensures same { SameOut tape.old tape.new }
{
    put_text(tape, b"plan", 9);
    put_number(tape, state, 9);
    put_number(tape, vars, 9);
}

// The line of a configuration's numbers.
pub fn put_plan(tape: &mut Tape, e: ConfigEncoding)
    ensures wrote { Wrote (tape_of tape.old) (plan_line e) (tape_of tape.new) }
    ensures same { SameOut tape.old tape.new }
{
    put_plan_head(tape, e.state_bits, e.vars_bits);
    put_number(tape, e.monitors_bits, 9);
    put_number(tape, e.total_bits, 9);
    put_number(tape, e.total_bytes, 10);
}
