// The `rule` line.
ghost use Rattle.std.specs.Prelude.{[], ◌∷◌};
ghost use Rattle.number.specs.Digits.{decimal};
ghost use Rattle.line.specs.Line.{kind_byte};
ghost use Rattle.text.specs.Tape.{Wrote};
ghost use Rattle.text.specs.Lent.{tape_of, SameOut};
ghost use Rattle.listing_line.specs.Line.{line, tabbed, marked};
ghost use Rattle.listing_line.specs.Rule.{rule_word, alike_text, compiling_fields, rule_line};

use crate::field::{put_absent, put_line_word, put_number, put_text};
use terms::kind::PROPERTY;
use terms::word::RULE;
use text::write::Tape;

// What compiling a rule gave: its first bit, its bits, and the first earlier rule that is alike, if there is one.
#[derive(Clone, Copy, Debug, PartialEq, Eq)]
pub struct Compiled {
    pub first: u64,
    pub bits: u64,
    pub alike: Option<u64>,
}

fn put_alike(tape: &mut Tape, alike: Option<u64>)
    ensures wrote { Wrote (tape_of tape.old) (marked (alike_text alike) 10) (tape_of tape.new) }
    ensures same { SameOut tape.old tape.new }
{
    match alike {
        Some(n) => put_number(tape, n, 10),
        None => put_absent(tape, 10),
    }
}

// The four last fields. A refusal is told by its number, as the lent lists have it.
fn put_compiling(tape: &mut Tape, c: Result<Compiled, u64>)
    ensures wrote { Wrote (tape_of tape.old) (line (compiling_fields c)) (tape_of tape.new) }
    ensures same { SameOut tape.old tape.new }
{
    match c {
        Ok(Compiled { first, bits, alike }) => {
            put_text(tape, b"0", 9);
            put_number(tape, first, 9);
            put_number(tape, bits, 9);
            put_alike(tape, alike);
        }
        Err(n) => {
            put_number(tape, n, 9);
            put_text(tape, b"-\t-\t-", 10);
        }
    }
}

// A kind: `P` for 0, a property, else `A`, an assumption.
fn put_kind(tape: &mut Tape, kind: u8)
    ensures wrote { Wrote (tape_of tape.old) (marked (kind_byte kind ∷ []) 9) (tape_of tape.new) }
    ensures same { SameOut tape.old tape.new }
{
    if kind == PROPERTY {
        return put_text(tape, b"P", 9);
    }
    put_text(tape, b"A", 9);
}

// The first three fields: the word, the number and the label.
fn put_rule_head(tape: &mut Tape, number: u64, label: &[u8])
    ensures wrote { Wrote (tape_of tape.old) (tabbed (rule_word ∷ decimal number ∷ label.now ∷ [])) (tape_of tape.new) }
    ensures same { SameOut tape.old tape.new }
{
    put_line_word(tape, RULE, 9);
    put_number(tape, number, 9);
    put_text(tape, label, 9);
}

// The line of a rule.
pub fn put_rule(tape: &mut Tape, number: u64, label: &[u8], kind: u8, c: Result<Compiled, u64>)
    ensures wrote { Wrote (tape_of tape.old) (rule_line number label.now kind c) (tape_of tape.new) }
    ensures same { SameOut tape.old tape.new }
{
    put_rule_head(tape, number, label);
    put_kind(tape, kind);
    put_compiling(tape, c);
}
