// One field of a line, and the mark behind it: a tab or LF.
ghost use Rattle.number.specs.Digits.{decimal};
ghost use Rattle.words.specs.Word.{spelling_of};
ghost use Rattle.text.specs.Tape.{Wrote};
ghost use Rattle.text.specs.Lent.{tape_of, SameOut};
ghost use Rattle.listing_line.specs.Line.{marked, absent};

use text::write::Tape;

pub fn put_text(tape: &mut Tape, s: &[u8], mark: u8)
    ensures wrote { Wrote (tape_of tape.old) (marked s.now mark) (tape_of tape.new) }
    ensures same { SameOut tape.old tape.new }
{
    tape.put_bytes(s);
    tape.put_byte(mark);
}

// A line word, by its number.
pub fn put_line_word(tape: &mut Tape, k: u8, mark: u8)
    ensures wrote { Wrote (tape_of tape.old) (marked (spelling_of k) mark) (tape_of tape.new) }
    ensures same { SameOut tape.old tape.new }
{
    tape.put_word(k);
    tape.put_byte(mark);
}

pub fn put_number(tape: &mut Tape, n: u64, mark: u8)
    ensures wrote { Wrote (tape_of tape.old) (marked (decimal n) mark) (tape_of tape.new) }
    ensures same { SameOut tape.old tape.new }
{
    tape.put_decimal(n);
    tape.put_byte(mark);
}

// `-`, for what is absent.
pub fn put_absent(tape: &mut Tape, mark: u8)
    ensures wrote { Wrote (tape_of tape.old) (marked absent mark) (tape_of tape.new) }
    ensures same { SameOut tape.old tape.new }
{
    tape.put_byte(45);
    tape.put_byte(mark);
}
