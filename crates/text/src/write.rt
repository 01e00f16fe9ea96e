// Bytes and numbers, written one behind another.
ghost use Rattle.std.specs.Prelude.{[], ◌∷◌};
ghost use Rattle.number.specs.Digits.{decimal};
ghost use Rattle.words.specs.Word.{spelling_of};
ghost use Rattle.text.specs.Tape.{Wrote, signed, Culprit};
ghost use Rattle.text.specs.Lent.{tape_of, SameOut};

use letters::{length, letter};

// Lent memory and the place in it where the next byte goes. No `fmt::Write`: a byte without room is left out, which is no error.
#[derive(Drop)]
pub struct Tape<'a> {
    pub out: &'a mut [u8],
    pub at: usize,
}

impl Tape<'_> {
    // One byte.
    pub fn put_byte(&mut self, b: u8)
        ensures wrote { Wrote (tape_of self.old) (b ∷ []) (tape_of self.new) }
        ensures same { SameOut self.old self.new }
    {
        if self.at < self.out.len() {
            self.out[self.at] = b;
            self.at += 1;
        }
    }

    // The bytes of a slice.
    pub fn put_bytes(&mut self, s: &[u8])
        ensures wrote { Wrote (tape_of self.old) s.now (tape_of self.new) }
        ensures same { SameOut self.old self.new }
    {
        for b in s {
            self.put_byte(*b);
        }
    }

    // The letters of a line word, by its number.
    pub fn put_word(&mut self, k: u8)
        ensures wrote { Wrote (tape_of self.old) (spelling_of k) (tape_of self.new) }
        ensures same { SameOut self.old self.new }
    {
        let n = length(k);
        for i in 0..n {
            self.put_byte(letter(k, i));
        }
    }

    // A number in decimal.
    pub fn put_decimal(&mut self, n: u64)
        ensures wrote { Wrote (tape_of self.old) (decimal n) (tape_of self.new) }
        ensures same { SameOut self.old self.new }
    {
        if n < 10 {
            // `as`: the number fits, and a `TryFrom` would have an error that cannot be
            return self.put_byte((48 + n) as u8);
        }
        self.put_decimal(n / 10);
        self.put_byte((48 + n % 10) as u8);
    }

    // A culprit: minus 1, or a step.
    pub fn put_signed(&mut self, z: i64)
        requires { Culprit z }
        ensures wrote { Wrote (tape_of self.old) (signed z) (tape_of self.new) }
        ensures same { SameOut self.old self.new }
    {
        if z < 0 {
            return self.put_bytes(b"-1");
        }
        self.put_decimal(z as u64);
    }
}
