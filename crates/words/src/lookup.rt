// The word that bytes spell, by their length and their letters. Up to eight letters are compared at once, as one number.
// A function a length, and the letters written out in each: no constant array or byte string holds a word, so there is no table to go through.
ghost use Rattle.std.specs.Prelude.{[], ◌∷◌, ◌≡◌, length};
ghost use Rattle.words.specs.Coded.{Coded, sized};
ghost use Rattle.words.specs.Same.{eqbs};
ghost use Rattle.words.specs.Word.{vocabulary, lookup, word_of};

use crate::word::Word;
use terms::op::{
    ALWAYS, ALWAYS_FOR, AND, EVENTUALLY, IMPLIES, IN, NEXT, NOT, OR, OUT, UNTIL, VAR, WITHIN,
};

// Four letters as one number, and eight.
fn four_as_one(a: u8, b: u8, c: u8, d: u8) -> u64
    ensures { Coded (a ∷ b ∷ c ∷ d ∷ []) result }
{
    u64::from(a) + 256 * u64::from(b) + 65536 * u64::from(c) + 16777216 * u64::from(d)
}

fn as_one(a: u8, b: u8, c: u8, d: u8, e: u8, g: u8, h: u8, i: u8) -> u64
    ensures { Coded (a ∷ b ∷ c ∷ d ∷ e ∷ g ∷ h ∷ i ∷ []) result }
{
    four_as_one(a, b, c, d) + 4294967296 * four_as_one(e, g, h, i)
}

// The words of two letters.
fn of_two(f: &[u8]) -> Option<Word>
    requires { length f.now ≡ 2 }
    ensures { result ≡ lookup (sized 2 vocabulary) f.now }
{
    let w = as_one(f[0], f[1], 0, 0, 0, 0, 0, 0);
    if w == as_one(b'i', b'n', 0, 0, 0, 0, 0, 0) {
        return Some(Word::Atom(IN));
    }
    if w == as_one(b'o', b'r', 0, 0, 0, 0, 0, 0) {
        return Some(Word::Plain(OR));
    }
    None
}

// The words of three letters.
fn of_three(f: &[u8]) -> Option<Word>
    requires { length f.now ≡ 3 }
    ensures { result ≡ lookup (sized 3 vocabulary) f.now }
{
    let w = as_one(f[0], f[1], f[2], 0, 0, 0, 0, 0);
    if w == as_one(b'v', b'a', b'r', 0, 0, 0, 0, 0) {
        return Some(Word::Atom(VAR));
    }
    if w == as_one(b'o', b'u', b't', 0, 0, 0, 0, 0) {
        return Some(Word::Atom(OUT));
    }
    if w == as_one(b'n', b'o', b't', 0, 0, 0, 0, 0) {
        return Some(Word::Plain(NOT));
    }
    if w == as_one(b'a', b'n', b'd', 0, 0, 0, 0, 0) {
        return Some(Word::Plain(AND));
    }
    None
}

// The words of four letters.
fn of_four(f: &[u8]) -> Option<Word>
    requires { length f.now ≡ 4 }
    ensures { result ≡ lookup (sized 4 vocabulary) f.now }
{
    let w = as_one(f[0], f[1], f[2], f[3], 0, 0, 0, 0);
    if w == as_one(b'n', b'e', b'x', b't', 0, 0, 0, 0) {
        return Some(Word::Plain(NEXT));
    }
    if w == as_one(b'r', b'u', b'l', b'e', 0, 0, 0, 0) {
        return Some(Word::Rule);
    }
    if w == as_one(b's', b't', b'e', b'p', 0, 0, 0, 0) {
        return Some(Word::Step);
    }
    if w == as_one(b's', b'l', b'o', b't', 0, 0, 0, 0) {
        return Some(Word::Slot);
    }
    None
}

// The words of five letters.
fn of_five(f: &[u8]) -> Option<Word>
    requires { length f.now ≡ 5 }
    ensures { result ≡ lookup (sized 5 vocabulary) f.now }
{
    let w = as_one(f[0], f[1], f[2], f[3], f[4], 0, 0, 0);
    if w == as_one(b'u', b'n', b't', b'i', b'l', 0, 0, 0) {
        return Some(Word::Plain(UNTIL));
    }
    None
}

// The words of six letters.
fn of_six(f: &[u8]) -> Option<Word>
    requires { length f.now ≡ 6 }
    ensures { result ≡ lookup (sized 6 vocabulary) f.now }
{
    let w = as_one(f[0], f[1], f[2], f[3], f[4], f[5], 0, 0);
    if w == as_one(b'a', b'l', b'w', b'a', b'y', b's', 0, 0) {
        return Some(Word::Plain(ALWAYS));
    }
    if w == as_one(b'w', b'i', b't', b'h', b'i', b'n', 0, 0) {
        return Some(Word::Bounded(WITHIN));
    }
    if w == as_one(b's', b't', b'a', b't', b'e', b's', 0, 0) {
        return Some(Word::States);
    }
    None
}

// The words of seven letters.
fn of_seven(f: &[u8]) -> Option<Word>
    requires { length f.now ≡ 7 }
    ensures { result ≡ lookup (sized 7 vocabulary) f.now }
{
    let w = as_one(f[0], f[1], f[2], f[3], f[4], f[5], f[6], 0);
    if w == as_one(b'i', b'm', b'p', b'l', b'i', b'e', b's', 0) {
        return Some(Word::Plain(IMPLIES));
    }
    None
}

// Whether ten bytes are these letters: the first eight, then the last two.
fn ten(f: &[u8], a: u8, b: u8, c: u8, d: u8, e: u8, g: u8, h: u8, i: u8, j: u8, k: u8) -> bool
    requires { length f.now ≡ 10 }
    ensures { result ≡ eqbs f.now (a ∷ b ∷ c ∷ d ∷ e ∷ g ∷ h ∷ i ∷ j ∷ k ∷ []) }
{
    let w = as_one(f[0], f[1], f[2], f[3], f[4], f[5], f[6], f[7]);
    if w == as_one(a, b, c, d, e, g, h, i) {
        let v = as_one(f[8], f[9], 0, 0, 0, 0, 0, 0);
        return v == as_one(j, k, 0, 0, 0, 0, 0, 0);
    }
    false
}

// The words of ten letters.
fn of_ten(f: &[u8]) -> Option<Word>
    requires { length f.now ≡ 10 }
    ensures { result ≡ lookup (sized 10 vocabulary) f.now }
{
    if ten(
        f, b'e', b'v', b'e', b'n', b't', b'u', b'a', b'l', b'l', b'y',
    ) {
        return Some(Word::Plain(EVENTUALLY));
    }
    if ten(
        f, b'a', b'l', b'w', b'a', b'y', b's', b'-', b'f', b'o', b'r',
    ) {
        return Some(Word::Bounded(ALWAYS_FOR));
    }
    None
}

// The word that the bytes spell, if they spell one.
pub fn look_up(f: &[u8]) -> Option<Word>
    ensures { result ≡ word_of f.now }
{
    let n = f.len();
    if n == 2 {
        return of_two(f);
    }
    if n == 3 {
        return of_three(f);
    }
    if n == 4 {
        return of_four(f);
    }
    if n == 5 {
        return of_five(f);
    }
    if n == 6 {
        return of_six(f);
    }
    if n == 7 {
        return of_seven(f);
    }
    if n != 10 {
        return None;
    }
    of_ten(f)
}
