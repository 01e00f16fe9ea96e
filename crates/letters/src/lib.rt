// The words that a line can begin with, by their numbers (crate terms, op.rt and word.rt): how many letters each has, and its letter at a place.
// The letters come from decisions, a function a word: no constant array or byte string holds a word, so there is no table to index.
#![tactic(auto)]

ghost use Rattle.std.specs.Prelude.{◌≡◌};
ghost use Rattle.terms.specs.Ops.{var_op, in_op, out_op, not_op, next_op, always_op, eventually_op, always_for_op, within_op, and_op, or_op, implies_op, until_op};
ghost use Rattle.terms.specs.Words.{word_rule, word_step, word_states, word_slot};
ghost use Rattle.letters.specs.Letters.{Letters};
ghost use Rattle.words.specs.Word.{spelling_of, length_of, letter_of};

// How many letters word k has, 0 where there is no such word.
#[tactic(auto, unfolding(words::specs::Word::length_of))]
pub fn length(k: u8) -> usize
    ensures { result ≡ length_of k }
{
    match k {
        0 => 3,
        1 => 2,
        2 => 3,
        3 => 3,
        4 => 4,
        5 => 6,
        6 => 10,
        7 => 10,
        8 => 6,
        9 => 3,
        10 => 2,
        11 => 7,
        12 => 5,
        13 => 4,
        14 => 4,
        15 => 6,
        16 => 4,
        _ => 0,
    }
}

// The letter at place i of word k, 0 past its end and where there is no such word.
pub fn letter(k: u8, i: usize) -> u8
    ensures { result ≡ letter_of k i }
{
    match k {
        0 => var_letter(i),
        1 => in_letter(i),
        2 => out_letter(i),
        3 => not_letter(i),
        4 => next_letter(i),
        5 => always_letter(i),
        6 => eventually_letter(i),
        7 => always_for_letter(i),
        8 => within_letter(i),
        9 => and_letter(i),
        10 => or_letter(i),
        11 => implies_letter(i),
        12 => until_letter(i),
        13 => rule_letter(i),
        14 => step_letter(i),
        15 => states_letter(i),
        16 => slot_letter(i),
        _ => 0,
    }
}

// The letter at place i of each word, 0 past its end. A long word is read in two halves, each of so few letters that no table is made of them.
fn var_letter(i: usize) -> u8
    ensures { Letters (spelling_of var_op) 0 i result }
{
    match i {
        0 => b'v',
        1 => b'a',
        2 => b'r',
        _ => 0,
    }
}

fn in_letter(i: usize) -> u8
    ensures { Letters (spelling_of in_op) 0 i result }
{
    match i {
        0 => b'i',
        1 => b'n',
        _ => 0,
    }
}

fn out_letter(i: usize) -> u8
    ensures { Letters (spelling_of out_op) 0 i result }
{
    match i {
        0 => b'o',
        1 => b'u',
        2 => b't',
        _ => 0,
    }
}

fn not_letter(i: usize) -> u8
    ensures { Letters (spelling_of not_op) 0 i result }
{
    match i {
        0 => b'n',
        1 => b'o',
        2 => b't',
        _ => 0,
    }
}

fn next_letter(i: usize) -> u8
    ensures { Letters (spelling_of next_op) 0 i result }
{
    match i {
        0 => b'n',
        1 => b'e',
        2 => b'x',
        3 => b't',
        _ => 0,
    }
}

fn always_letter(i: usize) -> u8
    ensures { Letters (spelling_of always_op) 0 i result }
{
    match i {
        0 => b'a',
        1 => b'l',
        2 => b'w',
        3 => b'a',
        4 => b'y',
        5 => b's',
        _ => 0,
    }
}

fn eventually_letter(i: usize) -> u8
    ensures { Letters (spelling_of eventually_op) 0 i result }
{
    if i < 5 {
        return match i {
            0 => b'e',
            1 => b'v',
            2 => b'e',
            3 => b'n',
            4 => b't',
            _ => 0,
        };
    }
    match i {
        5 => b'u',
        6 => b'a',
        7 => b'l',
        8 => b'l',
        9 => b'y',
        _ => 0,
    }
}

fn always_for_letter(i: usize) -> u8
    ensures { Letters (spelling_of always_for_op) 0 i result }
{
    if i < 5 {
        return match i {
            0 => b'a',
            1 => b'l',
            2 => b'w',
            3 => b'a',
            4 => b'y',
            _ => 0,
        };
    }
    match i {
        5 => b's',
        6 => b'-',
        7 => b'f',
        8 => b'o',
        9 => b'r',
        _ => 0,
    }
}

fn within_letter(i: usize) -> u8
    ensures { Letters (spelling_of within_op) 0 i result }
{
    match i {
        0 => b'w',
        1 => b'i',
        2 => b't',
        3 => b'h',
        4 => b'i',
        5 => b'n',
        _ => 0,
    }
}

fn and_letter(i: usize) -> u8
    ensures { Letters (spelling_of and_op) 0 i result }
{
    match i {
        0 => b'a',
        1 => b'n',
        2 => b'd',
        _ => 0,
    }
}

fn or_letter(i: usize) -> u8
    ensures { Letters (spelling_of or_op) 0 i result }
{
    match i {
        0 => b'o',
        1 => b'r',
        _ => 0,
    }
}

fn implies_letter(i: usize) -> u8
    ensures { Letters (spelling_of implies_op) 0 i result }
{
    if i < 4 {
        return match i {
            0 => b'i',
            1 => b'm',
            2 => b'p',
            3 => b'l',
            _ => 0,
        };
    }
    match i {
        4 => b'i',
        5 => b'e',
        6 => b's',
        _ => 0,
    }
}

fn until_letter(i: usize) -> u8
    ensures { Letters (spelling_of until_op) 0 i result }
{
    match i {
        0 => b'u',
        1 => b'n',
        2 => b't',
        3 => b'i',
        4 => b'l',
        _ => 0,
    }
}

fn rule_letter(i: usize) -> u8
    ensures { Letters (spelling_of word_rule) 0 i result }
{
    match i {
        0 => b'r',
        1 => b'u',
        2 => b'l',
        3 => b'e',
        _ => 0,
    }
}

fn step_letter(i: usize) -> u8
    ensures { Letters (spelling_of word_step) 0 i result }
{
    match i {
        0 => b's',
        1 => b't',
        2 => b'e',
        3 => b'p',
        _ => 0,
    }
}

fn states_letter(i: usize) -> u8
    ensures { Letters (spelling_of word_states) 0 i result }
{
    match i {
        0 => b's',
        1 => b't',
        2 => b'a',
        3 => b't',
        4 => b'e',
        5 => b's',
        _ => 0,
    }
}

fn slot_letter(i: usize) -> u8
    ensures { Letters (spelling_of word_slot) 0 i result }
{
    match i {
        0 => b's',
        1 => b'l',
        2 => b'o',
        3 => b't',
        _ => 0,
    }
}
