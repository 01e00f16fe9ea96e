// What one line holds, or what is wrong about it, read without any state.
ghost use Rattle.std.specs.Prelude.{◌≡◌, ◌≤◌, ◌&&◌, leb, Some, length};
ghost use Rattle.std.specs.List.{list_all};
ghost use Rattle.number.specs.Number.{decimal_of, hex_of};
ghost use Rattle.line.specs.Line.{printable, is_label, kind_of, rule_kind, rule_line, atom_line, bound_line, step_line, states_line, slot_line, content, refusal_of};
ghost use Rattle.line.specs.Means.{LineIs, sort_in, behind, Tail, count_of, Anywhere, ReadAs, number_in, number_below};

use crate::text::{find, past, upto};
use number::{decimal, hex};
use result::Refusal;
use terms::kind::Kind;
use terms::limit::{LABEL_BYTES, SIGNALS, SLOT_MOST, STATES, STEPS};
use words::lookup::look_up;
use words::word::Word;

// A line's sort: where it may stand and which limits it has.
#[derive(Clone, Copy, Debug, PartialEq, Eq)]
pub enum Sort {
    Rule,
    Node,
    Step,
    States,
    Slot,
}

// What is wrong about a line's fields: a label or a kind, a number.
#[derive(Clone, Copy, Debug, PartialEq, Eq)]
pub enum Flaw {
    Label,
    Number,
}

impl From<Flaw> for Refusal {
    ghost from_gives = { λ f r. r ≡ refusal_of f };

    fn from(flaw: Flaw) -> Refusal {
        match flaw {
            Flaw::Label => Refusal::Label,
            Flaw::Number => Refusal::Number,
        }
    }
}

// What a right line holds; a rule's label, and a slot's name, is `len` bytes from `start` of the line on.
#[derive(Clone, Copy, Debug, PartialEq, Eq)]
pub enum Content {
    Rule {
        start: usize,
        len: usize,
        kind: Kind,
    },
    Node {
        op: u8,
        num: u64,
    },
    Step {
        step: u64,
        truths: u64,
    },
    States {
        count: u64,
    },
    Slot {
        start: usize,
        len: usize,
        width: u64,
    },
}

impl Content {
    pub fn sort(self) -> Sort
        ensures { result ≡ sort_in self }
    {
        match self {
            Content::Rule { .. } => Sort::Rule,
            Content::Node { .. } => Sort::Node,
            Content::Step { .. } => Sort::Step,
            Content::States { .. } => Sort::States,
            Content::Slot { .. } => Sort::Slot,
        }
    }
}

// Why a line holds nothing: its word is unknown or its field count wrong, or one of its fields is wrong.
#[derive(Clone, Copy, Debug, PartialEq, Eq)]
pub enum Fault {
    Unreadable,
    Field { sort: Sort, flaw: Flaw },
}

// Whether each byte is one of 0x21 to 0x7E.
fn is_printable(s: &[u8]) -> bool
    ensures { result ≡ list_all (λ b. leb 33 b && leb b 126) s.now }
{
    s.iter().all(|b| b.is_ascii_graphic())
}

// Whether the bytes are a label.
fn is_label(s: &[u8]) -> bool
    ensures { result ≡ is_label s.now }
{
    1 <= s.len() && s.len() <= LABEL_BYTES && is_printable(s)
}

// A rule's kind, if the bytes are one's.
fn kind(s: &[u8]) -> Option<Kind>
    ensures { result ≡ kind_of s.now }
{
    match s {
        b"P" => Some(Kind::Property),
        b"A" => Some(Kind::Assumption),
        _ => None,
    }
}

// The kind of a rule's head, none where the label or the kind is wrong.
fn rule_kind(label: &[u8], k: &[u8]) -> Option<Kind>
    ensures { result ≡ rule_kind label.now k.now }
{
    if is_label(label) { kind(k) } else { None }
}

// The number of a line of the sort.
fn number(n: Option<u64>, sort: Sort) -> Result<u64, Fault>
    ensures { result ≡ number_in n sort }
{
    n.ok_or(Fault::Field {
        sort,
        flaw: Flaw::Number,
    })
}

// .. in decimal digits, below a limit.
fn below(f: &[u8], limit: u64, sort: Sort) -> Result<u64, Fault>
    ensures { result ≡ number_below (decimal_of f.now) limit sort }
{
    number(decimal(f).filter(|n| *n < limit), sort)
}

// A rule's line: its label, which starts at `start` of the line, and its kind.
fn rule(label: &[u8], k: &[u8], start: usize) -> Result<Content, Fault>
    ensures { ReadAs label.now start (rule_line label.now k.now) result }
{
    let Some(kind) = rule_kind(label, k) else {
        return Err(Fault::Field {
            sort: Sort::Rule,
            flaw: Flaw::Label,
        });
    };
    Ok(Content::Rule {
        start,
        len: label.len(),
        kind,
    })
}

// An atom's line: its signal is at most 63.
fn atom(op: u8, f: &[u8]) -> Result<Content, Fault>
    ensures { Anywhere (atom_line op (decimal_of f.now)) result }
{
    let num = below(f, SIGNALS, Sort::Node)?;
    Ok(Content::Node { op, num })
}

// A node's line with a bound.
fn bound(op: u8, f: &[u8]) -> Result<Content, Fault>
    ensures { Anywhere (bound_line op (decimal_of f.now)) result }
{
    let num = number(decimal(f), Sort::Node)?;
    Ok(Content::Node { op, num })
}

// A step's line: its number is below 2^63.
fn step(s: &[u8], t: &[u8]) -> Result<Content, Fault>
    ensures { Anywhere (step_line (decimal_of s.now) (hex_of t.now)) result }
{
    let step = below(s, STEPS, Sort::Step)?;
    let truths = number(hex(t), Sort::Step)?;
    Ok(Content::Step { step, truths })
}

// The line of the states: their count is below 65,536.
fn states(f: &[u8]) -> Result<Content, Fault>
    ensures { Anywhere (states_line (decimal_of f.now)) result }
{
    let count = below(f, STATES, Sort::States)?;
    Ok(Content::States { count })
}

// A slot's line: its name, which starts at `start` of the line, and its width, at most 64.
fn slot(name: &[u8], w: &[u8], start: usize) -> Result<Content, Fault>
    ensures { ReadAs name.now start (slot_line name.now (decimal_of w.now)) result }
{
    if !is_label(name) {
        return Err(Fault::Field {
            sort: Sort::Slot,
            flaw: Flaw::Label,
        });
    }
    let width = below(w, SLOT_MOST + 1, Sort::Slot)?;
    Ok(Content::Slot {
        start,
        len: name.len(),
        width,
    })
}

// A line of `n` fields behind its word: f, which starts at `start` of the line, g, and others.
fn by_word(w: Word, n: usize, f: &[u8], g: &[u8], start: usize) -> Result<Content, Fault>
    ensures { ReadAs f.now start (content (Some w) (behind n f.now g.now)) result }
{
    if n != w.fields() {
        return Err(Fault::Unreadable);
    }
    match w {
        Word::Atom(op) => atom(op, f),
        Word::Plain(op) => Ok(Content::Node { op, num: 0 }),
        Word::Bounded(op) => bound(op, f),
        Word::Rule => rule(f, g, start),
        Word::Step => step(f, g),
        Word::States => states(f),
        Word::Slot => slot(f, g, start),
    }
}

// What stands past the tab at t; nothing where there is none.
fn behind_tab(l: &[u8], t: usize) -> &[u8]
    requires { t ≤ length l.now }
    ensures { Tail l.now t result.now }
{
    if t < l.len() {
        return past(l, t + 1);
    }
    past(l, t)
}

// How many fields stand behind a word, at most three of them told apart: whether a tab ends it, the field behind it, and the next.
fn count(first: bool, second: bool, third: bool) -> usize
    ensures { result ≡ count_of first second third }
{
    match (first, second, third) {
        (false, _, _) => 0,
        (true, false, _) => 1,
        (true, true, false) => 2,
        (true, true, true) => 3,
    }
}

// What a line holds.
pub fn read_line(l: &[u8]) -> Result<Content, Fault>
    ensures { LineIs l.now result }
{
    let t = find(l, 9);
    let Some(w) = look_up(upto(l, t)) else {
        return Err(Fault::Unreadable);
    };
    let rest = behind_tab(l, t);
    let u = find(rest, 9);
    let last = behind_tab(rest, u);
    let v = find(last, 9);
    let n = count(t < l.len(), u < rest.len(), v < last.len());
    by_word(w, n, upto(rest, u), last, l.len() - rest.len())
}
