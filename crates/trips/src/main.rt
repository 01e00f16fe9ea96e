// Runs the trips of document 01 as any caller would: the book of each is read, its rule compiled, laid out, stepped from a fresh monitor and
// split, and what the calls answer is printed, one line a trip.
#![tactic(auto)]

use compiler::compile_formula;
use input::{TEXT_ROOM, read_full};
use layout::rule::{layout_for, node_slot};
use lent::{Blank, Frame};
use monitor::table::{Part, Tables};
use node_step::state::Memory;
use opened::{Book, open_book};
use reader::steps::next_step;
use split::parts::split;
use std::rt::Files;
use std::{fs, io};
use stepping::call::step;
use stepping::fresh::fresh;
use terms::entry::{NOT, OWED, SAFETY};
use terms::limit::{BOOK_NODES, NODE_CELLS, OWED_ROOM, RULE_NODES, SKELETON_ROOM};
use terms::op;
use terms::op::{IN, VAR};

// A compiled rule: the tables that hold it, and where it lies in them.
#[derive(Clone, Copy)]
struct Rule<'a> {
    tables: Tables<'a>,
    part: Part,
}

impl Rule<'_> {
    // The bits of the rule.
    fn show_bits(&self, rt: &impl Print) -> io::Result<()> {
        let bits = layout_for(&self.tables, self.part);
        match bits {
            Ok(n) => print!(rt; ", bits {n}"),
            Err(refusal) => print!(rt; ", bits {refusal}"),
        }
    }

    // The bits of each node, where they begin and how many are for what: pending, remaining, the antecedent before.
    fn show_slots(&self, rt: &impl Print) -> io::Result<()> {
        for j in 0..self.part.ncount {
            let slot = node_slot(&self.tables, self.part, j);
            match slot {
                Ok(s) => print!(rt;
                    ", node {j} at {} bits {}+{}+{}",
                    s.offset, s.piece.pending, s.piece.remaining, s.piece.antecedent
                )?,
                Err(refusal) => print!(rt; ", node {j} {refusal}")?,
            }
        }
        Ok(())
    }

    // The reports of the rule over the step lines from a place of the text on, at most 100, from its fresh monitor.
    fn show_reports(&self, rt: &impl Print, text: &[u8], steps_at: usize) -> io::Result<()> {
        let mut forms = [0u64; RULE_NODES];
        let mut bounds = [0u64; RULE_NODES];
        let mut held = [false; RULE_NODES];
        let mut remaining = [0u64; RULE_NODES];
        let mut failed = [false; RULE_NODES];
        let mut culprits = [0i64; RULE_NODES];
        let mut memory = Memory {
            held: &mut held,
            remaining: &mut remaining,
            failed: &mut failed,
            culprits: &mut culprits,
        };
        let mut blank = Blank {
            forms: &mut forms,
            bounds: &mut bounds,
        };
        let made = fresh(&self.tables, self.part, &mut blank, &mut memory);
        let size = match made {
            Ok(size) => size,
            Err(refusal) => return print!(rt; ", monitor {refusal}"),
        };
        let frame = Frame {
            size,
            forms: &forms,
            bounds: &bounds,
        };
        let mut reported = false;
        let mut at = steps_at;
        for _ in 0..100 {
            let Some(line) = next_step(text, at) else {
                break;
            };
            let mut memory = Memory {
                held: &mut held,
                remaining: &mut remaining,
                failed: &mut failed,
                culprits: &mut culprits,
            };
            let verdict = step(
                &self.tables,
                self.part,
                &frame,
                &mut memory,
                line.step,
                line.truths,
            );
            match verdict {
                Ok(true) => {
                    print!(rt; ", report {} culprit {}", line.step, culprits[0])?;
                    reported = true;
                }
                Ok(false) => {}
                Err(refusal) => print!(rt; ", call {refusal}")?,
            }
            at = line.next;
        }
        if !reported {
            print!(rt; ", no report")?;
        }
        Ok(())
    }
}

// The atom at a place: its letter and its signal.
fn show_atom(rt: &impl Print, book: &Book, p: u64) -> io::Result<()> {
    // `as`: the number fits, and a `TryFrom` would have an error that cannot be
    let i = p as usize;
    if BOOK_NODES <= i {
        return Ok(());
    }
    let n = book.nums[i];
    match book.ops[i] {
        VAR => print!(rt; "sv{n}"),
        IN => print!(rt; "si{n}"),
        _ => print!(rt; "so{n}"),
    }
}

const AND: u64 = op::AND as u64;

const OR: u64 = op::OR as u64;

// One entry of a skeleton: a safety leaf with its place, an obligation with its number, or an operator.
fn show_entry(rt: &impl Print, book: &Book, kind: u64, n: u64) -> io::Result<()> {
    match kind {
        SAFETY => show_atom(rt, book, n),
        OWED => print!(rt; "#{n}"),
        NOT => print!(rt; "!"),
        AND => print!(rt; "&"),
        OR => print!(rt; "|"),
        _ => print!(rt; ">"),
    }
}

// The split of a property.
fn show_live(rt: &impl Print, book: &Book) -> io::Result<()> {
    let mut skeleton = [0u64; SKELETON_ROOM];
    let mut owed = [0u64; OWED_ROOM];
    let answer = split(
        &book.formulas(),
        book.formula(0),
        false,
        &mut skeleton,
        &mut owed,
    );
    match answer {
        Ok(None) => print!(rt; ", live none"),
        Ok(Some(parts)) => {
            print!(rt; ", live 0 skeleton ")?;
            for entry in skeleton.chunks_exact(2).take(parts.skeleton) {
                show_entry(rt, book, entry[0], entry[1])?;
            }
            print!(rt; " obligations {}", parts.owed)
        }
        Err(refusal) => print!(rt; ", live {}", u64::from(refusal)),
    }
}

// The first rule of a book, over its steps.
fn run_rule(rt: &impl Print, text: &[u8], book: &Book) -> io::Result<()> {
    let span = book.formula(0);
    let mut nodes = [0u64; NODE_CELLS];
    match compile_formula(&book.formulas(), span, &mut nodes) {
        Err(refusal) => print!(rt; ": compile {}", u64::from(refusal))?,
        Ok(ncount) => {
            let rule = Rule {
                tables: Tables::new(&book.ops, &book.nums, &nodes),
                part: Part {
                    first: span.first,
                    count: span.count,
                    nfirst: 0,
                    ncount,
                },
            };
            print!(rt; ": compile 0")?;
            rule.show_bits(rt)?;
            rule.show_slots(rt)?;
            rule.show_reports(rt, text, book.read.steps_at)?;
        }
    }
    show_live(rt, book)
}

// The trip whose book has this name in data/.
fn run(rt: &(impl Files + Print), name: &str) -> io::Result<()> {
    print!(rt; "{name}")?;
    match fs::open(rt, name) {
        Err(_) => println!(rt; ": no book"),
        Ok(mut file) => {
            let mut text = [0u8; TEXT_ROOM];
            let got = read_full(&mut file, &mut text)?;
            let text = &text[..got];
            match open_book(text) {
                Err(refused) => print!(rt; ": book {} line {}", refused.refusal, refused.line)?,
                Ok(book) => run_rule(rt, text, &book)?,
            }
            println!(rt; "")
        }
    }
}

// Those under `always`, those that stand alone, the bounds and their bits.
const TRIPS: [&str; 21] = [
    "within_0",
    "within_1",
    "whole_case",
    "whole_case_answered",
    "second_trigger",
    "one_of_two",
    "next_step",
    "either_always",
    "bare_signal",
    "bare_within",
    "bare_within_answered",
    "always_for_1",
    "always_for_0",
    "always_for_0_nested",
    "eventually_or",
    "eventually_and",
    "bound_0",
    "bound_1",
    "bound_3",
    "bound_4",
    "bound_largest",
];

fn main(rt: HostRuntime) -> io::Result<()> {
    for name in TRIPS {
        run(&rt, name)?;
    }
    Ok(())
}
