// watch: reads a book on standard input, compiles its first rule, makes a monitor of it and steps it over the book's steps, monitor and table of node structs
// lent to each call, and prints `report STEP CULPRIT`, `no report`, or what was refused. Then, for each rule, it prints how many entries and obligations its
// liveness split has, `no split`, or what was refused.
#![tactic(auto)]

mod rule;

use crate::rule::{Report, watch_rule};
use formula::table::Span;
use input::{TEXT_ROOM, read_full};
use lending::split_over;
use lending_read::read_over;
use node_table::FormulaNode;
use reader::tables::SlotTables;
use result::Refusal;
use split::parts::Parts;
use std::io;
use table_read::RuleTables;
use terms::kind::Kind;
use terms::limit::{
    BOOK_NODES, BOOK_RULES, BOOK_SLOTS, LABELS_ROOM, NAMES_ROOM, OWED_ROOM, SKELETON_ROOM,
};

fn show_watched(rt: &impl Print, watched: Result<Option<Report>, Refusal>) -> io::Result<()> {
    match watched {
        Ok(Some(report)) => println!(rt; "{report}"),
        Ok(None) => println!(rt; "no report"),
        Err(refusal) => println!(rt; "{refusal}"),
    }
}

fn show_split(rt: &impl Print, answer: Result<Option<Parts>, Refusal>) -> io::Result<()> {
    match answer {
        Ok(Some(parts)) => println!(rt; "split {} {}", parts.skeleton, parts.owed),
        Ok(None) => println!(rt; "no split"),
        Err(refusal) => println!(rt; "split {refusal}"),
    }
}

fn watch_book(rt: &impl Print, text: &[u8]) -> io::Result<()> {
    let mut labels = [0u8; LABELS_ROOM];
    let mut lens = [0usize; BOOK_RULES];
    let mut kinds = [0u8; BOOK_RULES];
    let mut firsts = [0usize; BOOK_RULES];
    let mut counts = [0usize; BOOK_RULES];
    let mut names = [0u8; NAMES_ROOM];
    let mut sizes = [0usize; BOOK_SLOTS];
    let mut widths = [0u64; BOOK_SLOTS];
    let blank = [FormulaNode { op: 0, num: 0 }; BOOK_NODES];
    let mut rules = RuleTables {
        labels: &mut labels,
        lens: &mut lens,
        kinds: &mut kinds,
        firsts: &mut firsts,
        counts: &mut counts,
    };
    let mut slots = SlotTables {
        names: &mut names,
        lens: &mut sizes,
        widths: &mut widths,
    };
    let read = read_over(text, &mut rules, blank, &mut slots);
    let table = read.table;
    match read.answer {
        Err(refused) => println!(rt; "book {} line {}", refused.refusal, refused.line),
        Ok(book) => {
            if book.rules == 0 {
                return println!(rt; "nothing to watch");
            }
            let span = Span {
                first: firsts[0],
                count: counts[0],
            };
            show_watched(rt, watch_rule(text, book.steps_at, table, span))?;
            for r in 0..book.rules.min(BOOK_RULES) {
                let span = Span {
                    first: firsts[r],
                    count: counts[r],
                };
                let mut skeleton = [0u64; SKELETON_ROOM];
                let mut owed = [0u64; OWED_ROOM];
                let answer = split_over(
                    table,
                    span,
                    kinds[r] == u8::from(Kind::Assumption),
                    &mut skeleton,
                    &mut owed,
                );
                show_split(rt, answer)?;
            }
            Ok(())
        }
    }
}

fn main(rt: HostRuntime) -> io::Result<()> {
    let mut text = [0u8; TEXT_ROOM];
    let n = read_full(&mut rt.stdin(), &mut text)?;
    watch_book(&rt, &text[..n])
}
