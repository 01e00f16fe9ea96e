// Reads each stored book of data/ into tables that hold a mark at every place, and prints the answer, what the tables hold, whether every
// place past the book keeps its mark, and the steps.
#![tactic(auto)]

use book::check::{Read, Refused};
use input::{TEXT_ROOM, read_full};
use letters::{length, letter};
use reader::read::read_book;
use reader::steps::next_step;
use reader::tables::{BookTables, SlotTables};
use std::rt::Files;
use std::{fs, io, str};
use terms::limit::{BOOK_NODES, BOOK_RULES, BOOK_SLOTS, LABEL_BYTES, LABELS_ROOM, NAMES_ROOM};
use terms::word::{RULE, SLOT, STEP};

// Tables of different lengths, most of them longer than a book needs.
#[derive(Drop)]
struct Tables {
    labels: [u8; 2050],
    lens: [usize; 66],
    kinds: [u8; 65],
    firsts: [usize; BOOK_RULES],
    counts: [usize; 70],
    ops: [u8; 1030],
    nums: [u64; BOOK_NODES],
    names: [u8; 1026],
    sizes: [usize; BOOK_SLOTS],
    widths: [u64; 34],
}

fn put(rt: &impl Print, s: &[u8]) -> io::Result<()> {
    rt.write_all(s)
}

// A line word, by its number. Four lines, in slots too: a shared function would want a contract of what is written.
fn show_word(rt: &impl Print, k: u8) -> io::Result<()> {
    for i in 0..length(k) {
        put(rt, &[letter(k, i)])?;
    }
    Ok(())
}

// A number behind a tab.
fn show(rt: &impl Print, n: u64) -> io::Result<()> {
    put(rt, b"\t")?;
    rt.print(n)
}

fn show_size(rt: &impl Print, n: usize) -> io::Result<()> {
    // `as`: the number fits, and a `TryFrom` would have an error that cannot be
    show(rt, n as u64)
}

// Whether every place of a table from `from` on holds its mark.
fn told<T: PartialEq>(rt: &impl Print, table: &[T], from: usize, mark: &T) -> io::Result<()> {
    if table.iter().skip(from).all(|x| x == mark) {
        put(rt, b" kept")
    } else {
        put(rt, b" LOST")
    }
}

// Whether every table keeps its marks past so many rules, nodes and slots.
fn told_all(
    rt: &impl Print,
    t: &Tables,
    rules: usize,
    nodes: usize,
    slots: usize,
) -> io::Result<()> {
    if BOOK_RULES < rules || BOOK_SLOTS < slots {
        return Ok(());
    }
    told(rt, &t.labels, LABEL_BYTES * rules, &46)?;
    told(rt, &t.lens, rules, &7)?;
    told(rt, &t.kinds, rules, &7)?;
    told(rt, &t.firsts, rules, &7)?;
    told(rt, &t.counts, rules, &7)?;
    told(rt, &t.ops, nodes, &7)?;
    told(rt, &t.nums, nodes, &7)?;
    told(rt, &t.names, LABEL_BYTES * slots, &46)?;
    told(rt, &t.sizes, slots, &7)?;
    told(rt, &t.widths, slots, &7)
}

// The count of states, or that no `states` line stood.
fn show_states(rt: &impl Print, states: Option<u64>) -> io::Result<()> {
    match states {
        None => put(rt, b"\t-"),
        Some(n) => show(rt, n),
    }
}

// Each slot: its 32 bytes of name, their length and its width.
fn show_slots(rt: &impl Print, t: &Tables, slots: usize) -> io::Result<()> {
    let cells = t.names.chunks(LABEL_BYTES);
    for ((name, size), width) in cells.zip(&t.sizes).zip(&t.widths).take(slots) {
        show_word(rt, SLOT)?;
        put(rt, b" ")?;
        put(rt, name)?;
        show_size(rt, *size)?;
        show(rt, *width)?;
        put(rt, b"\n")?;
    }
    Ok(())
}

// Each rule: its 32 bytes of label, its length, kind, first place and count.
fn show_rules(rt: &impl Print, t: &Tables, rules: usize) -> io::Result<()> {
    let places = t.firsts.iter().zip(&t.counts);
    let heads = t.labels.chunks(LABEL_BYTES).zip(&t.lens).zip(&t.kinds);
    for (((label, len), kind), (first, count)) in heads.zip(places).take(rules) {
        show_word(rt, RULE)?;
        put(rt, b" ")?;
        put(rt, label)?;
        show_size(rt, *len)?;
        show(rt, u64::from(*kind))?;
        show_size(rt, *first)?;
        show_size(rt, *count)?;
        put(rt, b"\n")?;
    }
    Ok(())
}

fn show_nodes(rt: &impl Print, t: &Tables, nodes: usize) -> io::Result<()> {
    for (op, num) in t.ops.iter().zip(&t.nums).take(nodes) {
        put(rt, b"node")?;
        show(rt, u64::from(*op))?;
        show(rt, *num)?;
        put(rt, b"\n")?;
    }
    Ok(())
}

// The steps from a place on, at most 100.
fn show_steps(rt: &impl Print, text: &[u8], from: usize) -> io::Result<()> {
    let mut at = from;
    for _ in 0..100 {
        let Some(line) = next_step(text, at) else {
            return Ok(());
        };
        show_word(rt, STEP)?;
        show(rt, line.step)?;
        show(rt, line.truths)?;
        put(rt, b"\n")?;
        at = line.next;
    }
    Ok(())
}

// Why a book is refused, and the line.
fn show_refused(rt: &impl Print, refused: Refused) -> io::Result<()> {
    put(rt, b" refused")?;
    show(rt, u64::from(refused.refusal))?;
    show_size(rt, refused.line)
}

// The answer, and what the tables hold.
fn report(
    rt: &impl Print,
    text: &[u8],
    t: &Tables,
    answer: Result<Read, Refused>,
) -> io::Result<()> {
    match answer {
        Err(refused) => {
            show_refused(rt, refused)?;
            told_all(rt, t, 0, 0, 0)?;
            put(rt, b"\n")
        }
        Ok(read) => {
            put(rt, b" read")?;
            show_size(rt, read.rules)?;
            show_size(rt, read.nodes)?;
            show_size(rt, read.steps_at)?;
            show_size(rt, read.slots)?;
            show_states(rt, read.states)?;
            told_all(rt, t, read.rules, read.nodes, read.slots)?;
            put(rt, b"\n")?;
            show_slots(rt, t, read.slots)?;
            show_rules(rt, t, read.rules)?;
            show_nodes(rt, t, read.nodes)?;
            show_steps(rt, text, read.steps_at)
        }
    }
}

// A text read into tables that hold marks.
fn read_text(rt: &impl Print, text: &[u8]) -> io::Result<()> {
    let mut t = Tables {
        labels: [46; 2050],
        lens: [7; 66],
        kinds: [7; 65],
        firsts: [7; BOOK_RULES],
        counts: [7; 70],
        ops: [7; 1030],
        nums: [7; BOOK_NODES],
        names: [46; 1026],
        sizes: [7; BOOK_SLOTS],
        widths: [7; 34],
    };
    let mut tables = BookTables {
        labels: &mut t.labels,
        lens: &mut t.lens,
        kinds: &mut t.kinds,
        firsts: &mut t.firsts,
        counts: &mut t.counts,
        ops: &mut t.ops,
        nums: &mut t.nums,
    };
    let mut slots = SlotTables {
        names: &mut t.names,
        lens: &mut t.sizes,
        widths: &mut t.widths,
    };
    let answer = read_book(text, &mut tables, &mut slots);
    report(rt, text, &t, answer)
}

// Tables that are too short: refusal 1, before 3.
fn read_short(rt: &impl Print, text: &[u8]) -> io::Result<()> {
    let mut tables = BookTables {
        labels: &mut [46; LABELS_ROOM],
        lens: &mut [7; BOOK_RULES],
        kinds: &mut [7; BOOK_RULES],
        firsts: &mut [7; BOOK_RULES],
        counts: &mut [7; 63],
        ops: &mut [7; BOOK_NODES],
        nums: &mut [7; BOOK_NODES],
    };
    let mut slots = SlotTables {
        names: &mut [46; NAMES_ROOM],
        lens: &mut [7; BOOK_SLOTS],
        widths: &mut [7; BOOK_SLOTS],
    };
    let answer = read_book(text, &mut tables, &mut slots);
    put(rt, b"short tables")?;
    match answer {
        Err(refused) => show_refused(rt, refused)?,
        Ok(_) => put(rt, b" READ")?,
    }
    put(rt, b"\n")
}

// Book number n of data/: its name has three digits.
fn run(rt: &(impl Files + Print), n: u8) -> io::Result<bool> {
    let name = [b'b', 48 + n / 100, 48 + n / 10 % 10, 48 + n % 10];
    let path = str::from_utf8(&name).unwrap();
    match fs::open(rt, path) {
        Err(_) => Ok(false),
        Ok(mut file) => {
            let mut text = [0u8; TEXT_ROOM];
            let got = read_full(&mut file, &mut text)?;
            put(rt, &name)?;
            read_text(rt, &text[..got])?;
            Ok(true)
        }
    }
}

fn run_all(rt: &(impl Files + Print)) -> io::Result<()> {
    for n in 0..200 {
        if !run(rt, n)? {
            return Ok(());
        }
    }
    Ok(())
}

fn main(rt: HostRuntime) -> io::Result<()> {
    run_all(&rt)?;
    let long = [0u8; TEXT_ROOM];
    read_short(&rt, &long)
}
