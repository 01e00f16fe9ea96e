// A book read into memory of its own, for the programs.
#![tactic(auto)]

ghost use Rattle.std.specs.Prelude.{◌≡◌, ◌<◌, get_or};
ghost use Rattle.terms.specs.Limits.{book_rules};
ghost use Rattle.opened.specs.Opened.{CompilesAt, Opens, ReadsIn, blank_book};

use book::check::{Read, Refused};
use compiler::compile_formula;
use formula::table::{FormulaTable, Span};
use reader::read::read_book;
use reader::tables::{BookTables, SlotTables};
use result::Refusal;
use terms::limit::{
    BOOK_CELLS, BOOK_NODES, BOOK_RULES, BOOK_SLOTS, LABELS_ROOM, NAMES_ROOM, ROW_CELLS,
};

// The tables that `read_book` fills, document 01's lists of plain numbers, and how much was read into them.
#[derive(Clone, Copy)]
pub struct Book {
    pub read: Read,
    pub labels: [u8; LABELS_ROOM],
    pub lens: [usize; BOOK_RULES],
    pub kinds: [u8; BOOK_RULES],
    pub firsts: [usize; BOOK_RULES],
    pub counts: [usize; BOOK_RULES],
    pub ops: [u8; BOOK_NODES],
    pub nums: [u64; BOOK_NODES],
    pub names: [u8; NAMES_ROOM],
    pub sizes: [usize; BOOK_SLOTS],
    pub widths: [u64; BOOK_SLOTS],
}

impl Book {
    // A book in which nothing is read: tables of zeros. Inlined, so that they are zeros in place.
    #[inline(always)]
    pub fn blank() -> Book
        ensures { result ≡ blank_book }
    {
        Book {
            read: Read {
                rules: 0,
                nodes: 0,
                steps_at: 0,
                slots: 0,
                states: None,
            },
            labels: [0; LABELS_ROOM],
            lens: [0; BOOK_RULES],
            kinds: [0; BOOK_RULES],
            firsts: [0; BOOK_RULES],
            counts: [0; BOOK_RULES],
            ops: [0; BOOK_NODES],
            nums: [0; BOOK_NODES],
            names: [0; NAMES_ROOM],
            sizes: [0; BOOK_SLOTS],
            widths: [0; BOOK_SLOTS],
        }
    }

    // Reads a book into these tables. A refusal leaves all as it was.
    pub fn read_in(&mut self, text: &[u8]) -> Result<(), Refused>
        ensures { ReadsIn text.now self.old result self.new }
    {
        let mut tables = BookTables {
            labels: &mut self.labels,
            lens: &mut self.lens,
            kinds: &mut self.kinds,
            firsts: &mut self.firsts,
            counts: &mut self.counts,
            ops: &mut self.ops,
            nums: &mut self.nums,
        };
        let mut slots = SlotTables {
            names: &mut self.names,
            lens: &mut self.sizes,
            widths: &mut self.widths,
        };
        let read = read_book(text, &mut tables, &mut slots)?;
        self.read = read;
        Ok(())
    }

    // The formula table.
    pub fn formulas(&self) -> FormulaTable
        ensures ops { result.ops.now ≡ self.now.ops }
        ensures nums { result.nums.now ≡ self.now.nums }
    {
        FormulaTable {
            ops: &self.ops,
            nums: &self.nums,
        }
    }

    // Where rule r's formula stands.
    pub fn formula(&self, r: usize) -> Span
        requires { r < book_rules }
        ensures first { result.first ≡ get_or self.now.firsts r 0 }
        ensures count { result.count ≡ get_or self.now.counts r 0 }
    {
        Span {
            first: self.firsts[r],
            count: self.counts[r],
        }
    }

    // Compiles rule r into the rows from its formula's own place on: it has no more nodes than its formula.
    pub fn compile(&self, r: usize, nodes: &mut [u64; BOOK_CELLS]) -> Result<usize, Refusal>
        requires { r < book_rules }
        ensures { CompilesAt self.now.ops self.now.nums (get_or self.now.firsts r 0) (get_or self.now.counts r 0) nodes.old result nodes.new }
    {
        let span = self.formula(r);
        if BOOK_NODES < span.first {
            return Err(Refusal::Unfit);
        }
        compile_formula(&self.formulas(), span, &mut nodes[ROW_CELLS * span.first..])
    }
}

// Reads a book.
pub fn open_book(text: &[u8]) -> Result<Book, Refused>
    ensures { Opens text.now result }
{
    let mut book = Book::blank();
    book.read_in(text)?;
    Ok(book)
}
