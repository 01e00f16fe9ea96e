// The rules of a book compiled into one node table, and laid out.
ghost use Rattle.std.specs.Prelude.{◌<◌, ◌≤◌};
ghost use Rattle.terms.specs.Limits.{book_rules};

use alike::alike;
use encoding::{ConfigEncoding, Opening};
use layout::book::layout;
use layout::rule::{layout_for, node_slot};
use monitor::table::{Part, Tables};
use opened::Book;
use plan::layout::{RuleBits, RuleList, Slot};
use result::Refusal;
use terms::limit::{BOOK_CELLS, BOOK_RULES, BOOK_SLOTS};

// The rules of a book in the node table: for each how many nodes it has, and the number of its refusal, or 0. `layout` is lent both as lists of numbers.
#[derive(Clone, Copy)]
pub(crate) struct Rules {
    pub book: Book,
    pub nodes: [u64; BOOK_CELLS],
    pub ncounts: [usize; BOOK_RULES],
    pub refusals: [u64; BOOK_RULES],
    ghost few: { book.read.rules ≤ book_rules },
}

impl Rules {
    // Compiles the rules of the book, in place: a struct that is answered is copied, 87 KB of it.
    pub(crate) fn compile(&mut self) {
        for r in 0..self.count() {
            match self.book.compile(r, &mut self.nodes) {
                Ok(k) => self.ncounts[r] = k,
                Err(refusal) => self.refusals[r] = u64::from(refusal),
            }
        }
    }

    pub(crate) fn count(&self) -> usize
        ensures { result ≤ book_rules }
    {
        self.book.read.rules
    }

    // The tables that hold the rules.
    fn tables(&self) -> Tables {
        Tables::new(&self.book.ops, &self.book.nums, &self.nodes)
    }

    // Where rule r lies.
    pub(crate) fn part(&self, r: usize) -> Part
        requires { r < book_rules }
    {
        let span = self.book.formula(r);
        Part {
            first: span.first,
            count: span.count,
            nfirst: span.first,
            ncount: self.ncounts[r],
        }
    }

    // The bits of the rule at a part.
    pub(crate) fn own_bits(&self, a: Part) -> Result<u64, Refusal> {
        layout_for(&self.tables(), a)
    }

    // The bits of node j of the rule at a part.
    pub(crate) fn slot(&self, a: Part, j: usize) -> Result<Slot, Refusal> {
        node_slot(&self.tables(), a, j)
    }

    // Whether the rules at two parts are alike.
    pub(crate) fn alike(&self, a: Part, b: Part) -> Result<bool, Refusal> {
        alike(&self.tables(), a, b)
    }

    // Lays out the first n rules, behind what a book opens with.
    pub(crate) fn lay_out(&self, n: usize, opening: &Opening) -> Laid {
        let mut starts = [0u64; BOOK_RULES];
        let mut bits = [0u64; BOOK_RULES];
        let mut places = [0u64; BOOK_SLOTS];
        let rules = RuleList {
            tables: self.tables(),
            kinds: &self.book.kinds,
            refusals: &self.refusals,
            firsts: &self.book.firsts,
            counts: &self.book.counts,
            nfirsts: &self.book.firsts,
            ncounts: &self.ncounts,
            len: n,
        };
        let mut out = RuleBits {
            starts: &mut starts,
            bits: &mut bits,
        };
        let plan = layout(&rules, opening, &mut out, &mut places);
        Laid {
            plan,
            starts,
            bits,
            places,
        }
    }
}

// The numbers of the whole, or why there are none; first bits and bits of the rules, and the first bits of the slots.
#[derive(Clone, Copy)]
pub(crate) struct Laid {
    pub plan: Result<ConfigEncoding, Refusal>,
    pub starts: [u64; BOOK_RULES],
    pub bits: [u64; BOOK_RULES],
    pub places: [u64; BOOK_SLOTS],
}
