// The lists of a book's rules: what reading leaves, what compiling fills, and all of them with the rules' places.
ghost use Rattle.std.specs.Prelude.{◌≡◌};

use formula::table::FormulaTable;
use monitor::table::Tables;
use plan::layout::RuleList;

// What reading leaves of a book: its rule list, of which the first `len` places are taken, and the formula table.
#[derive(Clone, Copy)]
pub struct BookLists<'a> {
    pub labels: &'a [u8],
    pub lens: &'a [usize],
    pub kinds: &'a [u8],
    pub firsts: &'a [usize],
    pub counts: &'a [usize],
    pub formulas: FormulaTable<'a>,
    pub len: usize,
}

// What compiling a book's rules fills: the node table, and each rule's first row, count and refusal, lists of plain numbers as document 01's layout
// is lent them.
#[derive(Drop)]
pub struct RuleTables<'a> {
    pub nodes: &'a mut [u64],
    pub nfirsts: &'a mut [usize],
    pub ncounts: &'a mut [usize],
    pub refusals: &'a mut [u64],
}

// A book's rules, compiled and placed: the rule list, the labels, and each rule's first bit and bits.
#[derive(Clone, Copy)]
pub struct PlacedRules<'a> {
    pub labels: &'a [u8],
    pub lens: &'a [usize],
    pub rules: RuleList<'a>,
    pub starts: &'a [u64],
    pub bits: &'a [u64],
}

impl RuleTables<'_> {
    // The book's rules, as they were compiled.
    pub fn rules<'a, 'b: 'a>(&'a self, book: &BookLists<'b>) -> RuleList<'a>
        ensures ops { result.tables.formulas.ops.now ≡ book.now.formulas.ops.now }
        ensures nums { result.tables.formulas.nums.now ≡ book.now.formulas.nums.now }
        ensures nodes { result.tables.nodes.now ≡ self.now.nodes.now }
        ensures kinds { result.kinds.now ≡ book.now.kinds.now }
        ensures refusals { result.refusals.now ≡ self.now.refusals.now }
        ensures firsts { result.firsts.now ≡ book.now.firsts.now }
        ensures counts { result.counts.now ≡ book.now.counts.now }
        ensures nfirsts { result.nfirsts.now ≡ self.now.nfirsts.now }
        ensures ncounts { result.ncounts.now ≡ self.now.ncounts.now }
        ensures len { result.len ≡ book.now.len }
    {
        RuleList {
            tables: Tables::new(book.formulas.ops, book.formulas.nums, self.nodes),
            kinds: book.kinds,
            refusals: self.refusals,
            firsts: book.firsts,
            counts: book.counts,
            nfirsts: self.nfirsts,
            ncounts: self.ncounts,
            len: book.len,
        }
    }
}
