// The bits of a node, of a rule and of a book's rules.
ghost use Rattle.std.specs.Prelude.{◌≡◌, ◌+◌, ◌*◌, ◌^◌, ◌<◌, ◌≤◌, eqb, length};
ghost use Rattle.terms.specs.Kinds.{property_kind};
ghost use Rattle.plan.specs.Width.{ceil_log2, width};
ghost use Rattle.plan.specs.Layout.{slot_in};
ghost use Rattle.plan.specs.Rows.{piece_of, row_pieces, Breadth, Summed, RowsPart};
ghost use Rattle.plan.specs.Book.{asked, of_kind, part_at, Chosen, Counted, Stored, Arranged};
ghost use Rattle.plan.specs.Lists.{is_property, compiles, own_bits, RulesRowed, SameBits};

use monitor::node::Rows;
use monitor::table::{Part, Tables};
use terms::form::{DELAYED, OBLIGATION};
use terms::kind::PROPERTY;

// What is lent of a book's rules: the tables that hold them, and a place for each: its kind (0 a property), its refusal (0: it compiles), the first
// place and the count of its formula, and the first row and the count of its nodes. The first `len` places are those of the book's rules.
#[derive(Clone, Copy)]
pub struct RuleList<'a> {
    pub tables: Tables<'a>,
    pub kinds: &'a [u8],
    pub refusals: &'a [u64],
    pub firsts: &'a [usize],
    pub counts: &'a [usize],
    pub nfirsts: &'a [usize],
    pub ncounts: &'a [usize],
    pub len: usize,
}

// The lent lists of the rules' first bits and bits.
#[derive(Drop)]
pub struct RuleBits<'a> {
    pub starts: &'a mut [u64],
    pub bits: &'a mut [u64],
}

// The bits of one node: of the pending flag, of the remaining count, of the remembered antecedent.
#[derive(Clone, Copy, Debug, PartialEq, Eq)]
pub struct Piece {
    pub pending: u64,
    pub remaining: u64,
    pub antecedent: u64,
}

// A node's bits, and where they begin, counted from the rule's first bit.
#[derive(Clone, Copy, Debug, PartialEq, Eq)]
pub struct Slot {
    pub offset: u64,
    pub piece: Piece,
}

// The bits that hold the numbers 0 to b: `ceil_log2` of b + 1, for the largest b too.
pub fn width_of(b: u64) -> u64
    ensures { result ≡ width b }
{
    if b == 0 {
        return 0;
    }
    u64::from(b.ilog2()) + 1
}

// The least k with n at most 2^k: 0 for 0 and 1.
pub fn ceil_log2(n: u64) -> u64
    ensures { result ≡ ceil_log2 n }
{
    if n == 0 {
        return 0;
    }
    width_of(n - 1)
}

// The bits of a node of a form with a bound.
pub fn piece_of(form: u64, bound: u64) -> Piece
    ensures { result ≡ piece_of form bound }
{
    match form {
        DELAYED => Piece {
            pending: 0,
            remaining: 0,
            antecedent: 1,
        },
        OBLIGATION if bound != 0 => Piece {
            pending: 1,
            remaining: width_of(bound),
            antecedent: 0,
        },
        _ => Piece {
            pending: 0,
            remaining: 0,
            antecedent: 0,
        },
    }
}

// The sum of a node's bits, at most 65.
fn breadth_of(form: u64, bound: u64) -> u64
    ensures { Breadth form bound result }
{
    let p = piece_of(form, bound);
    p.pending + p.remaining + p.antecedent
}

// The bits of all rows.
pub fn rule_bits(rows: &Rows) -> u64
    requires { RowsPart rows.now.nodes.now rows.now.first rows.now.count }
    ensures { Summed rows.now.nodes.now rows.now.first rows.now.count result }
{
    let mut sum = 0;
    for j in 0..rows.count {
        sum += breadth_of(rows.cell(j, 0), rows.cell(j, 1));
    }
    sum
}

// The slot of the node in row j.
pub fn slot_of(rows: &Rows, j: usize) -> Slot
    requires { (RowsPart rows.now.nodes.now rows.now.first rows.now.count) × (j < rows.now.count) }
    ensures { result ≡ slot_in (row_pieces rows.now.nodes.now rows.now.first rows.now.count) j }
{
    let offset = rule_bits(&Rows { count: j, ..*rows });
    let piece = piece_of(rows.cell(j, 0), rows.cell(j, 1));
    Slot { offset, piece }
}

// Whether a rule of a kind is what is asked: a property, or else an assumption. A `bool`, as document 01 asks it: is the rule a property.
fn is_asked(kind: u8, property: bool) -> bool
    ensures { result ≡ asked property (eqb kind property_kind) }
{
    property == (kind == PROPERTY)
}

// Kinds and refusals are numbers, as the lent lists of a book hold them: a refusal of 0 is none.
impl RuleList<'_> {
    // Rule r's part of the tables.
    pub fn part(&self, r: usize) -> Part
        requires { (r < length self.now.firsts.now) × ((r < length self.now.counts.now) × ((r < length self.now.nfirsts.now) × (r < length self.now.ncounts.now))) }
        ensures { result ≡ part_at self.now.firsts.now self.now.counts.now self.now.nfirsts.now self.now.ncounts.now r }
    {
        Part {
            first: self.firsts[r],
            count: self.counts[r],
            nfirst: self.nfirsts[r],
            ncount: self.ncounts[r],
        }
    }

    // The bits of rule r, if it compiles and is a property, or an assumption, as is asked; else 0.
    fn chosen_bits(&self, r: usize, property: bool) -> u64
        requires { (RulesRowed self.now) × (r < self.now.len) }
        ensures { Chosen (of_kind property (is_property self.now) (compiles self.now)) (own_bits self.now) r result }
    {
        if self.refusals[r] == 0 && is_asked(self.kinds[r], property) {
            let rows = Rows {
                nodes: self.tables.nodes,
                first: self.nfirsts[r],
                count: self.ncounts[r],
            };
            return rule_bits(&rows);
        }
        0
    }

    // The bits of all properties that compile, or else of all assumptions that do.
    pub fn kind_bits(&self, property: bool) -> u64
        requires { RulesRowed self.now }
        ensures { Counted (of_kind property (is_property self.now) (compiles self.now)) (own_bits self.now) self.now.len result }
    {
        let mut sum = 0;
        for r in 0..self.len {
            sum += self.chosen_bits(r, property);
        }
        sum
    }

    // The values of rule r: its first bit, x for a property and y for an assumption, and its bits. A rule that does not compile has none.
    fn store(&self, r: usize, x: u64, y: u64, b: u64, out: &mut RuleBits)
        requires { (r < length self.now.kinds.now) × ((r < length self.now.refusals.now) × ((r < length out.old.starts.now) × (r < length out.old.bits.now))) }
        ensures stored { Stored (compiles self.now r) (is_property self.now r) r x y b
            out.old.starts.now out.new.starts.now out.old.bits.now out.new.bits.now }
        ensures same { SameBits out.old out.new }
    {
        if self.refusals[r] != 0 {
            return;
        }
        out.bits[r] = b;
        out.starts[r] = if self.kinds[r] == PROPERTY { x } else { y };
    }

    // The first bits and the bits of the rules, by the rows of the node table. The first rule's begin at bit `base`.
    pub fn arrange(&self, base: u64, out: &mut RuleBits)
        requires { (RulesRowed self.now)
            × ((self.now.len ≤ length out.old.starts.now) × ((self.now.len ≤ length out.old.bits.now) × (base < 2 ^ 63))) }
        ensures arranged { Arranged base self.now.len (is_property self.now) (compiles self.now) (own_bits self.now)
            out.old.starts.now out.new.starts.now out.old.bits.now out.new.bits.now }
        ensures same { SameBits out.old out.new }
    {
        let mut x = 0;
        let mut y = self.kind_bits(true);
        for r in 0..self.len {
            let p = self.chosen_bits(r, true);
            let a = self.chosen_bits(r, false);
            self.store(r, base + x, base + y, p + a, out);
            x += p;
            y += a;
        }
    }
}
