// Monitor nodes, and the flat table that holds them: seven numbers a node, in prefix order.
ghost use Rattle.std.specs.Prelude.{◌≡◌, ◌+◌, ◌*◌, ◌<◌, ◌≤◌, length};
ghost use Rattle.terms.specs.Limits.{row_cells};
ghost use Rattle.monitor.specs.Mon.{expr_number, has_last, last_of, row, node_row};
ghost use Rattle.monitor.specs.Table.{cell, expr_from, range_from, row_of, Numbered, NodeNumbered};
ghost use Rattle.monitor.specs.Tape.{RowLaid, SameOut};

use crate::range::{AnchorRange, End};
use terms::form::{AND, DELAYED, FORMS, OBLIGATION, OR, RANGE};
use terms::limit::ROW_CELLS;

// A signal: the constant true, or the pure formula at a place of the formula table. No `Option`: neither is a missing value.
#[derive(Clone, Copy, Debug, PartialEq, Eq)]
pub enum SignalExpr {
    True,
    At(usize),
}

// A node without its parts. A joined node's parts stand behind it.
#[derive(Clone, Copy, Debug, PartialEq, Eq)]
pub enum MonNode {
    RangeCheck {
        expr: SignalExpr,
        range: AnchorRange,
    },
    DelayedCheck {
        antecedent: SignalExpr,
        consequent: SignalExpr,
        range: AnchorRange,
    },
    Obligation {
        bound: u64,
        trigger: SignalExpr,
        body: SignalExpr,
        range: AnchorRange,
    },
    And,
    Or,
}

fn expr_number(e: SignalExpr) -> u64
    requires { Numbered e }
    ensures { result ≡ expr_number e }
{
    match e {
        SignalExpr::True => 0,
        // `as`: the number fits, and a `TryFrom` would have an error that cannot be
        SignalExpr::At(p) => p as u64 + 1,
    }
}

fn has_last(to: End) -> u64
    ensures { result ≡ has_last to }
{
    match to {
        End::Step(_) => 1,
        End::Open => 0,
    }
}

fn last_of(to: End) -> u64
    ensures { result ≡ last_of to }
{
    match to {
        End::Step(t) => t,
        End::Open => 0,
    }
}

// A lent node table, and the row where the next node goes.
#[derive(Drop)]
pub struct NodeTape<'a> {
    pub out: &'a mut [u64],
    pub at: usize,
}

impl NodeTape<'_> {
    // A node's seven numbers.
    fn put_row(&mut self, form: u64, bound: u64, range: AnchorRange, s: u64, t: u64)
        requires { row_cells * (self.old.at + 1) ≤ length self.old.out.now }
        ensures laid { RowLaid self.old (row form bound range s t) self.new }
        ensures same { SameOut self.old self.new }
    {
        let i = ROW_CELLS * self.at;
        let has = has_last(range.to);
        let last = last_of(range.to);
        self.out[i] = form;
        self.out[i + 1] = bound;
        self.out[i + 2] = range.from;
        self.out[i + 3] = has;
        self.out[i + 4] = last;
        self.out[i + 5] = s;
        self.out[i + 6] = t;
        self.at += 1;
    }

    // The row of a node.
    pub fn put(&mut self, node: MonNode)
        requires { (row_cells * (self.old.at + 1) ≤ length self.old.out.now) × NodeNumbered node }
        ensures laid { RowLaid self.old (node_row node) self.new }
        ensures same { SameOut self.old self.new }
    {
        match node {
            MonNode::RangeCheck { expr, range } => {
                self.put_row(RANGE, 0, range, expr_number(expr), 0);
            }
            MonNode::DelayedCheck {
                antecedent,
                consequent,
                range,
            } => {
                let s = expr_number(antecedent);
                let t = expr_number(consequent);
                self.put_row(DELAYED, 0, range, s, t);
            }
            MonNode::Obligation {
                bound,
                trigger,
                body,
                range,
            } => {
                let s = expr_number(trigger);
                let t = expr_number(body);
                self.put_row(OBLIGATION, bound, range, s, t);
            }
            MonNode::And => {
                self.put_row(AND, 0, none(), 0, 0);
            }
            MonNode::Or => {
                self.put_row(OR, 0, none(), 0, 0);
            }
        }
    }
}

// The range that a joined node's row shows: a joined node has none.
fn none() -> AnchorRange
    ensures { result ≡ range_from 0 0 0 }
{
    AnchorRange {
        from: 0,
        to: End::Open,
    }
}

fn expr_from(n: u64) -> SignalExpr
    ensures { result ≡ expr_from n }
{
    if n == 0 {
        return SignalExpr::True;
    }
    SignalExpr::At((n - 1) as usize)
}

fn range_from(from: u64, has: u64, to: u64) -> AnchorRange
    ensures { result ≡ range_from from has to }
{
    if has == 0 {
        return AnchorRange {
            from,
            to: End::Open,
        };
    }
    AnchorRange {
        from,
        to: End::Step(to),
    }
}

// Rows of a lent node table that are gone over together: a compiled rule's, or the first of them.
#[derive(Clone, Copy)]
pub struct Rows<'a> {
    pub nodes: &'a [u64],
    pub first: usize,
    pub count: usize,
}

impl Rows<'_> {
    // The node in row k, if its form is one.
    pub fn at(&self, k: usize) -> Option<MonNode>
        requires { row_cells * (self.now.first + k + 1) ≤ length self.now.nodes.now }
        ensures { result ≡ row_of self.now.nodes.now (self.now.first + k) }
    {
        row_at(self.nodes, self.first + k)
    }

    // The number in column `col` of row k.
    pub fn cell(&self, k: usize, col: usize) -> u64
        requires { (row_cells * (self.now.first + k + 1) ≤ length self.now.nodes.now) × (col < row_cells) }
        ensures { result ≡ cell self.now.nodes.now (self.now.first + k) col }
    {
        self.nodes[ROW_CELLS * (self.first + k) + col]
    }
}

// The node in row i, if its form is one.
#[tactic(auto, unfolding(crate::specs::Table::row_of))]
pub fn row_at(nodes: &[u64], i: usize) -> Option<MonNode>
    requires { row_cells * (i + 1) ≤ length nodes.now }
    ensures { result ≡ row_of nodes.now i }
{
    let k = ROW_CELLS * i;
    let form = nodes[k];
    if FORMS <= form {
        return None;
    }
    if OR <= form {
        return Some(MonNode::Or);
    }
    if AND <= form {
        return Some(MonNode::And);
    }
    let range = range_from(nodes[k + 2], nodes[k + 3], nodes[k + 4]);
    let s = expr_from(nodes[k + 5]);
    if form < DELAYED {
        return Some(MonNode::RangeCheck { expr: s, range });
    }
    let t = expr_from(nodes[k + 6]);
    if form < OBLIGATION {
        return Some(MonNode::DelayedCheck {
            antecedent: s,
            consequent: t,
            range,
        });
    }
    Some(MonNode::Obligation {
        bound: nodes[k + 1],
        trigger: s,
        body: t,
        range,
    })
}
