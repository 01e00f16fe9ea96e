// The tables that hold compiled rules, and the validation of a rule's part of them.
ghost use Rattle.std.specs.Prelude.{◌≡◌, ◌+◌, ◌*◌, ◌≤◌, length};
ghost use Rattle.terms.specs.Limits.{row_cells};
ghost use Rattle.formula.specs.Table.{is_some};
ghost use Rattle.formula.specs.Walk.{Walked};
ghost use Rattle.monitor.specs.Table.{signal_by, cell_by, kind_of, any_check};
ghost use Rattle.monitor.specs.Tables.{RuleIn, roomy_in, span_of, rule_in, rows_in, cells_in, compiled_in};

use crate::node::{MonNode, Rows, SignalExpr, row_at};
use formula::table::{FormulaTable, Span};
use terms::limit::{DEEPEST, NODE_CELLS, ROW_CELLS, RULE_NODES};

// The lent tables: formulas, and the nodes that they compile to.
#[derive(Clone, Copy)]
pub struct Tables<'a> {
    pub formulas: FormulaTable<'a>,
    pub nodes: &'a [u64],
}

// A compiled rule's part of the tables: its formula's first place and count, its nodes' first row and count. It goes beside the tables and not with
// them: they hold many rules, and likeness looks at two parts of them.
#[derive(Clone, Copy, Debug, PartialEq, Eq)]
pub struct Part {
    pub first: usize,
    pub count: usize,
    pub nfirst: usize,
    pub ncount: usize,
}

// What kind of node stands in a row.
#[derive(Clone, Copy, Debug, PartialEq, Eq)]
pub enum Kind {
    Check,
    Joined,
}

impl Part {
    // Where the rule's formula stands.
    pub fn formula(self) -> Span
        ensures { result ≡ span_of self }
    {
        Span {
            first: self.first,
            count: self.count,
        }
    }
}

impl<'a> Tables<'a> {
    // The tables that three lists are.
    pub fn new(ops: &'a [u8], nums: &'a [u64], nodes: &'a [u64]) -> Self
        ensures ops { result.formulas.ops.now ≡ ops.now }
        ensures nums { result.formulas.nums.now ≡ nums.now }
        ensures nodes { result.nodes.now ≡ nodes.now }
    {
        let formulas = FormulaTable { ops, nums };
        Tables { formulas, nodes }
    }

    // The rows of a rule's nodes.
    pub fn rows(&self, part: Part) -> Rows<'a>
        ensures { result ≡ rows_in self.now part }
    {
        Rows {
            nodes: self.nodes,
            first: part.nfirst,
            count: part.ncount,
        }
    }
}

impl Tables<'_> {
    // Whether a pure part of the rule's formula stands at p.
    fn is_pure_part(&self, part: Part, p: usize) -> bool
        requires { RuleIn self.now part }
        ensures { result ≡ is_some (signal_by (rule_in self.now part) part.first (SignalExpr.At p)) }
    {
        if p < part.first {
            return false;
        }
        if part.count <= p - part.first {
            return false;
        }
        self.formulas.boolean_over_atoms(p).is_some()
    }

    // Whether a row's number names a signal.
    fn is_signal(&self, part: Part, e: SignalExpr) -> bool
        requires { RuleIn self.now part }
        ensures { result ≡ is_some (signal_by (rule_in self.now part) part.first e) }
    {
        match e {
            SignalExpr::True => true,
            SignalExpr::At(p) => self.is_pure_part(part, p),
        }
    }

    fn kind_of(&self, part: Part, node: MonNode) -> Option<Kind>
        requires { RuleIn self.now part }
        ensures { result ≡ kind_of (cell_by (rule_in self.now part) part.first (Some node)) }
    {
        match node {
            MonNode::RangeCheck { expr, range: _ } => {
                if self.is_signal(part, expr) {
                    return Some(Kind::Check);
                }
                return None;
            }
            MonNode::DelayedCheck {
                antecedent,
                consequent,
                range: _,
            } => {
                if self.is_signal(part, antecedent) {
                    if self.is_signal(part, consequent) {
                        return Some(Kind::Check);
                    }
                }
                return None;
            }
            MonNode::Obligation {
                bound: _,
                trigger,
                body,
                range: _,
            } => {
                if self.is_signal(part, trigger) {
                    if self.is_signal(part, body) {
                        return Some(Kind::Check);
                    }
                }
                return None;
            }
            MonNode::And => {
                return Some(Kind::Joined);
            }
            MonNode::Or => {
                return Some(Kind::Joined);
            }
        }
    }

    fn kind_at(&self, part: Part, i: usize) -> Option<Kind>
        requires { RuleIn self.now part × (row_cells * (i + 1) ≤ length self.now.nodes.now) }
        ensures { result ≡ kind_of (cells_in self.now part i) }
    {
        let node = row_at(self.nodes, i)?;
        self.kind_of(part, node)
    }

    // The compiled tree in row i, which has to end by row `end` and to be at most `room` deep.
    fn nodes_at(&self, part: Part, i: usize, end: usize, room: usize) -> Option<usize>
        requires { RuleIn self.now part × (row_cells * end ≤ length self.now.nodes.now) }
        ensures { Walked (cells_in self.now part) any_check i end room result }
    {
        if end <= i {
            return None;
        }
        if room == 0 {
            return None;
        }
        match self.kind_at(part, i)? {
            Kind::Check => Some(i + 1),
            Kind::Joined => {
                let e = self.nodes_at(part, i + 1, end, room - 1)?;
                self.nodes_at(part, e, end, room - 1)
            }
        }
    }

    // Whether there is room for 1,024 formula nodes and 256 monitor nodes.
    pub fn is_roomy(&self) -> bool
        ensures { result ≡ roomy_in self.now }
    {
        NODE_CELLS <= self.nodes.len() && self.formulas.is_roomy()
    }

    // Whether the tables hold a rule and its compiled nodes, within the limits.
    pub fn is_compiled(&self, part: Part) -> bool
        ensures { result ≡ is_some (compiled_in self.now part) }
    {
        if self.formulas.is_rule(part.formula()) {
            return self.has_nodes(part);
        }
        false
    }

    fn has_nodes(&self, part: Part) -> bool
        requires { RuleIn self.now part }
        ensures { result ≡ is_some (compiled_in self.now part) }
    {
        if RULE_NODES < part.ncount {
            return false;
        }
        let rows = self.nodes.len() / ROW_CELLS;
        if rows < part.ncount {
            return false;
        }
        if rows - part.ncount < part.nfirst {
            return false;
        }
        let end = part.nfirst + part.ncount;
        self.nodes_at(part, part.nfirst, end, DEEPEST) == Some(end)
    }
}
