// A formula table as a lent slice of node structs: `node_at` reads one node and `put_node` stores one, and nothing else touches a node. A rule's own
// places are read into plain columns, and columns are stored in front of a table. The entry points over such a table (crates `table_calls`,
// `table_read`, `table_step`) hand plain columns on to the core.
#![tactic(auto)]

ghost use Rattle.std.specs.Prelude.{◌≡◌, ◌≤◌, ◌<◌, length, set};
ghost use Rattle.node_table.specs.Node.{struct_at};
ghost use Rattle.node_table.specs.Columns.{capped, end_of, Unpacked, Packed};

mod columns;

pub use crate::columns::Columns;
use formula::table::Span;
use terms::limit::BOOK_NODES;

// A node of a formula table: its operation and its number.
#[derive(Clone, Copy, Debug, PartialEq, Eq)]
pub struct FormulaNode {
    pub op: u8,
    pub num: u64,
}

// The node at i.
pub(crate) fn node_at(table: &[FormulaNode], i: usize) -> FormulaNode
    requires { i < length table.now }
    ensures { result ≡ struct_at table.now i }
{
    table[i]
}

// Where a rule's places end, if so many of the `lent` nodes hold them; else its first place, so that there are none.
fn end_of(lent: usize, span: Span) -> usize
    ensures { result ≡ end_of lent span.first span.count }
{
    if lent < span.first {
        return span.first;
    }
    if lent - span.first < span.count {
        return span.first;
    }
    span.first + span.count
}

// A rule's places, in columns.
pub fn unpack(table: &[FormulaNode], span: Span) -> Columns
    ensures { Unpacked table.now span.first span.count result }
{
    let lent = table.len().min(BOOK_NODES);
    let mut ops = [0; BOOK_NODES];
    let mut nums = [0; BOOK_NODES];
    for i in span.first..end_of(lent, span) {
        let x = node_at(table, i);
        ops[i] = x.op;
        nums[i] = x.num;
    }
    Columns {
        count: lent,
        ops,
        nums,
    }
}

// Stores a node at i.
pub(crate) fn put_node(table: &mut [FormulaNode], i: usize, node: FormulaNode)
    requires { i < length table.old }
    ensures { table.new ≡ set table.old i node }
{
    table[i] = node;
}

// Stores the nodes of two columns at the table's front.
pub fn pack(table: &mut [FormulaNode], c: Columns)
    requires { c.count ≤ length table.old }
    ensures { Packed c table.old table.new }
{
    for i in 0..c.count {
        let x = FormulaNode {
            op: c.ops[i],
            num: c.nums[i],
        };
        put_node(table, i, x);
    }
}
