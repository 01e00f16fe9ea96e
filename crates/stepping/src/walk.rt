// The walk of a step: the walk of a node and the walk of a joined pair call each other.
// The first row stands beside the tables, and no `Rows`: a walk ends by the nodes' shape, and has no count.
// What stays the same is no struct: with one, a step of one node takes 77 ns where it holds the tables and 80 where it holds a reference, not 73.
ghost use Rattle.std.specs.Prelude.{◌≡◌, false, ◌+◌, ◌<◌};
ghost use Rattle.node_step.specs.Lists.{memory_of, SameLists};
ghost use Rattle.stepping.specs.Walk.{NodeStepped, Walkable, Leaf, Pair};

use monitor::node::{MonNode, row_at};
use monitor::table::Tables;
use node_step::check::Moment;
use node_step::joined::{finish, joined_now, parts_of};
use node_step::state::Memory;

// Whether a node is failing now, and the node behind its parts.
#[derive(Clone, Copy, Debug, PartialEq, Eq)]
pub struct NodeOut {
    pub now: bool,
    pub next: usize,
}

// One check: its entry is read, stepped and stored.
fn step_leaf(
    tables: &Tables,
    nfirst: usize,
    memory: &mut Memory,
    node: MonNode,
    k: usize,
    s: u64,
    w: u64,
) -> NodeOut
    requires { Leaf tables.now.formulas.ops.now tables.now.formulas.nums.now tables.now.nodes.now nfirst (memory_of memory.old) node k s }
    ensures stepped { NodeStepped tables.now.formulas.ops.now tables.now.formulas.nums.now tables.now.nodes.now nfirst
        (memory_of memory.old) k s w
        (memory_of memory.new) result }
    ensures same { SameLists memory.old memory.new }
{
    let moment = Moment {
        table: &tables.formulas,
        step: s,
        truths: w,
    };
    let now = moment.step_check(node, memory, k);
    NodeOut { now, next: k + 1 }
}

// Both parts of a joined node, left and then right, and the node itself.
#[cycle(step_node_step_pair)]
fn step_pair(
    tables: &Tables,
    nfirst: usize,
    memory: &mut Memory,
    any: bool,
    k: usize,
    s: u64,
    w: u64,
) -> NodeOut
    requires { Pair tables.now.formulas.ops.now tables.now.formulas.nums.now tables.now.nodes.now nfirst (memory_of memory.old) any k s }
    ensures stepped { NodeStepped tables.now.formulas.ops.now tables.now.formulas.nums.now tables.now.nodes.now nfirst
        (memory_of memory.old) k s w
        (memory_of memory.new) result }
    ensures same { SameLists memory.old memory.new }
{
    let left = step_node(tables, nfirst, memory, k + 1, s, w);
    let mid = left.next;
    let right = step_node(tables, nfirst, memory, mid, s, w);
    let failing = joined_now(any, left.now, right.now);
    finish(memory, k, mid, failing, left.now, right.now);
    NodeOut {
        now: failing,
        next: right.next,
    }
}

// Node k of the monitor, with its parts.
#[cycle(step_node_step_pair)]
pub fn step_node(
    tables: &Tables,
    nfirst: usize,
    memory: &mut Memory,
    k: usize,
    s: u64,
    w: u64,
) -> NodeOut
    requires { Walkable tables.now.formulas.ops.now tables.now.formulas.nums.now tables.now.nodes.now nfirst (memory_of memory.old) k s }
    ensures stepped { NodeStepped tables.now.formulas.ops.now tables.now.formulas.nums.now tables.now.nodes.now nfirst
        (memory_of memory.old) k s w
        (memory_of memory.new) result }
    ensures same { SameLists memory.old memory.new }
{
    let Some(node) = row_at(tables.nodes, nfirst + k) else {
        return NodeOut {
            now: false,
            next: k + 1,
        };
    };
    let Some(any) = parts_of(node) else {
        return step_leaf(tables, nfirst, memory, node, k, s, w);
    };
    step_pair(tables, nfirst, memory, any, k, s, w)
}
