// The `node` lines of a compiled rule.
#![tactic(auto)]

ghost use Rattle.text.specs.Lent.{tape_of, SameOut};
ghost use Rattle.listing_nodes.specs.Rows.{Compiled, NodesWrote};

use listing_line::node::put_node;
use monitor::node::row_at;
use monitor::table::{Part, Tables};
use text::write::Tape;

// The lines of the nodes of a rule, numbered from 0.
pub fn put_nodes(tape: &mut Tape, tables: &Tables, part: Part)
    requires { Compiled tables.now.formulas.ops.now tables.now.formulas.nums.now tables.now.nodes.now part.nfirst part.ncount }
    ensures wrote { NodesWrote tables.now.formulas.ops.now tables.now.formulas.nums.now tables.now.nodes.now part.nfirst part.ncount
        (tape_of tape.old) (tape_of tape.new) }
    ensures same { SameOut tape.old tape.new }
{
    for k in 0..part.ncount {
        let Some(node) = row_at(tables.nodes, part.nfirst + k) else {
            return;
        };
        // `as`: the number fits, and a `TryFrom` would have an error that cannot be
        put_node(tape, &tables.formulas, k as u64, node);
    }
}
