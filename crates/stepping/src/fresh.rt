// A fresh monitor: nothing pending, failed or remembered, every culprit minus 1.
ghost use Rattle.std.specs.Prelude.{◌≡◌, ◌+◌, ◌*◌, ◌≤◌, ◌<◌, length};
ghost use Rattle.std.proofs.lemmas.List.Edits.{sets};
ghost use Rattle.terms.specs.Limits.{row_cells};
ghost use Rattle.node_step.specs.Memory.{Inside};
ghost use Rattle.node_step.specs.Lists.{memory_of, SameLists};
ghost use Rattle.lent.specs.Lent.{Spanned};
ghost use Rattle.lent.specs.Lists.{tables_of, SameBlank};
ghost use Rattle.stepping.specs.Fresh.{column, cleared, Makes, FreshAnswers};

use lent::Blank;
use monitor::node::Rows;
use monitor::table::{Part, Tables};
use node_step::state::{Memory, initial_state};
use result::Refusal;

// The first n entries, as a fresh monitor has them. Entry by entry: a list at a time, each is a call of the C library, and a monitor of one node is
// made in 44 ns and not in 36.
fn clear(memory: &mut Memory, n: usize)
    requires { Inside (memory_of memory.old) n }
    ensures made { memory_of memory.new ≡ cleared (memory_of memory.old) n }
    ensures same { SameLists memory.old memory.new }
{
    for k in 0..n {
        memory.store(k, initial_state());
    }
}

// A column of the rows.
pub fn copy_column(rows: &Rows, col: usize, out: &mut [u64])
    requires { (row_cells * (rows.now.first + rows.now.count) ≤ length rows.now.nodes.now) × (col < row_cells) × (rows.now.count ≤ length out.old) }
    ensures { out.new ≡ sets out.old 0 (column rows.now.nodes.now col rows.now.first rows.now.count) }
{
    for k in 0..rows.count {
        out[k] = rows.cell(k, col);
    }
}

// The monitor's own forms, bounds and entries.
fn make(rows: &Rows, blank: &mut Blank, memory: &mut Memory)
    requires { Spanned rows.now.nodes.now rows.now.first blank.old.forms.now blank.old.bounds.now (memory_of memory.old) rows.now.count }
    ensures made { Makes rows.now.nodes.now rows.now.first rows.now.count
        blank.old.forms.now blank.old.bounds.now (memory_of memory.old)
        blank.new.forms.now blank.new.bounds.now (memory_of memory.new) }
    ensures same { SameLists memory.old memory.new }
    ensures lists { SameBlank blank.old blank.new }
{
    copy_column(rows, 0, blank.forms);
    copy_column(rows, 1, blank.bounds);
    clear(memory, rows.count);
}

// Makes the monitor of the compiled rule that the tables hold: the count of its nodes, or the refusal.
pub fn fresh(
    tables: &Tables,
    part: Part,
    blank: &mut Blank,
    memory: &mut Memory,
) -> Result<usize, Refusal>
    ensures made { FreshAnswers (tables_of tables.now part)
        blank.old.forms.now blank.old.bounds.now (memory_of memory.old) result
        blank.new.forms.now blank.new.bounds.now (memory_of memory.new) }
    ensures same { SameLists memory.old memory.new }
    ensures lists { SameBlank blank.old blank.new }
{
    blank.admit(tables, part, &memory.entries())?;
    make(&tables.rows(part), blank, memory);
    Ok(part.ncount)
}
