// Restoring: a lent monitor is made anew from stored bytes.
ghost use Rattle.std.specs.Prelude.{◌≡◌};
ghost use Rattle.node_step.specs.Lists.{memory_of, SameLists};
ghost use Rattle.lent.specs.Lists.{tables_of, SameBlank};
ghost use Rattle.bits.specs.Bits.{bit_in};
ghost use Rattle.kept.specs.Kept.{row_keeps, entries_in, entered, sound_from, stored, StoredPart, WholePart, EntriesPart};
ghost use Rattle.saving.specs.Restore.{Restorable, RestoreAnswers, restore_kept, restore_call};

use crate::save::bytes_needed;
use bits::is_blank;
use kept::Keep;
use lent::Blank;
use monitor::node::Rows;
use monitor::table::{Part, Tables};
use node_step::state::Memory;
use plan::layout::rule_bits;
use result::Refusal;
use stepping::fresh::copy_column;

// Whether the bits of the nodes are sound.
fn are_sound(rows: &Rows, bytes: &[u8]) -> bool
    requires { StoredPart rows.now.nodes.now rows.now.first rows.now.count bytes.now }
    ensures { result ≡ sound_from (row_keeps rows.now.nodes.now rows.now.first rows.now.count) (bit_in bytes.now) 0 }
{
    let mut at = 0;
    for k in 0..rows.count {
        let keep = Keep::at(rows, k);
        if !keep.is_sound(keep.take(bytes, at)) {
            return false;
        }
        at += keep.width();
    }
    true
}

// Whether they are, and the unused bits of the last byte that is needed are zero.
fn is_stored(rows: &Rows, need: usize, bytes: &[u8]) -> bool
    requires { WholePart rows.now.nodes.now rows.now.first rows.now.count need bytes.now }
    ensures { result ≡ stored (row_keeps rows.now.nodes.now rows.now.first rows.now.count) (bit_in bytes.now) }
{
    // `as`: the number fits, and a `TryFrom` would have an error that cannot be
    are_sound(rows, bytes) && is_blank(bytes, rule_bits(rows) as usize, 8 * need)
}

// Stores the entries that the nodes' bits say.
fn enter(rows: &Rows, memory: &mut Memory, bytes: &[u8])
    requires { EntriesPart rows.now.nodes.now rows.now.first rows.now.count (memory_of memory.old) bytes.now }
    ensures restored { memory_of memory.new ≡ (entered (memory_of memory.old) 0
        (entries_in (row_keeps rows.now.nodes.now rows.now.first rows.now.count) (bit_in bytes.now) 0)) }
    ensures same { SameLists memory.old memory.new }
{
    let mut at = 0;
    for k in 0..rows.count {
        let keep = Keep::at(rows, k);
        memory.store(k, keep.take(bytes, at));
        at += keep.width();
    }
}

// Makes the monitor of the rows, from the bytes.
fn restore_rows(
    rows: &Rows,
    blank: &mut Blank,
    memory: &mut Memory,
    bytes: &[u8],
) -> Result<usize, Refusal>
    requires { Restorable rows.now.nodes.now rows.now.first rows.now.count blank.old.forms.now blank.old.bounds.now (memory_of memory.old) }
    ensures restored { RestoreAnswers
        (restore_kept (row_keeps rows.now.nodes.now rows.now.first rows.now.count) rows.now.nodes.now rows.now.first rows.now.count
        blank.old.forms.now blank.old.bounds.now (memory_of memory.old) bytes.now)
        result blank.new.forms.now blank.new.bounds.now (memory_of memory.new) }
    ensures same { SameLists memory.old memory.new }
    ensures lists { SameBlank blank.old blank.new }
{
    let need = bytes_needed(rows);
    if bytes.len() < need {
        return Err(Refusal::Short);
    }
    if !is_stored(rows, need, bytes) {
        return Err(Refusal::Unsaved);
    }
    copy_column(rows, 0, blank.forms);
    copy_column(rows, 1, blank.bounds);
    enter(rows, memory, bytes);
    Ok(rows.count)
}

// Makes the monitor of the compiled rule that the tables hold, with the state that the bytes hold: the count of its nodes,
// or the refusal. What the monitor held is not looked at.
pub fn restore(
    tables: &Tables,
    part: Part,
    blank: &mut Blank,
    memory: &mut Memory,
    bytes: &[u8],
) -> Result<usize, Refusal>
    ensures restored { RestoreAnswers
        (restore_call (tables_of tables.now part)
        blank.old.forms.now blank.old.bounds.now (memory_of memory.old)
        bytes.now)
        result blank.new.forms.now blank.new.bounds.now (memory_of memory.new) }
    ensures same { SameLists memory.old memory.new }
    ensures lists { SameBlank blank.old blank.new }
{
    blank.admit(tables, part, &memory.entries())?;
    restore_rows(&tables.rows(part), blank, memory, bytes)
}
