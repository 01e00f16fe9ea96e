// Saving: a monitor's state is written into lent bytes.
ghost use Rattle.std.specs.Prelude.{◌≡◌};
ghost use Rattle.node_step.specs.Lists.{entries_of};
ghost use Rattle.lent.specs.Lists.{tables_of, lent_monitor};
ghost use Rattle.bits.specs.Bits.{ink_bits};
ghost use Rattle.kept.specs.Kept.{kept_bytes, row_keeps, spent, state_bits_of, BitsPart, StatePart, MarkedPart};
ghost use Rattle.saving.specs.Save.{Savable, SaveAnswers, save_call, save_kept};

use kept::Keep;
use lent::Frame;
use lent::refusal::admit_monitor;
use monitor::node::Rows;
use monitor::table::{Part, Tables};
use node_step::state::Entries;
use plan::layout::rule_bits;
use result::Refusal;

// The bytes that hold the bits of the rows.
pub(crate) fn bytes_needed(rows: &Rows) -> usize
    requires { BitsPart rows.now.nodes.now rows.now.first rows.now.count }
    ensures { result ≡ kept_bytes (row_keeps rows.now.nodes.now rows.now.first rows.now.count) }
{
    let bits = rule_bits(rows);
    // `as`: the number fits, and a `TryFrom` would have an error that cannot be
    (bits as usize + 7) / 8
}

// Whether the root, an obligation or a delayed check among the rows is marked failed.
fn has_failed(rows: &Rows, entries: &Entries) -> bool
    requires { MarkedPart rows.now.nodes.now rows.now.first rows.now.count entries.now.failed.now }
    ensures { result ≡ spent (row_keeps rows.now.nodes.now rows.now.first rows.now.count) entries.now.failed.now }
{
    if entries.failed[0] {
        return true;
    }
    for k in 0..rows.count {
        if Keep::at(rows, k).is_spent(entries.failed[k]) {
            return true;
        }
    }
    false
}

// Writes the bits of the nodes.
fn write_state(rows: &Rows, entries: &Entries, bytes: &mut [u8])
    requires { StatePart rows.now.nodes.now rows.now.first rows.now.count entries.now.held.now entries.now.remaining.now bytes.old }
    ensures { bytes.new
        ≡ ink_bits bytes.old 0 (state_bits_of (row_keeps rows.now.nodes.now rows.now.first rows.now.count) entries.now.held.now entries.now.remaining.now 0) }
{
    let mut at = 0;
    for k in 0..rows.count {
        let keep = Keep::at(rows, k);
        keep.put(bytes, at, entries.held[k], entries.remaining[k]);
        at += keep.width();
    }
}

// Saves the state of a monitor that fits the rows: the count of the bytes that hold it, or the refusal.
fn save_fit(rows: &Rows, entries: &Entries, bytes: &mut [u8]) -> Result<usize, Refusal>
    requires { Savable rows.now.nodes.now rows.now.first rows.now.count entries.now.held.now entries.now.remaining.now entries.now.failed.now }
    ensures { SaveAnswers
        (save_kept (row_keeps rows.now.nodes.now rows.now.first rows.now.count) entries.now.held.now entries.now.remaining.now entries.now.failed.now bytes.old)
        result bytes.new }
{
    let need = bytes_needed(rows);
    if bytes.len() < need {
        return Err(Refusal::Short);
    }
    if has_failed(rows, entries) {
        return Err(Refusal::Failed);
    }
    write_state(rows, entries, bytes);
    Ok(need)
}

// Saves a lent monitor into lent bytes, over the tables that hold its rule: the count of the bytes that hold it, or the refusal.
pub fn save(
    tables: &Tables,
    part: Part,
    frame: &Frame,
    entries: &Entries,
    bytes: &mut [u8],
) -> Result<usize, Refusal>
    ensures { SaveAnswers
        (save_call (tables_of tables.now part)
        (lent_monitor frame.now (entries_of entries.now))
        bytes.old)
        result bytes.new }
{
    admit_monitor(tables, part, frame, entries)?;
    save_fit(&tables.rows(part), entries, bytes)
}
