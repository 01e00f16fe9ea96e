// The slots of a book that is accepted, filled in a pass of their own over its opening lines.
ghost use Rattle.std.specs.Prelude.{◌+◌};
ghost use Rattle.reader.specs.Lists.{slots_in, SameSlots};
ghost use Rattle.reader.specs.FillingPass.{SlotRoom, SlotDone, SlotLineRoom, SlotLinePut, SlotsFillable, FilledSlots};

use crate::fill::copy_in;
use crate::tables::SlotTables;
use line::line::{Content, read_line};
use line::text::{find, past, upto};
use terms::limit::LABEL_BYTES;

// A slot at its place of the slot list.
fn put_slot(tables: &mut SlotTables, name: &[u8], width: u64, k: usize)
    requires { SlotRoom name.now (slots_in tables.old) k }
    ensures put { SlotDone name.now width (slots_in tables.old) k (slots_in tables.new) (k + 1) }
    ensures same { SameSlots tables.old tables.new }
{
    copy_in(tables.names, LABEL_BYTES * k, name);
    tables.lens[k] = name.len();
    tables.widths[k] = width;
}

// One line behind k slots; how many there are then.
fn put_opening(line: &[u8], tables: &mut SlotTables, k: usize) -> usize
    requires { SlotLineRoom line.now (slots_in tables.old) k }
    ensures put { SlotLinePut line.now (slots_in tables.old) k (slots_in tables.new) result }
    ensures same { SameSlots tables.old tables.new }
{
    let Ok(content) = read_line(line) else {
        return k;
    };
    let Content::Slot { start, len, width } = content else {
        return k;
    };
    let name = upto(past(line, start), len);
    put_slot(tables, name, width, k);
    k + 1
}

// The lines up to the last slot.
pub(crate) fn fill_slots(text: &[u8], slots: usize, tables: &mut SlotTables)
    requires { SlotsFillable text.now slots (slots_in tables.old) }
    ensures put { FilledSlots text.now (slots_in tables.old) (slots_in tables.new) }
    ensures same { SameSlots tables.old tables.new }
{
    let mut k: usize = 0;
    let mut at: usize = 0;
    // a line is as long as its text says, so the loop moves by places
    while k < slots {
        let rest = past(text, at);
        let n = find(rest, 10);
        let line = upto(rest, n);
        k = put_opening(line, tables, k);
        at += n + 1;
    }
}
