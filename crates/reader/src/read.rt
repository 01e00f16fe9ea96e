// Reading a book: the check, then the filling pass. Nothing is written unless the book is accepted.
ghost use Rattle.std.specs.Prelude.{◌≡◌, ◌&&◌};
ghost use Rattle.reader.specs.BookTables.{roomy, roomy_slots};
ghost use Rattle.reader.specs.Lists.{tables_in, slots_in, SameTables, SameSlots};
ghost use Rattle.reader.specs.Answer.{Roomy, RoomySlots, Reads};

use crate::fill::fill;
use crate::slots::fill_slots;
use crate::tables::{BookTables, SlotTables};
use book::check::{Read, Refused, check};
use result::Refusal;

// Into tables with room.
fn read_roomy(text: &[u8], tables: &mut BookTables, slots: &mut SlotTables) -> Result<Read, Refused>
    requires { Roomy (tables_in tables.old) × RoomySlots (slots_in slots.old) }
    ensures read { Reads text.now (tables_in tables.old) (slots_in slots.old) result (tables_in tables.new) (slots_in slots.new) }
    ensures same_tables { SameTables tables.old tables.new }
    ensures same_slots { SameSlots slots.old slots.new }
{
    let read = check(text)?;
    fill(text, read.steps_at, tables);
    fill_slots(text, read.slots, slots);
    Ok(read)
}

// Whether every table has its room.
fn is_roomy(tables: &BookTables, slots: &SlotTables) -> bool
    ensures { result ≡ (roomy (tables_in tables.now) && roomy_slots (slots_in slots.now)) }
{
    tables.is_roomy() && slots.is_roomy()
}

// The entry point: a book into lent tables.
pub fn read_book(
    text: &[u8],
    tables: &mut BookTables,
    slots: &mut SlotTables,
) -> Result<Read, Refused>
    ensures read { Reads text.now (tables_in tables.old) (slots_in slots.old) result (tables_in tables.new) (slots_in slots.new) }
    ensures same_tables { SameTables tables.old tables.new }
    ensures same_slots { SameSlots slots.old slots.new }
{
    if !is_roomy(tables, slots) {
        return Err(Refused {
            refusal: Refusal::Short,
            line: 0,
        });
    }
    read_roomy(text, tables, slots)
}
