// A book from C: read into lent tables, its step lines one by one, its listing.
ghost use Rattle.cavewatch_c.specs.Calls.{ReadBook, NextStep, ListBook};
ghost use Rattle.reader.specs.BookTables.{columns, slot_columns};

use crate::tell::{say, tell_count, tell_line, tell_read};
use listing::whole::list_book;
use reader::read::read_book;
use reader::steps::next_step;
use reader::tables::{BookTables, SlotTables};

// Reads a book into lent tables.
#[unsafe(no_mangle)]
pub extern "C" fn cavewatch_read_book(
    text: &[u8],
    labels: &mut [u8],
    lens: &mut [usize],
    kinds: &mut [u8],
    firsts: &mut [usize],
    counts: &mut [usize],
    ops: &mut [u8],
    nums: &mut [u64],
    names: &mut [u8],
    sizes: &mut [usize],
    widths: &mut [u64],
    found: &mut [u64; 6],
) -> u64
    ensures { ReadBook text.now
        (columns labels.old lens.old kinds.old firsts.old counts.old ops.old
        nums.old) (slot_columns names.old sizes.old widths.old) found.old result
        (columns labels.new lens.new kinds.new firsts.new counts.new ops.new
        nums.new) (slot_columns names.new sizes.new widths.new) found.new }
{
    let mut tables = BookTables {
        labels,
        lens,
        kinds,
        firsts,
        counts,
        ops,
        nums,
    };
    let mut slots = SlotTables {
        names,
        lens: sizes,
        widths,
    };
    let answer = read_book(text, &mut tables, &mut slots);
    say(tell_read(answer), found)
}

// The step line at a place of the text.
#[unsafe(no_mangle)]
pub extern "C" fn cavewatch_next_step(text: &[u8], at: usize, found: &mut [u64; 6]) -> u64
    ensures { NextStep text.now at found.old result found.new }
{
    say(tell_line(next_step(text, at)), found)
}

// Lists a whole book into a lent output of at least 262,144 bytes.
#[unsafe(no_mangle)]
pub extern "C" fn cavewatch_list_book(text: &[u8], out: &mut [u8], found: &mut [u64; 6]) -> u64
    ensures { ListBook text.now out.old found.old result out.new found.new }
{
    say(tell_count(list_book(text, out)), found)
}
