// Saving a monitor: in place, which copies none, and by value.
ghost use Rattle.lent.specs.Lists.{tables_of};
ghost use Rattle.in_place.specs.InPlace.{held_by};
ghost use Rattle.saving.specs.Save.{SaveAnswers, save_call};

use in_place::ReferenceMonitor;
use lent::Frame;
use monitor::table::{Part, Tables};
use node_step::state::Entries;
use result::Refusal;

// Saves a lent monitor, which stays as it was, into lent bytes, over the tables that hold its rule.
pub fn save(
    m: &ReferenceMonitor,
    tables: &Tables,
    part: Part,
    bytes: &mut [u8],
) -> Result<usize, Refusal>
    ensures { SaveAnswers
        (save_call (tables_of tables.now part) (held_by m.now) bytes.old)
        result bytes.new }
{
    let frame = Frame {
        size: m.size,
        forms: &m.forms,
        bounds: &m.bounds,
    };
    let entries = Entries {
        held: &m.held,
        remaining: &m.remaining,
        failed: &m.failed,
        culprits: &m.culprits,
    };
    saving::save::save(tables, part, &frame, &entries, bytes)
}

// The same by value.
pub fn saved(
    m: ReferenceMonitor,
    tables: &Tables,
    part: Part,
    bytes: &mut [u8],
) -> Result<usize, Refusal>
    ensures { SaveAnswers
        (save_call (tables_of tables.now part) (held_by m) bytes.old)
        result bytes.new }
{
    save(&m, tables, part, bytes)
}
