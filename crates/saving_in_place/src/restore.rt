// Restoring a monitor: in place, which copies none, and by value.
ghost use Rattle.std.specs.Prelude.{◌≡◌};
ghost use Rattle.lent.specs.Lists.{tables_of};
ghost use Rattle.saving_in_place.specs.SavedInPlace.{restore_in};

use in_place::ReferenceMonitor;
use in_place::fresh::Started;
use lent::Blank;
use monitor::table::{Part, Tables};
use node_step::state::Memory;
use result::Refusal;

// Makes a lent monitor that of the compiled rule that the tables hold, with the state that the bytes hold.
pub fn restore(
    m: &mut ReferenceMonitor,
    tables: &Tables,
    part: Part,
    bytes: &[u8],
) -> Result<usize, Refusal>
    ensures { (result ≡ (restore_in (tables_of tables.now part) m.old bytes.now).outcome)
        × (m.new
        ≡ (restore_in (tables_of tables.now part) m.old bytes.now).monitor) }
{
    let mut memory = Memory {
        held: &mut m.held,
        remaining: &mut m.remaining,
        failed: &mut m.failed,
        culprits: &mut m.culprits,
    };
    let mut blank = Blank {
        forms: &mut m.forms,
        bounds: &mut m.bounds,
    };
    let outcome = saving::restore::restore(tables, part, &mut blank, &mut memory, bytes);
    m.size = outcome.unwrap_or(m.size);
    outcome
}

// The same by value.
pub fn restored(m: ReferenceMonitor, tables: &Tables, part: Part, bytes: &[u8]) -> Started
    ensures { result
        ≡ restore_in (tables_of tables.now part) m bytes.now }
{
    let mut monitor = m;
    let outcome = restore(&mut monitor, tables, part, bytes);
    Started { monitor, outcome }
}
