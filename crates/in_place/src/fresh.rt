// A fresh monitor of a compiled rule: by value, and in place, the two forms that document 01 has for a monitor struct.
ghost use Rattle.std.specs.Prelude.{◌≡◌};
ghost use Rattle.lent.specs.Lists.{tables_of};
ghost use Rattle.in_place.specs.InPlace.{fresh_in};

use crate::ReferenceMonitor;
use lent::Blank;
use monitor::table::{Part, Tables};
use node_step::state::Memory;
use result::Refusal;

// The answer to making a monitor, and the monitor afterwards.
#[derive(Clone, Copy, Debug, PartialEq, Eq)]
pub struct Started {
    pub monitor: ReferenceMonitor,
    pub outcome: Result<usize, Refusal>,
}

// Makes the monitor of the compiled rule that the tables hold.
pub fn made(m: ReferenceMonitor, tables: &Tables, part: Part) -> Started
    ensures { result ≡ fresh_in (tables_of tables.now part) m }
{
    let mut monitor = m;
    let mut memory = Memory {
        held: &mut monitor.held,
        remaining: &mut monitor.remaining,
        failed: &mut monitor.failed,
        culprits: &mut monitor.culprits,
    };
    let mut blank = Blank {
        forms: &mut monitor.forms,
        bounds: &mut monitor.bounds,
    };
    let outcome = stepping::fresh::fresh(tables, part, &mut blank, &mut memory);
    monitor.size = outcome.unwrap_or(m.size);
    Started { monitor, outcome }
}

// The same on a lent monitor, which it changes.
pub fn fresh(m: &mut ReferenceMonitor, tables: &Tables, part: Part) -> Result<usize, Refusal>
    ensures { (result ≡ (fresh_in (tables_of tables.now part) m.old).outcome)
        × (m.new ≡ (fresh_in (tables_of tables.now part) m.old).monitor) }
{
    let out = made(*m, tables, part);
    *m = out.monitor;
    out.outcome
}
