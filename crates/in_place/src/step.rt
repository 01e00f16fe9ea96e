// A step call on a monitor: by value, and in place, the two forms that document 01 has for a monitor struct.
ghost use Rattle.std.specs.Prelude.{◌≡◌};
ghost use Rattle.lent.specs.Lists.{tables_of};
ghost use Rattle.in_place.specs.InPlace.{step_in};

use crate::ReferenceMonitor;
use lent::Frame;
use monitor::table::{Part, Tables};
use node_step::state::Memory;
use result::Refusal;

// The answer to a step call, and the monitor afterwards.
#[derive(Clone, Copy, Debug, PartialEq, Eq)]
pub struct Advanced {
    pub monitor: ReferenceMonitor,
    pub verdict: Result<bool, Refusal>,
}

// Steps a monitor once, at step s with truths w, over the tables that hold its rule.
pub fn stepped(m: ReferenceMonitor, tables: &Tables, part: Part, s: u64, w: u64) -> Advanced
    ensures { result ≡ step_in (tables_of tables.now part) m s w }
{
    // a second struct: array by array each is cleared and copied anew, a step of one node in a loop in 280 ns and not in 146
    let mut monitor = m;
    let frame = Frame {
        size: monitor.size,
        forms: &monitor.forms,
        bounds: &monitor.bounds,
    };
    let mut memory = Memory {
        held: &mut monitor.held,
        remaining: &mut monitor.remaining,
        failed: &mut monitor.failed,
        culprits: &mut monitor.culprits,
    };
    let verdict = stepping::call::step(tables, part, &frame, &mut memory, s, w);
    Advanced { monitor, verdict }
}

// The same on a lent monitor, which it changes.
pub fn step(
    m: &mut ReferenceMonitor,
    tables: &Tables,
    part: Part,
    s: u64,
    w: u64,
) -> Result<bool, Refusal>
    ensures { (result ≡ (step_in (tables_of tables.now part) m.old s w).verdict)
        × (m.new ≡ (step_in (tables_of tables.now part) m.old s w).monitor) }
{
    let out = stepped(*m, tables, part, s, w);
    *m = out.monitor;
    out.verdict
}
