// Document 01, refusals 1 and 2 of a call on a monitor: room, a compiled rule in the tables, and a monitor that fits it.
ghost use Rattle.std.specs.Prelude.{◌≡◌};
ghost use Rattle.std.specs.Result.{result_err};
ghost use Rattle.node_step.specs.Lists.{entries_of};
ghost use Rattle.lent.specs.Lent.{refusal_to_make, refusal_of};
ghost use Rattle.lent.specs.Lists.{tables_of, lent_monitor};

use crate::room::is_lent;
use crate::{Blank, Frame};
use monitor::table::{Part, Tables};
use node_step::state::Entries;
use result::Refusal;

// Tests what any call is lent but the monitor's contents: the lists are a `Frame`'s or a `Blank`'s.
// Inlined: a call of it costs a step of one node 5 ns in 50.
#[inline(always)]
fn admit(
    tables: &Tables,
    part: Part,
    forms: &[u64],
    bounds: &[u64],
    entries: &Entries,
) -> Result<(), Refusal>
    ensures { result_err result ≡ refusal_to_make (tables_of tables.now part) forms.now bounds.now (entries_of entries.now) }
{
    if !is_lent(tables, forms, bounds, entries) {
        return Err(Refusal::Short);
    }
    if !tables.is_compiled(part) {
        return Err(Refusal::Unfit);
    }
    Ok(())
}

impl Blank<'_> {
    // Tests what a call is lent that makes a monitor. What the monitor held is not looked at. Inlined: a call of it costs what one of `admit` does.
    #[inline(always)]
    pub fn admit(&self, tables: &Tables, part: Part, entries: &Entries) -> Result<(), Refusal>
        ensures { result_err result ≡ refusal_to_make (tables_of tables.now part) self.now.forms.now self.now.bounds.now (entries_of entries.now) }
    {
        admit(tables, part, self.forms, self.bounds, entries)
    }
}

// Tests what a call on a monitor is lent. Inlined: a step of one node takes 14 instructions in 510 less so.
#[inline(always)]
pub fn admit_monitor(
    tables: &Tables,
    part: Part,
    frame: &Frame,
    entries: &Entries,
) -> Result<(), Refusal>
    ensures { result_err result ≡ refusal_of (tables_of tables.now part) (lent_monitor frame.now (entries_of entries.now)) }
{
    admit(tables, part, frame.forms, frame.bounds, entries)?;
    if !frame.is_fit(&tables.rows(part), entries) {
        return Err(Refusal::Unfit);
    }
    Ok(())
}
