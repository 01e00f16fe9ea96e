// Document 01, refusal 1: whether tables and a monitor that are lent have room.
ghost use Rattle.std.specs.Prelude.{◌≡◌};
ghost use Rattle.node_step.specs.Lists.{entries_of};
ghost use Rattle.lent.specs.Lent.{has_room, lent_of};

use monitor::table::Tables;
use node_step::state::Entries;
use terms::limit::RULE_NODES;

// Whether the lent entries have room for 256 nodes.
fn has_room(entries: &Entries) -> bool
    ensures { result ≡ has_room (entries_of entries.now) }
{
    RULE_NODES <= entries.held.len()
        && RULE_NODES <= entries.remaining.len()
        && RULE_NODES <= entries.failed.len()
        && RULE_NODES <= entries.culprits.len()
}

// Whether all that is lent has room.
pub(crate) fn is_lent(tables: &Tables, forms: &[u64], bounds: &[u64], entries: &Entries) -> bool
    ensures { result ≡ lent_of tables.now.formulas.ops.now tables.now.formulas.nums.now tables.now.nodes.now
        forms.now bounds.now (entries_of entries.now) }
{
    tables.is_roomy()
        && RULE_NODES <= forms.len()
        && RULE_NODES <= bounds.len()
        && has_room(entries)
}
