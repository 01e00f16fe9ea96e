// The bits of one compiled rule and of its nodes.
ghost use Rattle.std.specs.Prelude.{◌≡◌};
ghost use Rattle.result.specs.Refusal.{told};
ghost use Rattle.layout.specs.Entry.{rule_bits_of, node_slot_of};

use monitor::table::{Part, Tables};
use plan::layout::{Slot, rule_bits, slot_of};
use result::Refusal;

// The bits of the compiled rule; `node_slot` has those of each node.
#[tactic(auto, unfolding(crate::specs::Entry::rule_bits_of))]
pub fn layout_for(tables: &Tables, part: Part) -> Result<u64, Refusal>
    ensures { told result ≡ rule_bits_of tables.now.formulas.ops.now tables.now.formulas.nums.now part.first part.count tables.now.nodes.now part.nfirst part.ncount }
{
    if !tables.is_roomy() {
        return Err(Refusal::Short);
    }
    if !tables.is_compiled(part) {
        return Err(Refusal::Unfit);
    }
    Ok(rule_bits(&tables.rows(part)))
}

// The slot of node j of the compiled rule.
#[tactic(auto, unfolding(crate::specs::Entry::node_slot_of))]
pub fn node_slot(tables: &Tables, part: Part, j: usize) -> Result<Slot, Refusal>
    ensures { told result ≡ node_slot_of tables.now.formulas.ops.now tables.now.formulas.nums.now part.first part.count tables.now.nodes.now part.nfirst part.ncount j }
{
    if !tables.is_roomy() {
        return Err(Refusal::Short);
    }
    if !tables.is_compiled(part) {
        return Err(Refusal::Unfit);
    }
    if part.ncount <= j {
        return Err(Refusal::Unfit);
    }
    Ok(slot_of(&tables.rows(part), j))
}
