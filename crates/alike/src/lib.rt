// Likeness of two compiled rules: nodes agree one for one, signal text compared with v, i, o taken as one letter.
#![tactic(auto)]

use crate::node::same_nodes;
use monitor::table::{Part, Tables};
use result::Refusal;

pub mod node;
pub mod text;

ghost use Rattle.std.specs.Prelude.{◌≡◌};
ghost use Rattle.result.specs.Refusal.{told};
ghost use Rattle.alike.specs.Alike.{likeness_call};

// Whether the compiled rules that two parts of the same tables hold are alike.
#[tactic(auto, unfolding(crate::specs::Alike::likeness_call))]
pub fn alike(tables: &Tables, a: Part, b: Part) -> Result<bool, Refusal>
    ensures { told result ≡ likeness_call tables.now.formulas.ops.now tables.now.formulas.nums.now tables.now.nodes.now a b }
{
    if !tables.is_roomy() {
        return Err(Refusal::Short);
    }
    if !tables.is_compiled(a) || !tables.is_compiled(b) {
        return Err(Refusal::Unfit);
    }
    Ok(same_nodes(tables, a, b))
}
