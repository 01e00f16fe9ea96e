// The step call: what is lent is tested, then the monitor is stepped in place.
ghost use Rattle.std.specs.Prelude.{◌≡◌, ltb, Ok};
ghost use Rattle.node_step.specs.Lists.{memory_of, SameLists};
ghost use Rattle.terms.specs.Limits.{steps};
ghost use Rattle.lent.specs.Lists.{tables_of, lent_monitor};
ghost use Rattle.stepping.specs.Call.{Answers, Fit, accept_of, step_call};

use crate::walk::step_node;
use lent::Frame;
use lent::refusal::admit_monitor;
use monitor::table::{Part, Tables};
use node_step::state::Memory;
use result::Refusal;
use terms::limit::STEPS;

// The step itself, on tables and a monitor that fit: whether the rule is newly broken by it.
pub fn step_fit(
    tables: &Tables,
    part: Part,
    frame: &Frame,
    memory: &mut Memory,
    s: u64,
    w: u64,
) -> bool
    requires { Fit (tables_of tables.now part) (lent_monitor frame.now (memory_of memory.old)) (ltb s steps) }
    ensures stepped { Answers (accept_of (tables_of tables.now part) (lent_monitor frame.now (memory_of memory.old)) s w) (Ok result) (memory_of memory.new) }
    ensures same { SameLists memory.old memory.new }
{
    let before = memory.failed[0];
    step_node(tables, part.nfirst, memory, 0, s, w);
    !before && memory.failed[0]
}

// Steps a lent monitor once, at step s with truths w, over the tables that hold its rule:
// whether the rule is newly broken by it, or the refusal. The step and its truths stand apart, as in document 01's call.
pub fn step(
    tables: &Tables,
    part: Part,
    frame: &Frame,
    memory: &mut Memory,
    s: u64,
    w: u64,
) -> Result<bool, Refusal>
    ensures stepped { Answers (step_call (tables_of tables.now part) (lent_monitor frame.now (memory_of memory.old)) s w) result (memory_of memory.new) }
    ensures same { SameLists memory.old memory.new }
{
    admit_monitor(tables, part, frame, &memory.entries())?;
    if STEPS <= s {
        return Err(Refusal::Late);
    }
    Ok(step_fit(tables, part, frame, memory, s, w))
}
