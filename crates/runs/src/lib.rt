// Many words in one call: what is lent is tested once, then the monitor is stepped in place for each word.
#![tactic(auto)]

ghost use Rattle.std.specs.Prelude.{◌≡◌, Ok};
ghost use Rattle.node_step.specs.Lists.{memory_of, SameLists};
ghost use Rattle.lent.specs.Lists.{tables_of, lent_monitor};
ghost use Rattle.stepping.specs.Call.{Answers, Fit};
ghost use Rattle.runs.specs.Run.{in_time, many_steps, run_call};

use lent::Frame;
use lent::refusal::admit_monitor;
use monitor::table::{Part, Tables};
use node_step::state::Memory;
use result::Refusal;
use stepping::call::step_fit;
use terms::limit::STEPS;

// Whether the words are handed over below 2^63.
fn in_time(s: u64, words: &[u64]) -> bool
    ensures { result ≡ in_time s words.now }
{
    // `as`: the number fits, and a `TryFrom` would have an error that cannot be
    words.is_empty() || s < STEPS && words.len() as u64 <= STEPS - s
}

// The steps themselves, on tables and a monitor that fit: the step of the first report, if there is one.
fn run_fit(
    tables: &Tables,
    part: Part,
    frame: &Frame,
    memory: &mut Memory,
    s: u64,
    words: &[u64],
) -> Option<u64>
    requires { Fit (tables_of tables.now part) (lent_monitor frame.now (memory_of memory.old)) (in_time s words.now) }
    ensures stepped { Answers (many_steps (tables_of tables.now part) (lent_monitor frame.now (memory_of memory.old)) s words.now) (Ok result) (memory_of memory.new) }
    ensures same { SameLists memory.old memory.new }
{
    let mut report = None;
    let mut at = s;
    for word in words {
        let reports = step_fit(tables, part, frame, memory, at, *word);
        if reports && report.is_none() {
            report = Some(at);
        }
        at += 1;
    }
    report
}

// Steps a lent monitor over all the words, the first of them at step s, over the tables that hold its rule:
// the step of the first report, if there is one, or the refusal of the whole run.
pub fn run(
    tables: &Tables,
    part: Part,
    frame: &Frame,
    memory: &mut Memory,
    s: u64,
    words: &[u64],
) -> Result<Option<u64>, Refusal>
    ensures stepped { Answers (run_call (tables_of tables.now part) (lent_monitor frame.now (memory_of memory.old)) s words.now) result (memory_of memory.new) }
    ensures same { SameLists memory.old memory.new }
{
    admit_monitor(tables, part, frame, &memory.entries())?;
    if !in_time(s, words) {
        return Err(Refusal::Late);
    }
    Ok(run_fit(tables, part, frame, memory, s, words))
}
