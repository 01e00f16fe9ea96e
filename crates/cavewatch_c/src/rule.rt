// A rule from C: compiled, and its monitor made, stepped, saved and restored in lent memory. Each call takes C's own parameters, which its contract
// names, and makes the structs of them itself.
ghost use Rattle.cavewatch_c.specs.Calls.{CompileRule, Fresh, Step, Run, Save, Restore};
ghost use Rattle.std.specs.Prelude.{◌≡◌};
ghost use Rattle.node_step.specs.Memory.{entries};
ghost use Rattle.lent.specs.Lent.{monitor_of, tables};

use crate::tell::{say, tell_count, tell_made, tell_run, tell_step};
use compiler::compile_formula;
use formula::table::{FormulaTable, Span};
use lent::{Blank, Frame};
use monitor::table::{Part, Tables};
use node_step::state::{Entries, Memory};
use runs::run;
use saving::restore::restore;
use saving::save::save;
use stepping::call::step;
use stepping::fresh::fresh;

// Compiles the rule of `count` nodes at `first` into the rows of `nodes`.
#[unsafe(no_mangle)]
pub extern "C" fn cavewatch_compile_rule(
    ops: &[u8],
    nums: &[u64],
    first: usize,
    count: usize,
    nodes: &mut [u64],
    found: &mut [u64; 6],
) -> u64
    ensures { CompileRule ops.now nums.now first count nodes.old found.old result nodes.new found.new }
{
    let table = FormulaTable { ops, nums };
    let answer = compile_formula(&table, Span { first, count }, nodes);
    say(tell_count(answer), found)
}

// Makes the monitor of a compiled rule.
#[unsafe(no_mangle)]
pub extern "C" fn cavewatch_fresh(
    ops: &[u8],
    nums: &[u64],
    first: usize,
    count: usize,
    nodes: &[u64],
    nfirst: usize,
    ncount: usize,
    forms: &mut [u64],
    bounds: &mut [u64],
    held: &mut [bool],
    remaining: &mut [u64],
    failed: &mut [bool],
    culprits: &mut [i64],
) -> u64
    ensures { Fresh (tables ops.now nums.now first count nodes.now nfirst ncount)
        forms.old bounds.old (entries held.old remaining.old failed.old culprits.old) result
        forms.new bounds.new (entries held.new remaining.new failed.new culprits.new) }
{
    let tables = Tables::new(ops, nums, nodes);
    let part = Part {
        first,
        count,
        nfirst,
        ncount,
    };
    let mut memory = Memory {
        held,
        remaining,
        failed,
        culprits,
    };
    let mut blank = Blank { forms, bounds };
    let answer = fresh(&tables, part, &mut blank, &mut memory);
    tell_made(answer)
}

// Steps a monitor once, at step s with truths w.
#[unsafe(no_mangle)]
pub extern "C" fn cavewatch_step(
    ops: &[u8],
    nums: &[u64],
    first: usize,
    count: usize,
    nodes: &[u64],
    nfirst: usize,
    ncount: usize,
    size: usize,
    forms: &[u64],
    bounds: &[u64],
    held: &mut [bool],
    remaining: &mut [u64],
    failed: &mut [bool],
    culprits: &mut [i64],
    s: u64,
    w: u64,
) -> u64
    ensures { Step (tables ops.now nums.now first count nodes.now nfirst ncount)
        (monitor_of size forms.now bounds.now
        (entries held.old remaining.old failed.old culprits.old)) s w result
        (entries held.new remaining.new failed.new culprits.new) }
{
    let tables = Tables::new(ops, nums, nodes);
    let part = Part {
        first,
        count,
        nfirst,
        ncount,
    };
    let frame = Frame {
        size,
        forms,
        bounds,
    };
    let mut memory = Memory {
        held,
        remaining,
        failed,
        culprits,
    };
    let answer = step(&tables, part, &frame, &mut memory, s, w);
    tell_step(answer)
}

// Steps a monitor over many words, the first of them at step s.
#[unsafe(no_mangle)]
pub extern "C" fn cavewatch_run(
    ops: &[u8],
    nums: &[u64],
    first: usize,
    count: usize,
    nodes: &[u64],
    nfirst: usize,
    ncount: usize,
    size: usize,
    forms: &[u64],
    bounds: &[u64],
    held: &mut [bool],
    remaining: &mut [u64],
    failed: &mut [bool],
    culprits: &mut [i64],
    s: u64,
    words: &[u64],
    found: &mut [u64; 6],
) -> u64
    ensures { Run (tables ops.now nums.now first count nodes.now nfirst ncount)
        (monitor_of size forms.now bounds.now
        (entries held.old remaining.old failed.old culprits.old)) s words.now
        found.old result (entries held.new remaining.new failed.new culprits.new) found.new }
{
    let tables = Tables::new(ops, nums, nodes);
    let part = Part {
        first,
        count,
        nfirst,
        ncount,
    };
    let frame = Frame {
        size,
        forms,
        bounds,
    };
    let mut memory = Memory {
        held,
        remaining,
        failed,
        culprits,
    };
    let answer = run(&tables, part, &frame, &mut memory, s, words);
    say(tell_run(answer), found)
}

// Saves a monitor into the bytes.
#[unsafe(no_mangle)]
pub extern "C" fn cavewatch_save(
    ops: &[u8],
    nums: &[u64],
    first: usize,
    count: usize,
    nodes: &[u64],
    nfirst: usize,
    ncount: usize,
    size: usize,
    forms: &[u64],
    bounds: &[u64],
    held: &[bool],
    remaining: &[u64],
    failed: &[bool],
    culprits: &[i64],
    bytes: &mut [u8],
    found: &mut [u64; 6],
) -> u64
    ensures { Save (tables ops.now nums.now first count nodes.now nfirst ncount)
        (monitor_of size forms.now bounds.now
        (entries held.now remaining.now failed.now culprits.now)) bytes.old
        found.old result bytes.new found.new }
{
    let tables = Tables::new(ops, nums, nodes);
    let part = Part {
        first,
        count,
        nfirst,
        ncount,
    };
    let frame = Frame {
        size,
        forms,
        bounds,
    };
    let entries = Entries {
        held,
        remaining,
        failed,
        culprits,
    };
    let answer = save(&tables, part, &frame, &entries, bytes);
    say(tell_count(answer), found)
}

// Makes the monitor of a compiled rule with the state that the bytes hold.
#[unsafe(no_mangle)]
pub extern "C" fn cavewatch_restore(
    ops: &[u8],
    nums: &[u64],
    first: usize,
    count: usize,
    nodes: &[u64],
    nfirst: usize,
    ncount: usize,
    forms: &mut [u64],
    bounds: &mut [u64],
    held: &mut [bool],
    remaining: &mut [u64],
    failed: &mut [bool],
    culprits: &mut [i64],
    bytes: &[u8],
) -> u64
    ensures { Restore (tables ops.now nums.now first count nodes.now nfirst ncount)
        forms.old bounds.old (entries held.old remaining.old failed.old culprits.old)
        bytes.now result
        forms.new bounds.new (entries held.new remaining.new failed.new culprits.new) }
{
    let tables = Tables::new(ops, nums, nodes);
    let part = Part {
        first,
        count,
        nfirst,
        ncount,
    };
    let mut memory = Memory {
        held,
        remaining,
        failed,
        culprits,
    };
    let mut blank = Blank { forms, bounds };
    let answer = restore(&tables, part, &mut blank, &mut memory, bytes);
    tell_made(answer)
}
