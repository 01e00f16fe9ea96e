// Calls that document 01 refuses by 2, made over the compiled rules of a book: a line is written only for one that answers otherwise.
ghost use Rattle.std.specs.Prelude.{◌<◌};
ghost use Rattle.terms.specs.Limits.{book_rules};

use crate::compile::Rules;
use crate::show::show_refused;
use encoding::Opening;
use result::Refusal;
use std::io;
use terms::limit::BOOK_SLOTS;

// A refusal by another number than 2; 0 for a call that was not refused.
fn show_other<T: Drop>(rt: &impl Print, call: &str, answer: Result<T, Refusal>) -> io::Result<()> {
    let n = match answer {
        Ok(_) => 0,
        Err(Refusal::Unfit) => return Ok(()),
        Err(refusal) => u64::from(refusal),
    };
    show_refused(rt, call, n)
}

// The layout of n rules, which something is wrong with.
fn laid_out(rt: &impl Print, rules: &Rules, n: usize, opening: &Opening) -> io::Result<()> {
    show_other(rt, "layout", rules.lay_out(n, opening).plan)
}

// Rule r: the node behind its last one; the rule beside itself where it does not compile; and laid out as one that compiles where it does not, and the
// other way round.
fn try_rule(rt: &impl Print, rules: &mut Rules, r: usize, opening: &Opening) -> io::Result<()>
    requires { r < book_rules }
{
    let a = rules.part(r);
    show_other(rt, "node_slot", rules.slot(a, a.ncount))?;
    let was = rules.refusals[r];
    if was == 0 {
        rules.refusals[r] = u64::from(Refusal::ZeroFor);
    } else {
        show_other(rt, "alike", rules.alike(a, a))?;
        rules.refusals[r] = 0;
    }
    laid_out(rt, rules, rules.count(), opening)?;
    rules.refusals[r] = was;
    Ok(())
}

// The layout with too many states, with 33 slots, and with a slot of 65 bits.
fn try_opening(rt: &impl Print, rules: &Rules) -> io::Result<()> {
    let mut widths = [0; BOOK_SLOTS];
    let mut opening = Opening {
        states: 65536,
        widths: &widths,
        slots: 0,
    };
    laid_out(rt, rules, rules.count(), &opening)?;
    opening.states = 0;
    opening.slots = 33;
    laid_out(rt, rules, rules.count(), &opening)?;
    widths[31] = 65;
    let wide = Opening {
        states: 65535,
        widths: &widths,
        slots: 32,
    };
    laid_out(rt, rules, rules.count(), &wide)
}

// The calls over each of the rules, and the layout of 65.
pub(crate) fn try_misuse(rt: &impl Print, rules: &mut Rules, opening: &Opening) -> io::Result<()> {
    for r in 0..rules.count() {
        try_rule(rt, rules, r, opening)?;
    }
    laid_out(rt, rules, 65, opening)?;
    try_opening(rt, rules)
}
