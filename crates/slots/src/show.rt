// The lines of compiled rules.
ghost use Rattle.std.specs.Prelude.{◌<◌};
ghost use Rattle.terms.specs.Limits.{book_rules};

use crate::compile::{Laid, Rules};
use encoding::{ConfigEncoding, Opening};
use letters::{length, letter};
use monitor::table::Part;
use result::Refusal;
use std::io;
use terms::op::VAR;
use terms::word::{RULE, SLOT};

// A line word, by its number. Four lines, in book_tests too: a shared function would want a contract of what is written.
fn show_word(rt: &impl Print, k: u8) -> io::Result<()> {
    for i in 0..length(k) {
        rt.write_all(&[letter(k, i)])?;
    }
    Ok(())
}

// A call's refusal, which no compiled rule meets.
pub(crate) fn show_refused(rt: &impl Print, call: &str, n: u64) -> io::Result<()> {
    println!(rt; "{call} refused\t{n}")
}

// The numbers of the whole.
pub(crate) fn show_plan(rt: &impl Print, plan: Result<ConfigEncoding, Refusal>) -> io::Result<()> {
    match plan {
        Err(refusal) => show_refused(rt, "layout", u64::from(refusal)),
        Ok(e) => println!(rt;
            "plan\t{}\t{}\t{}\t{}\t{}",
            e.state_bits, e.vars_bits, e.monitors_bits, e.total_bits, e.total_bytes
        ),
    }
}

// The first bits and widths of the slots.
pub(crate) fn show_vars(rt: &impl Print, laid: &Laid, opening: &Opening) -> io::Result<()> {
    let lines = laid.places.iter().zip(opening.widths).take(opening.slots);
    for (k, (place, width)) in lines.enumerate() {
        show_word(rt, VAR)?;
        println!(rt; "\t{k}\t{place}\t{width}")?;
    }
    Ok(())
}

// The nodes of rule r.
fn show_slots(rt: &impl Print, rules: &Rules, a: Part, r: usize) -> io::Result<()> {
    for j in 0..a.ncount {
        match rules.slot(a, j) {
            Err(refusal) => show_refused(rt, "node_slot", u64::from(refusal))?,
            Ok(slot) => {
                let piece = slot.piece;
                show_word(rt, SLOT)?;
                println!(rt;
                    "\t{r}\t{j}\t{}\t{}\t{}\t{}",
                    slot.offset, piece.pending, piece.remaining, piece.antecedent
                )?;
            }
        }
    }
    Ok(())
}

// The line of rule r, if it compiles, and those of its nodes.
fn show_rule(rt: &impl Print, rules: &Rules, r: usize, laid: &Laid) -> io::Result<()>
    requires { r < book_rules }
{
    if rules.refusals[r] != 0 {
        return Ok(());
    }
    let a = rules.part(r);
    match rules.own_bits(a) {
        Err(refusal) => show_refused(rt, "layout_for", u64::from(refusal))?,
        Ok(own) => {
            show_word(rt, RULE)?;
            println!(rt; "\t{r}\t{}\t{}\t{own}", laid.starts[r], laid.bits[r])?;
        }
    }
    show_slots(rt, rules, a, r)
}

// The lines of the rules that compile, with their first bits and bits.
pub(crate) fn show_rules(rt: &impl Print, rules: &Rules, laid: &Laid) -> io::Result<()> {
    for r in 0..rules.count() {
        show_rule(rt, rules, r, laid)?;
    }
    Ok(())
}

// The line of rule q and the compiled rule r, if q compiles and they are alike.
fn show_pair(rt: &impl Print, rules: &Rules, q: usize, r: usize, b: Part) -> io::Result<()>
    requires { q < book_rules }
{
    if rules.refusals[q] != 0 {
        return Ok(());
    }
    match rules.alike(rules.part(q), b) {
        Err(refusal) => show_refused(rt, "alike", u64::from(refusal)),
        Ok(false) => Ok(()),
        Ok(true) => println!(rt; "alike\t{q}\t{r}"),
    }
}

// The earlier rules that are like rule r, if it compiles.
fn show_alike_to(rt: &impl Print, rules: &Rules, r: usize) -> io::Result<()>
    requires { r < book_rules }
{
    if rules.refusals[r] != 0 {
        return Ok(());
    }
    let b = rules.part(r);
    for q in 0..r {
        show_pair(rt, rules, q, r, b)?;
    }
    Ok(())
}

// Each two rules that compile and are alike, by the later one and then the earlier.
pub(crate) fn show_alike(rt: &impl Print, rules: &Rules) -> io::Result<()> {
    for r in 0..rules.count() {
        show_alike_to(rt, rules, r)?;
    }
    Ok(())
}
