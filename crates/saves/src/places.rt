// One rule: its two monitors over the book's steps.
use crate::attempt::{show_flips, show_reads};
use crate::misuse::try_misuse;
use crate::off::off_and_on;
use crate::rule::{Rule, junk};
use crate::short::show_short;
use crate::show::{Hex, kept_or_lost, told, told_of_step};
use in_place::ReferenceMonitor;
use reader::steps::next_step;
use std::io;
use terms::limit::BOOK_BYTES;

// Monitor A saved at place i.
fn show_save(rt: &impl Print, rule: &Rule, i: usize, m: &ReferenceMonitor) -> io::Result<()> {
    let saved = rule.save(m);
    println!(rt;
        "save\t{}\t{i}\t{}\t{}\t{}",
        rule.number,
        told(saved.answer),
        Hex(saved.written()),
        kept_or_lost(saved.is_kept())
    )?;
    show_flips(rt, rule, i, &saved)
}

// The lines of a compiled rule: over the steps, at most as many as the book has bytes.
pub(crate) fn run_rule(
    rt: &impl Print,
    rule: &Rule,
    text: &[u8],
    steps_at: usize,
) -> io::Result<()> {
    let mut fresh = junk();
    if rule.fresh(&mut fresh).is_err() {
        return Ok(());
    }
    let mut a = fresh;
    let mut b = fresh;
    let mut at = steps_at;
    for i in 0..BOOK_BYTES {
        show_save(rt, rule, i, &a)?;
        off_and_on(rt, rule, i, &mut b)?;
        let Some(line) = next_step(text, at) else {
            return finish(rt, rule, &a, &b, &fresh);
        };
        let of_a = told_of_step(rule.step(&mut a, line));
        let of_b = told_of_step(rule.step(&mut b, line));
        println!(rt;
            "told\t{}\t{}\t{of_a}\t{}\t{of_b}\t{}",
            rule.number, line.step, a.culprits[0], b.culprits[0]
        )?;
        at = line.next;
    }
    Ok(())
}

// After the last step.
fn finish(
    rt: &impl Print,
    rule: &Rule,
    a: &ReferenceMonitor,
    b: &ReferenceMonitor,
    fresh: &ReferenceMonitor,
) -> io::Result<()> {
    let blamed = a.culprits.iter().zip(&b.culprits).take(rule.part.ncount);
    for (j, (in_a, in_b)) in blamed.enumerate() {
        println!(rt; "blame\t{}\t{j}\t{in_a}\t{in_b}", rule.number)?;
    }
    // the bytes that the rule needs are those of its fresh monitor
    let need = rule.save(fresh).count();
    show_reads(rt, rule, need)?;
    show_short(rt, rule, a, need)?;
    try_misuse(rt, rule, fresh)
}
