// Switching off: a monitor is saved, lost and restored.
use crate::rule::{Rule, is_junk_from};
use crate::show::{Hex, kept_or_lost, told};
use in_place::ReferenceMonitor;
use std::io;

// Monitor B saved at place i, lost, and restored in lists of junk.
fn switch_off(rt: &impl Print, rule: &Rule, i: usize, m: &mut ReferenceMonitor) -> io::Result<()> {
    let saved = rule.save(m);
    let r = rule.number;
    if saved.answer.is_err() {
        return println!(rt;
            "back\t{r}\t{i}\t{}\t-\t-\t{}",
            told(saved.answer),
            kept_or_lost(saved.is_kept())
        );
    }
    let restored = rule.restore(&saved.bytes);
    let again = rule.save(&restored.monitor);
    let kept = kept_or_lost(is_junk_from(&restored.monitor, rule.part.ncount));
    println!(rt;
        "back\t{r}\t{i}\t0\t{}\t{}\t{kept}",
        told(restored.outcome),
        Hex(again.written())
    )?;
    if restored.outcome.is_ok() {
        *m = restored.monitor;
    }
    Ok(())
}

// Monitor B behind a place: switched off and on again where place and rule say so.
pub(crate) fn off_and_on(
    rt: &impl Print,
    rule: &Rule,
    i: usize,
    m: &mut ReferenceMonitor,
) -> io::Result<()> {
    if (i % 3 + rule.number % 3) % 3 == 1 {
        switch_off(rt, rule, i, m)?;
    }
    Ok(())
}
