// Calls that 1 or 2 refuses, made with no byte lent: a line is written only for one that answers otherwise.
use crate::rule::{Rule, is_junk_from, junk};
use crate::show::told;
use in_place::ReferenceMonitor;
use monitor::table::{Part, Tables};
use result::Refusal;
use std::io;

// A call that answers otherwise than it is to.
fn show_misuse(
    rt: &impl Print,
    rule: &Rule,
    call: u64,
    answer: Result<usize, Refusal>,
) -> io::Result<()> {
    println!(rt; "misuse\t{}\t{call}\t{}", rule.number, told(answer))
}

// Saving is to be refused.
fn save_refused(
    rt: &impl Print,
    rule: &Rule,
    m: &ReferenceMonitor,
    refusal: Refusal,
) -> io::Result<()> {
    let mut bytes = [0u8; 1];
    let answer = rule.save_to(m, &mut bytes[..0]);
    if answer != Err(refusal) {
        show_misuse(rt, rule, 0, answer)?;
    }
    Ok(())
}

// Restoring is to be refused, and to leave the lists as they are.
fn restore_refused(rt: &impl Print, rule: &Rule, refusal: Refusal) -> io::Result<()> {
    let restored = rule.restore(&[]);
    if restored.outcome != Err(refusal) {
        show_misuse(rt, rule, 1, restored.outcome)?;
    }
    if !is_junk_from(&restored.monitor, 0) {
        show_misuse(rt, rule, 2, restored.outcome)?;
    }
    Ok(())
}

// A monitor that is not the rule's, tables with a node more than the rule has, and a table that is too short.
pub(crate) fn try_misuse(rt: &impl Print, rule: &Rule, fresh: &ReferenceMonitor) -> io::Result<()> {
    save_refused(rt, rule, &junk(), Refusal::Unfit)?;
    let one_more = Rule {
        part: Part {
            ncount: rule.part.ncount.saturating_add(1),
            ..rule.part
        },
        ..*rule
    };
    save_refused(rt, &one_more, fresh, Refusal::Unfit)?;
    restore_refused(rt, &one_more, Refusal::Unfit)?;
    let none = Rule {
        tables: Tables {
            nodes: &[],
            ..rule.tables
        },
        ..*rule
    };
    save_refused(rt, &none, fresh, Refusal::Short)?;
    restore_refused(rt, &none, Refusal::Short)
}
