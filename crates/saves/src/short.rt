// Calls with fewer bytes than a rule needs.
use crate::rule::{ROOM, Rule, is_junk_from};
use crate::show::{kept_or_lost, told};
use in_place::ReferenceMonitor;
use std::io;

// One byte less lent than is needed: nothing is changed, but for the monitor's entries where no byte is needed.
pub(crate) fn show_short(
    rt: &impl Print,
    rule: &Rule,
    m: &ReferenceMonitor,
    need: usize,
) -> io::Result<()> {
    let lent = need.saturating_sub(1).min(ROOM);
    let mut bytes = [255u8; ROOM];
    let saved = rule.save_to(m, &mut bytes[..lent]);
    let restored = rule.restore(&bytes[..lent]);
    let kept = bytes.iter().all(|b| *b == 255)
        && is_junk_from(&restored.monitor, restored.monitor.size);
    println!(rt;
        "short\t{}\t{need}\t{}\t{}\t{}",
        rule.number,
        told(saved),
        told(restored.outcome),
        kept_or_lost(kept)
    )
}
