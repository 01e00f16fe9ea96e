// Bytes that are read into a monitor that holds junk.
use crate::rule::{MARK, ROOM, Rule, Saved, is_junk_from, junk};
use result::Refusal;
use std::{fmt, io};

// How an attempt ended: the bytes are restored, are refused, or neither as it is to be.
#[derive(Clone, Copy, Debug, PartialEq, Eq)]
enum Attempt {
    Read,
    Unread,
    Other,
}

impl fmt::Display for Attempt {
    fn fmt<W: fmt::Write>(&self, f: &mut fmt::Formatter<W>) -> fmt::Result {
        match self {
            Attempt::Read => write!(f, "."),
            Attempt::Unread => write!(f, "x"),
            Attempt::Other => write!(f, "?"),
        }
    }
}

// A monitor that is restored gives the bytes again when it is saved anew, and no entry past the rule's nodes is changed; one that is not is refused by
// 27, and nothing is changed.
fn tried(rule: &Rule, bytes: &[u8; ROOM]) -> Attempt {
    let mut monitor = junk();
    let outcome = rule.restore_to(&mut monitor, bytes);
    let as_due = match outcome {
        Ok(_) => {
            let mut again = [MARK; ROOM];
            let saved = rule.save_to(&monitor, &mut again);
            saved.is_ok_and(|n| bytes.starts_with(&again[..n.min(ROOM)]))
                && is_junk_from(&monitor, rule.part.ncount)
        }
        Err(refusal) => refusal == Refusal::Unsaved && is_junk_from(&monitor, 0),
    };
    if !as_due {
        return Attempt::Other;
    }
    if outcome.is_ok() {
        Attempt::Read
    } else {
        Attempt::Unread
    }
}

// The bytes with bit k turned round.
fn flipped(bytes: &[u8; ROOM], k: usize) -> [u8; ROOM] {
    let mut out = *bytes;
    let i = k / 8;
    if i < ROOM {
        out[i] ^= 1u8 << (k % 8);
    }
    out
}

// The first so many bits of saved bytes turned round one by one, a sign each.
#[derive(Clone, Copy)]
struct Flips<'a> {
    rule: Rule<'a>,
    bytes: [u8; ROOM],
    bits: usize,
}

impl fmt::Display for Flips<'_> {
    fn fmt<W: fmt::Write>(&self, f: &mut fmt::Formatter<W>) -> fmt::Result {
        for k in 0..self.bits {
            write!(f, "{}", tried(&self.rule, &flipped(&self.bytes, k)))?;
        }
        Ok(())
    }
}

// Each bit of the bytes that were saved at place i turned round, if there are 1 to 4 and the place is below 4.
pub(crate) fn show_flips(rt: &impl Print, rule: &Rule, i: usize, saved: &Saved) -> io::Result<()> {
    let n = saved.count();
    if 3 < i || n == 0 || 4 < n {
        return Ok(());
    }
    let flips = Flips {
        rule: *rule,
        bytes: saved.bytes,
        bits: 8 * n,
    };
    println!(rt; "flip\t{}\t{i}\t{flips}", rule.number)
}

// The bytes that a rule of one byte is restored from, and a sign for each that is neither read nor refused as it is to be.
#[derive(Clone, Copy)]
struct Reads<'a> {
    rule: Rule<'a>,
}

impl fmt::Display for Reads<'_> {
    fn fmt<W: fmt::Write>(&self, f: &mut fmt::Formatter<W>) -> fmt::Result {
        for v in 0..=255u8 {
            let mut bytes = [MARK; ROOM];
            bytes[0] = v;
            match tried(&self.rule, &bytes) {
                Attempt::Read => write!(f, "{v:02x}")?,
                Attempt::Unread => {}
                Attempt::Other => write!(f, "{}", Attempt::Other)?,
            }
        }
        Ok(())
    }
}

// Each byte that a rule of one byte is restored from.
pub(crate) fn show_reads(rt: &impl Print, rule: &Rule, need: usize) -> io::Result<()> {
    if need != 1 {
        return Ok(());
    }
    println!(rt; "reads\t{}\t{}", rule.number, Reads { rule: *rule })
}
