// How answers, bytes and what was kept are printed.
use result::Refusal;
use std::fmt;

// 0 or the refusal.
pub(crate) fn told(answer: Result<usize, Refusal>) -> u64 {
    match answer {
        Ok(_) => 0,
        Err(refusal) => u64::from(refusal),
    }
}

// 0, 100 for a report, or the refusal.
pub(crate) fn told_of_step(answer: Result<bool, Refusal>) -> u64 {
    match answer {
        Ok(true) => 100,
        Ok(false) => 0,
        Err(refusal) => u64::from(refusal),
    }
}

pub(crate) fn kept_or_lost(kept: bool) -> &'static str {
    if kept { "kept" } else { "lost" }
}

// Bytes in hexadecimal, or `-` for none.
#[derive(Clone, Copy)]
pub(crate) struct Hex<'a>(pub &'a [u8]);

impl fmt::Display for Hex<'_> {
    fn fmt<W: fmt::Write>(&self, f: &mut fmt::Formatter<W>) -> fmt::Result {
        if self.0.is_empty() {
            return write!(f, "-");
        }
        for b in self.0 {
            write!(f, "{b:02x}")?;
        }
        Ok(())
    }
}
