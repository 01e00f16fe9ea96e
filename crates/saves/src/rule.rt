// A compiled rule in the tables, and the calls on its monitor.
ghost use Rattle.std.specs.Prelude.{◌≤◌};

use in_place::ReferenceMonitor;
use in_place::fresh::{Started, fresh};
use in_place::step::step;
use monitor::table::{Part, Tables};
use reader::steps::StepLine;
use result::Refusal;
use saving_in_place::restore::restore;
use saving_in_place::save::save;
use terms::limit::RULE_NODES;

// Lent bytes: as many as 256 nodes of 65 bits take, and more.
pub(crate) const ROOM: usize = 2112;

// What they hold before a call.
pub(crate) const MARK: u8 = 165;

// Rule `number` of a book: the tables that hold it, and where it lies in them.
#[derive(Clone, Copy)]
pub(crate) struct Rule<'a> {
    pub number: usize,
    pub tables: Tables<'a>,
    pub part: Part,
}

impl Rule<'_> {
    // Makes a lent monitor the rule's fresh one.
    pub(crate) fn fresh(&self, m: &mut ReferenceMonitor) -> Result<usize, Refusal> {
        fresh(m, &self.tables, self.part)
    }

    // Steps a monitor of the rule.
    pub(crate) fn step(&self, m: &mut ReferenceMonitor, line: StepLine) -> Result<bool, Refusal> {
        step(m, &self.tables, self.part, line.step, line.truths)
    }

    // Saves a monitor of the rule into lent bytes.
    pub(crate) fn save_to(&self, m: &ReferenceMonitor, bytes: &mut [u8]) -> Result<usize, Refusal> {
        save(m, &self.tables, self.part, bytes)
    }

    // Saves a monitor of the rule into bytes that hold MARK.
    pub(crate) fn save(&self, m: &ReferenceMonitor) -> Saved {
        let mut bytes = [MARK; ROOM];
        let answer = self.save_to(m, &mut bytes);
        Saved { answer, bytes }
    }

    // Restores a lent monitor from bytes.
    pub(crate) fn restore_to(
        &self,
        m: &mut ReferenceMonitor,
        bytes: &[u8],
    ) -> Result<usize, Refusal> {
        restore(m, &self.tables, self.part, bytes)
    }

    // Restores a monitor that holds junk from bytes.
    pub(crate) fn restore(&self, bytes: &[u8]) -> Started {
        let mut monitor = junk();
        let outcome = self.restore_to(&mut monitor, bytes);
        Started { monitor, outcome }
    }
}

// The answer to saving a monitor, and the bytes afterwards.
#[derive(Clone, Copy)]
pub(crate) struct Saved {
    pub answer: Result<usize, Refusal>,
    pub bytes: [u8; ROOM],
}

impl Saved {
    // How many bytes were written.
    pub(crate) fn count(&self) -> usize
        ensures { result ≤ 2112 }
    {
        self.answer.unwrap_or(0).min(ROOM)
    }

    // The bytes that were written.
    pub(crate) fn written(&self) -> &[u8] {
        &self.bytes[..self.count()]
    }

    // Whether no other byte was.
    pub(crate) fn is_kept(&self) -> bool {
        self.bytes[self.count()..].iter().all(|b| *b == MARK)
    }
}

// A monitor that no call leaves.
pub(crate) fn junk() -> ReferenceMonitor {
    ReferenceMonitor {
        size: 0,
        forms: [9; RULE_NODES],
        bounds: [9; RULE_NODES],
        held: [true; RULE_NODES],
        remaining: [7; RULE_NODES],
        failed: [true; RULE_NODES],
        culprits: [5; RULE_NODES],
    }
}

// Whether a monitor's lists hold from an entry on what junk holds.
pub(crate) fn is_junk_from(m: &ReferenceMonitor, from: usize) -> bool {
    m.forms.iter().skip(from).all(|x| *x == 9)
        && m.bounds.iter().skip(from).all(|x| *x == 9)
        && m.held.iter().skip(from).all(|x| *x)
        && m.remaining.iter().skip(from).all(|x| *x == 7)
        && m.failed.iter().skip(from).all(|x| *x)
        && m.culprits.iter().skip(from).all(|x| *x == 5)
}
