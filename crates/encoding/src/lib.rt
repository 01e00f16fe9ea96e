// The bits of a configuration: the state's, then the slots', then the monitors' (`config_encoding` of src/mc/plan.rs).
#![tactic(auto)]

ghost use Rattle.std.specs.Prelude.{◌≡◌, ◌^◌, ◌<◌, ◌≤◌, length, take};
ghost use Rattle.std.proofs.lemmas.List.Edits.{sets};
ghost use Rattle.terms.specs.Limits.{book_slots, state_counts};
ghost use Rattle.plan.specs.Book.{listed};
ghost use Rattle.plan.specs.Lists.{compiles, own_bits, RulesRowed};
ghost use Rattle.encoding.specs.Encoding.{slot_from, encoding_by, narrow, opening, Widths, StateSum, SlotSum, MonitorSum};

use plan::layout::{RuleList, ceil_log2};
use terms::limit::{BOOK_SLOTS, SLOT_MOST, STATES};

// The bits of the state, of all slots, of all monitors and of the whole, and the whole in bytes.
#[derive(Clone, Copy, Debug, PartialEq, Eq)]
pub struct ConfigEncoding {
    pub state_bits: u64,
    pub vars_bits: u64,
    pub monitors_bits: u64,
    pub total_bits: u64,
    pub total_bytes: u64,
}

// What a book opens with: a count of states, and slots, whose widths are the first of a lent list.
#[derive(Clone, Copy)]
pub struct Opening<'a> {
    pub states: u64,
    pub widths: &'a [u64],
    pub slots: usize,
}

impl Opening<'_> {
    // The bits of a state among so many.
    pub fn state_bits(&self) -> u64
        requires { self.now.states < state_counts }
        ensures { StateSum self.now.states result }
    {
        ceil_log2(self.states)
    }

    // The bits of the slots.
    pub fn slot_bits(&self) -> u64
        requires { Widths self.now.widths.now self.now.slots }
        ensures { SlotSum (take self.now.slots self.now.widths.now) self.now.slots result }
    {
        self.widths[..self.slots].iter().sum()
    }

    // Where each slot begins, the first of them at bit `base`.
    pub fn place_slots(&self, base: u64, places: &mut [u64])
        requires { (Widths self.now.widths.now self.now.slots) × ((self.now.slots ≤ length places.old) × (base < 2 ^ 60)) }
        ensures { places.new ≡ sets places.old 0 (listed (slot_from base (take self.now.slots self.now.widths.now)) self.now.slots) }
    {
        let mut place = base;
        // a place in two lists at once, so the loop counts it
        for k in 0..self.slots {
            places[k] = place;
            place += self.widths[k];
        }
    }

    // Whether each width is at most 64.
    fn is_narrow(&self) -> bool
        requires { self.now.slots ≤ length self.now.widths.now }
        ensures { result ≡ narrow self.now.widths.now self.now.slots }
    {
        self.widths[..self.slots].iter().all(|w| *w <= SLOT_MOST)
    }

    // Whether a book may open with it.
    #[tactic(auto, unfolding(crate::specs::Encoding::opening))]
    pub fn is_allowed(&self) -> bool
        requires { book_slots ≤ length self.now.widths.now }
        ensures { result ≡ opening self.now.states self.now.widths.now self.now.slots }
    {
        self.states < STATES && self.slots <= BOOK_SLOTS && self.is_narrow()
    }
}

// The bits of all rules that compile.
pub fn monitor_bits(rules: &RuleList) -> u64
    requires { RulesRowed rules.now }
    ensures { MonitorSum rules.now.len (compiles rules.now) (own_bits rules.now) result }
{
    let properties = rules.kind_bits(true);
    let assumptions = rules.kind_bits(false);
    properties + assumptions
}

// The numbers of a configuration, from the bits of its three parts.
pub fn encoding_of(state: u64, vars: u64, monitors: u64) -> ConfigEncoding
    requires { (state < 2 ^ 60) × ((vars < 2 ^ 60) × (monitors < 2 ^ 60)) }
    ensures { result ≡ encoding_by state vars monitors }
{
    let total_bits = state + vars + monitors;
    ConfigEncoding {
        state_bits: state,
        vars_bits: vars,
        monitors_bits: monitors,
        total_bits,
        total_bytes: (total_bits + 7) / 8,
    }
}
