// What a node keeps in its rule's bits, and those bits in bytes (document 02, order 3).
#![tactic(auto)]

ghost use Rattle.std.specs.Prelude.{◌≡◌, ◌+◌, ◌*◌, ◌≤◌, length};
ghost use Rattle.terms.specs.Limits.{row_cells};
ghost use Rattle.bits.specs.Bits.{bit_in};
ghost use Rattle.monitor.specs.Table.{row_of};
ghost use Rattle.kept.specs.Kept.{keep_node, keep_row, window_bits, keep_width, keep_entry, window_entry, entry_sound, keep_spent, PutKept, Space};

use bits::{bit_at, number_at, put_bit, put_number};
use monitor::node::{MonNode, Rows};
use node_step::state::{MonState, initial_state};
use plan::layout::width_of;

// Nothing, a delayed check's antecedent, or the window of an obligation with a bound.
#[derive(Clone, Copy, Debug, PartialEq, Eq)]
pub enum Keep {
    Nothing,
    Antecedent,
    Window(u64),
}

impl Keep {
    fn of(node: MonNode) -> Keep
        ensures { result ≡ keep_node node }
    {
        match node {
            MonNode::DelayedCheck { .. } => Keep::Antecedent,
            MonNode::Obligation { bound, .. } => Keep::Window(bound),
            MonNode::RangeCheck { .. } | MonNode::And | MonNode::Or => Keep::Nothing,
        }
    }

    // What the node in row k keeps.
    pub fn at(rows: &Rows, k: usize) -> Keep
        requires { row_cells * (rows.now.first + k + 1) ≤ length rows.now.nodes.now }
        ensures { result ≡ keep_row (row_of rows.now.nodes.now (rows.now.first + k)) }
    {
        let Some(node) = rows.at(k) else {
            return Keep::Nothing;
        };
        Keep::of(node)
    }

    // The bits of what is kept.
    pub fn width(self) -> usize
        ensures { (result ≡ keep_width self) × (result ≤ 65) }
    {
        match self {
            Keep::Nothing => 0,
            Keep::Antecedent => 1,
            Keep::Window(b) => window_bits(b),
        }
    }

    // Writes what is kept from bit `at` on.
    pub fn put(self, bytes: &mut [u8], at: usize, held: bool, remaining: u64)
        requires { Space bytes.old at (keep_width self) }
        ensures { PutKept bytes.old at self held remaining bytes.new }
    {
        match self {
            Keep::Nothing => {}
            Keep::Antecedent => put_bit(bytes, at, held),
            Keep::Window(b) => put_window(bytes, at, b, held, remaining),
        }
    }

    // The entry of a node that keeps this, from the bits at `at` on.
    pub fn take(self, bytes: &[u8], at: usize) -> MonState
        requires { Space bytes.now at (keep_width self) }
        ensures { result ≡ keep_entry self (bit_in bytes.now) at }
    {
        match self {
            Keep::Nothing => initial_state(),
            Keep::Antecedent => MonState {
                held: bit_at(bytes, at),
                ..initial_state()
            },
            Keep::Window(b) => take_window(bytes, at, b),
        }
    }

    // Whether an entry can be that of a node which keeps this.
    pub fn is_sound(self, st: MonState) -> bool
        ensures { result ≡ entry_sound self st }
    {
        match self {
            Keep::Nothing | Keep::Antecedent => true,
            Keep::Window(b) => is_window(b, st),
        }
    }

    // Whether what is kept is marked failed: obligations and delayed checks, of whatever bound.
    pub fn is_spent(self, failed: bool) -> bool
        ensures { result ≡ keep_spent self failed }
    {
        match self {
            Keep::Nothing => false,
            Keep::Antecedent | Keep::Window(_) => failed,
        }
    }
}

// The bits of a window: none for bound 0.
fn window_bits(b: u64) -> usize
    ensures { (result ≡ window_bits b) × (result ≤ 65) }
{
    if b == 0 {
        return 0;
    }
    // `as`: the number fits, and a `TryFrom` would have an error that cannot be
    1 + width_of(b) as usize
}

// Writes a window: whether it is pending, then what remains of it, 0 where it is not.
fn put_window(bytes: &mut [u8], at: usize, b: u64, held: bool, remaining: u64)
    requires { Space bytes.old at (window_bits b) }
    ensures { PutKept bytes.old at (Keep.Window b) held remaining bytes.new }
{
    if b == 0 {
        return;
    }
    put_bit(bytes, at, held);
    let left = if held { remaining } else { 0 };
    put_number(bytes, at + 1, width_of(b), left);
}

// A window's entry: a fresh one for bound 0.
fn take_window(bytes: &[u8], at: usize, b: u64) -> MonState
    requires { Space bytes.now at (window_bits b) }
    ensures { result ≡ window_entry b (bit_in bytes.now) at }
{
    if b == 0 {
        return initial_state();
    }
    MonState {
        held: bit_at(bytes, at),
        remaining: number_at(bytes, at + 1, width_of(b)),
        ..initial_state()
    }
}

// Whether a window has from 1 to the bound steps left, or none where it is not pending.
fn is_window(b: u64, st: MonState) -> bool
    ensures { result ≡ entry_sound (Keep.Window b) st }
{
    if st.held {
        return 1 <= st.remaining && st.remaining <= b;
    }
    st.remaining == 0
}
