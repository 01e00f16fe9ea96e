// The lent lists that reading fills.
ghost use Rattle.std.specs.Prelude.{◌≡◌, ◌&&◌};
ghost use Rattle.reader.specs.BookTables.{roomy, roomy_slots};
ghost use Rattle.reader.specs.Lists.{tables_in, slots_in};

use terms::limit::{BOOK_NODES, BOOK_RULES, BOOK_SLOTS, LABELS_ROOM, NAMES_ROOM};

// The rule list, a place for each rule, and the formula table.
#[derive(Drop)]
pub struct BookTables<'a> {
    pub labels: &'a mut [u8],
    pub lens: &'a mut [usize],
    pub kinds: &'a mut [u8],
    pub firsts: &'a mut [usize],
    pub counts: &'a mut [usize],
    pub ops: &'a mut [u8],
    pub nums: &'a mut [u64],
}

// The slot list, a place for each slot.
#[derive(Drop)]
pub struct SlotTables<'a> {
    pub names: &'a mut [u8],
    pub lens: &'a mut [usize],
    pub widths: &'a mut [u64],
}

impl BookTables<'_> {
    // Whether every list has room for 64 rules, or for 1,024 nodes.
    #[tactic(auto, unfolding(crate::specs::BookTables::roomy))]
    pub fn is_roomy(&self) -> bool
        ensures { result ≡ roomy (tables_in self.now) }
    {
        LABELS_ROOM <= self.labels.len()
            && BOOK_RULES <= self.lens.len()
            && BOOK_RULES <= self.kinds.len()
            && BOOK_RULES <= self.firsts.len()
            && BOOK_RULES <= self.counts.len()
            && BOOK_NODES <= self.ops.len()
            && BOOK_NODES <= self.nums.len()
    }
}

impl SlotTables<'_> {
    // Whether every list has room for 32 slots.
    #[tactic(auto, unfolding(crate::specs::BookTables::roomy_slots))]
    pub fn is_roomy(&self) -> bool
        ensures { result ≡ roomy_slots (slots_in self.now) }
    {
        NAMES_ROOM <= self.names.len()
            && BOOK_SLOTS <= self.lens.len()
            && BOOK_SLOTS <= self.widths.len()
    }
}
