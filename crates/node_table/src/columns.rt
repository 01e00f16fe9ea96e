// The columns of a formula table.
ghost use Rattle.std.specs.Prelude.{◌≡◌, ◌≤◌, length, take};

use formula::table::FormulaTable;
use terms::limit::BOOK_NODES;

// A table in two columns: how many nodes there are, and the operations and numbers of those that were read or are to be stored. Memory is fixed, so the
// count stands beside arrays of the largest size.
#[derive(Clone, Copy)]
pub struct Columns {
    pub count: usize,
    pub ops: [u8; BOOK_NODES],
    pub nums: [u64; BOOK_NODES],
    pub ghost ops_room: { count ≤ length ops },
    pub ghost nums_room: { count ≤ length nums },
}

impl Columns {
    // The operations that count.
    pub fn ops(&self) -> &[u8]
        ensures { result.now ≡ take self.now.count self.now.ops }
    {
        &self.ops[..self.count]
    }

    // The numbers that count.
    pub fn nums(&self) -> &[u64]
        ensures { result.now ≡ take self.now.count self.now.nums }
    {
        &self.nums[..self.count]
    }

    // The table that they are.
    pub fn table(&self) -> FormulaTable
        ensures ops { result.ops.now ≡ take self.now.count self.now.ops }
        ensures nums { result.nums.now ≡ take self.now.count self.now.nums }
    {
        FormulaTable {
            ops: self.ops(),
            nums: self.nums(),
        }
    }
}
