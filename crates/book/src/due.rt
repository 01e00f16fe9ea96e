// The depths at which operands are still due: the next one's depth, and a bit for each depth up to it at which another is due.
ghost use Rattle.std.specs.Prelude.{◌≡◌, ◌≤◌};
ghost use Rattle.book.specs.Book.{spend};
ghost use Rattle.book.specs.Due.{depths, due_of, Small};

use terms::op::{AND, NOT};

#[derive(Clone, Copy, Debug, PartialEq, Eq)]
pub struct Due {
    pub depth: usize,
    pub bits: u64,
    ghost small: { Small depth bits },
}

impl Due {
    // The depths from its own down: a leaf has been read.
    fn climb(self) -> Due
        ensures { depths self.depth self.bits ≡ due_of result.depth result.bits }
    {
        if self.bits == 0 {
            return Due { depth: 0, bits: 0 };
        }
        let up = self.bits.trailing_zeros();
        Due {
            // `as`: the number fits, and a `TryFrom` would have an error that cannot be
            depth: self.depth - up as usize,
            bits: (self.bits >> up) - 1,
        }
    }

    // A node at the next one's depth has been read.
    pub(crate) fn operands(self, op: u8) -> Due
        requires { (1 ≤ self.depth) × (self.depth ≤ 64) }
        ensures { spend op (due_of self.depth self.bits) ≡ due_of result.depth result.bits }
    {
        if op < NOT {
            return self.climb();
        }
        if op < AND {
            return Due {
                depth: self.depth + 1,
                bits: self.bits * 2,
            };
        }
        Due {
            depth: self.depth + 1,
            bits: self.bits * 2 + 1,
        }
    }
}
