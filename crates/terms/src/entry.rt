// The kinds of a skeleton's entries (specs/Entries.antt): a safety leaf, an obligation, and from `WORD` on the words by their numbers.
// Numbers, as document 01's lists are plain numbers.
pub const SAFETY: u64 = 0;

pub const OWED: u64 = 1;

pub const WORD: u64 = 2;

pub const NOT: u64 = 3;

// The kinds of an obligation: `eventually` with one operand, `until` with two.
pub const EVENTUALLY: u64 = 0;

pub const UNTIL: u64 = 1;
