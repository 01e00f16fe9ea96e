// The numbers of the words that a line can begin with (specs/Words.antt). A node's word has its number in a formula table (op.rt),
// and these go on from there, so that one function has the letters of both.
pub const RULE: u8 = 13;

pub const STEP: u8 = 14;

pub const STATES: u8 = 15;

pub const SLOT: u8 = 16;

// From here on a number is no line word's.
pub const LINE_WORDS: u8 = 17;
