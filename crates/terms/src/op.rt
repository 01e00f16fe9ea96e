// The numbers of the words in a formula table (specs/Ops.antt): atoms, words of one operand, words of two. Numbers, as document 01's tables are
// plain numbers, which C lends; walks tell them apart by order.
pub const VAR: u8 = 0;

pub const IN: u8 = 1;

pub const OUT: u8 = 2;

pub const NOT: u8 = 3;

pub const NEXT: u8 = 4;

pub const ALWAYS: u8 = 5;

pub const EVENTUALLY: u8 = 6;

pub const ALWAYS_FOR: u8 = 7;

pub const WITHIN: u8 = 8;

pub const AND: u8 = 9;

pub const OR: u8 = 10;

pub const IMPLIES: u8 = 11;

pub const UNTIL: u8 = 12;

// From here on a number is no word's.
pub const WORDS: u8 = 13;
