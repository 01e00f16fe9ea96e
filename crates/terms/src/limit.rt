// Document 01's limits and sizes (specs/Limits.antt).

// Formula nodes of a book: the places of a formula table.
pub const BOOK_NODES: usize = 1024;

// Nodes of a rule, of its formula and of its monitor.
pub const RULE_NODES: usize = 256;

// Rules of a book.
pub const BOOK_RULES: usize = 64;

// Bytes of a label, and of the labels of a book's rules.
pub const LABEL_BYTES: usize = 32;

pub const LABELS_ROOM: usize = 2048;

// Depth of a formula, the root at depth 1.
pub const DEEPEST: usize = 64;

// Slots of a book (document 02, order 1), and the bytes of their names.
pub const BOOK_SLOTS: usize = 32;

pub const NAMES_ROOM: usize = 1024;

// Counts of states lie below it.
pub const STATES: u64 = 65536;

// The most bits of a slot.
pub const SLOT_MOST: u64 = 64;

// Signals: bits of a word of truths.
pub const SIGNALS: u64 = 64;

// Numbers of a row of a compiled node.
pub const ROW_CELLS: usize = 7;

// Numbers of the rows that compiling a rule is lent.
pub const NODE_CELLS: usize = 1792;

// Rows that the rules of a book are compiled into: one for each of its nodes, and a rule's more in which the last is tried; and their numbers.
pub const BOOK_ROWS: usize = 1280;

pub const BOOK_CELLS: usize = 8960;

// Numbers that splitting a rule is lent: two an entry of the skeleton, three an obligation.
pub const SKELETON_ROOM: usize = 512;

pub const OWED_ROOM: usize = 768;

// Bytes of a book.
pub const BOOK_BYTES: usize = 65535;

// Bytes of the output that a listing is lent.
pub const LISTING_BYTES: usize = 262144;

// Steps handed to a monitor lie below 2^63.
pub const STEPS: u64 = 9223372036854775808;
