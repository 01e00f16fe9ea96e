// The numbers of the forms in the rows of a compiled rule (specs/Forms.antt), which C lends as plain numbers.
pub const RANGE: u64 = 0;

pub const DELAYED: u64 = 1;

pub const OBLIGATION: u64 = 2;

pub const AND: u64 = 3;

pub const OR: u64 = 4;

// From here on a number is no form's.
pub const FORMS: u64 = 5;
