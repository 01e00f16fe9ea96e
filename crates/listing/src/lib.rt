// The listing of a book: from its bytes to a lent output.
#![tactic(auto)]

pub mod head;
pub mod tail;
pub mod whole;
