// Text into lent memory. A byte for which there is no room is left out, and the place stays, so that no call asks for room.
#![tactic(auto)]

pub mod write;
