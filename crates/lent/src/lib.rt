// The tests of what a call on a monitor is lent: room, and a monitor that fits its rule's nodes.
#![tactic(auto)]

pub mod refusal;
pub mod room;
pub mod shape;

// What no step changes of a lent monitor: the count of its nodes, and their forms and bounds.
#[derive(Clone, Copy)]
pub struct Frame<'a> {
    pub size: usize,
    pub forms: &'a [u64],
    pub bounds: &'a [u64],
}

// The forms and bounds of a monitor that is to be made. Its memory stands beside it: what becomes of a list is not known where the list is lent in
// a struct of a struct.
#[derive(Drop)]
pub struct Blank<'a> {
    pub forms: &'a mut [u64],
    pub bounds: &'a mut [u64],
}
