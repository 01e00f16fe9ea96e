// What all layers share: document 01's limits, the numbers of words, forms, kinds and entries.
#![tactic(auto)]

pub mod entry;
pub mod form;
pub mod kind;
pub mod limit;
pub mod op;
pub mod word;
