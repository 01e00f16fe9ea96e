// Why a call gives no result: document 01's conditions and those of document 02, and their numbers.
#![tactic(auto)]

ghost use Rattle.std.specs.Prelude.{◌≡◌, Some};
ghost use Rattle.result.specs.Refusal.{number_of, refused_text};

use std::error::Error;
use std::fmt;

/// Why a call gives no result. Each case's number is that of its condition (specs/Refusal.antt).
#[derive(Clone, Copy, Debug, PartialEq, Eq)]
pub enum Refusal {
    // 1, 2: what is lent
    Short,
    Unfit,
    // 3 to 10 and 25: a book
    Long,
    Unended,
    Word,
    Place,
    Label,
    Number,
    Limit,
    Unfinished,
    Unopened,
    // 11 to 19: compiling
    NestedFor,
    ZeroFor,
    Antecedent,
    WithinOperand,
    NextConsequent,
    Consequent,
    NextOperand,
    NotOperand,
    Liveness,
    // 20 to 23: splitting
    EventuallyOperand,
    UntilOperand,
    LivenessBelow,
    NoLivenessBelow,
    // 24: stepping
    Late,
    // 26, 27: saving and restoring
    Failed,
    Unsaved,
}

impl From<Refusal> for u64 {
    ghost from_gives = { λ r n. n ≡ number_of r };

    fn from(refusal: Refusal) -> u64 {
        match refusal {
            Refusal::Short => 1,
            Refusal::Unfit => 2,
            Refusal::Long => 3,
            Refusal::Unended => 4,
            Refusal::Word => 5,
            Refusal::Place => 6,
            Refusal::Label => 7,
            Refusal::Number => 8,
            Refusal::Limit => 9,
            Refusal::Unfinished => 10,
            Refusal::NestedFor => 11,
            Refusal::ZeroFor => 12,
            Refusal::Antecedent => 13,
            Refusal::WithinOperand => 14,
            Refusal::NextConsequent => 15,
            Refusal::Consequent => 16,
            Refusal::NextOperand => 17,
            Refusal::NotOperand => 18,
            Refusal::Liveness => 19,
            Refusal::EventuallyOperand => 20,
            Refusal::UntilOperand => 21,
            Refusal::LivenessBelow => 22,
            Refusal::NoLivenessBelow => 23,
            Refusal::Late => 24,
            Refusal::Unopened => 25,
            Refusal::Failed => 26,
            Refusal::Unsaved => 27,
        }
    }
}

impl fmt::Display for Refusal {
    ghost output = { λ r. Some (refused_text r) };

    fn fmt<W: fmt::Write>(&self, f: &mut fmt::Formatter<W>) -> fmt::Result {
        let number = u64::from(*self);
        write!(f, "refused {number}")
    }
}

impl Error for Refusal {}
