// The kinds of a rule (specs/Kinds.antt).
ghost use Rattle.std.specs.Prelude.{◌≡◌};
ghost use Rattle.terms.specs.Kinds.{kind_number};

// What the team wants to hold, or what it takes as agreed.
#[derive(Clone, Copy, Debug, PartialEq, Eq)]
pub enum Kind {
    Property,
    Assumption,
}

// Their numbers in the lists of kinds that are lent.
pub const PROPERTY: u8 = 0;

pub const ASSUMPTION: u8 = 1;

// From here on a number is no kind's.
pub const KINDS: u8 = 2;

impl From<Kind> for u8 {
    ghost from_gives = { λ k n. n ≡ kind_number k };

    fn from(kind: Kind) -> u8 {
        match kind {
            Kind::Property => PROPERTY,
            Kind::Assumption => ASSUMPTION,
        }
    }
}
