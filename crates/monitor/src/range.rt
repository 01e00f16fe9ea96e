// The steps at which a check is made.
ghost use Rattle.std.specs.Prelude.{◌≡◌};
ghost use Rattle.monitor.specs.Range.{contains_of, shifted_of, Shiftable, all_of, upto_of};

// The end of a range: the last step in it, or open, which document 01 has as a case of its own and no missing value.
#[derive(Clone, Copy, Debug, PartialEq, Eq)]
pub enum End {
    Step(u64),
    Open,
}

#[derive(Clone, Copy, Debug, PartialEq, Eq)]
pub struct AnchorRange {
    pub from: u64,
    pub to: End,
}

impl AnchorRange {
    // All steps from 0 on.
    pub fn all() -> Self
        ensures { result ≡ all_of }
    {
        AnchorRange {
            from: 0,
            to: End::Open,
        }
    }

    // The steps from 0 to the one given.
    pub fn upto(last: u64) -> Self
        ensures { result ≡ upto_of last }
    {
        AnchorRange {
            from: 0,
            to: End::Step(last),
        }
    }

    // Whether step s lies in the range.
    pub fn contains(self, s: u64) -> bool
        ensures { result ≡ contains_of self s }
    {
        let from = self.from;
        if s < from {
            return false;
        }
        let to = self.to;
        match to {
            End::Step(t) => s <= t,
            End::Open => true,
        }
    }

    // The range with one added to both ends: the effect of `next`.
    pub fn shifted(self) -> Self
        requires { Shiftable self }
        ensures { result ≡ shifted_of self }
    {
        let from = self.from;
        let to = self.to;
        match to {
            End::Step(t) => AnchorRange {
                from: from + 1,
                to: End::Step(t + 1),
            },
            End::Open => AnchorRange {
                from: from + 1,
                to: End::Open,
            },
        }
    }
}
