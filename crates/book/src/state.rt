// What the check knows of the lines read so far, and a line taken into it.
ghost use Rattle.std.specs.Prelude.{◌+◌, ◌<◌, ◌^◌, ◌≡◌};
ghost use Rattle.book.specs.Book.{empty, count_in};
ghost use Rattle.book.specs.Checked.{HoldsBook, StillOpening, MayStand, Opens, Within, Placed, Refuses, Addable, Adds, TakesContent, TakesLine};

use crate::due::Due;
use line::line::{Content, Fault, Sort};
use result::Refusal;
use terms::limit::{BOOK_NODES, BOOK_RULES, BOOK_SLOTS, DEEPEST, RULE_NODES};

// How many states there are, 0 where no `states` line stood.
pub fn state_count(states: Option<u64>) -> u64
    ensures { result ≡ count_in states }
{
    states.unwrap_or(0)
}

#[derive(Clone, Copy, Debug, PartialEq, Eq)]
pub struct State {
    pub rules: usize,
    pub nodes: usize,
    pub own: usize,
    pub due: Due,
    pub stepping: bool,
    pub head: usize,
    pub slots: usize,
    pub states: Option<u64>,
}

pub fn start() -> State
    ensures { HoldsBook empty result }
{
    State {
        rules: 0,
        nodes: 0,
        own: 0,
        due: Due { depth: 0, bits: 0 },
        stepping: false,
        head: 0,
        slots: 0,
        states: None,
    }
}

impl State {
    // Whether no rule and no step has been read.
    #[tactic(auto, unfolding(crate::specs::Book::opening))]
    fn opening(self) -> bool
        ensures { StillOpening self result }
    {
        !self.stepping && self.rules == 0
    }

    // Whether a line of the sort may stand behind the lines read.
    #[tactic(auto, unfolding(crate::specs::Book::stands))]
    fn stands(self, sort: Sort) -> bool
        ensures { MayStand self sort result }
    {
        match sort {
            Sort::Rule => !self.stepping && self.due.depth == 0,
            Sort::Node => 0 < self.due.depth,
            Sort::Step => self.due.depth == 0,
            Sort::States | Sort::Slot => self.opening(),
        }
    }

    // Whether an opening line of the sort is in its order: `states` first, and 32 slots at most.
    #[tactic(auto, unfolding(crate::specs::Book::opens))]
    fn opens(self, sort: Sort) -> bool
        ensures { Opens self sort result }
    {
        match sort {
            Sort::Rule | Sort::Node | Sort::Step => true,
            Sort::States => self.head == 0,
            Sort::Slot => self.slots < BOOK_SLOTS,
        }
    }

    // Whether one more line of the sort is within the limits.
    #[tactic(auto, unfolding(crate::specs::Book::within))]
    fn within(self, sort: Sort) -> bool
        ensures { Within self sort result }
    {
        match sort {
            Sort::Rule => self.rules < BOOK_RULES,
            Sort::Node => {
                self.own < RULE_NODES && self.nodes < BOOK_NODES && self.due.depth <= DEEPEST
            }
            Sort::Step | Sort::States | Sort::Slot => true,
        }
    }

    // A line of the sort in its place and, among the opening lines, in its order.
    fn placed(self, sort: Sort) -> Result<(), Refusal>
        ensures { Placed self sort result }
    {
        if !self.stands(sort) {
            return Err(Refusal::Place);
        }
        if !self.opens(sort) {
            return Err(Refusal::Unopened);
        }
        Ok(())
    }

    // The content of a line of n bytes, its LF counted.
    fn add(self, content: Content, n: usize) -> State
        requires { Addable self content n }
        ensures { Adds self content n result }
    {
        match content {
            Content::Rule { .. } => State {
                rules: self.rules + 1,
                own: 0,
                due: Due { depth: 1, bits: 0 },
                head: self.head + n,
                ..self
            },
            Content::Node { op, .. } => State {
                nodes: self.nodes + 1,
                own: self.own + 1,
                due: self.due.operands(op),
                head: self.head + n,
                ..self
            },
            Content::Step { .. } => State {
                stepping: true,
                ..self
            },
            Content::States { count } => State {
                head: self.head + n,
                states: Some(count),
                ..self
            },
            Content::Slot { .. } => State {
                head: self.head + n,
                slots: self.slots + 1,
                ..self
            },
        }
    }

    // The content of a line of n bytes, its LF counted: its place, its order among the opening lines, the limits, in this order.
    fn take_content(self, content: Content, n: usize) -> Result<State, Refusal>
        requires { self.head + n < 2 ^ 63 }
        ensures { TakesContent self content n result }
    {
        let sort = content.sort();
        self.placed(sort)?;
        if !self.within(sort) {
            return Err(Refusal::Limit);
        }
        Ok(self.add(content, n))
    }

    // Why a line with a fault is refused: its place, its order among the opening lines, what is wrong about it, in this order.
    fn refuse(self, fault: Fault) -> Refusal
        ensures { Refuses self fault result }
    {
        match fault {
            Fault::Unreadable => Refusal::Word,
            Fault::Field { sort, flaw } => match self.placed(sort) {
                Err(refusal) => refusal,
                Ok(()) => Refusal::from(flaw),
            },
        }
    }

    // A line of n bytes, its LF counted.
    pub(crate) fn take(self, line: Result<Content, Fault>, n: usize) -> Result<State, Refusal>
        requires { self.head + n < 2 ^ 63 }
        ensures { TakesLine self line n result }
    {
        match line {
            Err(fault) => Err(self.refuse(fault)),
            Ok(content) => self.take_content(content, n),
        }
    }
}
