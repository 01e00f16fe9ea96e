// The words that a line can begin with.
ghost use Rattle.std.specs.Prelude.{◌≡◌};
ghost use Rattle.words.specs.Word.{fields_behind};

// A word's sort, with its number in a formula table where it is a node's.
#[derive(Clone, Copy, Debug, PartialEq, Eq)]
pub enum Word {
    Atom(u8),
    Plain(u8),
    Bounded(u8),
    Rule,
    Step,
    States,
    Slot,
}

impl Word {
    // How many fields stand behind it in a line.
    pub fn fields(self) -> usize
        ensures { result ≡ fields_behind self }
    {
        match self {
            Word::Plain(_) => 0,
            Word::Atom(_) | Word::Bounded(_) | Word::States => 1,
            Word::Rule | Word::Step | Word::Slot => 2,
        }
    }
}
