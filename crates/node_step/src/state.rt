// A node's state in a monitor's memory (`MonState`, which holds its parts' states too; here these stand behind it).
ghost use Rattle.std.specs.Prelude.{◌≡◌, ◌+◌};
ghost use Rattle.node_step.specs.Memory.{get, put, Inside, initial_entry};
ghost use Rattle.node_step.specs.Lists.{memory_of, entries_of, SameLists};

// `held`: a delayed check's remembered antecedent, or that an obligation's window is pending.
#[derive(Clone, Copy, Debug, PartialEq, Eq)]
pub struct MonState {
    pub held: bool,
    pub remaining: u64,
    pub failed: bool,
    pub culprit: i64,
}

// A monitor's lent memory: four lists with an entry for each node.
#[derive(Drop)]
pub struct Memory<'a> {
    pub held: &'a mut [bool],
    pub remaining: &'a mut [u64],
    pub failed: &'a mut [bool],
    pub culprits: &'a mut [i64],
}

// The same lists, to be looked at: shared, so that the caller keeps them.
#[derive(Clone, Copy)]
pub struct Entries<'a> {
    pub held: &'a [bool],
    pub remaining: &'a [u64],
    pub failed: &'a [bool],
    pub culprits: &'a [i64],
}

// The state of a node in a fresh monitor.
pub fn initial_state() -> MonState
    ensures { result ≡ initial_entry }
{
    MonState {
        held: false,
        remaining: 0,
        failed: false,
        culprit: -1,
    }
}

impl Entries<'_> {
    // The state of node i.
    pub fn load(&self, i: usize) -> MonState
        requires { Inside (entries_of self.now) (i + 1) }
        ensures { result ≡ get (entries_of self.now) i }
    {
        MonState {
            held: self.held[i],
            remaining: self.remaining[i],
            failed: self.failed[i],
            culprit: self.culprits[i],
        }
    }
}

impl Memory<'_> {
    // The lists as they are.
    pub fn entries(&self) -> Entries
        ensures { entries_of result ≡ memory_of self.now }
    {
        Entries {
            held: self.held,
            remaining: self.remaining,
            failed: self.failed,
            culprits: self.culprits,
        }
    }

    // The state of node i.
    pub fn load(&self, i: usize) -> MonState
        requires { Inside (memory_of self.now) (i + 1) }
        ensures { result ≡ get (memory_of self.now) i }
    {
        self.entries().load(i)
    }

    // Stores the state of node i.
    pub fn store(&mut self, i: usize, state: MonState)
        requires { Inside (memory_of self.old) (i + 1) }
        ensures stored { memory_of self.new ≡ put (memory_of self.old) i state }
        ensures same { SameLists self.old self.new }
    {
        self.held[i] = state.held;
        self.remaining[i] = state.remaining;
        self.failed[i] = state.failed;
        self.culprits[i] = state.culprit;
    }
}
