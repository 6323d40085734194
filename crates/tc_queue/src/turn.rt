//! Turns, and what the calls over them answer.

ghost use Rattle.std.specs.Prelude.{◌≡◌};

/// One wait of a thread for a lock: the thread, and the number of this wait.
#[derive(Clone, Copy, Debug, PartialEq, Eq, Drop)]
pub struct Turn {
    pub thread: u32,
    pub number: u64,
}

impl Turn {
    /// The thread that waits.
    pub fn thread(&self) -> u32
        ensures { result ≡ self.now.thread }
    {
        self.thread
    }
}

/// What `enter` of a queue found: nobody, or the turn that the entrant is now behind.
#[derive(Clone, Copy, Debug, PartialEq, Eq)]
pub enum Entered {
    First,
    Behind(Turn),
}

/// What `leave` of a queue did: it emptied the tail, or it found another tail, which it left alone.
#[derive(Clone, Copy, Debug, PartialEq, Eq)]
pub enum Leave {
    Left,
    Followed(Option<Turn>),
}

/// A call that a seat made, with its answer.
#[derive(Clone, Copy)]
pub enum QueueCall {
    Enter(Turn, Entered),
    /// The turn before, and the turn that was linked behind it.
    Link(Turn, Turn),
    Next(Turn, Option<Turn>),
    Leave(Turn, Leave),
}

/// What `enter` answers in any order of waiters: nobody was there, or the place to link behind.
#[derive(Clone, Copy, Debug, PartialEq, Eq, Drop)]
pub enum Arrival<P> {
    First,
    Behind(P),
}

/// What `leave` answers in any order of waiters.
#[derive(Clone, Copy, Debug, PartialEq, Eq, Drop)]
pub enum Departure {
    Left,
    Followed,
}
