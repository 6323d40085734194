//! Where packages are put and from where they are claimed, and the words that say so.

ghost use Rattle.std.specs.Prelude.{◌≡◌, ◌<◌};
ghost use Rattle.tc_hall.specs.Places.{IsInRange, code_of, origin_code};

/// The word of a thread that is ready.
pub const READY: u64 = 0;

/// The word of a thread that is parked.
pub const PARKED: u64 = 1;

/// The word of a thread that has ended.
pub const DONE: u64 = 2;

/// The word of a thread that waits for lock 0; that of lock L is L more.
pub const WAITING: u64 = 256;

/// The word of a thread that is out with worker 0; that of worker W is W more.
pub const OUT: u64 = 512;

/// Where a package is put.
#[derive(Clone, Copy, Debug, PartialEq, Eq)]
pub enum Place {
    /// For any worker to continue.
    Ready,
    /// Asleep, until a worker claims it from here.
    Parked,
    /// Its thread has ended. Nobody takes it again.
    Done,
    /// Until the lock of that number is passed on to it.
    Waiting(u32),
}

impl Place {
    pub(crate) fn code(self) -> u64
        ensures { result ≡ code_of self }
    {
        match self {
            Place::Ready => READY,
            Place::Parked => PARKED,
            Place::Done => DONE,
            Place::Waiting(lock) => WAITING + u64::from(lock),
        }
    }
}

/// From where a package is claimed.
#[derive(Clone, Copy, Debug, PartialEq, Eq)]
pub enum Origin {
    /// A thread that can go on.
    Ready,
    /// A thread that sleeps.
    Parked,
}

impl Origin {
    pub(crate) fn code(self) -> u64
        ensures { result ≡ origin_code self }
    {
        match self {
            Origin::Ready => READY,
            Origin::Parked => PARKED,
        }
    }
}
