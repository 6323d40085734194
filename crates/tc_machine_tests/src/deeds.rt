//! What a worker does with a thread, and the events of it.

use Deed::{
    Adopt, Back, Claim, Commit, Enter, Finish, Grant, Leave, Park, SetFree, Ship, Take, Turn,
};
use tc_core::event::Event;

/// What a worker does with a thread: an event, of this lock if it has one. `Turn` is so many.
#[derive(Clone, Copy)]
pub(crate) enum Deed {
    Claim,
    Turn(u32),
    Commit,
    Enter(u32),
    Take(u32),
    Ship(u32),
    Adopt(u32),
    Grant(u32),
    Leave(u32),
    SetFree(u32),
    Back,
    Park,
    Finish,
}

/// The event of a deed. Of a lock that is left or set free no thread is told.
pub(crate) fn event_of(worker: u32, thread: u32, deed: Deed) -> Event {
    match deed {
        Claim => Event::Claim { worker, thread },
        Turn(_) => Event::Turn { worker, thread },
        Commit => Event::Commit { worker, thread },
        Enter(lock) => Event::Enter {
            worker,
            thread,
            lock,
        },
        Take(lock) => Event::Take {
            worker,
            thread,
            lock,
        },
        Ship(lock) => Event::Ship {
            worker,
            thread,
            lock,
        },
        Adopt(lock) => Event::Adopt {
            worker,
            thread,
            lock,
        },
        Grant(lock) => Event::Grant {
            worker,
            thread,
            lock,
        },
        Leave(lock) => Event::Leave { worker, lock },
        SetFree(lock) => Event::Free { worker, lock },
        Back => Event::HandBack { worker, thread },
        Park => Event::Park { worker, thread },
        Finish => Event::Finish { worker, thread },
    }
}

/// How many events of a deed come one after another.
pub(crate) fn times_of(deed: Deed) -> u32 {
    if let Turn(turns) = deed { turns } else { 1 }
}
