//! The events of the machine.

/// One row of the event table: one step of one worker.
#[derive(Clone, Copy, Debug, PartialEq, Eq)]
pub enum Event {
    /// The worker takes a thread that is Ready or Parked.
    Claim { worker: u32, thread: u32 },
    /// The worker runs one instruction of its thread.
    Turn { worker: u32, thread: u32 },
    /// The thread's block is over, and the worker publishes it.
    Commit { worker: u32, thread: u32 },
    /// The thread enters the waiting queue of the lock that its next instruction takes.
    Enter { worker: u32, thread: u32, lock: u32 },
    /// The first of the queue gets a free lock.
    Take { worker: u32, thread: u32, lock: u32 },
    /// The worker hands over a thread that has to wait, with all its locks.
    Ship { worker: u32, thread: u32, lock: u32 },
    /// The worker that released the lock goes on with the next of the queue.
    Adopt { worker: u32, thread: u32, lock: u32 },
    /// The worker that released the lock gives it to the next of the queue, for any worker to run.
    Grant { worker: u32, thread: u32, lock: u32 },
    /// The last of the queue leaves it.
    Leave { worker: u32, lock: u32 },
    /// The lock becomes free.
    Free { worker: u32, lock: u32 },
    /// The worker gives back a thread that can go on at once.
    HandBack { worker: u32, thread: u32 },
    /// The worker gives back a thread that sleeps.
    Park { worker: u32, thread: u32 },
    /// The worker gives back a thread that has ended.
    Finish { worker: u32, thread: u32 },
}
