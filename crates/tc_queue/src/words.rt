//! How turns are packed into words. In each word 0 stands for nothing.

ghost use Rattle.std.specs.Prelude.{◌≡◌, ◌<◌};
ghost use Rattle.tc_queue.specs.Words.{IsTurn, IsLinked, turn_word, turn_at, link_word, link_at};

use crate::turn::Turn;

const THREADS: u64 = 64;

const TURNS: u64 = 1 << 30;

/// What the link word of a thread has: the number of one of its turns, and the turn behind that
/// one.
#[derive(Clone, Copy)]
pub struct Linked {
    /// The number of the turn before.
    pub before: u64,
    /// The turn behind it.
    pub behind: Turn,
}

impl Turn {
    /// The word of a turn.
    pub fn to_word(&self) -> u64
        requires { IsTurn 64 self.now }
        ensures { result ≡ turn_word self.now }
    {
        THREADS * self.number + u64::from(self.thread)
    }

    /// The turn of a word.
    pub fn from_word(word: u64) -> Option<Turn>
        ensures { result ≡ turn_at word }
    {
        if word == 0 {
            return None;
        }
        Some(Turn {
            thread: (word % THREADS) as u32,
            number: word / THREADS,
        })
    }
}

impl Linked {
    /// The word of a link.
    pub fn to_word(&self) -> u64
        requires { IsLinked 64 self.now }
        ensures { result ≡ link_word self.now }
    {
        TURNS * self.before + self.behind.to_word()
    }

    /// The link of a word.
    pub fn from_word(word: u64) -> Option<Linked>
        ensures { result ≡ link_at word }
    {
        if word == 0 {
            return None;
        }
        let behind = Turn::from_word(word % TURNS)?;
        Some(Linked {
            before: word / TURNS,
            behind,
        })
    }
}
