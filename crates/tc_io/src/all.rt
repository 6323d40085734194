//! Reading all bytes and writing all bytes.

ghost use Rattle.std.specs.Prelude.{◌≡◌, ◌+◌, ◌≤◌, OnOk, OnErr, IfOk, IsErrOf, MatchResult, vec_len};
ghost use Rattle.tc_io.specs.Calls.{ReadsTillFault, ReadsWithin, Writes};
ghost use Rattle.tc_io.specs.Taken.{FailsAmid, FailsWithin, Gives, TakesAll, TakesAtMost, TakesCount};
ghost use Rattle.tc_io.specs.declared.all.ReadAll.TheVariants.{Fault, OutOfMemory};

use crate::source::{Failed, Sink, Source};
use std::alloc::{AllocError, Global};

/// The greatest limit that a caller of `read_all` may set, in bytes.
/// This crate knows neither guest files nor histories: tc_main proves that the greatest of both fit.
pub const LIMIT: usize = 269_484_032;

/// Why not all bytes were read.
#[derive(Clone, Copy, Debug, PartialEq, Eq)]
pub enum ReadAll {
    /// A read failed.
    Fault,
    /// The source has more bytes than the limit.
    OverLimit,
    /// There was no memory for the bytes.
    OutOfMemory,
}

impl From<Failed> for ReadAll {
    ghost from_gives = { λ _ e. e ≡ Fault };

    fn from(_: Failed) -> Self {
        ReadAll::Fault
    }
}

impl From<AllocError> for ReadAll {
    ghost from_gives = { λ _ e. e ≡ OutOfMemory };

    fn from(_: AllocError) -> Self {
        ReadAll::OutOfMemory
    }
}

/// All bytes of a source, if there are at most `limit`. Each read takes at least one byte or is the
/// last one, so there are at most `limit + 1` reads. After an error the source stays at the place
/// up to which it was read.
pub fn read_all<S: Source>(alloc: Global, source: &mut S, limit: usize) -> Result<Vec<u8>, ReadAll>
    requires { limit ≤ LIMIT }

    ensures ok { IfOk result (λ bytes.
        TakesAll (S.stream source.old) (S.stream source.new) bytes.items) }
    ensures limit { IfOk result (λ bytes. vec_len bytes ≤ limit) }

    // The cause of each error, and what was read.
    ensures fault { IsErrOf result ReadAll.Fault
        → FailsWithin (S.stream source.old) (S.stream source.new) limit }
    ensures over { IsErrOf result ReadAll.OverLimit
        → TakesCount (S.stream source.old) (S.stream source.new) (limit + 1) }
    ensures memory { IsErrOf result ReadAll.OutOfMemory
        → TakesAtMost (S.stream source.old) (S.stream source.new) (limit + 1) }

    // At most one more read than bytes.
    ensures reads { MatchResult result
        (λ bytes. ReadsWithin S.read_gives (vec_len bytes + 1) source.old source.new)
        (λ _. ReadsWithin S.read_gives (limit + 1) source.old source.new) }

    // No read follows one that failed.
    ensures stops { IsErrOf result ReadAll.Fault
        → ReadsTillFault S.read_gives limit source.old source.new }
{
    let mut bytes = Vec::new(alloc);
    let mut chunk = [0; 4096];
    loop {
        let room = (limit + 1 - bytes.len()).min(chunk.len());
        let count = source.read(&mut chunk[..room])?;
        if count == 0 {
            return Ok(bytes);
        }
        bytes.extend_from_slice(&chunk[..count])?;
        if bytes.len() > limit {
            return Err(ReadAll::OverLimit);
        }
    }
}

/// Writes all bytes to a sink. Each write is given all bytes that are not written yet, and no
/// write is made once none is left.
pub fn write_all<K: Sink>(sink: &mut K, bytes: &[u8]) -> Result<(), Failed>
    ensures ok { OnOk result (Gives (K.stream sink.old) (K.stream sink.new) bytes.now) }
    ensures err { OnErr result (FailsAmid (K.stream sink.old) (K.stream sink.new) bytes.now) }
    ensures writes { Writes K.write_gives bytes.now sink.old result sink.new }
{
    let mut done = 0;
    while done < bytes.len() {
        done += sink.write(&bytes[done..])?;
    }
    Ok(())
}
