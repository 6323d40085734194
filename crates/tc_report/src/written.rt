//! How writing went.

ghost use Rattle.tc_io.specs.Calls.{Writes};
ghost use Rattle.tc_report.specs.Written.{Wrote};

use tc_io::{Failed, Sink, write_all};

/// How writing a text went: it was written whole, or a prefix of it before the sink failed.
pub type Written = Result<(), Failed>;

/// Writes a text, until a write fails. Each write is given all of it that is not written yet.
pub fn write_text<K: Sink>(sink: &mut K, text: &[u8]) -> Written
    ensures wrote { Wrote (K.stream sink.old) (K.stream sink.new) text.now result }
    ensures writes { Writes K.write_gives text.now sink.old result sink.new }
{
    write_all(sink, text)
}
