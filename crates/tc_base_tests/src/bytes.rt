use std::test::Fail;
use tc_io::{LIMIT, MemSink, MemSource, ReadAll, Sink, Source, Word, read_all, write_all};

#[test]
fn a_word_keeps_its_bytes(rt: HostRuntime) -> Result<(), Fail> {
    let word = Word::from_bytes(rt.alloc(), b"run\xff")?;
    assert!(rt; word.bytes() == b"run\xff".as_slice());
    Ok(())
}

/// The bytes of a source, how many a read takes at most, the calls that fail, the limit, what
/// `read_all` answers, and how many faults are counted.
type Reading = (
    &'static [u8],
    usize,
    &'static [u64],
    usize,
    Result<&'static [u8], ReadAll>,
    u64,
);

/// Call n counts from 0. Where a failure in call n changes nothing, fewer than n + 1 calls are made:
/// each read takes a byte or is the last one.
static READINGS: [Reading; 13] = [
    (b"12345", 8, &[], 5, Ok(b"12345"), 0),
    (b"12345", 1, &[], 5, Ok(b"12345"), 0),
    (b"12345", 1, &[6], 5, Ok(b"12345"), 0),
    (b"12345", 8, &[2], 5, Ok(b"12345"), 0),
    (b"12345", 2, &[4], 5, Ok(b"12345"), 0),
    (b"12345", 1, &[5], 5, Err(ReadAll::Fault), 1),
    (b"12345", 2, &[1], 5, Err(ReadAll::Fault), 1),
    (b"12345", 8, &[], 4, Err(ReadAll::OverLimit), 0),
    (b"12345", 1, &[5], 4, Err(ReadAll::OverLimit), 0),
    (b"12345", 1, &[4], 4, Err(ReadAll::Fault), 1),
    (b"", 1, &[], 0, Ok(b""), 0),
    (b"", 1, &[1], 0, Ok(b""), 0),
    (b"12345", 8, &[], 0, Err(ReadAll::OverLimit), 0),
];

/// Whether the answer is the wanted one.
pub(crate) fn is_as_wanted(
    read: &Result<Vec<u8>, ReadAll>,
    wanted: &Result<&[u8], ReadAll>,
) -> bool {
    match (read, wanted) {
        (Ok(read), Ok(wanted)) => read.as_slice() == *wanted,
        (Err(why), Err(wanted)) => *why == *wanted,
        _ => false,
    }
}

#[test]
fn reads_all_to_the_end_or_says_why(rt: HostRuntime) -> Result<(), Fail> {
    for (bytes, most, fail, limit, wanted, faults) in &READINGS {
        let bytes = Vec::from_slice(rt.alloc(), *bytes)?;
        let fail = Vec::from_slice(rt.alloc(), *fail)?;
        let mut source = MemSource::new(bytes, *most, fail);
        let read = read_all(rt.alloc(), &mut source, *limit);
        let is_so = is_as_wanted(&read, wanted) && source.faults() == *faults;
        assert!(rt; is_so, "at most {most}, limit {limit}");
    }
    Ok(())
}

/// Room is taken for what is read, and not for all that may be.
#[test]
fn room_grows_with_what_is_read(rt: HostRuntime) -> Result<(), Fail> {
    let bytes = Vec::from_slice(rt.alloc(), b"12345")?;
    let mut source = MemSource::new(bytes, 8, Vec::new(rt.alloc()));
    let room = read_all(rt.alloc(), &mut source, LIMIT).map_or(usize::MAX, |read| read.capacity());
    assert!(rt; room <= 8_192);
    Ok(())
}

#[test]
fn a_source_goes_on_after_a_failed_read(rt: HostRuntime) -> Result<(), Fail> {
    let bytes = Vec::from_slice(rt.alloc(), b"1234567")?;
    let fail = Vec::from_slice(rt.alloc(), &[1])?;
    let mut source = MemSource::new(bytes, 3, fail);
    let mut buf = [0; 4];
    assert!(rt; source.read(&mut buf) == Ok(3) && source.read(&mut buf).is_err());
    let rest = read_all(rt.alloc(), &mut source, 4);
    assert!(rt; is_as_wanted(&rest, &Ok(b"4567")));
    Ok(())
}

/// The room of a sink, how many bytes a write takes at most, the calls that fail, whether the text is
/// written, how many bytes are, and how many faults are counted. As above: no write is made once
/// nothing is left.
static WRITINGS: [(usize, usize, &[u64], bool, usize, u64); 7] = [
    (32, 32, &[], true, 32, 0),
    (40, 5, &[], true, 32, 0),
    (32, 1, &[32], true, 32, 0),
    (32, 1, &[31], false, 31, 1),
    (32, 16, &[1], false, 16, 1),
    (31, 8, &[], false, 31, 1),
    (0, 8, &[], false, 0, 1),
];

#[test]
fn writes_all_or_a_front(rt: HostRuntime) -> Result<(), Fail> {
    let text = b"0123456789abcdef0123456789abcdef".as_slice();
    for (room, most, fail, written, count, faults) in &WRITINGS {
        let fail = Vec::from_slice(rt.alloc(), *fail)?;
        let mut sink = MemSink::new(rt.alloc(), *room, *most, fail)?;
        let is_written = write_all(&mut sink, text).is_ok();
        let is_front = text.get(..*count) == Some(sink.written());
        let is_so = is_written == *written && is_front && sink.faults() == *faults;
        assert!(rt; is_so, "room {room}, at most {most}");
    }
    Ok(())
}

#[test]
fn an_empty_piece_fits_a_full_sink(rt: HostRuntime) -> Result<(), Fail> {
    let fail = Vec::from_slice(rt.alloc(), &[0])?;
    let mut full = MemSink::new(rt.alloc(), 0, 1, fail)?;
    assert!(rt; write_all(&mut full, b"").is_ok());
    assert!(rt; full.write(b"").is_err(), "call 0 is to fail");
    assert!(rt; full.write(b"") == Ok(0));
    Ok(())
}
