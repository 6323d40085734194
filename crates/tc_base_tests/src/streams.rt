//! The adapters over readers and writers of std. A reader or writer is lent to its adapter, and asked
//! afterwards what it saw. How many faults an adapter counts is proved.

use crate::bytes::is_as_wanted;
use std::alloc::Global;
use std::io::{self, ErrorKind, Read, Write};
use tc_io::{Failed, ReadAll, Sink, Source, StdSink, StdSource, read_all, write_all};

/// A reader whose reads all fail.
#[derive(Drop)]
struct Broken;

impl Read for Broken {
    fn read(&mut self, _buf: &mut [u8]) -> io::Result<usize> {
        Err(ErrorKind::BrokenPipe.into())
    }
}

/// A reader that fills what it is given, as long as it has bytes, and keeps how much room each of its
/// first six reads had.
#[derive(Drop)]
struct Filling {
    left: usize,
    reads: usize,
    rooms: [usize; 6],
}

impl Read for Filling {
    fn read(&mut self, buf: &mut [u8]) -> io::Result<usize> {
        if let Some(room) = self.rooms.get_mut(self.reads) {
            *room = buf.len();
        }
        self.reads = self.reads.saturating_add(1);
        let count = self.left.min(buf.len());
        for place in &mut buf[..count] {
            *place = b'x';
        }
        self.left -= count;
        Ok(count)
    }
}

/// A reader of bytes that gives one in each read. It fails in the chosen reads, by number from 0,
/// and has then given nothing.
#[derive(Drop)]
struct Flaky {
    fails: [bool; 4],
    reads: usize,
    left: u8,
}

impl Read for Flaky {
    fn read(&mut self, buf: &mut [u8]) -> io::Result<usize> {
        let fails = self.fails.get(self.reads) == Some(&true);
        self.reads = self.reads.saturating_add(1);
        if fails {
            return Err(ErrorKind::Interrupted.into());
        }
        if self.left == 0 || buf.is_empty() {
            return Ok(0);
        }
        self.left -= 1;
        buf[0] = b'x';
        Ok(1)
    }
}

/// A writer that keeps what it takes. The first writes, by number from 0, take at most as many
/// bytes as chosen, or fail if none are chosen; later ones take all bytes.
#[derive(Drop)]
struct Fickle {
    takes: [Option<usize>; 3],
    writes: usize,
    taken: Vec<u8>,
}

impl Write for Fickle {
    fn write(&mut self, buf: &[u8]) -> io::Result<usize> {
        let most = match self.takes.get(self.writes) {
            Some(most) => *most,
            None => Some(buf.len()),
        };
        self.writes = self.writes.saturating_add(1);
        let Some(most) = most else {
            return Err(ErrorKind::Interrupted.into());
        };
        let count = buf.len().min(most);
        self.taken.extend_from_slice(&buf[..count])?;
        Ok(count)
    }

    fn flush(&mut self) -> io::Result<()> {
        Ok(())
    }
}

#[test]
fn a_reader_of_std_is_passed_on(rt: HostRuntime) {
    let mut source = StdSource::new(b"guest".as_slice());
    let read = read_all(rt.alloc(), &mut source, 5);
    assert!(rt; is_as_wanted(&read, &Ok(b"guest")));
}

#[test]
fn a_reader_of_std_that_fails_is_a_fault(rt: HostRuntime) {
    let mut broken = StdSource::new(Broken);
    let read = read_all(rt.alloc(), &mut broken, 5);
    assert!(rt; is_as_wanted(&read, &Err(ReadAll::Fault)));
}

#[test]
fn a_writer_of_std_is_passed_on(rt: HostRuntime) {
    let mut written = Vec::new(rt.alloc());
    let wrote = write_all(&mut StdSink::new(&mut written), b"report");
    assert!(rt; wrote.is_ok() && written.as_slice() == b"report".as_slice());
}

#[test]
fn a_writer_of_std_that_takes_nothing_is_a_fault(rt: HostRuntime) {
    let mut four = [0; 4];
    let mut sink = StdSink::new(four.as_mut_slice());
    assert!(rt; write_all(&mut sink, b"report").is_err());
}

/// Whether a read into so much room gives so many bytes.
fn fills(source: &mut StdSource<&mut Filling>, size: usize, count: usize) -> bool {
    let mut buf = [0; 5];
    let Some(room) = buf.get_mut(..size) else {
        return false;
    };
    let read = source.read(room);
    read == Ok(count) && buf.get(..count) == b"xxxxx".get(..count)
}

/// Whether each read gives as many bytes as the reader of twelve bytes has, and as there is room for.
fn reads_fill(reader: &mut Filling) -> bool {
    let mut source = StdSource::new(reader);
    for (size, count) in [(5, 5), (1, 1), (0, 0), (5, 5), (5, 1), (5, 0)] {
        if !fills(&mut source, size, count) {
            return false;
        }
    }
    true
}

/// A read hands its whole buffer on, so it gives as much as the reader does.
#[test]
fn a_reader_of_std_has_all_the_room(rt: HostRuntime) {
    let mut reader = Filling {
        left: 12,
        reads: 0,
        rooms: [9; 6],
    };
    assert!(rt; reads_fill(&mut reader));
    assert!(rt; reader.reads == 6 && reader.rooms == [5, 1, 0, 5, 5, 5]);
}

/// Whether four reads fail as chosen, and all other bytes are read after them.
fn reads_on(alloc: Global, reader: &mut Flaky, fails: [bool; 4]) -> bool {
    let mut source = StdSource::new(reader);
    for fail in fails {
        let want = if fail { Err(Failed) } else { Ok(1) };
        if source.read(&mut [0; 5]) != want {
            return false;
        }
    }
    is_as_wanted(&read_all(alloc, &mut source, 5), &Ok(b"xxx"))
}

/// Each read is one read of the reader, and fails if and only if that one does. Of five bytes two
/// come in the first four reads, and the others and the end in four more.
#[test]
fn a_reader_of_std_reads_on_after_failed_reads(rt: HostRuntime) {
    for fails in [
        [true, true, false, false],
        [true, false, true, false],
        [false, true, false, true],
    ] {
        let mut reader = Flaky {
            fails,
            reads: 0,
            left: 5,
        };
        assert!(rt; reads_on(rt.alloc(), &mut reader, fails));
        assert!(rt; reader.reads == 8);
    }
}

/// Whether a text is cut by the writer's second write, and the rest of it is written by the third,
/// which takes three bytes, and one more.
fn writes_on(writer: &mut Fickle) -> bool {
    let mut sink = StdSink::new(writer);
    write_all(&mut sink, b"report").is_err()
        && sink.write(b"port") == Ok(3)
        && write_all(&mut sink, b"t").is_ok()
}

/// The second write fails, or takes nothing. The first takes two bytes.
#[test]
fn a_writer_of_std_writes_on_after_a_failed_write(rt: HostRuntime) {
    for second in [None, Some(0)] {
        let mut writer = Fickle {
            takes: [Some(2), second, Some(3)],
            writes: 0,
            taken: Vec::new(rt.alloc()),
        };
        assert!(rt; writes_on(&mut writer));
        assert!(rt; writer.writes == 4 && writer.taken.as_slice() == b"report".as_slice());
    }
}
