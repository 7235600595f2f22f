//! Sources and sinks by examples: calls succeed where nothing is amiss, and what a reader or a writer of std does comes
//! through.
use dtx_ports::{
    Failed, MemSink, MemSource, ReadErr, ReadPort, Sink, Source, WritePort, read_whole, write_whole,
};
use std::alloc::{AllocError, Global};
use std::io;
use std::io::{ErrorKind, Read, Write};

/// A reader that gives one byte, if it has not given it yet, and then fails.
#[derive(Drop)]
struct CutReader {
    has_given: bool,
}

impl Read for CutReader {
    fn read(&mut self, buffer: &mut [u8]) -> io::Result<usize> {
        if self.has_given || buffer.is_empty() {
            return Err(ErrorKind::ConnectionReset.into());
        }
        self.has_given = true;
        buffer[0] = b'a';
        Ok(1)
    }
}

/// A writer that takes no byte, and says so by this error or without one.
#[derive(Drop)]
struct FullWriter {
    error: Option<ErrorKind>,
}

impl Write for FullWriter {
    fn write(&mut self, _bytes: &[u8]) -> io::Result<usize> {
        match self.error {
            Some(kind) => Err(kind.into()),
            None => Ok(0),
        }
    }

    fn flush(&mut self) -> io::Result<()> {
        Ok(())
    }
}

/// A source of these bytes, whose calls of these numbers fail.
fn source_of(alloc: Global, bytes: &[u8], failing: &[u32]) -> Result<MemSource, AllocError> {
    Ok(MemSource::new(bytes.to_vec(alloc)?, failing.to_vec(alloc)?))
}

/// What is read of a source within a limit.
fn read_within(alloc: Global, source: &mut MemSource, limit: usize) -> Result<Vec<u8>, ReadErr> {
    read_whole(alloc, source, limit)
}

/// What is read within a limit of a source of these bytes, whose calls of these numbers fail.
fn read_of(alloc: Global, bytes: &[u8], failing: &[u32], limit: usize) -> Result<Vec<u8>, ReadErr> {
    let mut source = source_of(alloc, bytes, failing)?;
    read_within(alloc, &mut source, limit)
}

/// Whether a source of these bytes is read to its end within a limit.
fn is_read(alloc: Global, bytes: &[u8], limit: usize) -> Result<bool, ReadErr> {
    Ok(read_of(alloc, bytes, &[], limit)?.as_slice() == bytes)
}

/// Whether a text is read that takes several reads, 10,000 bytes, where the calls of these numbers fail.
fn is_long_text_read(alloc: Global, failing: &[u32]) -> Result<bool, ReadErr> {
    let text = b"wxyz".repeat(alloc, 2500)?;
    Ok(read_of(alloc, &text, failing, usize::MAX)?.as_slice() == text.as_slice())
}

#[test]
fn a_source_is_read_to_its_end_within_the_limit(rt: HostRuntime) {
    assert!(rt; is_read(rt.alloc(), b"abc", 3) == Ok(true));
    assert!(rt; is_read(rt.alloc(), b"", 0) == Ok(true));
    assert!(rt; is_long_text_read(rt.alloc(), &[]) == Ok(true));
}

#[test]
fn a_text_that_cannot_be_read_whole_does_not_come(rt: HostRuntime) {
    assert!(rt; is_read(rt.alloc(), b"abc", 2) == Err(ReadErr::TooLong));
    assert!(rt; is_long_text_read(rt.alloc(), &[2]) == Err(ReadErr::Fault));
}

fn is_abc(bytes: &[u8]) -> bool {
    bytes == b"abc".as_slice()
}

/// Whether a source is read to its end behind a read that failed.
fn is_read_again(alloc: Global) -> Result<bool, ReadErr> {
    let mut source = source_of(alloc, b"abc", &[1])?;
    let has_failed = matches!(read_within(alloc, &mut source, 3), Err(ReadErr::Fault));
    Ok(has_failed && is_abc(&read_within(alloc, &mut source, 3)?))
}

#[test]
fn a_source_is_read_again_behind_a_fault(rt: HostRuntime) {
    assert!(rt; is_read_again(rt.alloc()) == Ok(true));
}

/// Whether the second read fails, and the next one goes on: each fills the front of what the one before left.
fn goes_on(alloc: Global) -> Result<bool, AllocError> {
    let mut source = source_of(alloc, b"abc", &[2])?;
    let mut buffer = [0; 2];
    let first = source.read(&mut buffer);
    let second = source.read(&mut buffer);
    let third = source.read(&mut buffer);
    let last = source.read(&mut buffer);
    Ok(buffer == *b"cb" && [first, second, third, last] == [Ok(2), Err(Failed), Ok(1), Ok(0)])
}

#[test]
fn a_listed_read_fails_and_the_next_one_goes_on(rt: HostRuntime) {
    assert!(rt; goes_on(rt.alloc()) == Ok(true));
}

/// What is written to a sink, whether it takes it, and what it holds then.
type Step = (&'static [u8], bool, &'static [u8]);

/// Sinks by their room and the number of the call that fails, each with what is written to it.
const SINKS: [(usize, u32, &[Step]); 3] = [
    (10, 1, &[(b"abc", false, b""), (b"abc", true, b"abc")]),
    (2, 9, &[(b"abc", false, b"ab")]),
    (3, 9, &[(b"abc", true, b"abc"), (b"", true, b"abc")]),
];

/// A sink with room for so many bytes, one of whose calls fails.
fn sink_of(alloc: Global, room: usize, failing: u32) -> Result<MemSink, AllocError> {
    MemSink::new(alloc, room, [failing].to_vec(alloc)?)
}

/// Whether the sink takes these bytes, or not, as it is said to, and holds then what it is said to hold.
fn goes(sink: &mut MemSink, (bytes, is_taken, held): Step) -> bool {
    write_whole(sink, bytes).is_ok() == is_taken && sink.bytes() == held
}

/// Whether a sink with room for so many bytes, one of whose calls fails, goes each of these steps.
fn goes_all(alloc: Global, room: usize, failing: u32, steps: &[Step]) -> Result<bool, AllocError> {
    let mut sink = sink_of(alloc, room, failing)?;
    for step in steps {
        if !goes(&mut sink, *step) {
            return Ok(false);
        }
    }
    Ok(true)
}

#[test]
fn a_sink_holds_what_it_took(rt: HostRuntime) {
    for (room, failing, steps) in SINKS {
        assert!(rt;
            goes_all(rt.alloc(), room, failing, steps) == Ok(true),
            "room for {room}"
        );
    }
}

/// What a port to this reader gives within 3 bytes.
fn read_through<R: Read + Drop>(alloc: Global, reader: R) -> Result<Vec<u8>, ReadErr> {
    let mut port = ReadPort::new(reader);
    read_whole(alloc, &mut port, 3)
}

#[test]
fn a_port_reads_what_its_reader_gives(rt: HostRuntime) {
    let read = read_through(rt.alloc(), b"abc".as_slice());
    assert!(rt; matches!(&read, Ok(bytes) if is_abc(bytes)));
}

#[test]
fn a_port_fails_where_its_reader_does(rt: HostRuntime) {
    for has_given in [true, false] {
        let read = read_through(rt.alloc(), CutReader { has_given });
        assert!(rt; matches!(&read, Err(ReadErr::Fault)));
    }
}

/// Whether a port to this writer takes `abc`.
fn writes_through<W: Write + Drop>(writer: W) -> bool {
    let mut port = WritePort::new(writer);
    write_whole(&mut port, b"abc").is_ok()
}

#[test]
fn a_port_writes_what_its_writer_takes(rt: HostRuntime) {
    let mut text = Vec::new(rt.alloc());
    assert!(rt; writes_through(&mut text));
    assert!(rt; is_abc(&text));
}

#[test]
fn a_port_fails_where_its_writer_does(rt: HostRuntime) {
    for error in [Some(ErrorKind::StorageFull), None] {
        assert!(rt; !writes_through(FullWriter { error }));
    }
}

/// Whether this is the text of a failure.
fn has_text(alloc: Global, error: ReadErr, text: &str) -> Result<bool, AllocError> {
    Ok(error.to_string(alloc)?.as_str() == text)
}

/// Whether this is the text of a port's failure.
fn is_failed_text(alloc: Global, text: &str) -> Result<bool, AllocError> {
    Ok(Failed.to_string(alloc)?.as_str() == text)
}

#[test]
fn failures_have_a_text(rt: HostRuntime) {
    assert!(rt; is_failed_text(rt.alloc(), "a source or a sink failed") == Ok(true));
    for (error, text) in [
        (ReadErr::Fault, "a read failed"),
        (ReadErr::TooLong, "there is more to read than is allowed"),
        (ReadErr::NoMemory, "out of memory"),
    ] {
        assert!(rt; has_text(rt.alloc(), error, text) == Ok(true));
    }
}
