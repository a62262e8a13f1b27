use crate::{ReadError, StdSink, StdSource, WriteFault, read_all, write_all};
use std::io;
use std::io::{ErrorKind, Read, Write};
use std::test::Fail;

// A reader and a writer that fail at each call but the first.
#[derive(Debug, Drop)]
struct Breaking {
    was_called: bool,
}

impl Breaking {
    fn call(&mut self) -> io::Result<()> {
        if self.was_called {
            return Err(io::Error::from(ErrorKind::BrokenPipe));
        }
        self.was_called = true;
        Ok(())
    }
}

impl Read for Breaking {
    fn read(&mut self, room: &mut [u8]) -> io::Result<usize> {
        self.call()?;
        if room.is_empty() {
            return Ok(0);
        }
        room[0] = b'h';
        Ok(1)
    }
}

impl Write for Breaking {
    fn write(&mut self, piece: &[u8]) -> io::Result<usize> {
        self.call()?;
        Ok(piece.len().min(1))
    }

    fn flush(&mut self) -> io::Result<()> {
        Ok(())
    }
}

#[test]
fn reads_from_a_reader(rt: HostRuntime) -> Result<(), Fail> {
    let mut source = StdSource::new(b"hello".as_slice());
    let bytes = read_all(rt.alloc(), &mut source, 9)?;
    assert_eq!(rt; bytes.as_slice(), b"hello".as_slice());
    assert_eq!(rt; (source.faults, source.given), (0, 5));

    let mut source = StdSource::new(Breaking { was_called: false });
    for (faults, given) in [(1, 1), (2, 1)] {
        let read = read_all(rt.alloc(), &mut source, 9);
        assert!(rt; matches!(read, Err(ReadError::Fault)));
        assert_eq!(rt; (source.faults, source.given), (faults, given));
    }
    Ok(())
}

#[test]
fn writes_to_a_writer(rt: HostRuntime) -> Result<(), Fail> {
    let mut sink = StdSink::new(Vec::new(rt.alloc()));
    write_all(&mut sink, b"hello")?;
    assert_eq!(rt; sink.writer.as_slice(), b"hello".as_slice());
    assert_eq!(rt; sink.faults, 0);

    let mut sink = StdSink::new(Breaking { was_called: false });
    for faults in [1, 2] {
        assert_eq!(rt; write_all(&mut sink, b"hello"), Err(WriteFault));
        assert_eq!(rt; sink.faults, faults);
    }

    // A full slice takes nothing.
    let mut room = [0; 3];
    let mut sink = StdSink::new(room.as_mut_slice());
    assert_eq!(rt; write_all(&mut sink, b"hello"), Err(WriteFault));
    assert_eq!(rt; sink.faults, 1);
    Ok(())
}
