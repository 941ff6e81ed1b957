//! The four types, at the edges that their contracts leave open.

use crate::Failed;
use crate::mem_sink::MemSink;
use crate::mem_source::MemSource;
use crate::sink::Sink;
use crate::source::Source;
use crate::std_sink::StdSink;
use crate::std_source::StdSource;
use std::io;
use std::io::{Error, ErrorKind, Read, Write};
use std::test::Fail;

/// What `reads` reads of two bytes each are answered.
fn answers<S: Source>(source: &mut S, want: &[Result<usize, Failed>]) -> bool {
    let mut room = [0; 2];
    let mut same = true;
    for answer in want {
        same = same && source.read(&mut room) == *answer;
    }
    same
}

#[test]
fn memory_gives_and_takes(rt: HostRuntime) -> Result<(), Fail> {
    let alloc = rt.alloc();
    let mut source = MemSource::new(b"abcde".to_vec(alloc)?, [2].to_vec(alloc)?);
    assert!(rt; answers(&mut source, &[Ok(2), Err(Failed), Ok(2), Ok(1), Ok(0)]));
    assert_eq!(rt; source.faults(), 1);
    let mut sink = MemSink::new([0; 5].to_vec(alloc)?, [2].to_vec(alloc)?);
    assert_eq!(rt; sink.write(b"abc"), Ok(()));
    assert_eq!(rt; sink.write(b"d"), Err(Failed));
    assert_eq!(rt; sink.write(b"def"), Err(Failed));
    assert_eq!(rt; sink.write(b"de"), Ok(()));
    assert_eq!(rt; sink.bytes(), b"abcde".as_slice());
    assert_eq!(rt; sink.faults(), 2);
    Ok(())
}

/// A reader and writer of one byte at a time, interrupted once, which fails after `left` bytes.
#[derive(Drop)]
struct Narrow {
    left: u64,
    interrupted: bool,
    bytes: Vec<u8>,
}

impl Narrow {
    fn pass(&mut self) -> io::Result<()> {
        if !self.interrupted {
            self.interrupted = true;
            return Err(Error::from(ErrorKind::Interrupted));
        }
        if self.left == 0 {
            return Err(Error::from(ErrorKind::BrokenPipe));
        }
        self.left -= 1;
        Ok(())
    }
}

impl Read for Narrow {
    fn read(&mut self, buf: &mut [u8]) -> io::Result<usize> {
        self.pass()?;
        if buf.is_empty() {
            return Ok(0);
        }
        buf[0] = b'x';
        Ok(1)
    }
}

impl Write for Narrow {
    fn write(&mut self, buf: &[u8]) -> io::Result<usize> {
        self.pass()?;
        if buf.is_empty() {
            return Ok(0);
        }
        self.bytes.push(buf[0])?;
        Ok(1)
    }

    fn flush(&mut self) -> io::Result<()> {
        Ok(())
    }
}

#[test]
fn std_reads_and_writes(rt: HostRuntime) -> Result<(), Fail> {
    let alloc = rt.alloc();
    let mut source = StdSource::new(Narrow {
        left: 2,
        interrupted: false,
        bytes: Vec::new(alloc),
    });
    assert!(rt; answers(&mut source, &[Ok(1), Ok(1), Err(Failed)]));
    assert_eq!(rt; source.faults(), 1);
    let mut narrow = Narrow {
        left: 5,
        interrupted: false,
        bytes: Vec::new(alloc),
    };
    let mut sink = StdSink::new(&mut narrow);
    assert_eq!(rt; sink.write(b"abc"), Ok(()));
    assert_eq!(rt; sink.write(b"def"), Err(Failed));
    assert_eq!(rt; sink.faults(), 1);
    assert_eq!(rt; narrow.bytes.as_slice(), b"abcde".as_slice());
    Ok(())
}

/// A reader and writer that keeps what it is given until it is flushed, and whose flush may fail.
#[derive(Drop)]
struct Late {
    bytes: Vec<u8>,
    flushed: usize,
    fails: bool,
}

impl Read for Late {
    fn read(&mut self, buf: &mut [u8]) -> io::Result<usize> {
        let count = buf.len().min(2);
        for (at, byte) in buf[..count].iter_mut().enumerate() {
            *byte = if at == 0 { b'y' } else { b'z' };
        }
        Ok(count)
    }
}

impl Write for Late {
    fn write(&mut self, buf: &[u8]) -> io::Result<usize> {
        self.bytes.extend_from_slice(buf)?;
        Ok(buf.len())
    }

    fn flush(&mut self) -> io::Result<()> {
        if self.fails {
            return Err(Error::from(ErrorKind::StorageFull));
        }
        self.flushed = self.bytes.len();
        Ok(())
    }
}

#[test]
fn flushes_and_bytes(rt: HostRuntime) -> Result<(), Fail> {
    let alloc = rt.alloc();
    let mut late = Late {
        bytes: Vec::new(alloc),
        flushed: 0,
        fails: false,
    };
    let long = [b'x'; 1025];
    let mut sink = StdSink::new(&mut late);
    assert_eq!(rt; sink.write(&long), Ok(()));
    assert_eq!(rt; sink.flush(), Ok(()));
    assert_eq!(rt; (late.bytes.len(), late.flushed), (1025, 1025));
    late.fails = true;
    let mut sink = StdSink::new(&mut late);
    assert_eq!(rt; sink.flush(), Err(Failed));
    assert_eq!(rt; sink.faults(), 1);
    let mut source = StdSource::new(&mut late);
    let mut room = [0; 3];
    assert_eq!(rt; source.read(&mut room), Ok(2));
    assert_eq!(rt; room, [b'y', b'z', 0]);
    Ok(())
}

#[test]
fn slices_end_and_fill_up(rt: HostRuntime) -> Result<(), Fail> {
    let long = [b'l'; 8193];
    let mut source = StdSource::new(long.as_slice());
    let mut room = [0; 8200];
    assert_eq!(rt; source.read(&mut room), Ok(8192));
    assert_eq!(rt; &room[8190..8194], [b'l', b'l', 0, 0].as_slice());
    assert_eq!(rt; source.read(&mut room), Ok(1));
    assert_eq!(rt; source.read(&mut room), Ok(0));
    assert_eq!(rt; source.faults(), 0);
    let mut full = [0; 2];
    let mut sink = StdSink::new(full.as_mut_slice());
    assert_eq!(rt; sink.write(b"abc"), Err(Failed));
    assert_eq!(rt; sink.write(b""), Ok(()));
    assert_eq!(rt; sink.faults(), 1);
    assert_eq!(rt; full, [b'a', b'b']);
    Ok(())
}
