//! Traces, by the formats' words and the worked rows.

ghost use Rattle.std.specs.Prelude.{◌≡◌, ◌<◌, length};

use crate::error::TraceError;
use crate::trace::{Asked, Trace};
use std::alloc::Global;
use std::io;
use std::io::{Error, ErrorKind, Read};
use std::test::Fail;
use vd_io::mem_sink::MemSink;
use vd_io::mem_source::MemSource;
use vd_io::std_source::StdSource;
use vd_law::entry::Sector;

/// Reads this text for two guests, where no call of the source fails.
fn read(alloc: Global, text: &[u8]) -> Result<Trace, TraceError> {
    let mut source = MemSource::new(text.to_vec(alloc)?, Vec::new(alloc));
    Trace::read(alloc, 2, &mut source)
}

fn bad(line: u64) -> Option<TraceError> {
    Some(TraceError::Bad { line })
}

fn too_much(line: u64) -> Option<TraceError> {
    Some(TraceError::TooMuch { line })
}

fn repeated(alloc: Global, line: &[u8], times: u32, last: &[u8]) -> Result<Vec<u8>, Fail> {
    let mut text = Vec::new(alloc);
    for _ in 0..times {
        text.extend_from_slice(line)?;
    }
    text.extend_from_slice(last)?;
    Ok(text)
}

#[test]
fn lines_outside_the_grammar(rt: HostRuntime) -> Result<(), Fail> {
    let alloc = rt.alloc();
    let texts: [&[u8]; 22] = [
        b"1 R 0 0",
        b"1 R 0 2049",
        b"01 F",
        b"1  F",
        b"3 F",
        b"0 F",
        b"1 W 0 1 a",
        b"1 W 0 1 0g",
        b"1 R 00 1",
        b"1 R 12345678901 1",
        b"1 Q",
        b"1 f",
        b" 1 F",
        b"1 F ",
        b" ",
        b"1",
        b"1 F\r",
        b"\r",
        b"1 X 0 0123456789abcdef",
        b"S 0 0",
        b"S 0 1 1",
        b"1 R 0 1 00",
    ];
    for text in texts {
        assert_eq!(rt; read(alloc, text).err(), bad(1));
    }
    assert_eq!(rt; read(alloc, b"1 F\nS 0 1\n1 F").err(), bad(3));
    assert_eq!(rt; read(alloc, b"\n#\n1 F\r\r\n").err(), bad(3));
    Ok(())
}

/// A line of 1,024 digits, but for one byte at this place.
fn put_line(alloc: Global, place: usize, byte: u8) -> Result<Vec<u8>, Fail>
    requires { place < 1024 }
{
    let mut digits = [b'0'; 1024];
    digits[place] = byte;
    repeated(alloc, b"1 X 7 ", 1, &digits)
}

#[test]
fn bytes_that_are_no_digits(rt: HostRuntime) -> Result<(), Fail> {
    let alloc = rt.alloc();
    for place in [0, 1, 511, 1022, 1023] {
        for byte in b"/:@G`g\x7f\x80\xb0\xc1\xff\x10\x50" {
            assert_eq!(rt; read(alloc, &put_line(alloc, place, *byte)?).err(), bad(1));
        }
        for byte in b"09afAF" {
            assert_eq!(rt; read(alloc, &put_line(alloc, place, *byte)?).err(), None);
        }
    }
    Ok(())
}

#[test]
fn limits_of_lines(rt: HostRuntime) -> Result<(), Fail> {
    let alloc = rt.alloc();
    let read_most: &[u8] = b"1 R 0 2048\n";
    let rows: [(&[u8], u32, &[u8], Option<TraceError>); 11] = [
        (b"#", 1100, b"", None),
        (b"#", 1100, b"\r\n", None),
        (b"#", 1101, b"\n", bad(1)),
        (b"#", 9000, b"\n", bad(1)),
        (b"\n", 500000, b"", None),
        (b"\n", 500000, b"\n", too_much(500001)),
        (b"\n", 500000, b"2 G", bad(500001)),
        (read_most, 128, b"2 F\n#", None),
        (read_most, 128, b"1 R 0 1", too_much(129)),
        (read_most, 128, b"S 0 1\n2 F", too_much(129)),
        (read_most, 128, b"2 R 0 2049", bad(129)),
    ];
    for (line, times, last, error) in rows {
        assert_eq!(rt;
            read(alloc, &repeated(alloc, line, times, last)?).err(),
            error
        );
    }
    Ok(())
}

/// What the guest asks with its request of this number, and the first two sectors behind it.
fn asked(trace: &Trace, guest: u32, at: u64, content: &mut [Sector]) -> Option<Asked>
    requires { length content.old ≡ 2048 }
    ensures { length content.new ≡ 2048 }
{
    if at < trace.count(guest) {
        Some(trace.request(guest, at, content))
    } else {
        None
    }
}

fn write(first: u64, count: u64) -> Option<Asked> {
    Some(Asked::Write { first, count })
}

fn shown(trace: &Trace, at: u64) -> Option<(u64, u64)> {
    if at < trace.shows() {
        Some(trace.show(at))
    } else {
        None
    }
}

/// What two guests ask, and two lines that show.
fn two_guests(alloc: Global) -> Result<Trace, Fail> {
    let mut text = b"# two guests\n1 W 9 2 aB\n\n2 F\r\n2 X 9999999999 ".to_vec(alloc)?;
    text.extend_from_slice(&[b'0'; 1022])?;
    text.extend_from_slice(b"5F\n1 R 127 2048\n#\nS 126 2\nS 0 2048")?;
    Ok(read(alloc, &text)?)
}

#[test]
fn requests_and_their_content(rt: HostRuntime) -> Result<(), Fail> {
    let trace = two_guests(rt.alloc())?;
    let mut content = [Sector::filled(7); 2048];
    for (guest, count) in [(0, 0), (1, 2), (2, 2), (3, 0)] {
        assert_eq!(rt; trace.count(guest), count);
    }
    assert_eq!(rt; asked(&trace, 1, 0, &mut content), write(9, 2));
    assert_eq!(rt; content[1].same(), Some(0xab));
    assert_eq!(rt; content[2].same(), Some(7));
    assert_eq!(rt; asked(&trace, 2, 0, &mut content), Some(Asked::Flush));
    assert_eq!(rt;
        asked(&trace, 1, 1, &mut content),
        Some(Asked::Read {
            first: 127,
            count: 2048
        })
    );
    assert_eq!(rt; content[0].same(), Some(0xab));
    assert_eq!(rt; asked(&trace, 2, 1, &mut content), write(9999999999, 1));
    assert_eq!(rt; content[0].bytes[510], 0);
    assert_eq!(rt; content[0].bytes[511], 0x5f);
    assert_eq!(rt; content[1].same(), Some(0xab));
    Ok(())
}

#[test]
fn lines_that_show_or_lie_past_a_disk(rt: HostRuntime) -> Result<(), Fail> {
    let alloc = rt.alloc();
    let trace = two_guests(alloc)?;
    assert_eq!(rt; shown(&trace, 0), Some((126, 2)));
    assert_eq!(rt; shown(&trace, 1), Some((0, 2048)));
    assert_eq!(rt; shown(&trace, 2), None);
    assert_eq!(rt; trace.past(10000000000), None);
    assert_eq!(rt; trace.past(9999999999), Some(5));
    assert_eq!(rt; trace.past(10), Some(2));
    assert_eq!(rt; read(alloc, b"\nS 127 2")?.past(128), Some(2));
    Ok(())
}

/// A reader of one byte at a time.
#[derive(Drop)]
struct Narrow {
    bytes: Vec<u8>,
    at: usize,
}

impl Read for Narrow {
    fn read(&mut self, buf: &mut [u8]) -> io::Result<usize> {
        if buf.is_empty() || self.at >= self.bytes.len() {
            return Ok(0);
        }
        buf[0] = self.bytes[self.at];
        self.at += 1;
        Ok(1)
    }
}

#[test]
fn sources_that_fail_or_give_little(rt: HostRuntime) -> Result<(), Fail> {
    let alloc = rt.alloc();
    let text = b"1 F\r\n#\n\n2 Q\n";
    for fail in [1, 2] {
        let mut source = MemSource::new(text[..5].to_vec(alloc)?, [fail].to_vec(alloc)?);
        assert_eq!(rt;
            Trace::read(alloc, 2, &mut source).err(),
            Some(TraceError::Source)
        );
    }
    let mut source = MemSource::new(text.to_vec(alloc)?, [2].to_vec(alloc)?);
    assert_eq!(rt; Trace::read(alloc, 2, &mut source).err(), bad(4));
    // more than a line is there, so that the read that would fail isn't made
    let long = repeated(alloc, b"#", 9000, b"")?;
    let mut source = MemSource::new(long, [2].to_vec(alloc)?);
    assert_eq!(rt; Trace::read(alloc, 2, &mut source).err(), bad(1));
    let mut source = StdSource::new(Narrow {
        bytes: text.to_vec(alloc)?,
        at: 0,
    });
    assert_eq!(rt; Trace::read(alloc, 2, &mut source).err(), bad(4));
    let mut source = StdSource::new(Narrow {
        bytes: text[..7].to_vec(alloc)?,
        at: 0,
    });
    assert_eq!(rt; Trace::read(alloc, 2, &mut source)?.count(1), 1);
    Ok(())
}

/// What these lines need with blocks of so many sectors.
fn needs(alloc: Global, text: &[u8], block: u32) -> Result<(u64, u64), Fail>
    requires { 0 < block }
{
    let room = read(alloc, text)?.need(block);
    Ok((room.events, room.sectors))
}

#[test]
fn room_of_requests(rt: HostRuntime) -> Result<(), Fail> {
    let alloc = rt.alloc();
    let rows: [(&[u8], (u64, u64), (u64, u64)); 12] = [
        (b"", (0, 0), (0, 0)),
        (b"1 F", (2, 0), (2, 0)),
        (b"1 R 8 8", (3, 8), (3, 8)),
        (b"1 R 7 2", (4, 2), (3, 2)),
        (b"1 R 0 2048", (258, 2048), (18, 2048)),
        (b"1 R 4 2048", (259, 2048), (19, 2048)),
        (b"1 R 9999999999 2", (4, 2), (4, 2)),
        (b"2 W 8 8 00", (4, 16), (4, 16)),
        (b"2 W 127 2 00", (6, 4), (6, 4)),
        (b"2 W 6 4 ff", (6, 8), (4, 8)),
        (b"#\nS 0 2048\nS 7 2", (0, 0), (0, 0)),
        (
            b"1 R 7 2\n2 F\n1 W 6 4 00\n2 R 0 1\nS 0 1",
            (15, 11),
            (12, 11),
        ),
    ];
    for (text, small, large) in rows {
        assert_eq!(rt; needs(alloc, text, 8)?, small);
        assert_eq!(rt; needs(alloc, text, 128)?, large);
    }
    let sector = repeated(alloc, b"1 X 7 ", 1, &[b'0'; 1024])?;
    assert_eq!(rt; needs(alloc, &sector, 8)?, (4, 2));
    let most = repeated(alloc, b"1 W 4 2048 00\n", 128, b"2 F")?;
    assert_eq!(rt; needs(alloc, &most, 8)?, (128 * 516 + 2, 524288));
    Ok(())
}

/// What is printed of this text's trace, where the writes of these numbers fail, and whether all was printed.
fn printed(alloc: Global, text: &[u8], fail: &[u64]) -> Result<(Vec<u8>, bool), Fail> {
    let mut sink = MemSink::new([0; 16384].to_vec(alloc)?, fail.to_vec(alloc)?);
    let went_well = read(alloc, text)?.print(&mut sink).is_ok();
    Ok((sink.bytes().to_vec(alloc)?, went_well))
}

#[test]
fn traces_are_printed(rt: HostRuntime) -> Result<(), Fail> {
    let alloc = rt.alloc();
    let rows: [(&[u8], &[u8]); 8] = [
        (b"", b""),
        (b"#\n\n# 1 F\n", b""),
        (b"1 F\r\n2 F", b"1 F\n2 F\n"),
        (b"2 R 0 1\n#\n", b"2 R 0 1\n"),
        (b"1 R 9999999999 2048\r\n", b"1 R 9999999999 2048\n"),
        (b"1 W 10 30 Fa", b"1 W 10 30 fa\n"),
        (b"S 126 2", b"S 126 2\n"),
        (
            b"2 F\n\n1 W 0 1 00\n2 R 5 6\n#\nS 0 2048\n\nS 7 1\n",
            b"2 F\n1 W 0 1 00\n2 R 5 6\nS 0 2048\nS 7 1\n",
        ),
    ];
    for (text, whole) in rows {
        let (bytes, went_well) = printed(alloc, text, &[])?;
        assert!(rt; went_well);
        assert_eq!(rt; bytes.as_slice(), whole);
        assert_eq!(rt; printed(alloc, &bytes, &[])?.0.as_slice(), whole);
    }
    let (bytes, went_well) = printed(alloc, b"1 F\n2 F\nS 0 1\nS 9 1", &[3])?;
    assert!(rt; !went_well);
    assert_eq!(rt; bytes.as_slice(), b"1 F\n2 F\n".as_slice());
    Ok(())
}

/// Each byte, in these digits, as one line writes it, and all of them twice, as another does.
fn all_bytes(alloc: Global, digits: &[u8; 16]) -> Result<Vec<u8>, Fail> {
    let mut text = Vec::new(alloc);
    let mut hex = Vec::new(alloc);
    for high in digits {
        for low in digits {
            text.extend_from_slice(b"1 W 3 1 ")?;
            text.extend_from_slice(&[*high, *low, b'\n'])?;
            hex.extend_from_slice(&[*high, *low])?;
        }
    }
    text.extend_from_slice(b"2 X 4 ")?;
    text.extend_from_slice(&hex)?;
    text.extend_from_slice(&hex)?;
    text.push(b'\n')?;
    Ok(text)
}

#[test]
fn every_byte_is_printed_in_lower_case(rt: HostRuntime) -> Result<(), Fail> {
    let alloc = rt.alloc();
    let lower = all_bytes(alloc, b"0123456789abcdef")?;
    for digits in [
        b"0123456789abcdef",
        b"0123456789ABCDEF",
        b"0123456789aBcDeF",
    ] {
        let text = all_bytes(alloc, digits)?;
        assert_eq!(rt; printed(alloc, &text, &[])?.0.as_slice(), lower.as_slice());
    }
    Ok(())
}
