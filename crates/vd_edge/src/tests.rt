//! What becomes of files, and what is printed where there are none: no clause says it.

use crate::over_files;
use std::fs::File;
use std::io::{Error, ErrorKind, Write};
use std::process::Abort;
use std::rt::Files;
use std::test::Fail;
use std::{fs, io};
use vd_device::{Base, Store};
use vd_io::sink::Sink;

/// A writer that keeps what it is given, or takes nothing.
#[derive(Drop)]
struct Page {
    bytes: Vec<u8>,
    is_full: bool,
}

impl Write for Page {
    fn write(&mut self, buf: &[u8]) -> io::Result<usize> {
        if self.is_full {
            return Err(Error::from(ErrorKind::StorageFull));
        }
        self.bytes.extend_from_slice(buf)?;
        Ok(buf.len())
    }

    fn flush(&mut self) -> io::Result<()> {
        Ok(())
    }
}

fn digit(count: u64) -> u8 {
    b'0' + count.min(9) as u8
}

/// The status of a program with the row's words, and what it printed. The command prints the sectors of its devices.
fn session<R: Files<File = File> + AllocGlobal>(rt: &R, row: &Row) -> Result<String, Fail> {
    let mut args = Vec::new(rt.alloc());
    args.push(String::from_str(rt.alloc(), "fvd")?)?;
    for word in row.line.split(' ') {
        args.push(String::from_str(rt.alloc(), word)?)?;
    }
    let mut page = Page {
        bytes: Vec::new(rt.alloc()),
        is_full: row.is_full,
    };
    let (made, answer) = (row.made, row.answer);
    let status = over_files(
        rt,
        Ok(args.into_iter()),
        &mut page,
        |_| made,
        |_, out, store, base| {
            let _ = out.write(&[digit(store.sectors()), digit(base.sectors()), b'\n']);
            answer
        },
    );
    let text = String::from_utf8(page.bytes)?;
    Ok(format!(in rt.alloc(); "{status} {text}")?)
}

/// How many sectors a file has that is there.
fn sectors_at(rt: &impl Files, path: &str) -> Option<u64> {
    let found = fs::metadata(rt, path).ok()?;
    Some(found.len() / 512)
}

/// A folder for this test alone, with a base of 3 sectors and a part of one.
fn folder(rt: &HostRuntime, name: &str, base: &str) -> Result<(), Fail> {
    let _ = fs::remove_dir_all(rt, name);
    fs::create_dir(rt, name)?;
    fs::write(rt, base, [7u8; 2000].as_slice())?;
    Ok(())
}

/// The words of a program, the store that they make, the answer of their command, and whether the text can't be written; and
/// what comes of them: the status, the text, and the sectors of the image's file where it is there.
#[derive(Clone, Copy, Drop)]
struct Row {
    line: &'static str,
    made: Option<u64>,
    answer: u8,
    is_full: bool,
    end: &'static str,
    left: Option<u64>,
}

fn program(
    line: &'static str,
    made: Option<u64>,
    answer: u8,
    end: &'static str,
    left: Option<u64>,
) -> Row {
    Row {
        line,
        made,
        answer,
        is_full: false,
        end,
        left,
    }
}

impl Row {
    fn without_room(self) -> Row {
        Row {
            is_full: true,
            ..self
        }
    }
}

fn all_end_so<R: Abort + Files<File = File> + AllocGlobal>(
    rt: &R,
    rows: &[Row],
    image: &str,
) -> Result<(), Fail> {
    for row in rows {
        let end = session(rt, row)?;
        assert_eq!(rt; end.as_str(), row.end, "{}", row.line);
        assert_eq!(rt; sectors_at(rt, image), row.left, "{}", row.line);
    }
    Ok(())
}

#[test]
fn a_made_file_goes_where_the_status_is_not_0(rt: HostRuntime) -> Result<(), Fail> {
    folder(&rt, "made", "made/P")?;
    let rows = [
        program("make made/I made/P 8", Some(5), 3, "3 53\n", None),
        program("make made/I made/P", Some(5), 1, "1 53\n", None),
        program("make made/I made/P", Some(5), 0, "6 ", None).without_room(),
        program("make made/I made/P", Some(5), 7, "7 ", None).without_room(),
        program("make made/I made/Q", Some(5), 0, "5 no file 3\n", None),
        program(
            "make made/I made/P",
            Some(1 << 54),
            0,
            "5 no file 2\n",
            None,
        ),
        program("make made/N/I made/P", Some(5), 0, "5 no file 2\n", None),
        program("make made/I", Some(5), 2, "2 00\n", None),
        program("make made/I made/P", Some(5), 0, "0 53\n", Some(5)),
        program("make made/I made/P", Some(6), 0, "5 no file 2\n", Some(5)),
        program("make made/I made/Q", Some(6), 0, "5 ", Some(5)).without_room(),
    ];
    all_end_so(&rt, &rows, "made/I")?;
    fs::remove_dir_all(&rt, "made")?;
    Ok(())
}

#[test]
fn a_file_that_was_there_stays(rt: HostRuntime) -> Result<(), Fail> {
    folder(&rt, "there", "there/P")?;
    fs::write(&rt, "there/I", [0u8; 1024].as_slice())?;
    let rows = [
        program("show there/I there/P 0 1", None, 0, "0 23\n", Some(2)),
        program("show there/I there/P 0 1", None, 0, "6 ", Some(2)).without_room(),
        program("run there/I there/P", None, 1, "1 23\n", Some(2)),
        program("run there/I there/P", None, 1, "6 ", Some(2)).without_room(),
        program("run there/I there/P", None, 2, "2 ", Some(2)).without_room(),
        program("run there/I there/Q", None, 0, "5 no file 3\n", Some(2)),
        program("run there/J there/Q", None, 0, "5 ", Some(2)).without_room(),
        program("show there/J there/P", None, 0, "5 no file 2\n", Some(2)),
        program("show there/J", None, 2, "2 00\n", Some(2)),
        program("make there/J there/Q", None, 2, "2 00\n", Some(2)),
        program("upgrade there/I there/Q", None, 255, "255 00\n", Some(2)),
    ];
    all_end_so(&rt, &rows, "there/I")?;
    assert_eq!(rt; sectors_at(&rt, "there/J"), None);
    fs::remove_dir_all(&rt, "there")?;
    Ok(())
}

#[test]
fn without_words_there_is_no_command(rt: HostRuntime) -> Result<(), Fail> {
    let mut page = Page {
        bytes: Vec::new(rt.alloc()),
        is_full: false,
    };
    let none = Err(Error::from(ErrorKind::OutOfMemory));
    let status = over_files(&rt, none, &mut page, |_| None, |_, _, _, _| 0);
    assert_eq!(rt;
        (status, page.bytes.as_slice()),
        (7, b"no memory\n".as_slice())
    );
    Ok(())
}
