//! Runs over small images in memory: each row is a trace, and what fails or what is refused, with the text and the status.

use crate::small::{Change, Given, NONE, RUN, ends, image};
use std::test::Fail;
use vd_faults::{Keep, Rule};

const NOTHING: &[Rule] = &[];

/// The first call of a device fails.
const FIRST: &[Rule] = &[Rule::FailNth {
    nth: 1,
    keep: Keep::Old,
}];

/// The second write of a block's first sector fails, and leaves what was there.
const OLD: &[Rule] = &[Rule::FailAt {
    sector: 16,
    nth: 2,
    keep: Keep::Old,
}];

/// It leaves what was to come.
const NEW: &[Rule] = &[Rule::FailAt {
    sector: 16,
    nth: 2,
    keep: Keep::New,
}];

/// The trace of a run, the rules of the store and of the base, the text and the status.
type Row = (
    &'static [u8],
    &'static [Rule],
    &'static [Rule],
    &'static [u8],
    u8,
);

const REPORTS: [Row; 8] = [
    (
        b"1 W 8 8 aa\n1 R 8 2\n1 R 16 1\n",
        NOTHING,
        NOTHING,
        b"1.1 ok\n1.2 ok *aa *aa\n1.3 ok *10\nclose ok\nreopen ok\nlocal 1 of 12\nsum ok 3 full 0 fault 0 worn 0\n",
        0,
    ),
    // a part of a block: its neighbours come from the base
    (
        b"1 W 10 1 bb\n1 R 9 2\n",
        NOTHING,
        NOTHING,
        b"1.1 ok\n1.2 ok *09 *bb\nclose ok\nreopen ok\nlocal 1 of 12\nsum ok 2 full 0 fault 0 worn 0\n",
        0,
    ),
    // three chunks have storage, the fourth has none left
    (
        b"1 W 0 1 11\n1 W 32 1 22\n1 W 64 1 33\n1 W 96 1 44\n1 R 96 1\n",
        NOTHING,
        NOTHING,
        b"1.1 ok\n1.2 ok\n1.3 ok\n1.4 full 1 0\n1.5 ok *00\nclose ok\nreopen ok\nlocal 3 of 12\nsum ok 4 full 1 fault 0 worn 0\n",
        1,
    ),
    // the base fails, and nothing is written
    (
        b"1 W 10 1 bb\n1 R 8 3\n1 W 10 1 bb\n1 R 10 1\n",
        NOTHING,
        FIRST,
        b"1.1 base fault 1 0\n1.2 ok *08 *09 *0a\n1.3 ok\n1.4 ok *bb\nclose ok\nreopen ok\nlocal 1 of 12\nsum ok 3 full 0 fault 1 worn 0\n",
        1,
    ),
    (
        b"1 W 8 8 aa\n1 W 8 1 bb\n1 R 8 1\n1 R 8 1\n",
        OLD,
        NOTHING,
        b"1.1 ok\n1.2 store fault 6 0\n1.3 ok *aa\n1.4 ok *aa\nclose ok\nreopen ok\nlocal 1 of 12\nsum ok 3 full 0 fault 1 worn 0\n",
        1,
    ),
    (
        b"1 W 8 8 aa\n1 W 8 1 bb\n1 R 8 1\n1 R 8 1\n",
        NEW,
        NOTHING,
        b"1.1 ok\n1.2 store fault 6 0\n1.3 ok *bb\n1.4 ok *bb\nclose ok\nreopen ok\nlocal 1 of 12\nsum ok 3 full 0 fault 1 worn 0\n",
        1,
    ),
    // nothing is asked but the flush that closes
    (
        b"",
        NOTHING,
        NOTHING,
        b"close ok\nreopen ok\nlocal 0 of 12\nsum ok 0 full 0 fault 0 worn 0\n",
        0,
    ),
    // what the lines show is read from the image that is left
    (
        b"1 W 10 1 bb\n1 F\nS 9 2\nS 95 2\n",
        NOTHING,
        NOTHING,
        b"1.1 ok\n1.2 ok\nclose ok\nreopen ok\nshow 9 *09 *bb\nshow 95 *5f *00\nlocal 1 of 12\nsum ok 2 full 0 fault 0 worn 0\n",
        0,
    ),
];

#[test]
fn reports(rt: HostRuntime) -> Result<(), Fail> {
    let alloc = rt.alloc();
    for (trace, store, under, text, status) in &REPORTS {
        let given = Given {
            trace,
            store,
            base: under,
            ..NONE
        };
        assert!(rt; ends(alloc, RUN, image(alloc, 104, &[])?, &given, text, *status)?);
    }
    Ok(())
}

/// Runs that are no run of one guest without copies and workers.
const NO_RUNS: [&str; 5] = [
    "run I P 2 0 off 0",
    "run I P 1 1 off 0",
    "run I P 1 0 on 0",
    "run I P 1 0 off 1",
    "run I",
];

#[test]
fn other_runs(rt: HostRuntime) -> Result<(), Fail> {
    let alloc = rt.alloc();
    for words in NO_RUNS {
        let content = image(alloc, 104, &[])?;
        assert!(rt;
            ends(alloc, words, content, &NONE, b"bad words\n", 2)?,
            "{words}"
        );
    }
    Ok(())
}

/// Over an image of so many sectors with these changes a trace is refused so.
const REFUSED: [(&[u8], usize, &[Change], &[u8], u8); 7] = [
    (b"1 Q\n", 104, &[], b"line 1: bad\n", 4),
    (b"S 0 1\n1 F\n", 104, &[], b"line 2: bad\n", 4),
    (b"1 F\nS 127 2\n", 104, &[], b"line 2: past the disk\n", 4),
    (b"1 R 127 2\n", 104, &[], b"line 1: past the disk\n", 4),
    (b"", 104, &[(0, 8, 1)], b"old version\n", 3),
    (b"", 104, &[(3, 63, 1)], b"bad entry 3 0\n", 3),
    (b"", 103, &[], b"too small 104 103\n", 3),
];

#[test]
fn traces_and_images_refused(rt: HostRuntime) -> Result<(), Fail> {
    let alloc = rt.alloc();
    for (trace, sectors, changes, text, status) in &REFUSED {
        let given = Given { trace, ..NONE };
        let content = image(alloc, *sectors, changes)?;
        assert!(rt; ends(alloc, RUN, content, &given, text, *status)?);
    }
    Ok(())
}

#[test]
fn trace_that_is_too_long(rt: HostRuntime) -> Result<(), Fail> {
    let alloc = rt.alloc();
    // the last line lies past the disk too, but the trace is judged first
    let mut long = Vec::new(alloc);
    for _ in 0..128 {
        long.extend_from_slice(b"1 R 0 2048\n")?;
    }
    long.extend_from_slice(b"1 R 0 1\n")?;
    let given = Given {
        trace: long.as_slice(),
        ..NONE
    };
    let content = image(alloc, 104, &[])?;
    assert!(rt; ends(alloc, RUN, content, &given, b"line 129: too much\n", 4)?);
    Ok(())
}

#[test]
fn sources_and_sinks_that_fail(rt: HostRuntime) -> Result<(), Fail> {
    let alloc = rt.alloc();
    let rows: [(&[u64], &[u64], &[u8]); 2] = [(&[1], &[], b"source fault\n"), (&[], &[1], b"")];
    for (source, sink, text) in &rows {
        let given = Given {
            source,
            sink,
            ..NONE
        };
        assert!(rt; ends(alloc, RUN, image(alloc, 104, &[])?, &given, text, 6)?);
    }
    Ok(())
}
