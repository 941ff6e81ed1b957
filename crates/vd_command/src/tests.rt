use crate::Command;
use std::test::Fail;

fn words_of(rt: &HostRuntime, text: &str) -> Result<Vec<String>, Fail> {
    let mut words = Vec::new(rt.alloc());
    for word in text.split_whitespace() {
        words.push(String::from_str(rt.alloc(), word)?)?;
    }
    Ok(words)
}

fn make(size: u64, storage: u32, slots: u32) -> Command {
    Command::Make {
        size,
        block: 8,
        chunk: 4,
        storage,
        slots,
    }
}

fn show(first: u64, count: u64) -> Command {
    Command::Show { first, count }
}

fn run(guests: u32, workers: u32, copying: bool, limit: u32) -> Command {
    Command::Run {
        guests,
        workers,
        copying,
        limit,
    }
}

fn trace(number: u64, guests: u32, requests: u32, size: u64) -> Command {
    Command::Trace {
        number,
        guests,
        requests,
        size,
    }
}

fn drill(number: u64, guests: u32, requests: u32, stop: u32) -> Command {
    Command::Drill {
        number,
        guests,
        requests,
        stop,
    }
}

#[test]
fn words_of_a_command(rt: HostRuntime) -> Result<(), Fail> {
    let rows = [
        ("make I P 128 8 4 3 4", make(128, 3, 4)),
        ("make I P 128 8 4 4 1", make(128, 4, 1)),
        ("make I P 8 8 4 1 4096", make(8, 1, 4096)),
        ("make I P 67108864 8 4 3 4", make(67_108_864, 3, 4)),
        ("show I P 95 2", show(95, 2)),
        ("show -h --help 0 1", show(0, 1)),
        ("show I P 9999999999 2048", show(9_999_999_999, 2048)),
        ("run I P 1 0 on 0", run(1, 0, true, 0)),
        ("run I P 32 8 off 4294967295", run(32, 8, false, u32::MAX)),
        ("retrack I P 0", Command::Retrack { new: 0 }),
        (
            "retrack I P 9999999999",
            Command::Retrack { new: 9_999_999_999 },
        ),
        ("upgrade I P", Command::Upgrade),
        ("trace 0 1 0 64", trace(0, 1, 0, 64)),
        (
            "trace 18446744073709551615 32 4000 16777216",
            trace(u64::MAX, 32, 4000, 16_777_216),
        ),
        ("drill 7 4 1000 0", drill(7, 4, 1000, 0)),
        (
            "drill 10000000000 1 0 4294967295",
            drill(10_000_000_000, 1, 0, u32::MAX),
        ),
    ];
    for (text, command) in rows {
        let words = words_of(&rt, text)?;
        assert!(rt; Command::parse(words.as_slice()) == Some(command), "{text}");
    }
    Ok(())
}

/// Words too few or too many, and numbers outside their limits.
const NO_COMMANDS: [&str; 43] = [
    "",
    "-h",
    "show",
    "run I",
    "show I P 95",
    "show I P 95 2 2",
    "-h show I P 95 2",
    "Show I P 95 2",
    "show I P 95 0",
    "show I P 95 2049",
    "show I P 095 2",
    "show I P +95 2",
    "show I P 10000000000 2",
    "make I P 67108872 8 4 3 4",
    "make I P 0 8 4 1 4",
    "make I P 132 8 4 3 4",
    "make I P 128 4 4 3 4",
    "make I P 128 4294967304 4 3 4",
    "make I P 128 8 128 1 4",
    "make I P 128 8 4 0 4",
    "make I P 128 8 4 5 4",
    "make I P 128 8 4 3 0",
    "make I P 128 8 4 3 4097",
    "make I P 128 8 4 3",
    "run I P 0 0 on 0",
    "run I P 33 0 on 0",
    "run I P 1 9 on 0",
    "run I P 1 0 On 0",
    "run I P 1 0 on 4294967296",
    "retrack I P",
    "retrack I P 10000000000",
    "upgrade I",
    "upgrade I P Q",
    "trace 18446744073709551616 1 1 64",
    "trace 100000000000000000000 1 1 64",
    "trace 00000000000000000001 1 1 64",
    "trace 1 0 1 64",
    "trace 1 1 4001 64",
    "trace 1 1 1 63",
    "trace 1 1 1 16777217",
    "drill 1 33 1 0",
    "drill 1 1 1001 0",
    "drill 1 1 1 4294967296",
];

#[test]
fn words_of_no_command(rt: HostRuntime) -> Result<(), Fail> {
    for text in NO_COMMANDS {
        let words = words_of(&rt, text)?;
        assert!(rt; Command::parse(words.as_slice()).is_none(), "{text}");
    }
    Ok(())
}
