//! What follows a command's first word. IMAGE and BASE are any words.

ghost use Rattle.std.specs.Prelude.{◌≡◌, ◌≤◌, ◌∷◌, map, string_bytes, IfSome};
ghost use Rattle.vd_command.specs.Reading.{number_between, switch_of, make_command, make_of, show_of, run_of, retrack_of, upgrade_of, trace_of, drill_of, command_of};

use crate::Command;
use vd_decimal::read_number;
use vd_format::{Header, valid};

const DIGITS: usize = 10;

const DIGITS_OF_A_SEED: usize = 20;

fn number(word: &String, least: u64, most: u64) -> Option<u64>
    ensures value { result ≡ number_between least most (string_bytes word.now) }
    ensures bound { IfSome result (λ n. n ≤ most) }
{
    read_number(word.as_bytes(), DIGITS).filter(|n| least <= *n && *n <= most)
}

fn small(word: &String, least: u32, most: u32) -> Option<u32>
    ensures { result ≡ number_between least most (string_bytes word.now) }
{
    match number(word, u64::from(least), u64::from(most)) {
        Some(n) => Some(n as u32),
        None => None,
    }
}

fn switch(word: &String) -> Option<bool>
    ensures { result ≡ switch_of (string_bytes word.now) }
{
    match word.as_str() {
        "on" => Some(true),
        "off" => Some(false),
        _ => None,
    }
}

#[tactic(auto, unfolding(crate::specs::Reading::make_command))]
fn making(header: &Header) -> Option<Command>
    requires { header.now.version ≡ 2 }
    ensures { result ≡ make_command header.now }
{
    if !valid(header) {
        return None;
    }
    Some(Command::Make {
        size: header.size,
        block: header.block,
        chunk: header.chunk,
        storage: header.storage,
        slots: header.slots,
    })
}

/// `make IMAGE BASE SIZE BLOCK CHUNK STORAGE SLOTS`
fn make(arguments: &[String]) -> Option<Command>
    ensures { result ≡ make_of (map string_bytes arguments.now) }
{
    let [_, _, size, block, chunk, storage, slots] = arguments else {
        return None;
    };
    making(&Header {
        version: 2,
        size: read_number(size.as_bytes(), DIGITS)?,
        block: small(block, 0, u32::MAX)?,
        chunk: small(chunk, 0, u32::MAX)?,
        storage: small(storage, 0, u32::MAX)?,
        slots: small(slots, 0, u32::MAX)?,
        tracked: 0,
        generation: 1,
    })
}

/// `show IMAGE BASE FIRST COUNT`
fn show(arguments: &[String]) -> Option<Command>
    ensures { result ≡ show_of (map string_bytes arguments.now) }
{
    let [_, _, first, count] = arguments else {
        return None;
    };
    Some(Command::Show {
        first: read_number(first.as_bytes(), DIGITS)?,
        count: number(count, 1, 2048)?,
    })
}

/// `run IMAGE BASE GUESTS WORKERS COPY LIMIT`
fn run(arguments: &[String]) -> Option<Command>
    ensures { result ≡ run_of (map string_bytes arguments.now) }
{
    let [_, _, guests, workers, copying, limit] = arguments else {
        return None;
    };
    Some(Command::Run {
        guests: small(guests, 1, 32)?,
        workers: small(workers, 0, 8)?,
        copying: switch(copying)?,
        limit: small(limit, 0, u32::MAX)?,
    })
}

/// `retrack IMAGE BASE NEW`
fn retrack(arguments: &[String]) -> Option<Command>
    ensures { result ≡ retrack_of (map string_bytes arguments.now) }
{
    let [_, _, new] = arguments else {
        return None;
    };
    Some(Command::Retrack {
        new: read_number(new.as_bytes(), DIGITS)?,
    })
}

/// `upgrade IMAGE BASE`
fn upgrade(arguments: &[String]) -> Option<Command>
    ensures { result ≡ upgrade_of (map string_bytes arguments.now) }
{
    match arguments {
        [_, _] => Some(Command::Upgrade),
        _ => None,
    }
}

/// `trace NUMBER GUESTS REQUESTS SIZE`
fn trace(arguments: &[String]) -> Option<Command>
    ensures { result ≡ trace_of (map string_bytes arguments.now) }
{
    let [seed, guests, requests, size] = arguments else {
        return None;
    };
    Some(Command::Trace {
        number: read_number(seed.as_bytes(), DIGITS_OF_A_SEED)?,
        guests: small(guests, 1, 32)?,
        requests: small(requests, 0, 4000)?,
        size: number(size, 64, 16_777_216)?,
    })
}

/// `drill NUMBER GUESTS REQUESTS STOP`
fn drill(arguments: &[String]) -> Option<Command>
    ensures { result ≡ drill_of (map string_bytes arguments.now) }
{
    let [seed, guests, requests, stop] = arguments else {
        return None;
    };
    Some(Command::Drill {
        number: read_number(seed.as_bytes(), DIGITS_OF_A_SEED)?,
        guests: small(guests, 1, 32)?,
        requests: small(requests, 0, 1000)?,
        stop: small(stop, 0, u32::MAX)?,
    })
}

/// The command of a first word and what follows it.
pub fn read(name: &str, arguments: &[String]) -> Option<Command>
    ensures { result ≡ command_of (name.now ∷ map string_bytes arguments.now) }
{
    match name {
        "make" => make(arguments),
        "show" => show(arguments),
        "run" => run(arguments),
        "retrack" => retrack(arguments),
        "upgrade" => upgrade(arguments),
        "trace" => trace(arguments),
        "drill" => drill(arguments),
        _ => None,
    }
}
