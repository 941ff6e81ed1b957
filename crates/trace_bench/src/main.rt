//! How long a trace of 500,000 lines is read: once, and once more for each word of the command line. From a word `X`
//! on, it is a trace of 20,000 lines that each write one sector's content.
#![tactic(auto)]

use anyhow::Error;
use std::alloc::{AllocError, Global};
use std::env;
use std::fmt::Write;
use std::time::CpuClock;
use vd_io::mem_source::MemSource;
use vd_trace::trace::Trace;

const LINES: u32 = 500_000;

/// The lines that write one sector's content.
const SECTORS: u32 = 20_000;

const GUESTS: u32 = 32;

/// Reads, writes and flushes: of four lines one reads a sector, one writes one, and two flush.
fn push_line(text: &mut String, number: u32) -> Result<(), AllocError> {
    let guest = 1 + number % GUESTS;
    let first = number.wrapping_mul(8209);
    match number % 4 {
        0 => writeln!(text, "{guest} R {first} 1")?,
        1 => writeln!(text, "{guest} W {first} 1 {:02x}", number % 256)?,
        _ => writeln!(text, "{guest} F")?,
    }
    Ok(())
}

fn text_of(alloc: Global, lines: u32) -> Result<String, AllocError> {
    let mut text = String::new(alloc);
    for number in 0..lines {
        push_line(&mut text, number)?;
    }
    Ok(text)
}

fn next(random: u32) -> u32 {
    random.wrapping_mul(1_664_525).wrapping_add(1_013_904_223)
}

/// Writes one sector, in random digits of either case.
fn push_sector(text: &mut String, number: u32) -> Result<(), AllocError> {
    let guest = 1 + number % GUESTS;
    write!(text, "{guest} X {number} ")?;
    let mut random = next(number);
    for _ in 0..64 {
        let other = next(random);
        write!(text, "{random:08x}{other:08X}")?;
        random = next(other);
    }
    writeln!(text)
}

fn text_of_sectors(alloc: Global, lines: u32) -> Result<String, AllocError> {
    let mut text = String::new(alloc);
    for number in 0..lines {
        push_sector(&mut text, number)?;
    }
    Ok(text)
}

/// How many requests the guests have.
fn requests_in(trace: &Trace) -> u64 {
    let mut requests = 0u64;
    for guest in 1..=GUESTS {
        requests = requests.wrapping_add(trace.count(guest));
    }
    requests
}

fn source_of(alloc: Global, text: &str) -> Result<MemSource, AllocError> {
    let bytes = text.as_bytes().to_vec(alloc)?;
    Ok(MemSource::new(bytes, Vec::new(alloc)))
}

fn main(rt: HostRuntime) -> Result<(), Error> {
    let alloc = rt.alloc();
    let mut text = text_of(alloc, LINES)?;
    for word in env::args(&rt)? {
        if word.as_str() == "X" {
            text = text_of_sectors(alloc, SECTORS)?;
        }
        let mut source = source_of(alloc, &text)?;
        let began = rt.thread_cpu_time()?;
        match Trace::read(alloc, GUESTS, &mut source) {
            Ok(trace) => {
                let ended = rt.thread_cpu_time()?;
                let us = ended.saturating_sub(began).as_micros();
                eprintln!(rt; "{} requests in {us} microseconds", requests_in(&trace))?;
            }
            Err(error) => eprintln!(rt; "{error:?}")?,
        }
    }
    Ok(())
}
