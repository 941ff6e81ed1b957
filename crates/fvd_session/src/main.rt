//! Commands one after another, each as `fvd` does it: an argument is the words of one, divided by blanks. Behind each its
//! status is printed. So `rt ci` sees what a command finds that another has left.
#![tactic(auto)]

use std::alloc::AllocError;
use std::env::Args;
use std::process::ExitCode;
use std::{env, io};
use vd_edge::over_files;
use vd_io::std_source::StdSource;
use vd_top::{still, store_sectors};

/// The arguments of a program that is called with these words.
fn args_of(rt: &HostRuntime, line: &str) -> Result<Args, AllocError> {
    let mut args = Vec::new(rt.alloc());
    args.push(String::from_str(rt.alloc(), "fvd")?)?;
    for word in line.split(' ') {
        args.push(String::from_str(rt.alloc(), word)?)?;
    }
    Ok(args.into_iter())
}

/// Does a command, and answers its status.
fn obey(rt: &HostRuntime, line: &str) -> u8 {
    over_files(
        rt,
        args_of(rt, line).map_err(io::Error::from),
        &mut rt.stdout(),
        |words| store_sectors(words),
        |words, out, store, base| {
            let mut trace = StdSource::new(rt.stdin());
            still(rt.alloc(), words, &mut trace, out, store, base).status
        },
    )
}

fn main(rt: HostRuntime) -> io::Result<ExitCode> {
    let mut status = 0;
    for line in env::args(&rt)?.skip(1) {
        status = obey(&rt, line.as_str());
        println!(rt; "status {status}")?;
    }
    Ok(ExitCode::from(status))
}
