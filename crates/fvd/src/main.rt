//! The program: its words come from the command line, a trace from standard input, and its text goes to standard output.
#![tactic(auto)]

use std::env;
use std::process::ExitCode;
use vd_edge::over_files;
use vd_io::std_source::StdSource;
use vd_top::{still, store_sectors};

fn main(rt: HostRuntime) -> ExitCode {
    let status = over_files(
        &rt,
        env::args(&rt),
        &mut rt.stdout(),
        |words| store_sectors(words),
        |words, out, store, base| {
            let mut trace = StdSource::new(rt.stdin());
            still(rt.alloc(), words, &mut trace, out, store, base).status
        },
    );
    ExitCode::from(status)
}
