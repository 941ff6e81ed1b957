//! The status that the program ends with.

ghost use Rattle.std.specs.Prelude.{◌≡◌, ◌≢◌, ◌<◌, ◌↔◌, ◌⊎◌, IsTrue, OnOk, OnErr, Some, None};
ghost use Rattle.vd_edge.specs.declared.devices.Unready.TheVariants.{NoFile, NoMemory};

use crate::devices::Unready;
use vd_io::Failed;
use vd_io::sink::Sink;
use vd_report::line::{Line, put_line};

/// The status where a file can't be opened, and where there is no memory for the words or the devices.
const NO_FILE: u8 = 5;

const NO_MEMORY: u8 = 7;

/// The status where the text could not be written.
const NOT_WRITTEN: u8 = 6;

fn put_no_file<O: Sink>(out: &mut O, word: u8) -> Result<(), Failed> {
    out.write(if word == 2 {
        b"no file 2\n"
    } else {
        b"no file 3\n"
    })
}

/// Prints why there is nothing to work on, and answers the status of it. A sink that fails changes no such status.
pub fn refuse<O: Sink>(out: &mut O, unready: Unready) -> u8
    ensures file { (word : _) → unready ≡ NoFile word → result ≡ 5 }
    ensures memory { unready ≡ NoMemory → result ≡ 7 }
{
    match unready {
        Unready::NoFile(word) => {
            let _ = put_no_file(out, word);
            NO_FILE
        }
        Unready::NoMemory => {
            let _ = put_line(out, Line::NoMemory);
            NO_MEMORY
        }
    }
}

/// The status of a command that would end with this one, once its text was flushed with this result: 6 in place of 0 and
/// 1 where not all of the text is sure to be written.
pub fn flushed_status(status: u8, flushed: Result<(), Failed>) -> u8
    ensures whole { OnOk flushed (result ≡ status) }
    ensures cut { OnErr flushed (status < 2 → result ≡ 6) }
    ensures either { (result ≡ status) ⊎ ((result ≡ 6) × (status < 2)) }
{
    match flushed {
        Ok(()) => status,
        Err(Failed) if status < 2 => NOT_WRITTEN,
        Err(Failed) => status,
    }
}

/// Whether the store's file goes again: it was made for a command that failed.
pub fn is_left_unmade(status: u8, made: Option<u64>) -> bool
    ensures { IsTrue result ↔ (status ≢ 0) × (made ≢ None) }
{
    status != 0 && made.is_some()
}
