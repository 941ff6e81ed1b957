//! The devices that a command gets.

ghost use Rattle.std.specs.Prelude.{◌≡◌, ℕ, [], map, string_bytes, true, false, IsTrue, IsFalse, IfOk, IsOkAnd, Some};
ghost use Rattle.std.specs.Option.{is_some};
ghost use Rattle.vd_edge.specs.Devices.{is_over_files, names_devices};
ghost use Rattle.vd_file.specs.Standing.{AreFlying, unused_file};

use std::fs;
use std::fs::File;
use std::rt::Files;
use vd_file::{FileBase, FileStore, NotOpened};

/// Why there are no devices to work on.
#[derive(Clone, Copy, Debug, PartialEq, Eq, Drop)]
pub enum Unready {
    /// The word of this number names a file that can't be opened or made.
    NoFile(u8),
    NoMemory,
}

fn reason_of(refused: NotOpened, word: u8) -> Unready {
    match refused {
        NotOpened::NoFile => Unready::NoFile(word),
        NotOpened::NoMemory => Unready::NoMemory,
    }
}

/// Removes the file that was made for a command that failed. Where it can't be removed it is left.
pub fn remove_made<R: Files>(rt: &R, store: &str) {
    let _ = fs::remove_file(rt, store);
}

/// The files of the second and the third word, opened; that of the store is made where a number of sectors is given, and
/// removed again where the base can't be opened.
fn open_devices<R: Files<File = File> + AllocGlobal>(
    rt: &R,
    store: &str,
    base: &str,
    made: Option<u64>,
) -> Result<(FileStore, FileBase), Unready>
    ensures idle { IfOk result (λ devices. AreFlying devices.0 [] × AreFlying devices.1 []) }
    ensures files { IfOk result (λ devices. (devices.0 ≡ unused_file true devices.0.sectors) × (devices.1 ≡ unused_file true devices.1.sectors)) }
    ensures made { IfOk result (λ devices. (sectors : ℕ) → made ≡ Some sectors → devices.0.sectors ≡ sectors) }
{
    let opened = FileStore::at(rt, store, made).map_err(|e| reason_of(e, 2))?;
    match FileBase::at(rt, base) {
        Ok(base) => Ok((opened, base)),
        Err(refused) => {
            drop(opened);
            if made.is_some() {
                remove_made(rt, store);
            }
            Err(reason_of(refused, 3))
        }
    }
}

/// Whether this command has a store and a base: each has that makes its store.
fn is_over_files(command: &str, makes: bool) -> bool
    ensures { result ≡ is_over_files command.now makes }
{
    matches!(command, "show" | "run") || makes
}

/// The store and the base of the second and the third word, where the command has a store and a base, both words are
/// there, and a command that makes its store says how large it is; else devices of no sectors, and no file is touched.
pub fn devices_of<R: Files<File = File> + AllocGlobal>(
    rt: &R,
    words: &[String],
    made: Option<u64>,
) -> Result<(FileStore, FileBase), Unready>
    ensures idle { IfOk result (λ devices. AreFlying devices.0 [] × AreFlying devices.1 []) }
    ensures files { IsTrue (names_devices (map string_bytes words.now) (is_some made)) →
        IfOk result (λ devices. (devices.0 ≡ unused_file true devices.0.sectors) × (devices.1 ≡ unused_file true devices.1.sectors)) }
    ensures made { IsTrue (names_devices (map string_bytes words.now) (is_some made)) →
        IfOk result (λ devices. (sectors : ℕ) → made ≡ Some sectors → devices.0.sectors ≡ sectors) }
    ensures none { IsFalse (names_devices (map string_bytes words.now) (is_some made)) →
        IsOkAnd result (λ devices. (devices.0 ≡ unused_file false 0) × (devices.1 ≡ unused_file false 0)) }
{
    match words {
        [command, store, base, ..] if is_over_files(command.as_str(), made.is_some()) => {
            open_devices(rt, store.as_str(), base.as_str(), made)
        }
        _ => Ok((FileStore::none(), FileBase::none())),
    }
}
