//! A command over files.

ghost use Rattle.std.specs.Prelude.{◌≡◌, [], drop, map, string_bytes, IfOk};
ghost use Rattle.std.specs.Vec.Iter.{into_iter_items};
ghost use Rattle.vd_edge.specs.Devices.{AreNamed};
ghost use Rattle.vd_edge.specs.Statuses.{IsStatus};
ghost use Rattle.vd_file.specs.Standing.{AreFlying};

use crate::devices::{Unready, devices_of, remove_made};
use crate::ending::{flushed_status, is_left_unmade, refuse};
use std::alloc::Global;
use std::env::Args;
use std::fs::File;
use std::io;
use std::io::{BufWriter, Write};
use std::rt::Files;
use vd_file::{FileBase, FileStore};
use vd_io::std_sink::StdSink;

/// Bytes of text that go to the writer in one write.
const ROOM: usize = 65536;

/// The arguments behind the program's name.
fn words_of(alloc: Global, args: io::Result<Args>) -> io::Result<Vec<String>>
    ensures { IfOk result (λ words. IfOk args (λ given. words.items ≡ drop 1 (into_iter_items given))) }
{
    let mut words = Vec::new(alloc);
    let mut rest = args?;
    let _name = rest.next();
    while let Some(word) = rest.next() {
        words.push(word)?;
    }
    Ok(words)
}

/// Removes the store's file, where the command made it and failed.
fn settle<R: Files>(rt: &R, words: &[String], made: Option<u64>, status: u8) {
    if let [_, store, ..] = words {
        if is_left_unmade(status, made) {
            remove_made(rt, store.as_str());
        }
    }
}

/// Does the command over the devices that its words name.
fn on_devices<R, W, F>(
    rt: &R,
    words: &[String],
    made: Option<u64>,
    out: &mut StdSink<W>,
    command: F,
) -> u8
where
    R: Files<File = File> + AllocGlobal,
    W: Write,
    F: FnOnce(&[String], &mut StdSink<W>, FileStore, FileBase) -> u8,
    requires { (words out store base : _) → AreFlying store [] → AreFlying base [] → F.pre command words out store base }
    ensures { IsStatus (λ status. (out store base out' : _)
        × AreNamed (map string_bytes words.now) made store base
        × F.post command words.entry out store base status out') result }
{
    let (store, base) = match devices_of(rt, words, made) {
        Ok(devices) => devices,
        Err(unready) => return refuse(out, unready),
    };
    let status = command(words, out, store, base);
    // Behind a buffer the text is written only now.
    let status = flushed_status(status, out.flush());
    settle(rt, words, made, status);
    status
}

/// Does a command over the files that a program's arguments name, and prints its text to this writer. It answers the status
/// that the program is to end with.
///
/// `store_sectors` says how large a store the words make, where they make one, and `command` does what they spell: it is
/// handed the words, a sink of the text, the store and the base, and answers its status. A file that was made for a command
/// whose status is not 0 is removed again; one that was there is never made anew.
pub fn over_files<R, W, M, F>(
    rt: &R,
    args: io::Result<Args>,
    text: &mut W,
    store_sectors: M,
    command: F,
) -> u8
where
    R: Files<File = File> + AllocGlobal,
    W: Write,
    M: FnOnce(&[String]) -> Option<u64>,
    F: FnOnce(&[String], &mut StdSink<BufWriter<&mut W>>, FileStore, FileBase) -> u8,
    requires sectors { M.IsAlwaysCallable store_sectors }
    requires command { (words out store base : _) → AreFlying store [] → AreFlying base [] → F.pre command words out store base }
    // It is called with the words behind the program's name, and on the devices that these name; a store that it makes is as
    // large as it says.
    ensures { IsStatus (λ status. (words made out store base out' : _)
        × IfOk args (λ given. words.now ≡ drop 1 (into_iter_items given))
        × M.post store_sectors words made
        × AreNamed (map string_bytes words.now) made store base
        × F.post command words out store base status out') result }
{
    let Ok(buffered) = BufWriter::with_capacity(rt.alloc(), ROOM, &mut *text) else {
        return refuse(&mut StdSink::new(text), Unready::NoMemory);
    };
    let mut out = StdSink::new(buffered);
    let Ok(words) = words_of(rt.alloc(), args) else {
        return refuse(&mut out, Unready::NoMemory);
    };
    let words = words.as_slice();
    on_devices(rt, words, store_sectors(words), &mut out, command)
}
