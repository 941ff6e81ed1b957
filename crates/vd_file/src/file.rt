//! A file of sectors.

ghost use Rattle.std.specs.Prelude.{◌≡◌, ◌≤◌, ◌<◌, ◌^◌, length, vec_capacity, OnErr, IfOk, Some};

use crate::bytes::arrays_of;
use std::fs::{File, OpenOptions};
use std::os::unix::fs::FileExt;
use std::rt::Files;
use std::{fs, io};
use vd_law::entry::Sector;

const SECTOR: u64 = 512;

/// The most sectors that one read takes.
const MOST: usize = 2048;

/// Why there is no device.
#[derive(Clone, Copy, Debug, PartialEq, Eq, Drop)]
pub enum NotOpened {
    /// The file could not be opened or made.
    NoFile,
    NoMemory,
}

/// An open file of sectors. What is read is gathered in the room before it is given, so that a read that fails midway
/// gives nothing. The room's memory is taken when the file is opened, and touched as far as reads need it.
#[derive(Drop)]
pub struct SectorFile {
    file: File,
    sectors: u64,
    room: Vec<[u8; 512]>,
    ghost few: { sectors < 2 ^ 55 },
    ghost enough: { 2048 ≤ vec_capacity room },
}

impl SectorFile {
    /// Opens the file to be read and written, or to be read alone where it may not be written.
    pub fn open<R: Files<File = File> + AllocGlobal>(
        rt: &R,
        path: &str,
    ) -> Result<SectorFile, NotOpened> {
        let room = room_in(rt)?;
        let both = OpenOptions::new().read(true).write(true).open(rt, path);
        let file = both
            .or_else(|_| File::open(rt, path))
            .map_err(|_| NotOpened::NoFile)?;
        SectorFile::over(file, room)
    }

    pub fn open_to_read<R: Files<File = File> + AllocGlobal>(
        rt: &R,
        path: &str,
    ) -> Result<SectorFile, NotOpened> {
        let room = room_in(rt)?;
        let file = File::open(rt, path).map_err(|_| NotOpened::NoFile)?;
        SectorFile::over(file, room)
    }

    /// Makes a file of so many sectors, where none is yet.
    pub fn make<R: Files<File = File> + AllocGlobal>(
        rt: &R,
        path: &str,
        sectors: u64,
    ) -> Result<SectorFile, NotOpened>
        ensures { IfOk result (λ f. f.sectors ≡ sectors) }
    {
        let room = room_in(rt)?;
        if sectors >= 1 << 54 {
            return Err(NotOpened::NoFile);
        }
        let file = File::create_new(rt, path).map_err(|_| NotOpened::NoFile)?;
        if file.set_len(sectors * SECTOR).is_err() {
            let _ = fs::remove_file(rt, path);
            return Err(NotOpened::NoFile);
        }
        Ok(SectorFile {
            file,
            sectors,
            room,
        })
    }

    fn over(file: File, room: Vec<[u8; 512]>) -> Result<SectorFile, NotOpened>
        requires { 2048 ≤ vec_capacity room }
    {
        let length = file.metadata().map_err(|_| NotOpened::NoFile)?.len();
        Ok(SectorFile {
            file,
            sectors: length / SECTOR,
            room,
        })
    }

    pub fn sectors(&self) -> u64
        ensures { result ≡ self.now.sectors }
    {
        self.sectors
    }

    pub fn read(&mut self, first: u64, out: &mut [Sector]) -> io::Result<()>
        requires place { first < 2 ^ 55 }
        requires few { length out.old ≤ 2048 }
        ensures unread { OnErr result (out.new ≡ out.old) }
        ensures sectors { self.new.sectors ≡ self.old.sectors }
    {
        grow(&mut self.room, out.len());
        gather(&self.file, first * SECTOR, self.room.as_mut_slice(), out)
    }

    pub fn write(&self, first: u64, content: &[Sector]) -> io::Result<()>
        requires { first < 2 ^ 55 }
    {
        let bytes = arrays_of(content).as_flattened();
        self.file.write_all_at(bytes, first * SECTOR)
    }

    pub fn sync(&self) -> io::Result<()> {
        self.file.sync_data()
    }
}

fn room_in<R: AllocGlobal>(rt: &R) -> Result<Vec<[u8; 512]>, NotOpened>
    ensures { IfOk result (λ v. 2048 ≤ vec_capacity v) }
{
    Vec::with_capacity(rt.alloc(), MOST).map_err(|_| NotOpened::NoMemory)
}

/// Lets the room have so many sectors at least, for which it has the memory.
fn grow(room: &mut Vec<[u8; 512]>, count: usize)
    requires { count ≤ vec_capacity room.old }
    ensures many { count ≤ length room.new.items }
    ensures room { vec_capacity room.old ≤ vec_capacity room.new }
{
    for _ in room.len()..count {
        let _ = room.push([0; 512]);
    }
}

fn gather(file: &File, at: u64, room: &mut [[u8; 512]], out: &mut [Sector]) -> io::Result<()>
    requires { length out.old ≤ length room.old }
    ensures unread { OnErr result (out.new ≡ out.old) }
{
    let room = &mut room[..out.len()];
    file.read_exact_at(room.as_flattened_mut(), at)?;
    for (sector, bytes) in out.iter_mut().zip(room.iter()) {
        sector.bytes = *bytes;
    }
    Ok(())
}
