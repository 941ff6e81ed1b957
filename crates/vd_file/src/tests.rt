use crate::file::SectorFile;
use crate::{FileBase, FileStore, NotOpened};
use std::alloc::Global;
use std::fs;
use std::process::Abort;
use std::test::Fail;
use vd_device::{Base, Store, flush_now, read_base, read_now, write_now};
use vd_law::entry::Sector;

fn write(
    rt: &impl Abort,
    store: &mut FileStore,
    first: u64,
    content: &[Sector],
) -> Result<(), u64> {
    assert_eq!(rt; store.in_flight(), 0);
    assert!(rt; !content.is_empty() && content.len() <= 2048);
    assert!(rt; first <= store.sectors() && content.len() as u64 <= store.sectors() - first);
    write_now(store, first, content)
}

fn read(rt: &impl Abort, store: &mut FileStore, first: u64, out: &mut [Sector]) -> Result<(), u64> {
    assert_eq!(rt; store.in_flight(), 0);
    assert!(rt; !out.is_empty() && out.len() <= 2048);
    assert!(rt; first <= store.sectors() && out.len() as u64 <= store.sectors() - first);
    read_now(store, first, out)
}

fn flush(rt: &impl Abort, store: &mut FileStore) -> Result<(), u64> {
    assert_eq!(rt; store.in_flight(), 0);
    flush_now(store)
}

fn read_of_base(
    rt: &impl Abort,
    base: &mut FileBase,
    first: u64,
    out: &mut [Sector],
) -> Result<(), u64> {
    assert_eq!(rt; base.in_flight(), 0);
    assert!(rt; !out.is_empty() && out.len() <= 2048);
    assert!(rt; first <= base.sectors() && out.len() as u64 <= base.sectors() - first);
    read_base(base, first, out)
}

fn is_send<T: Send>(_device: &T) {}

/// A folder for this test alone.
fn folder(rt: &HostRuntime, name: &str) -> Result<(), Fail> {
    let _ = fs::remove_dir_all(rt, name);
    fs::create_dir(rt, name)?;
    Ok(())
}

#[test]
fn a_store_keeps_what_is_written(rt: HostRuntime) -> Result<(), Fail> {
    folder(&rt, "vd_file_store")?;
    let path = "vd_file_store/image";
    assert!(rt; matches!(FileStore::at(&rt, path, None), Err(NotOpened::NoFile)));
    let Ok(mut store) = FileStore::at(&rt, path, Some(2050)) else {
        panic!(rt; "not made");
    };
    assert_eq!(rt;
        (store.sectors(), fs::metadata(&rt, path)?.len()),
        (2050, 2050 * 512)
    );
    let content = [Sector::filled(0xaa), Sector::filled(0xbb)];
    assert_eq!(rt; write(&rt, &mut store, 2048, &content), Ok(()));
    assert_eq!(rt; write(&rt, &mut store, 0, &[Sector::filled(0x11)]), Ok(()));
    assert_eq!(rt; flush(&rt, &mut store), Ok(()));
    drop(store);

    // an existing file is not made anew
    assert!(rt; matches!(FileStore::at(&rt, path, Some(1)), Err(NotOpened::NoFile)));
    assert_eq!(rt; fs::metadata(&rt, path)?.len(), 2050 * 512);
    let Ok(mut store) = FileStore::at(&rt, path, None) else {
        panic!(rt; "not opened");
    };
    let mut most = vec![in rt.alloc(); Sector::filled(0xff); 2048]?;
    assert_eq!(rt; read(&rt, &mut store, 2, most.as_mut_slice()), Ok(()));
    assert!(rt; most[0] == Sector::filled(0));
    assert!(rt; most[2046] == Sector::filled(0xaa) && most[2047] == Sector::filled(0xbb));

    // a file that is opened to be read refuses each write
    let Ok(file) = SectorFile::open_to_read(&rt, path) else {
        panic!(rt; "not opened");
    };
    let mut store = FileStore::over(file);
    assert_eq!(rt; write(&rt, &mut store, 0, &content), Err(1));
    assert_eq!(rt; (store.faults(), store.in_flight()), (1, 0));
    let mut out = [Sector::filled(0xff)];
    assert_eq!(rt; read(&rt, &mut store, 0, &mut out), Ok(()));
    assert!(rt; out == [Sector::filled(0x11)]);
    fs::remove_dir_all(&rt, "vd_file_store")?;
    Ok(())
}

#[test]
fn a_base_gives_nothing_where_a_read_fails(rt: HostRuntime) -> Result<(), Fail> {
    folder(&rt, "vd_file_base")?;
    let path = "vd_file_base/base";
    assert!(rt; matches!(FileBase::at(&rt, path), Err(NotOpened::NoFile)));
    fs::write(&rt, path, [7u8; 2000].as_slice())?;
    let Ok(mut base) = FileBase::at(&rt, path) else {
        panic!(rt; "not opened");
    };
    assert_eq!(rt; base.sectors(), 3);
    let mut out = [Sector::filled(0); 3];
    assert_eq!(rt; read_of_base(&rt, &mut base, 0, &mut out), Ok(()));
    assert!(rt; out == [Sector::filled(7); 3]);

    // the file is cut while it is open
    fs::write(&rt, path, [9u8; 1500].as_slice())?;
    assert_eq!(rt; read_of_base(&rt, &mut base, 0, &mut out), Err(2));
    assert!(rt; out == [Sector::filled(7); 3]);
    assert_eq!(rt; (base.faults(), base.in_flight()), (1, 0));
    assert_eq!(rt; read_of_base(&rt, &mut base, 0, &mut out[..2]), Ok(()));
    assert!(rt; out[0] == Sector::filled(9) && out[1] == Sector::filled(9));
    fs::remove_dir_all(&rt, "vd_file_base")?;
    let none = FileStore::none();
    assert_eq!(rt; (none.sectors(), FileBase::none().sectors()), (0, 0));
    is_send(&none);
    is_send(&base);
    Ok(())
}

/// A store over a device whose flush fails, as a null device's does.
#[test]
fn a_flush_that_fails_is_told(rt: HostRuntime) -> Result<(), Fail> {
    let Ok(mut store) = FileStore::at(&rt, "/dev/null", None) else {
        panic!(rt; "not opened");
    };
    assert_eq!(rt; flush(&rt, &mut store), Err(1));
    assert_eq!(rt; store.faults(), 1);
    Ok(())
}

/// A running program can't be opened to be written. As a base it need not be.
#[test]
fn a_file_that_may_not_be_written_is_read(rt: HostRuntime) -> Result<(), Fail> {
    let Ok(mut store) = FileStore::at(&rt, "/proc/self/exe", None) else {
        panic!(rt; "not opened");
    };
    let mut out = [Sector::filled(0)];
    assert_eq!(rt; read(&rt, &mut store, 0, &mut out), Ok(()));
    assert!(rt; &out[0].bytes[..4] == b"\x7fELF".as_slice());
    assert_eq!(rt; write(&rt, &mut store, 0, &out), Err(2));

    let Ok(mut base) = FileBase::at(&rt, "/proc/self/exe") else {
        panic!(rt; "not opened");
    };
    assert_eq!(rt; base.sectors(), store.sectors());
    let mut same = [Sector::filled(0)];
    assert_eq!(rt; read_of_base(&rt, &mut base, 0, &mut same), Ok(()));
    assert!(rt; same == out);
    Ok(())
}

/// Sectors that all differ, each by its number.
fn numbered(alloc: Global, count: u32) -> Result<Vec<Sector>, Fail> {
    let mut all = Vec::new(alloc);
    for number in 0..count {
        let mut sector = Sector::filled(0x5a);
        for (byte, value) in sector.bytes.iter_mut().zip(number.to_le_bytes()) {
            *byte = value;
        }
        sector.bytes[511] = 0xa5;
        all.push(sector)?;
    }
    Ok(all)
}

/// Whether a read from `first` on gives these.
fn are_there<R: Abort + AllocGlobal>(
    rt: &R,
    store: &mut FileStore,
    first: u64,
    content: &[Sector],
) -> Result<bool, Fail> {
    let mut out = vec![in rt.alloc(); Sector::filled(0xff); content.len()]?;
    let answer = read(rt, store, first, out.as_mut_slice());
    Ok(answer.is_ok() && out.as_slice() == content)
}

/// Whether reads of few sectors from `first` on give the first of these.
fn fronts_are_there<R: Abort + AllocGlobal>(
    rt: &R,
    store: &mut FileStore,
    first: u64,
    content: &[Sector],
) -> Result<bool, Fail> {
    let mut same = true;
    for count in 1..18 {
        let front = &content[..content.len().min(count)];
        same = are_there(rt, store, first, front)? && same;
    }
    Ok(same)
}

#[test]
fn each_sector_of_a_long_write_is_read_back(rt: HostRuntime) -> Result<(), Fail> {
    folder(&rt, "vd_file_long")?;
    let path = "vd_file_long/image";
    let Ok(mut store) = FileStore::at(&rt, path, Some(1 << 24)) else {
        panic!(rt; "not made");
    };
    assert_eq!(rt; fs::metadata(&rt, path)?.len(), (1 << 24) * 512);
    let content = numbered(rt.alloc(), 2048)?;
    for first in [5, (1 << 23) + 9, (1 << 24) - 2048] {
        assert_eq!(rt; write(&rt, &mut store, first, content.as_slice()), Ok(()));
        assert!(rt;
            are_there(&rt, &mut store, first, content.as_slice())?,
            "at {first}"
        );
    }
    assert_eq!(rt; content.len(), 2048);
    assert!(rt; fronts_are_there(&rt, &mut store, 5 + 3, &content[3..])?);
    fs::remove_dir_all(&rt, "vd_file_long")?;
    Ok(())
}

/// Whether a file of so many sectors is refused and not left; or made, where the file system takes it.
fn is_refused_or_whole(rt: &HostRuntime, path: &str, sectors: u64) -> bool {
    let left = match FileStore::at(rt, path, Some(sectors)) {
        Ok(store) if store.sectors() == sectors && sectors < 1 << 54 => Some(sectors * 512),
        Ok(_) | Err(NotOpened::NoMemory) => return false,
        Err(NotOpened::NoFile) => None,
    };
    let found = fs::metadata(rt, path).ok().map(|found| found.len());
    let _ = fs::remove_file(rt, path);
    found == left
}

/// 2^63 - 512 bytes are too many for most file systems, and 2^63 for all.
#[test]
fn a_file_that_can_t_be_so_long_is_not_left(rt: HostRuntime) -> Result<(), Fail> {
    folder(&rt, "vd_file_huge")?;
    for sectors in [(1 << 54) - 1, 1 << 54, 1 << 55, u64::MAX] {
        assert!(rt;
            is_refused_or_whole(&rt, "vd_file_huge/image", sectors),
            "{sectors}"
        );
    }
    fs::remove_dir_all(&rt, "vd_file_huge")?;
    Ok(())
}
