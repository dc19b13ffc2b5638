//! A real file, of which no clause can say what it holds, and what a crash takes of the file in memory.
ghost use Rattle.std.specs.Prelude.{◌≡◌, false, true, OnOk};

use optra_outside::{Disk, DiskError, DiskFailed, FileDisk, MemoryDisk};
use std::alloc::Global;
use std::fs;
use std::process::Abort;
use std::test::Fail;

/// What is written and synced, what is written after that, how often the length is looked at, and what a crash then leaves.
/// After an even number of calls it leaves the length of the last sync, and zeros where something was written since; after an
/// odd number the whole length, and ones. Choosing, the first write and the sync are three calls, and each later write two.
struct Crash {
    synced: &'static [u8],
    writes: &'static [(u64, &'static [u8])],
    looks: u64,
    left: &'static [u8],
}

static CRASHES: [Crash; 6] = [
    Crash {
        synced: b"abcd",
        writes: &[],
        looks: 0,
        left: b"abcd",
    },
    Crash {
        synced: b"abcd",
        writes: &[(2, b"XY"), (4, b"Z")],
        looks: 0,
        left: b"ab\x01\x01\x01",
    },
    Crash {
        synced: b"abcd",
        writes: &[(2, b"XY"), (4, b"Z")],
        looks: 1,
        left: b"ab\x00\x00",
    },
    Crash {
        synced: b"abcd",
        writes: &[(1, b"X")],
        looks: 0,
        left: b"a\x01cd",
    },
    Crash {
        synced: b"",
        writes: &[(0, b"XY")],
        looks: 1,
        left: b"",
    },
    Crash {
        synced: b"",
        writes: &[(0, b"XY")],
        looks: 0,
        left: b"\x01\x01",
    },
];

/// Writes and syncs the first bytes, writes the others, looks at the length so often, crashes, and compares what is left.
fn check_crash(
    rt: &impl Abort,
    alloc: Global,
    disk: &mut MemoryDisk,
    crash: &Crash,
) -> Result<(), DiskError> {
    disk.choose("journal")?;
    disk.write_at(0, crash.synced)?;
    disk.sync()?;
    for (at, piece) in crash.writes {
        if *at <= disk.len()? {
            disk.write_at(*at, piece)?;
        }
    }
    for _ in 0..crash.looks {
        disk.len()?;
    }
    disk.crash();
    let len = disk.len()?;
    let bytes = disk.read(alloc, 0, len)?;
    assert_eq!(rt; bytes.as_slice(), crash.left);
    Ok(())
}

#[test]
fn a_crash_tears_what_was_not_synced(rt: HostRuntime) -> Result<(), Fail> {
    let alloc = rt.alloc();
    for crash in &CRASHES {
        let mut disk = MemoryDisk::new(alloc, 1000, Vec::new(alloc))?;
        check_crash(&rt, alloc, &mut disk, crash)?;
    }
    Ok(())
}

/// A call of a disk on which a file is chosen. Writes begin at the file's start.
enum Call {
    Write(&'static [u8]),
    Sync,
    Len,
    StopAfter(u64),
    Crash,
}

/// With room for the name of one byte and a piece of two, each with 64 bytes more.
static FULL: [(Call, Result<u64, DiskFailed>); 3] = [
    (Call::Write(b"abc"), Err(DiskFailed)),
    (Call::Write(b"ab"), Ok(0)),
    (Call::Sync, Err(DiskFailed)),
];

/// Where the third call fails, which is the first sync. The crash leaves what was written, since three calls were made.
static FAILING: [(Call, Result<u64, DiskFailed>); 7] = [
    (Call::Write(b"ab"), Ok(0)),
    (Call::Sync, Err(DiskFailed)),
    (Call::Crash, Ok(0)),
    (Call::Len, Ok(2)),
    (Call::StopAfter(1), Ok(0)),
    (Call::Len, Ok(2)),
    (Call::Len, Err(DiskFailed)),
];

/// Makes the call, and answers the length where it is asked for.
fn make(disk: &mut MemoryDisk, call: &Call) -> Result<u64, DiskFailed> {
    match call {
        Call::Write(bytes) => disk.write_at(0, bytes)?,
        Call::Sync => disk.sync()?,
        Call::Len => return disk.len(),
        Call::StopAfter(calls) => disk.stop_after(*calls),
        Call::Crash => disk.crash(),
    }
    Ok(0)
}

fn check_calls(
    rt: &impl Abort,
    disk: &mut MemoryDisk,
    calls: &[(Call, Result<u64, DiskFailed>)],
) -> Result<(), DiskFailed> {
    disk.choose("j")?;
    for (call, want) in calls {
        assert_eq!(rt; make(disk, call), *want);
    }
    Ok(())
}

/// Makes calls of a disk with this room, of which these fail.
fn check_disk(
    rt: &(impl Abort + AllocGlobal),
    room: u64,
    fails: &[u64],
    calls: &[(Call, Result<u64, DiskFailed>)],
) -> Result<(), Fail> {
    let alloc = rt.alloc();
    let mut disk = MemoryDisk::new(alloc, room, Vec::from_slice(alloc, fails)?)?;
    check_calls(rt, &mut disk, calls)?;
    Ok(())
}

#[test]
fn a_disk_in_memory_fails_where_it_is_told(rt: HostRuntime) -> Result<(), Fail> {
    check_disk(&rt, 131, &[], &FULL)?;
    check_disk(&rt, 1000, &[3], &FAILING)
}

/// Writes and syncs a file, and writes over a part of it.
fn write_twice<D: Disk>(disk: &mut D) -> Result<(), DiskFailed>
    requires { (D.state disk.old).tells ≡ false }
    ensures { OnOk result ((D.state disk.new).chosen ≡ true) }
{
    disk.choose("disk.bin")?;
    disk.write_at(0, b"OPTRA\x00\xff")?;
    disk.sync()?;
    disk.write_at(5, b"12")?;
    disk.sync()
}

#[test]
fn what_a_real_file_synced_is_read_again(rt: HostRuntime) -> Result<(), Fail> {
    let alloc = rt.alloc();
    let mut disk = FileDisk::new(&rt);
    write_twice(&mut disk)?;
    let mut again = FileDisk::new(&rt);
    again.choose("disk.bin")?;
    assert_eq!(rt; again.len()?, 7);
    let bytes = again.read(alloc, 1, 6)?;
    assert_eq!(rt; bytes.as_slice(), b"PTRA12".as_slice());
    assert!(rt; again.read(alloc, 1, 7).is_err());
    fs::remove_file(&rt, "disk.bin")?;
    Ok(())
}
