//! Real files and writers, of which no clause can say what they hold; puts on the shelf in memory; and the shelf that never
//! fails.
use optra_outside::{
    FolderShelf, MemoryShelf, NeverShelf, Pen, PenFailed, Shelf, ShelfError, StdPen,
};
use std::alloc::Global;
use std::io::{ErrorKind, Write};
use std::process::Abort;
use std::test::Fail;
use std::{fs, io};

fn expect_get<S: Shelf>(
    rt: &impl Abort,
    alloc: Global,
    shelf: &mut S,
    name: &str,
    wanted: Result<&'static [u8], ShelfError>,
) {
    match shelf.get(alloc, name) {
        Ok(bytes) => assert_eq!(rt; Ok(bytes.as_slice()), wanted, "at {name}"),
        Err(refusal) => assert_eq!(rt; Err(refusal), wanted, "at {name}"),
    }
}

fn expect_put<S: Shelf>(
    rt: &impl Abort,
    shelf: &mut S,
    name: &str,
    bytes: &[u8],
    wanted: Result<(), ShelfError>,
) {
    assert_eq!(rt; shelf.put(name, bytes), wanted, "at {name}");
}

fn expect_write<P: Pen>(rt: &impl Abort, pen: &mut P, piece: &[u8], wanted: Result<(), PenFailed>) {
    assert_eq!(rt; pen.write(piece), wanted);
}

#[test]
fn a_file_that_was_put_is_got(rt: HostRuntime) -> Result<(), Fail> {
    let alloc = rt.alloc();
    let mut shelf = FolderShelf::new(&rt);
    expect_put(&rt, &mut shelf, "plan.csv", b"first, and longer", Ok(()));
    expect_put(&rt, &mut shelf, "plan.csv", b"revenue,1\n\x00\xff", Ok(()));
    expect_get(
        &rt,
        alloc,
        &mut shelf,
        "plan.csv",
        Ok(b"revenue,1\n\x00\xff"),
    );
    expect_put(&rt, &mut shelf, "empty.csv", b"", Ok(()));
    expect_get(&rt, alloc, &mut shelf, "empty.csv", Ok(b""));
    expect_get(&rt, alloc, &mut shelf, "none.csv", Err(ShelfError::Absent));
    // A run that was cut off may have left it.
    let _ = fs::create_dir(&rt, "folder");
    expect_get(&rt, alloc, &mut shelf, "folder", Err(ShelfError::Failed));
    expect_put(&rt, &mut shelf, "folder", b"1", Err(ShelfError::Failed));
    fs::remove_dir(&rt, "folder")?;
    fs::remove_file(&rt, "plan.csv")?;
    fs::remove_file(&rt, "empty.csv")?;
    Ok(())
}

// Takes up to four bytes a write, and fails its flush if asked to.
#[derive(Drop)]
struct Slow {
    bytes: Vec<u8>,
    flushes: u8,
    takes: usize,
    flush_fails: bool,
}

impl Write for Slow {
    fn write(&mut self, buf: &[u8]) -> io::Result<usize> {
        let taken = buf.len().min(self.takes);
        self.bytes.extend_from_slice(&buf[..taken])?;
        Ok(taken)
    }

    fn flush(&mut self) -> io::Result<()> {
        self.flushes = self.flushes.saturating_add(1);
        if self.flush_fails {
            return Err(io::Error::from(ErrorKind::Other));
        }
        Ok(())
    }
}

#[test]
fn a_piece_is_written_whole_and_flushed(rt: HostRuntime) -> Result<(), Fail> {
    let mut out = StdPen::new(rt.stdout());
    expect_write(&rt, &mut out, b"a piece\n", Ok(()));
    let mut slow = Slow {
        bytes: Vec::new(rt.alloc()),
        flushes: 0,
        takes: 4,
        flush_fails: false,
    };
    let mut pen = StdPen::new(&mut slow);
    expect_write(&rt, &mut pen, b"revenue,1", Ok(()));
    expect_write(&rt, &mut pen, b"", Ok(()));
    drop(pen);
    assert_eq!(rt; slow.bytes.as_slice(), b"revenue,1".as_slice());
    assert_eq!(rt; slow.flushes, 1);
    slow.flush_fails = true;
    expect_write(&rt, &mut StdPen::new(&mut slow), b"x", Err(PenFailed));
    slow.flush_fails = false;
    slow.takes = 0;
    expect_write(&rt, &mut StdPen::new(&mut slow), b"x", Err(PenFailed));
    assert_eq!(rt; slow.bytes.as_slice(), b"revenue,1x".as_slice());
    Ok(())
}

#[derive(Clone, Copy)]
enum Call {
    Put(&'static str, &'static [u8], Result<(), ShelfError>),
    Get(&'static str, Result<&'static [u8], ShelfError>),
    Load(&'static str, &'static [u8]),
}

/// Calls of a shelf of which the third and the fifth fail. A file of four bytes and a name of one take 69 of the room, so
/// two of them fill it.
static CALLS: [Call; 13] = [
    Call::Put("a", b"1234", Ok(())),
    Call::Get("a", Ok(b"1234")),
    Call::Get("a", Err(ShelfError::Failed)),
    Call::Load("long", b"12345"),
    Call::Get("long", Err(ShelfError::TooLong)),
    Call::Put("b", b"1234", Err(ShelfError::Failed)),
    Call::Get("b", Err(ShelfError::Absent)),
    Call::Put("b", b"12345", Err(ShelfError::Failed)),
    Call::Put("b", b"5678", Ok(())),
    Call::Put("", b"", Err(ShelfError::Failed)),
    Call::Load("a", b"new"),
    Call::Get("a", Ok(b"new")),
    Call::Get("b", Ok(b"5678")),
];

fn check_calls(
    rt: &(impl Abort + AllocGlobal),
    shelf: &mut MemoryShelf,
    calls: &[Call],
) -> Result<(), Fail> {
    for call in calls {
        match *call {
            Call::Put(name, bytes, wanted) => expect_put(rt, shelf, name, bytes, wanted),
            Call::Get(name, wanted) => expect_get(rt, rt.alloc(), shelf, name, wanted),
            Call::Load(name, bytes) => shelf.load(name, bytes)?,
        }
    }
    Ok(())
}

#[test]
fn a_shelf_in_memory(rt: HostRuntime) -> Result<(), Fail> {
    let alloc = rt.alloc();
    let mut shelf = MemoryShelf::new(alloc, 4, 138, vec![in alloc; 5, 3]?)?;
    check_calls(&rt, &mut shelf, &CALLS)
}

#[test]
fn nothing_fails_over_the_never_shelf(rt: HostRuntime) -> Result<(), Fail> {
    let alloc = rt.alloc();
    let mut shelf = NeverShelf::new(alloc, 1000);
    shelf.load("long", &[0; 1001])?;
    expect_get(&rt, alloc, &mut shelf, "long", Err(ShelfError::TooLong));
    expect_get(&rt, alloc, &mut shelf, "none", Err(ShelfError::Absent));
    expect_put(&rt, &mut shelf, "c", b"1", Ok(()));
    Ok(())
}
