//! A real file.
use crate::streams::{read_piece, write_whole};
use crate::{Disk, DiskError, DiskFailed};
use std::alloc::Global;
use std::fs;
use std::fs::{OpenFile, OpenOptions};
use std::io::{ErrorKind, Read, Seek, SeekFrom, Write};
use std::path::Path;
use std::rt::Files;

/// The most bytes that one read asks for.
const PIECE: usize = 65_536;

/// A file of the runtime, a name being a path. It tells nothing of what the file holds.
#[derive(Drop)]
pub struct FileDisk<'a, R: Files> {
    rt: &'a R,
    file: Option<R::File>,
    faults: u64,
}

impl<'a, R: Files> FileDisk<'a, R> {
    ghost use Rattle.std.specs.Prelude.{◌≡◌, false};
    ghost use Rattle.optra_outside.specs.Disk.{Leaves};
    ghost use Rattle.optra_outside.specs.FileDisk.{file_state, after_fault};

    /// A disk over the runtime's files, with no file chosen and no fault counted.
    pub fn new(rt: &'a R) -> FileDisk<'a, R>
        ensures tells { (file_state result).tells ≡ false }
        ensures chosen { (file_state result).chosen ≡ false }
        ensures faults { (file_state result).faults ≡ 0 }
    {
        FileDisk {
            rt,
            file: None,
            faults: 0,
        }
    }

    /// Counts a fault.
    fn count_fault(&mut self)
        ensures leaves { Leaves (file_state self.old) (file_state self.new) }
        ensures counts { file_state self.new ≡ after_fault (file_state self.old) }
    {
        self.faults = self.faults.saturating_add(1);
    }
}

impl<'a, R: Files> Disk for FileDisk<'a, R> {
    ghost use Rattle.std.specs.Prelude.{◌≡◌, ◌+◌, ◌≤◌, length, take, drop, true, IfOk, OnOk, OnErr, IsErrOf};
    ghost use Rattle.optra_outside.specs.declared.disks.DiskError.TheVariants.{Failed};
    ghost use Rattle.optra_outside.specs.Disk.{Leaves, HasCause, KeepsFile, SameChosen, after_write, after_sync, AfterFailedWrite};
    ghost use Rattle.optra_outside.specs.FileDisk.{file_state, after_choose, after_call, after_read};

    ghost state = { file_state };

    /// Opens the file, and makes it where it isn't there. What it holds stays. Where it makes the file it also syncs the folder of
    /// its path, so that no crash takes the file away; that this fails is a fault.
    fn choose(&mut self, name: &str) -> Result<(), DiskFailed>
        ensures leaves { Leaves (file_state self.old) (file_state self.new) }
        ensures cause { OnErr result (HasCause (file_state self.old) (file_state self.new)) }
        ensures chosen { OnOk result ((file_state self.new).chosen ≡ true) }
        ensures name { OnOk result ((file_state self.old).tells ≡ true → (file_state self.new).name
            ≡ name.now) }
        ensures same { OnErr result (SameChosen (file_state self.old) (file_state self.new)) }
        ensures file { KeepsFile (file_state self.old) (file_state self.new) }
        ensures counts { file_state self.new ≡ after_choose (file_state self.old) result }
    {
        match open_or_make(self.rt, name) {
            Some(file) => {
                self.file = Some(file);
                Ok(())
            }
            None => {
                self.count_fault();
                Err(DiskFailed)
            }
        }
    }

    fn len(&mut self) -> Result<u64, DiskFailed>
        ensures leaves { Leaves (file_state self.old) (file_state self.new) }
        ensures cause { OnErr result (HasCause (file_state self.old) (file_state self.new)) }
        ensures same { SameChosen (file_state self.old) (file_state self.new) }
        ensures file { KeepsFile (file_state self.old) (file_state self.new) }
        ensures length { (file_state self.old).tells ≡ true → IfOk result
            (λ n. n ≡ length (file_state self.old).file.now.bytes) }
        ensures counts { file_state self.new ≡ after_call (file_state self.old) result }
    {
        if let Some(file) = &self.file {
            if let Ok(metadata) = file.metadata() {
                return Ok(metadata.len());
            }
        }
        self.count_fault();
        Err(DiskFailed)
    }

    /// A read that gives nothing is a fault.
    fn read(&mut self, alloc: Global, at: u64, count: u64) -> Result<Vec<u8>, DiskError>
        ensures leaves { Leaves (file_state self.old) (file_state self.new) }
        ensures cause { IsErrOf result DiskError.Failed → HasCause (file_state self.old)
            (file_state self.new) }
        ensures same { SameChosen (file_state self.old) (file_state self.new) }
        ensures file { KeepsFile (file_state self.old) (file_state self.new) }
        ensures bytes { (file_state self.old).tells ≡ true
            → IfOk result (λ bytes. bytes.items ≡ take count (drop at (file_state self.old).file.now.bytes)) }
        ensures counts { file_state self.new ≡ after_read (file_state self.old) result }
    {
        let read = match &mut self.file {
            Some(file) => read_range(alloc, file, at, count),
            None => Err(DiskError::Failed),
        };
        if let Err(DiskError::Failed) = &read {
            self.count_fault();
        }
        read
    }

    /// A write that takes nothing is a fault.
    fn write_at(&mut self, at: u64, bytes: &[u8]) -> Result<(), DiskFailed>
        ensures leaves { Leaves (file_state self.old) (file_state self.new) }
        ensures cause { OnErr result (HasCause (file_state self.old) (file_state self.new)) }
        ensures same { SameChosen (file_state self.old) (file_state self.new) }
        ensures ok { OnOk result ((file_state self.old).tells ≡ true
            → (file_state self.new).file ≡ after_write at bytes.now (file_state self.old).file) }
        ensures err { OnErr result ((file_state self.old).tells ≡ true
            → AfterFailedWrite at (length bytes.now) (file_state self.old).file (file_state self.new).file) }
        ensures counts { file_state self.new ≡ after_call (file_state self.old) result }
    {
        let written = match &mut self.file {
            Some(file) => write_range(file, at, bytes),
            None => false,
        };
        if written {
            return Ok(());
        }
        self.count_fault();
        Err(DiskFailed)
    }

    fn sync(&mut self) -> Result<(), DiskFailed>
        ensures leaves { Leaves (file_state self.old) (file_state self.new) }
        ensures cause { OnErr result (HasCause (file_state self.old) (file_state self.new)) }
        ensures same { SameChosen (file_state self.old) (file_state self.new) }
        ensures ok { OnOk result ((file_state self.old).tells ≡ true
            → (file_state self.new).file ≡ after_sync (file_state self.old).file) }
        ensures err { OnErr result (KeepsFile (file_state self.old) (file_state self.new)) }
        ensures counts { file_state self.new ≡ after_call (file_state self.old) result }
    {
        if let Some(file) = &self.file {
            if file.sync_all().is_ok() {
                return Ok(());
            }
        }
        self.count_fault();
        Err(DiskFailed)
    }
}

/// Opens a file for reads and writes. It makes the file where it isn't there, and then syncs the folder.
fn open_or_make<R: Files>(rt: &R, name: &str) -> Option<R::File> {
    let mut how = OpenOptions::new();
    how.read(true).write(true).create_new(true);
    match how.open(rt, name) {
        Ok(file) if sync_folder(rt, name) => Some(file),
        Err(error) if error.kind() == ErrorKind::AlreadyExists => open_there(rt, name),
        _ => None,
    }
}

/// Opens a file that is there. One that a link names and that isn't there is made.
fn open_there<R: Files>(rt: &R, name: &str) -> Option<R::File> {
    let mut how = OpenOptions::new();
    how.read(true).write(true).create(true);
    how.open(rt, name).ok()
}

/// Whether the folder of a path was synced.
fn sync_folder<R: Files>(rt: &R, name: &str) -> bool {
    match fs::open(rt, folder_of(name)) {
        Ok(folder) => folder.sync_all().is_ok(),
        Err(_) => false,
    }
}

/// The folder of a path.
fn folder_of(name: &str) -> &str {
    match Path::new(name).parent() {
        Some(folder) if !folder.as_str().is_empty() => folder.as_str(),
        _ => ".",
    }
}

/// Reads so many bytes from a place on.
fn read_range<F: Read + Seek>(
    alloc: Global,
    file: &mut F,
    at: u64,
    count: u64,
) -> Result<Vec<u8>, DiskError> {
    let mut bytes = Vec::new(alloc);
    let mut piece = [0u8; PIECE];
    if file.seek(SeekFrom::Start(at)).is_err() {
        return Err(DiskError::Failed);
    }
    let mut rest = count;
    while rest > 0 {
        let most = rest.min(PIECE as u64) as usize;
        match read_piece(file, &mut piece[..most]) {
            Ok(0) | Err(_) => return Err(DiskError::Failed),
            Ok(n) => {
                bytes.extend_from_slice(&piece[..n])?;
                rest -= n as u64;
            }
        }
    }
    Ok(bytes)
}

/// Whether all the bytes were written from a place on.
fn write_range<F: Write + Seek>(file: &mut F, at: u64, bytes: &[u8]) -> bool {
    file.seek(SeekFrom::Start(at)).is_ok() && write_whole(file, bytes)
}
