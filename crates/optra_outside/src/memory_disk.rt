//! A disk in memory.
ghost use Rattle.std.specs.Prelude.{◌≡◌, ◌+◌, ◌%◌, ◌<◌, ◌≤◌, ◌↔◌, [], length, map, take, drop, true, false, Some, None, is_err, nat_eq, if◌then◌else◌, IfOk, OnOk, OnErr, IsErrOf, IsTrue, MatchOption, vec_capacity};
ghost use Rattle.std.specs.FinSet as set;
ghost use Rattle.std.specs.List.{AllByRecursion, fold};
ghost use Rattle.optra_outside.specs.Counts.{raised, Rose};
ghost use Rattle.optra_outside.specs.Disk.{MayLeave, Leaves, SameChosen, overwritten, after_write, after_sync};
ghost use Rattle.optra_outside.specs.declared.disks.DiskError.TheVariants.{Failed};
ghost use Rattle.optra_outside.specs.MemoryDisk.{disk_state, found, filled, range_of, EndsBy, is_ended, one_less, call_fails, keeping_fails, after_look, after_choose, after_write_at, after_sync_call, crash_image};

use crate::call_numbers::CallNumbers;
use crate::{Disk, DiskError, DiskFailed};
use std::alloc::{AllocError, Global};
use std::marker::Model;

/// Where a write began in the file, and where its piece stands among the pieces.
#[derive(Clone, Copy)]
pub struct Piece {
    at: usize,
    start: usize,
    end: usize,
}

/// A range that was written since the last sync.
#[derive(Clone, Copy)]
pub struct Span {
    at: usize,
    count: usize,
}

/// A call that answered `Ok`.
#[derive(Clone, Copy)]
pub enum Kept {
    Choose,
    Write(Piece),
    Sync,
}

/// One file in memory, which it always tells, and its calls of `choose`, `write_at` and `sync` that answered
/// `Ok`. It takes the memory for all its room when it is made. `read` alone takes more.
#[derive(Drop)]
pub struct MemoryDisk {
    bytes: Vec<u8>,
    synced: usize,
    written: Vec<Span>,
    /// What the file was at first, or after the last crash, and the calls since.
    first: Vec<u8>,
    pieces: Vec<u8>,
    kept: Vec<Kept>,
    chosen: bool,
    name: Vec<u8>,
    room: u64,
    fails: CallNumbers,
    used: u64,
    calls: u64,
    faults: u64,
    left: Option<u64>,
}

impl Model for MemoryDisk {
    ghost use Rattle.std.specs.Prelude.{◌+◌, ◌*◌, ◌<◌, ◌≤◌, length, vec_capacity};
    ghost use Rattle.std.specs.List.{AllByRecursion};
    ghost use Rattle.optra_outside.specs.MemoryDisk.{DiskMemory, memory_code, file_of, StandsWithin, IsHeld};

    ghost Value = { DiskMemory };

    ghost coded = { memory_code };

    ghost view = { λ a. record {
      chosen = a.chosen;
      name = a.name.items;
      file = file_of a.first.items a.pieces.items a.kept.items;
      room = a.room;
      fails = a.fails;
      used = a.used;
      calls = a.calls;
      faults = a.faults;
      left = a.left;
    } };

    ghost invariant = { λ a.
        IsHeld (file_of a.first.items a.pieces.items a.kept.items) a.bytes.items a.synced a.written.items
        × AllByRecursion (StandsWithin (length a.pieces.items)) a.kept.items
        × (length a.bytes.items ≤ a.used)
        × (length a.pieces.items + 64 * length a.kept.items ≤ a.used)
        × (a.used ≤ a.room)
        × (a.room ≤ vec_capacity a.bytes)
        × (a.room ≤ vec_capacity a.first)
        × (a.room ≤ vec_capacity a.pieces)
        × (a.room ≤ vec_capacity a.name)
        × (a.room < 64 * vec_capacity a.kept)
        × (a.room < 64 * vec_capacity a.written)
        × (64 * length a.written.items ≤ a.used) };
}

/// Counts a call off those that are left, and says whether none was.
fn count_off(left: &mut Option<u64>) -> bool
    ensures ended { result ≡ is_ended left.old }
    ensures less { left.new ≡ one_less left.old }
{
    match *left {
        None => false,
        Some(n) => {
            *left = Some(n.saturating_sub(1));
            n == 0
        }
    }
}

/// Writes over bytes, and past their end, where there is room.
fn overwrite(bytes: &mut Vec<u8>, at: usize, piece: &[u8])
    requires within { at ≤ length bytes.old.items }
    requires room { length bytes.old.items + length piece.now ≤ vec_capacity bytes.old }
    ensures bytes { bytes.new.items ≡ overwritten at piece.now bytes.old.items }
    ensures capacity { vec_capacity bytes.old ≤ vec_capacity bytes.new }
{
    let end = at + piece.len();
    if end < bytes.len() {
        bytes[at..end].copy_from_slice(piece);
    } else {
        bytes.truncate(at);
        bytes.extend_from_slice(piece).unwrap();
    }
}

/// Has each place of these ranges hold one byte, and with the byte 0 cuts off what is past a length.
fn tear(bytes: &mut Vec<u8>, len: usize, written: &[Span], byte: u8)
    requires within { AllByRecursion (EndsBy (length bytes.old.items)) (map range_of written.now) }
    requires len { len ≤ length bytes.old.items }
    ensures bytes { bytes.new.items ≡ take (if nat_eq byte 0 then len else length bytes.old.items)
        (fold (filled byte) bytes.old.items (map range_of written.now)) }
    ensures capacity { vec_capacity bytes.new ≡ vec_capacity bytes.old }
    ensures len { length bytes.new.items ≤ length bytes.old.items }
{
    fill_all(bytes, written, byte);
    if byte == 0 {
        bytes.truncate(len);
    }
}

/// Has each place of these ranges hold one byte.
fn fill_all(bytes: &mut Vec<u8>, written: &[Span], byte: u8)
    requires { AllByRecursion (EndsBy (length bytes.old.items)) (map range_of written.now) }
    ensures bytes { bytes.new.items ≡ fold (filled byte) bytes.old.items
        (map range_of written.now) }
    ensures len { length bytes.new.items ≡ length bytes.old.items }
    ensures capacity { vec_capacity bytes.new ≡ vec_capacity bytes.old }
{
    for span in written {
        fill(bytes, *span, byte);
    }
}

fn fill(bytes: &mut Vec<u8>, span: Span, byte: u8)
    requires { EndsBy (length bytes.old.items) (range_of span) }
    ensures bytes { bytes.new.items ≡ filled byte bytes.old.items (range_of span) }
    ensures capacity { vec_capacity bytes.new ≡ vec_capacity bytes.old }
{
    let end = span.at + span.count;
    bytes[span.at..end].fill(byte);
}

impl MemoryDisk {
    /// An empty file with no name, and all counts 0.
    ///
    /// A call of the trait fails where its number, from 1 over all of them, stands in `fails`, where
    /// `stop_after` has ended the service, or where it is to be kept and is above the room. It takes 64 bytes
    /// of the room plus the bytes of its name or of its piece, over all the kept calls.
    pub fn new(alloc: Global, room: u64, fails: Vec<u64>) -> Result<MemoryDisk, AllocError>
        ensures { IfOk result (λ disk. disk ≡ record {
          chosen = false;
          name = [];
          file = found [];
          room = room;
          fails = set.from_list fails.items;
          used = 0;
          calls = 0;
          faults = 0;
          left = None;
        }) }
    {
        let size = room as usize;
        Ok(MemoryDisk {
            bytes: Vec::with_capacity(alloc, size)?,
            synced: 0,
            written: Vec::with_capacity(alloc, size / 64 + 1)?,
            first: Vec::with_capacity(alloc, size)?,
            pieces: Vec::with_capacity(alloc, size)?,
            kept: Vec::with_capacity(alloc, size / 64 + 1)?,
            chosen: false,
            name: Vec::with_capacity(alloc, size)?,
            room,
            fails: CallNumbers::new(fails),
            used: 0,
            calls: 0,
            faults: 0,
            left: None,
        })
    }

    /// Lets so many more calls through. Every later one fails.
    pub fn stop_after(&mut self, calls: u64)
        ensures { self.new ≡ record self.old { left = Some calls } }
    {
        self.left = Some(calls);
    }

    /// Crashes, and serves again. The ranges written since the last sync hold the byte 0 after an even number of
    /// calls, and the file is as long as it was at that sync. After an odd number they hold the byte 1, and the
    /// file is as long as it was at the crash.
    pub fn crash(&mut self)
        ensures exact { self.new ≡ record self.old {
          file = found (crash_image (self.old.calls % 2) self.old.file.now);
          left = None;
        } }
        ensures possible { MayLeave self.old.file.now
            (crash_image (self.old.calls % 2) self.old.file.now) }
    {
        let byte = (self.calls % 2) as u8;
        tear(&mut self.bytes, self.synced, &self.written, byte);
        self.synced = self.bytes.len();
        self.written.clear();
        self.first.clear();
        self.first.extend_from_slice(&self.bytes).unwrap();
        self.pieces.clear();
        self.kept.clear();
        self.left = None;
    }

    /// Counts the call, and says whether it is one of those that fail.
    fn count_call(&mut self) -> bool
        ensures calls { self.new ≡ record self.old {
          calls = raised self.old.calls;
          left = one_less self.old.left;
        } }
        ensures fails { result ≡ call_fails self.old }
    {
        self.calls = self.calls.saturating_add(1);
        let ended = count_off(&mut self.left);
        ended || self.fails.contains(self.calls)
    }

    /// Counts a fault.
    fn count_fault(&mut self)
        ensures exact { self.new ≡ record self.old { faults = raised self.old.faults } }
        ensures no_less { self.old.faults ≤ self.new.faults }
    {
        self.faults = self.faults.saturating_add(1);
    }

    /// What a call that is to be kept with these bytes takes of the room, where there is so much.
    fn room_for(&self, bytes: &[u8]) -> Option<u64>
        ensures { MatchOption result (self.now.room < self.now.used + (64 + length bytes.now))
            (λ size. (size ≡ 64 + length bytes.now) × (self.now.used + size ≤ self.now.room)) }
    {
        let spare = self.room - self.used;
        let size = (bytes.len() as u64).checked_add(64)?;
        if size <= spare { Some(size) } else { None }
    }

    fn keep_choose(&mut self, name: &[u8])
        requires { self.old.used + (64 + length name.now) ≤ self.old.room }
        ensures { self.new ≡ record self.old {
          used = self.old.used + (64 + length name.now);
          chosen = true;
          name = name.now;
        } }
    {
        self.used += 64 + name.len() as u64;
        self.kept.push_reserved(Kept::Choose);
        self.name.clear();
        self.name.extend_from_slice(name).unwrap();
        self.chosen = true;
    }

    fn keep_write(&mut self, at: usize, bytes: &[u8])
        requires room { self.old.used + (64 + length bytes.now) ≤ self.old.room }
        requires inside { at ≤ length self.old.file.now.bytes }
        ensures { self.new ≡ record self.old {
          used = self.old.used + (64 + length bytes.now);
          file = after_write at bytes.now self.old.file;
        } }
    {
        let start = self.pieces.len();
        self.pieces.extend_from_slice(bytes).unwrap();
        let end = self.pieces.len();
        self.kept
            .push_reserved(Kept::Write(Piece { at, start, end }));
        let count = bytes.len();
        self.written.push_reserved(Span { at, count });
        overwrite(&mut self.bytes, at, bytes);
        self.used += 64 + bytes.len() as u64;
    }

    fn keep_sync(&mut self)
        requires { self.old.used + 64 ≤ self.old.room }
        ensures { self.new ≡ record self.old
            { used = self.old.used + 64; file = after_sync self.old.file } }
    {
        self.used += 64;
        self.kept.push_reserved(Kept::Sync);
        self.synced = self.bytes.len();
        self.written.clear();
    }
}

impl Disk for MemoryDisk {
    ghost state = { disk_state };

    fn choose(&mut self, name: &str) -> Result<(), DiskFailed>
        ensures leaves { Leaves (disk_state self.old) (disk_state self.new) }
        ensures cause { OnErr result (Rose self.old.faults self.new.faults) }
        ensures chosen { OnOk result (self.new.chosen ≡ true) }
        ensures name { OnOk result (self.new.name ≡ name.now) }
        ensures same { OnErr result (SameChosen (disk_state self.old) (disk_state self.new)) }
        ensures file { self.new.file ≡ self.old.file }
        ensures exact { self.new ≡ after_choose self.old name.now }
        ensures fails { is_err result ≡ keeping_fails self.old (length name.now) }
    {
        let fails = self.count_call();
        match self.room_for(name.as_bytes()) {
            Some(_) if !fails => {
                self.keep_choose(name.as_bytes());
                Ok(())
            }
            _ => {
                self.count_fault();
                Err(DiskFailed)
            }
        }
    }

    fn len(&mut self) -> Result<u64, DiskFailed>
        ensures leaves { Leaves (disk_state self.old) (disk_state self.new) }
        ensures cause { OnErr result (Rose self.old.faults self.new.faults) }
        ensures same { SameChosen (disk_state self.old) (disk_state self.new) }
        ensures file { self.new.file ≡ self.old.file }
        ensures exact { self.new ≡ after_look self.old }
        ensures fails { is_err result ≡ call_fails self.old }
        ensures length { IfOk result (λ n. n ≡ length self.old.file.now.bytes) }
    {
        if self.count_call() {
            self.count_fault();
            return Err(DiskFailed);
        }
        Ok(self.bytes.len() as u64)
    }

    fn read(&mut self, alloc: Global, at: u64, count: u64) -> Result<Vec<u8>, DiskError>
        requires { at + count ≤ length self.old.file.now.bytes }
        ensures leaves { Leaves (disk_state self.old) (disk_state self.new) }
        ensures cause { IsErrOf result DiskError.Failed → Rose self.old.faults self.new.faults }
        ensures same { SameChosen (disk_state self.old) (disk_state self.new) }
        ensures file { self.new.file ≡ self.old.file }
        ensures exact { self.new ≡ after_look self.old }
        ensures failed { IsErrOf result DiskError.Failed ↔ IsTrue (call_fails self.old) }
        ensures bytes { IfOk result (λ bytes. bytes.items ≡ take count
            (drop at self.old.file.now.bytes)) }
    {
        if self.count_call() {
            self.count_fault();
            return Err(DiskError::Failed);
        }
        let start = at as usize;
        Ok(Vec::from_slice(alloc, &self.bytes[start..start + count as usize])?)
    }

    fn write_at(&mut self, at: u64, bytes: &[u8]) -> Result<(), DiskFailed>
        requires { at ≤ length self.old.file.now.bytes }
        ensures leaves { Leaves (disk_state self.old) (disk_state self.new) }
        ensures cause { OnErr result (Rose self.old.faults self.new.faults) }
        ensures same { SameChosen (disk_state self.old) (disk_state self.new) }
        ensures ok { OnOk result (self.new.file ≡ after_write at bytes.now self.old.file) }
        ensures err { OnErr result (self.new.file ≡ self.old.file) }
        ensures exact { self.new ≡ after_write_at self.old at bytes.now }
        ensures fails { is_err result ≡ keeping_fails self.old (length bytes.now) }
    {
        let fails = self.count_call();
        match self.room_for(bytes) {
            Some(_) if !fails => {
                self.keep_write(at as usize, bytes);
                Ok(())
            }
            _ => {
                self.count_fault();
                Err(DiskFailed)
            }
        }
    }

    fn sync(&mut self) -> Result<(), DiskFailed>
        ensures leaves { Leaves (disk_state self.old) (disk_state self.new) }
        ensures cause { OnErr result (Rose self.old.faults self.new.faults) }
        ensures same { SameChosen (disk_state self.old) (disk_state self.new) }
        ensures ok { OnOk result (self.new.file ≡ after_sync self.old.file) }
        ensures err { OnErr result (self.new.file ≡ self.old.file) }
        ensures exact { self.new ≡ after_sync_call self.old }
        ensures fails { is_err result ≡ keeping_fails self.old 0 }
    {
        let fails = self.count_call();
        match self.room_for(&[]) {
            Some(_) if !fails => {
                self.keep_sync();
                Ok(())
            }
            _ => {
                self.count_fault();
                Err(DiskFailed)
            }
        }
    }
}
