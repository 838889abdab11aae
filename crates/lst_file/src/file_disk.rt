//! A disk over a file: each call is made on the file, which notes it.
ghost use Rattle.std.specs.Prelude.{◌≡◌, ◌≤◌, ◌<◌, ◌+◌, ◌^◌, ◌∷◌, List, length, replicate, MatchResult};
ghost use Rattle.std.specs.Option.{ForSome};
ghost use Rattle.lst_disk.specs.Disk.{overwritten};
ghost use Rattle.lst_file.specs.Events.{stored, has_failed, wrote, failed};

use crate::calls::Calls;
use crate::faults::{GrowFault, raised};
use crate::opening::{OpenFault, read_disk};
use lst_disk::{Disk, DiskFailed};
use lst_model::OutOfMemory;
use std::alloc::Global;
use std::io;

/// How many zeros are written at once.
const PIECE: usize = 4096;

/// A disk over a file: its place 0 stands at an offset of the file. Reads are served from a copy in memory, until that is let go; writes go to both. Once a write or a sync of the
/// file has failed, the disk is dead: each later one fails and calls nothing. What was written before may then be lost with no further error, so the file has to be opened again.
#[derive(Drop)]
pub struct FileDisk<F: Calls> {
    calls: F,
    copy: Option<Vec<u8>>,
    offset: u64,
    size: u64,
    dead: bool,
    faults: u64,
    ghost sized: { length (stored offset (F.Calls.events calls)).content ≡ size },
    ghost copied: { ForSome copy (λ bytes. (stored offset (F.Calls.events calls)).content ≡ bytes.items) },
    ghost fits: { offset + size < 2 ^ 64 },
    ghost killed: { dead ≡ has_failed (F.Calls.events calls) },
}

/// Puts a piece over the bytes of a copy from a place on.
fn overwrite(copy: &mut Vec<u8>, at: u64, from: &[u8])
    requires { at + length from.now ≤ length copy.old.items }
    ensures { copy.new.items ≡ overwritten copy.old.items at from.now }
{
    let at = at as usize;
    copy[at..at + from.len()].copy_from_slice(from);
}

/// Writes so many zeros from a place on.
fn write_zeros<F: Calls>(calls: &mut F, place: u64, count: usize) -> io::Result<()>
    requires { count ≤ 4096 }
    ensures { MatchResult result
        (λ _. F.Calls.events calls.new ≡ wrote place (replicate count 0) ∷ F.Calls.events calls.old)
        (λ _. F.Calls.events calls.new ≡ failed place (replicate count 0) ∷ F.Calls.events calls.old) }
{
    let zeros = [0; PIECE];
    calls.write(place, &zeros[..count])
}

impl<F: Calls> FileDisk<F> {
    ghost use Rattle.std.specs.Prelude.{◌≡◌, ◌↔◌, ◌≤◌, ◌<◌, ◌+◌, ◌^◌, ◌++◌, ℕ, List, false, true, length, take, replicate, IfOk, OnOk, MatchResult, if◌then◌else◌};
    ghost use Rattle.lst_disk.specs.Disk.{Only, LeavesOnly};
    ghost use Rattle.lst_file.specs.Growth.{Grows};
    ghost use Rattle.lst_file.specs.Faults.{Makes};
    ghost use Rattle.lst_file.specs.Openings.{WasOpened, Refused};
    ghost use Rattle.lst_file.specs.Files.{file_events, file_offset, file_content, file_images, file_images_since, file_clock, file_faults, file_is_dead, file_has_copy, WasImage};

    /// Opens a file as a disk whose place 0 stands at `offset`, and which reaches to the file's end, and is `size` bytes long at least. Before anything is read the file is
    /// synced: what an earlier process wrote and didn't sync would be read else, and built upon. Zeros are written
    /// behind its bytes up to `size`, and synced, so that a crash leaves the content and nothing else.
    ///
    /// A fault comes with the file, which tells by its calls how far it came: where it is `OutOfMemory` or `ShorterThanHead`, the file was only measured.
    pub fn open(
        alloc: Global,
        mut calls: F,
        offset: u32,
        size: u32,
    ) -> Result<FileDisk<F>, (OpenFault, F)>
        ensures calls { MatchResult result
            (λ disk. WasOpened offset size (F.Calls.events calls) (file_events disk) (file_content disk))
            (λ refused. Refused offset size (F.Calls.events calls) (F.Calls.events refused.1) refused.0) }
        ensures offset { IfOk result (λ disk. file_offset disk ≡ offset) }
        ensures size { IfOk result (λ disk. size ≤ length (file_content disk)) }
        ensures lasts { IfOk result (λ disk. Only (file_content disk) (file_images disk)) }
        ensures faults { IfOk result (λ disk. file_faults disk ≡ 0) }
        ensures alive { IfOk result (λ disk. file_is_dead disk ≡ false) }
        ensures copy { IfOk result (λ disk. file_has_copy disk ≡ true) }
    {
        match read_disk(alloc, &mut calls, offset, size) {
            Ok(bytes) => Ok(FileDisk {
                calls,
                offset: offset as u64,
                size: bytes.len() as u64,
                copy: Some(bytes),
                dead: false,
                faults: 0,
            }),
            Err(fault) => Err((fault, calls)),
        }
    }

    /// Lets the copy of the content go, which reads are served from: they fail from now on, and the disk takes no memory. Nothing else changes.
    pub fn forget(&mut self)
        ensures events { file_events self.new ≡ file_events self.old }
        ensures offset { file_offset self.new ≡ file_offset self.old }
        ensures content { file_content self.new ≡ file_content self.old }
        ensures images { (c : List ℕ) → file_images self.new c ↔ file_images self.old c }
        ensures clock { file_clock self.new ≡ file_clock self.old }
        ensures since { (t : ℕ) (c : List ℕ) → file_images_since self.new t c ↔ file_images_since self.old t c }
        ensures faults { file_faults self.new ≡ file_faults self.old }
        ensures dead { file_is_dead self.new ≡ file_is_dead self.old }
        ensures copy { file_has_copy self.new ≡ false }
    {
        self.copy = None;
    }

    /// Hands the file back, which stays locked until it is dropped.
    pub fn into_file(self) -> F
        ensures { F.Calls.events result ≡ file_events self }
    {
        self.calls
    }

    /// Writes so many zeros behind the disk's bytes, which are a part of it from then on, and syncs. The copy that reads are served from is let go.
    ///
    /// Where the disk fails, some of the zeros may be there. A crash meanwhile leaves of the bytes that were there before what it could leave of them anyhow; the bytes behind may
    /// be anything, and as the next opening finds them, fewer.
    pub fn grow(&mut self, more: u64) -> Result<(), GrowFault>
        ensures ok { OnOk result (file_content self.new ≡ file_content self.old ++ replicate more 0) }
        ensures lasts { OnOk result (Only (file_content self.new) (file_images self.new)) }
        ensures front { take (length (file_content self.old)) (file_content self.new) ≡ file_content self.old }
        ensures crash { LeavesOnly file_clock file_images_since self.old self.new (WasImage self.old) }
        ensures grows { Grows more self.old self.new result }
    {
        self.forget();
        if more > u64::MAX - self.offset - self.size {
            return Err(GrowFault::TooLong);
        }
        let mut left = more;
        while left > 0 {
            let count = left.min(PIECE as u64);
            if let Err(DiskFailed) = self.add(count) {
                return Err(GrowFault::Disk);
            }
            left -= count;
        }
        match self.sync() {
            Ok(()) => Ok(()),
            Err(DiskFailed) => Err(GrowFault::Disk),
        }
    }

    /// Writes so many zeros behind the disk's bytes, which are a part of it from then on.
    fn add(&mut self, count: u64) -> Result<(), DiskFailed>
        requires some { 0 < count }
        requires few { count ≤ 4096 }
        requires bare { file_has_copy self.old ≡ false }
        requires fits { file_offset self.old + length (file_content self.old) + count < 2 ^ 64 }
        ensures makes { Makes (wrote (file_offset self.old + length (file_content self.old)) (replicate count 0)) (failed (file_offset self.old + length (file_content self.old)) (replicate count 0)) self.old self.new result }
        ensures content { file_content self.new ≡ (if file_is_dead self.old then file_content self.old else file_content self.old ++ replicate count 0) }
    {
        if self.dead {
            self.faults = raised(self.faults);
            return Err(DiskFailed);
        }
        let answer = write_zeros(&mut self.calls, self.offset + self.size, count as usize);
        self.size += count;
        match answer {
            Ok(()) => Ok(()),
            Err(_) => {
                self.dead = true;
                self.faults = raised(self.faults);
                Err(DiskFailed)
            }
        }
    }
}

impl<F: Calls> Disk for FileDisk<F> {
    ghost use Rattle.std.specs.Prelude.{◌≡◌, ◌+◌, ◌≤◌, ◌^◌, None, List, ℕ, length, take, drop, IsOk, OnOk, IsTrue, ◌↔◌};
    ghost use Rattle.lst_model.specs.Faults.{HasCause, faults_after};
    ghost use Rattle.lst_disk.specs.Disk.{overwritten, Torn, Follows, Only, Elapses};
    ghost use Rattle.lst_file.specs.Events.{wrote, failed, synced, unsynced};
    ghost use Rattle.lst_file.specs.Files.{file_events, file_offset, file_content, file_images, file_images_since, file_clock, file_faults, file_is_dead, file_has_copy};
    ghost use Rattle.lst_file.specs.Faults.{Makes};
    ghost use Rattle.lst_file.specs.FilesLaws.{content_stays, untold, is_now, is_earlier, is_only_now};

    ghost content = { file_content };

    ghost images = { file_images };

    ghost clock = { file_clock };

    ghost images_since = { file_images_since };

    ghost faults = { file_faults };

    ghost room_calls = { λ _. 4 };

    ghost room_bytes = { λ _. 2 ^ 64 };

    ghost calls_left = { λ _. None };

    ghost outcome = { λ _. None };

    ghost content_counts = { content_stays };

    ghost synced_counts = { untold };

    ghost counts_now = { is_now };

    ghost counts_earlier = { is_earlier };

    ghost only_now = { is_only_now };

    fn size(&self) -> u64 {
        self.size
    }

    /// It calls nothing, and fails exactly where the copy was let go.
    fn read(&mut self, at: u64, into: &mut [u8]) -> Result<(), DiskFailed>
        requires { at + length into.old ≤ length (file_content self.old) }
        ensures bytes { OnOk result (into.new ≡ take (length into.old) (drop at (file_content self.old))) }
        ensures served { IsOk result ↔ IsTrue (file_has_copy self.old) }
        ensures events { file_events self.new ≡ file_events self.old }
        ensures offset { file_offset self.new ≡ file_offset self.old }
        ensures copy { file_has_copy self.new ≡ file_has_copy self.old }
        ensures dead { file_is_dead self.new ≡ file_is_dead self.old }
        ensures faults { file_faults self.new ≡ faults_after (file_faults self.old) result }
        ensures cause { HasCause (file_faults self.old) (file_faults self.new) result }
    {
        match &self.copy {
            Some(bytes) => {
                let at = at as usize;
                into.copy_from_slice(&bytes[at..at + into.len()]);
                Ok(())
            }
            None => {
                self.faults = raised(self.faults);
                Err(DiskFailed)
            }
        }
    }

    /// It makes one write of the file, and none where the disk is dead.
    fn write_at(&mut self, at: u64, from: &[u8]) -> Result<(), DiskFailed>
        requires within { at + length from.now ≤ length (file_content self.old) }
        ensures written { OnOk result (file_content self.new ≡ overwritten (file_content self.old) at from.now) }
        ensures elsewhere { Torn at (length from.now) (file_content self.old) (file_content self.new) }
        ensures crash { Follows (Torn at (length from.now)) (file_images self.old) (file_images self.new) }
        ensures time { Elapses (file_clock self.old) (file_clock self.new) (file_images_since self.old) (file_images_since self.new) (file_images self.new) }
        ensures cause { HasCause (file_faults self.old) (file_faults self.new) result }
        ensures makes { Makes (wrote (file_offset self.old + at) from.now) (failed (file_offset self.old + at) from.now) self.old self.new result }
    {
        if self.dead {
            self.faults = raised(self.faults);
            return Err(DiskFailed);
        }
        match self.calls.write(self.offset + at, from) {
            Ok(()) => {
                if let Some(bytes) = &mut self.copy {
                    overwrite(bytes, at, from);
                }
                Ok(())
            }
            Err(_) => {
                self.dead = true;
                self.faults = raised(self.faults);
                Err(DiskFailed)
            }
        }
    }

    /// It makes one sync of the file, and none where the disk is dead.
    fn sync(&mut self) -> Result<(), DiskFailed>
        ensures durable { OnOk result (Only (file_content self.old) (file_images self.new)) }
        ensures content { file_content self.new ≡ file_content self.old }
        ensures crash { (c : List ℕ) → file_images self.new c → file_images self.old c }
        ensures time { Elapses (file_clock self.old) (file_clock self.new) (file_images_since self.old) (file_images_since self.new) (file_images self.new) }
        ensures cause { HasCause (file_faults self.old) (file_faults self.new) result }
        ensures makes { Makes synced unsynced self.old self.new result }
    {
        if self.dead {
            self.faults = raised(self.faults);
            return Err(DiskFailed);
        }
        match self.calls.sync() {
            Ok(()) => Ok(()),
            Err(_) => {
                self.dead = true;
                self.faults = raised(self.faults);
                Err(DiskFailed)
            }
        }
    }

    /// It needs no memory, and changes nothing.
    fn room(&mut self, bytes: u64) -> Result<(), OutOfMemory>
        ensures ok { IsOk result }
        ensures bytes { bytes ≤ 2 ^ 64 }
        ensures same { self.new ≡ self.old }
    {
        let _ = bytes;
        Ok(())
    }
}
