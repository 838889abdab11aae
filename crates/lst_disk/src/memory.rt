//! A disk in memory that fails from a given call on, and that can crash.
ghost use Rattle.std.specs.Prelude.{◌≡◌, ◌≤◌, ◌+◌, ◌-◌, ◌^◌, List, length, replicate, IsTrue, IfOk, Some, if◌then◌else◌};
ghost use Rattle.lst_disk.specs.Images.{Stored, settled, replayed, bytes_of, are_within};

use crate::disk::{Disk, DiskFailed};
use crate::faults::raised;
use crate::parts::{Entry, copy, note, note_bytes, overwrite, zeros};
use lst_model::OutOfMemory;
use std::alloc::Global;

/// A disk in memory. Its first calls of `write_at` and `sync`, as many as it tells, succeed, and later ones fail and change nothing.
/// It keeps a record of the calls that succeeded, by which the images of each moment are told.
#[derive(Drop)]
pub struct MemDisk {
    torn: bool,
    left: u64,
    faults: u64,
    start: Vec<u8>,
    content: Vec<u8>,
    synced: Vec<u8>,
    entries: Vec<Entry>,
    pieces: Vec<u8>,
    ghost started: { length start.items ≡ length content.items },
    ghost sized: { length synced.items ≡ length content.items },
    ghost whole: { bytes_of entries.items ≡ length pieces.items },
    ghost within: { IsTrue (are_within (length start.items) entries.items) },
    ghost kept: { (replayed (settled start.items) entries.items pieces.items).content ≡ content.items },
    ghost lasting: { (replayed (settled start.items) entries.items pieces.items).synced ≡ synced.items },
}

impl MemDisk {
    ghost use Rattle.std.specs.Prelude.{◌≡◌, length, replicate, IfOk, []};
    ghost use Rattle.lst_disk.specs.Disk.{Only};
    ghost use Rattle.lst_disk.specs.Memory.{disk_content, disk_images, disk_clock, disk_left, disk_torn, disk_synced, disk_room_calls, disk_room_bytes, disk_faults, disk_pending};

    /// A disk of so many zeros, all of them lasting, that makes `stop` calls of `write_at` and `sync`. `torn` says what a crash leaves.
    pub fn new(alloc: Global, size: u32, stop: u64, torn: bool) -> Result<MemDisk, OutOfMemory>
        ensures content { IfOk result (λ m. disk_content m ≡ replicate size 0) }
        ensures images { IfOk result (λ m. Only (replicate size 0) (disk_images m)) }
        ensures left { IfOk result (λ m. disk_left m ≡ stop) }
        ensures torn { IfOk result (λ m. disk_torn m ≡ torn) }
        ensures room { IfOk result (λ m. (disk_room_calls m ≡ 0) × (disk_room_bytes m ≡ 0)) }
        ensures faults { IfOk result (λ m. disk_faults m ≡ 0) }
    {
        Ok(MemDisk {
            torn,
            left: stop,
            faults: 0,
            start: zeros(alloc, size)?,
            content: zeros(alloc, size)?,
            synced: zeros(alloc, size)?,
            entries: Vec::new(alloc),
            pieces: Vec::new(alloc),
        })
    }

    /// The disk after a crash: it has the bytes of the last sync, or where it tears all that were written, with nothing pending.
    pub fn crash(self) -> MemDisk
        ensures content { disk_content result ≡ (if disk_torn self then disk_content self else disk_synced self) }
        ensures size { length (disk_content result) ≡ length (disk_content self) }
        ensures image { disk_images self (disk_content result) }
        ensures images { Only (disk_content result) (disk_images result) }
        ensures pending { disk_pending result ≡ [] }
        ensures left { disk_left result ≡ u64.MAX }
        ensures torn { disk_torn result ≡ disk_torn self }
        ensures faults { disk_faults result ≡ disk_faults self }
        ensures room { (disk_room_calls result ≡ 0) × (disk_room_bytes result ≡ 0) }
    {
        let alloc = *self.content.allocator();
        let MemDisk {
            torn,
            left: _,
            faults,
            mut start,
            mut content,
            mut synced,
            entries: _,
            pieces: _,
        } = self;
        if torn {
            copy(&mut synced, content.as_slice());
        } else {
            copy(&mut content, synced.as_slice());
        }
        copy(&mut start, content.as_slice());
        MemDisk {
            torn,
            left: u64::MAX,
            faults,
            start,
            content,
            synced,
            entries: Vec::new(alloc),
            pieces: Vec::new(alloc),
        }
    }
}

impl Disk for MemDisk {
    ghost use Rattle.std.specs.Prelude.{◌≡◌, ◌+◌, ◌≤◌, Some, List, [], ◌∷◌, ℕ, length, take, drop, IsOk, IsErr, OnOk};
    ghost use Rattle.lst_model.specs.Faults.{HasCause};
    ghost use Rattle.lst_disk.specs.Disk.{overwritten, Torn, Follows, Only, Elapses, CountsCall};
    ghost use Rattle.lst_disk.specs.Memory.{disk_content, disk_synced, disk_pending, disk_torn, disk_images, disk_images_since, disk_clock, disk_left, disk_outcome, disk_room_calls, disk_room_bytes, disk_faults, Stays};
    ghost use Rattle.lst_disk.specs.MemoryLaws.{content_stays, synced_stays, is_now, is_earlier, is_only_now};

    ghost content = { disk_content };

    ghost images = { disk_images };

    ghost clock = { disk_clock };

    ghost images_since = { disk_images_since };

    ghost faults = { disk_faults };

    ghost room_calls = { disk_room_calls };

    ghost room_bytes = { disk_room_bytes };

    ghost calls_left = { λ m. Some (disk_left m) };

    ghost outcome = { λ m. Some (disk_outcome m) };

    ghost content_counts = { content_stays };

    ghost synced_counts = { synced_stays };

    ghost counts_now = { is_now };

    ghost counts_earlier = { is_earlier };

    ghost only_now = { is_only_now };

    fn size(&self) -> u64 {
        self.content.len() as u64
    }

    /// It never fails, and changes nothing.
    fn read(&mut self, at: u64, into: &mut [u8]) -> Result<(), DiskFailed>
        requires { at + length into.old ≤ length (disk_content self.old) }
        ensures ok { IsOk result }
        ensures bytes { into.new ≡ take (length into.old) (drop at (disk_content self.old)) }
        ensures same { self.new ≡ self.old }
    {
        let at = at as usize;
        into.copy_from_slice(&self.content[at..at + into.len()]);
        Ok(())
    }

    /// It fails exactly where no call is left, and then only counts a fault.
    fn write_at(&mut self, at: u64, from: &[u8]) -> Result<(), DiskFailed>
        requires within { at + length from.now ≤ length (disk_content self.old) }
        requires calls { 1 ≤ disk_room_calls self.old }
        requires bytes { length from.now ≤ disk_room_bytes self.old }
        ensures written { OnOk result (disk_content self.new ≡ overwritten (disk_content self.old) at from.now) }
        ensures refused { IsErr result → Stays self.old self.new }
        ensures pending { OnOk result (disk_pending self.new ≡ (at, length from.now) ∷ disk_pending self.old) }
        ensures synced { disk_synced self.new ≡ disk_synced self.old }
        ensures torn { disk_torn self.new ≡ disk_torn self.old }
        ensures elsewhere { Torn at (length from.now) (disk_content self.old) (disk_content self.new) }
        ensures crash { Follows (Torn at (length from.now)) (disk_images self.old) (disk_images self.new) }
        ensures time { Elapses (disk_clock self.old) (disk_clock self.new) (disk_images_since self.old) (disk_images_since self.new) (disk_images self.new) }
        ensures room_calls { disk_room_calls self.old ≤ disk_room_calls self.new + 1 }
        ensures room_bytes { disk_room_bytes self.old ≤ disk_room_bytes self.new + length from.now }
        ensures left { CountsCall (Some (disk_left self.old)) (Some (disk_left self.new)) result }
        ensures cause { HasCause (disk_faults self.old) (disk_faults self.new) result }
    {
        if self.left == 0 {
            self.faults = raised(self.faults);
            return Err(DiskFailed);
        }
        let at = at as usize;
        overwrite(&mut self.content, at, from);
        note(
            &mut self.entries,
            Entry::Wrote {
                at,
                len: from.len(),
            },
        );
        note_bytes(&mut self.pieces, from);
        self.left -= 1;
        Ok(())
    }

    /// It fails exactly where no call is left, and then only counts a fault.
    fn sync(&mut self) -> Result<(), DiskFailed>
        requires { 1 ≤ disk_room_calls self.old }
        ensures durable { OnOk result (Only (disk_content self.old) (disk_images self.new)) }
        ensures refused { IsErr result → Stays self.old self.new }
        ensures content { disk_content self.new ≡ disk_content self.old }
        ensures synced { OnOk result (disk_synced self.new ≡ disk_content self.old) }
        ensures pending { OnOk result (disk_pending self.new ≡ []) }
        ensures torn { disk_torn self.new ≡ disk_torn self.old }
        ensures crash { (c : List ℕ) → disk_images self.new c → disk_images self.old c }
        ensures time { Elapses (disk_clock self.old) (disk_clock self.new) (disk_images_since self.old) (disk_images_since self.new) (disk_images self.new) }
        ensures room_calls { disk_room_calls self.old ≤ disk_room_calls self.new + 1 }
        ensures room_bytes { disk_room_bytes self.old ≤ disk_room_bytes self.new }
        ensures left { CountsCall (Some (disk_left self.old)) (Some (disk_left self.new)) result }
        ensures cause { HasCause (disk_faults self.old) (disk_faults self.new) result }
    {
        if self.left == 0 {
            self.faults = raised(self.faults);
            return Err(DiskFailed);
        }
        copy(&mut self.synced, self.content.as_slice());
        note(&mut self.entries, Entry::Synced);
        self.left -= 1;
        Ok(())
    }

    /// It changes the room alone.
    fn room(&mut self, bytes: u64) -> Result<(), OutOfMemory>
        ensures calls { OnOk result (4 ≤ disk_room_calls self.new) }
        ensures bytes { OnOk result (bytes ≤ disk_room_bytes self.new) }
        ensures content { disk_content self.new ≡ disk_content self.old }
        ensures synced { disk_synced self.new ≡ disk_synced self.old }
        ensures pending { disk_pending self.new ≡ disk_pending self.old }
        ensures torn { disk_torn self.new ≡ disk_torn self.old }
        ensures clock { disk_clock self.new ≡ disk_clock self.old }
        ensures crash { (c : List ℕ) → disk_images self.new c → disk_images self.old c }
        ensures kept { (c : List ℕ) → disk_images self.old c → disk_images self.new c }
        ensures time { Elapses (disk_clock self.old) (disk_clock self.new) (disk_images_since self.old) (disk_images_since self.new) (disk_images self.new) }
        ensures room_calls { disk_room_calls self.old ≤ disk_room_calls self.new }
        ensures room_bytes { disk_room_bytes self.old ≤ disk_room_bytes self.new }
        ensures left { disk_left self.new ≡ disk_left self.old }
        ensures faults { disk_faults self.new ≡ disk_faults self.old }
    {
        self.entries.reserve(4)?;
        self.pieces.reserve(bytes as usize)?;
        Ok(())
    }
}
