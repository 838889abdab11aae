//! Disks in memory: with commits, with bytes of one's own, and one that has no memory left at one call.
ghost use Rattle.lst_disk.specs.Memory.{disk_content, disk_images, disk_images_since, disk_clock, disk_left, disk_outcome, disk_room_calls, disk_room_bytes, disk_faults};

use lst_disk::{Disk, DiskFailed, MemDisk};
use lst_model::OutOfMemory;
use std::alloc::Global;
use std::test::Fail;

/// A disk of so many zeros that doesn't fail.
pub(crate) fn blank(alloc: Global, size: u32) -> Result<MemDisk, Fail> {
    Ok(MemDisk::new(alloc, size, u64::MAX, false)?)
}

/// Writes a piece over the bytes from a place on.
pub(crate) fn put(disk: &mut MemDisk, at: u64, piece: &[u8; 1]) -> Result<(), Fail> {
    disk.room(1)?;
    if disk.size() == 0 || at > disk.size() - 1 || disk.write_at(at, piece).is_err() {
        return Err("the piece is written".into());
    }
    Ok(())
}

/// The byte at a place.
pub(crate) fn byte_at(disk: &mut MemDisk, at: u64) -> Result<u8, Fail> {
    let mut bytes = [0];
    if disk.size() <= at || disk.read(at, &mut bytes).is_err() {
        return Err("the byte is read".into());
    }
    Ok(bytes[0])
}

/// A disk in memory that grants room so often, has no memory for it once, and grants it from then on.
#[derive(Drop)]
pub(crate) struct Cramped {
    disk: MemDisk,
    grants: u32,
}

impl Cramped {
    /// A disk of so many zeros that doesn't fail.
    pub(crate) fn new(alloc: Global, size: u32, grants: u32) -> Result<Cramped, Fail> {
        let disk = blank(alloc, size)?;
        Ok(Cramped { disk, grants })
    }
}

impl Disk for Cramped {
    ghost use Rattle.std.specs.Prelude.{Some};
    ghost use Rattle.lst_disk.specs.Memory.{disk_content, disk_images, disk_images_since, disk_clock, disk_left, disk_outcome, disk_room_calls, disk_room_bytes, disk_faults};
    ghost use Rattle.lst_disk.specs.MemoryLaws.{content_stays, synced_stays, is_now, is_earlier, is_only_now};

    ghost content = { λ c. disk_content c.disk };

    ghost images = { λ c. disk_images c.disk };

    ghost clock = { λ c. disk_clock c.disk };

    ghost images_since = { λ c. disk_images_since c.disk };

    ghost faults = { λ c. disk_faults c.disk };

    ghost room_calls = { λ c. disk_room_calls c.disk };

    ghost room_bytes = { λ c. disk_room_bytes c.disk };

    ghost calls_left = { λ c. Some (disk_left c.disk) };

    ghost outcome = { λ c. Some (disk_outcome c.disk) };

    ghost content_counts = { λ c. content_stays c.disk };

    ghost synced_counts = { λ c. synced_stays c.disk };

    ghost counts_now = { λ c. is_now c.disk };

    ghost counts_earlier = { λ c. is_earlier c.disk };

    ghost only_now = { λ c. is_only_now c.disk };

    fn size(&self) -> u64 {
        self.disk.size()
    }

    fn read(&mut self, at: u64, into: &mut [u8]) -> Result<(), DiskFailed> {
        self.disk.read(at, into)
    }

    fn write_at(&mut self, at: u64, from: &[u8]) -> Result<(), DiskFailed> {
        self.disk.write_at(at, from)
    }

    fn sync(&mut self) -> Result<(), DiskFailed> {
        self.disk.sync()
    }

    fn room(&mut self, bytes: u64) -> Result<(), OutOfMemory> {
        if self.grants == 0 {
            self.grants = u32::MAX;
            return Err(OutOfMemory);
        }
        self.grants -= 1;
        self.disk.room(bytes)
    }
}
