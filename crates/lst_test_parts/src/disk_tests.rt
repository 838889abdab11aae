//! A client that knows of a disk only what the trait says, and drawn calls with a crash behind each, against plain arrays.
ghost use Rattle.std.specs.Prelude.{◌≡◌, ◌+◌, ◌≤◌, ◌<◌, length, IfSome, IsSome};
ghost use Rattle.lst_disk.specs.Disk.{Only};

use crate::same::same;
use lst_disk::{Disk, MemDisk, images_differ_in_pending_bytes};
use std::alloc::Global;
use std::test::Fail;

/// Stores four bytes on any disk, and reads them back. None where memory is wanting or the disk fails.
fn read_back<D: Disk>(disk: &mut D, at: u64, piece: &[u8]) -> Option<[u8; 4]>
    requires piece { length piece.now ≡ 4 }
    requires within { at + 4 ≤ length (D.content disk.old) }
    ensures same { IfSome result (λ back. back ≡ piece.now) }
    ensures lasts { IsSome result → Only (D.content disk.new) (D.images disk.new) }
    ensures size { length (D.content disk.new) ≡ length (D.content disk.old) }
{
    let Ok(()) = disk.room(4) else {
        return None;
    };
    let Ok(()) = disk.write_at(at, piece) else {
        return None;
    };
    let Ok(()) = disk.sync() else {
        return None;
    };
    let mut back = [0; 4];
    let Ok(()) = disk.read(at, &mut back) else {
        return None;
    };
    Some(back)
}

#[test]
fn a_client_reads_what_it_stored_on_any_disk(rt: HostRuntime) -> Result<(), Fail> {
    let alloc = rt.alloc();
    let mut disk = MemDisk::new(alloc, 8, 3, false)?;
    same(
        &rt,
        read_back(&mut disk, 4, &[1, 2, 3, 4]),
        Some([1, 2, 3, 4]),
        "first",
    );
    same(&rt, read_back(&mut disk, 0, &[5, 6, 7, 8]), None, "stopped");
    let mut disk = disk.crash();
    same(
        &rt,
        read_back(&mut disk, 2, &[9, 9, 9, 9]),
        Some([9, 9, 9, 9]),
        "crashed",
    );
    images_differ_in_pending_bytes();
    Ok(())
}

const SIZE: usize = 6;

/// Draws numbers from a seed.
#[derive(Drop)]
struct Drawer {
    seed: u64,
}

impl Drawer {
    /// A number below this one.
    fn pick(&mut self, below: usize) -> usize
        requires { 0 < below }
        ensures { result < below }
    {
        self.seed = self
            .seed
            .wrapping_mul(6364136223846793005)
            .wrapping_add(1442695040888963407);
        (self.seed >> 33) as usize % below
    }
}

/// A disk as plain arrays.
#[derive(Drop)]
struct Plain {
    content: [u8; SIZE],
    synced: [u8; SIZE],
    left: u64,
}

impl Plain {
    /// Whether a call succeeds, which takes one of those that are left.
    fn takes_call(&mut self) -> bool {
        let succeeds = self.left > 0;
        self.left = self.left.saturating_sub(1);
        succeeds
    }

    fn write(&mut self, at: usize, from: &[u8]) -> bool {
        let succeeds = self.takes_call();
        if succeeds {
            for (place, byte) in from.iter().enumerate() {
                if let Some(cell) = self.content.get_mut(at.wrapping_add(place)) {
                    *cell = *byte;
                }
            }
        }
        succeeds
    }

    fn sync(&mut self) -> bool {
        let succeeds = self.takes_call();
        if succeeds {
            self.synced = self.content;
        }
        succeeds
    }
}

/// Makes one drawn call on both: whether they answer the same, and read the same then.
fn agree(disk: &mut MemDisk, plain: &mut Plain, drawer: &mut Drawer) -> Result<bool, Fail> {
    if disk.size() != SIZE as u64 {
        return Ok(false);
    }
    disk.room(SIZE as u64)?;
    let same = if drawer.pick(3) == 0 {
        disk.sync().is_ok() == plain.sync()
    } else {
        let at = drawer.pick(SIZE);
        let len = drawer.pick(SIZE - at + 1);
        let piece = [drawer.pick(256) as u8; SIZE];
        disk.write_at(at as u64, &piece[..len]).is_ok() == plain.write(at, &piece[..len])
    };
    Ok(same && reads(disk, &plain.content))
}

/// Whether a disk reads as these bytes.
fn reads(disk: &mut MemDisk, bytes: &[u8; SIZE]) -> bool {
    let mut back = [0; SIZE];
    disk.size() == SIZE as u64 && disk.read(0, &mut back).is_ok() && back == *bytes
}

/// Makes so many drawn calls, and then crashes: whether the disk and the arrays agree all the way.
fn agree_to_the_crash(alloc: Global, seed: u64, calls: u64, torn: bool) -> Result<bool, Fail> {
    let mut drawer = Drawer { seed };
    let stop = drawer.pick(7) as u64;
    let mut disk = MemDisk::new(alloc, SIZE as u32, stop, torn)?;
    let mut plain = Plain {
        content: [0; SIZE],
        synced: [0; SIZE],
        left: stop,
    };
    for _ in 0..calls {
        if !agree(&mut disk, &mut plain, &mut drawer)? {
            return Ok(false);
        }
    }
    let mut disk = disk.crash();
    let left = if torn { plain.content } else { plain.synced };
    Ok(reads(&mut disk, &left))
}

#[test]
fn drawn_calls_and_a_crash_behind_each_are_those_of_plain_arrays(
    rt: HostRuntime,
) -> Result<(), Fail> {
    for seed in 0..200 {
        for calls in 0..9 {
            for torn in [false, true] {
                let agree = agree_to_the_crash(rt.alloc(), seed, calls, torn)?;
                same(&rt, agree, true, (seed, calls, torn));
            }
        }
    }
    Ok(())
}
