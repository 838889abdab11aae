//! A file, opened as a disk.
ghost use Rattle.std.specs.Prelude.{◌≡◌, ◌≤◌, ◌∷◌, ◌++◌, length, vec_capacity, IfOk, OnOk, OnErr, MatchResult};
ghost use Rattle.lst_file.specs.Events.{found};
ghost use Rattle.lst_file.specs.Openings.{zeros_behind, WasOpened, Refused};

use crate::calls::Calls;
use lst_model::OutOfMemory;
use std::alloc::Global;
use std::io;

/// Why a file was not opened as a disk. Nothing was written to it, but where `Write` or a `Sync` behind it says so.
#[derive(Clone, Copy, Debug)]
pub enum OpenFault {
    /// Another open of the file holds its lock.
    Busy,
    /// What stands at the name is no regular file, is a symbolic link, or is a file with a second name.
    NotOneFile,
    /// The system refused to find, make or lock the file, or to open its folder.
    System { error: io::Error },
    /// The system didn't tell the file's length.
    Measure { error: io::Error },
    /// The file has fewer bytes than are to stand before the disk.
    ShorterThanHead,
    /// There was no memory for the disk's bytes.
    OutOfMemory,
    /// A read failed.
    Read { error: io::Error },
    /// The zeros behind the file's bytes couldn't be written, as on a full device.
    Write { error: io::Error },
    /// The file or its folder couldn't be synced.
    Sync { error: io::Error },
}

impl From<io::Error> for OpenFault {
    fn from(error: io::Error) -> OpenFault {
        OpenFault::System { error }
    }
}

/// So many zeros, with room for a disk of `size` bytes.
fn zeros(alloc: Global, held: usize, size: usize) -> Result<Vec<u8>, OutOfMemory>
    ensures length { IfOk result (λ bytes. length bytes.items ≡ held) }
    ensures room { IfOk result (λ bytes. size ≤ vec_capacity bytes) }
{
    let mut bytes = Vec::new(alloc);
    bytes.reserve(size)?;
    bytes.resize(held, 0)?;
    Ok(bytes)
}

/// Adds zeros up to a size for which there is room.
fn lengthen(bytes: &mut Vec<u8>, size: usize)
    requires shorter { length bytes.old.items ≤ size }
    requires room { size ≤ vec_capacity bytes.old }
    ensures { bytes.new.items ≡ bytes.old.items ++ zeros_behind size bytes.old.items }
{
    match bytes.resize(size, 0) {
        Ok(()) => {}
        Err(_) => unreachable!(),
    }
}

/// Reads the file's bytes from a place on over all of a list.
fn read_over<F: Calls>(calls: &mut F, place: u64, bytes: &mut Vec<u8>) -> io::Result<()>
    ensures read { OnOk result (F.Calls.events calls.new ≡ found place bytes.new.items ∷ F.Calls.events calls.old) }
    ensures failed { OnErr result (F.Calls.events calls.new ≡ F.Calls.events calls.old) }
    ensures length { length bytes.new.items ≡ length bytes.old.items }
    ensures room { vec_capacity bytes.new ≡ vec_capacity bytes.old }
{
    calls.read(place, bytes.as_mut_slice())
}

/// Makes the calls of an opening, and gives the disk's bytes. All the memory that is wanted is taken before the first call that changes anything.
pub(crate) fn read_disk<F: Calls>(
    alloc: Global,
    calls: &mut F,
    offset: u32,
    size: u32,
) -> Result<Vec<u8>, OpenFault>
    ensures { MatchResult result
        (λ bytes. WasOpened offset size (F.Calls.events calls.old) (F.Calls.events calls.new) bytes.items)
        (λ fault. Refused offset size (F.Calls.events calls.old) (F.Calls.events calls.new) fault) }
{
    let count = match calls.measure() {
        Ok(count) => count,
        Err(error) => return Err(OpenFault::Measure { error }),
    };
    if count < offset as u64 {
        return Err(OpenFault::ShorterThanHead);
    }
    let held = (count - offset as u64) as usize;
    let size = size as usize;
    let Ok(mut bytes) = zeros(alloc, held, size) else {
        return Err(OpenFault::OutOfMemory);
    };
    if let Err(error) = calls.flush() {
        return Err(OpenFault::Sync { error });
    }
    if let Err(error) = read_over(calls, offset as u64, &mut bytes) {
        return Err(OpenFault::Read { error });
    }
    if held >= size {
        return Ok(bytes);
    }
    lengthen(&mut bytes, size);
    if let Err(error) = calls.write(count, &bytes[held..]) {
        return Err(OpenFault::Write { error });
    }
    if let Err(error) = calls.sync() {
        return Err(OpenFault::Sync { error });
    }
    Ok(bytes)
}
