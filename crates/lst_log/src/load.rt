//! Records, read from a disk one after another. A record is held as long as it is read.
ghost use Rattle.std.specs.Prelude.{◌≡◌, ◌≤◌, ◌<◌, ◌+◌, ◌++◌, ℕ, List, length, get_or, take, drop, IfOk, IfSome, IfNone, OnOk, IsErr, Err};
ghost use Rattle.lst_model.specs.declared.commits.Commit.{Commit as CommitValue};
ghost use Rattle.lst_log.specs.Format.{body, HasRecord};
ghost use Rattle.lst_log.specs.Stores.{OnlyReads};

use crate::opening::LogCause;
use crate::read::{head_of, read_record};
use lst_disk::{Disk, DiskFailed};
use lst_model::Commit;
use std::alloc::Global;

/// Fills a piece with the bytes from a place on.
fn load<D: Disk>(disk: &mut D, at: u64, into: &mut [u8]) -> Result<(), DiskFailed>
    requires { at + length into.old ≤ length (D.content disk.old) }
    ensures bytes { OnOk result (into.new ≡ take (length into.old) (drop at (D.content disk.old))) }
    ensures reads { OnlyReads D.content D.images D.clock D.images_since D.calls_left D.outcome D.faults disk.old disk.new (IsErr result) }
{
    disk.read(at, into)
}

/// The byte at a place.
pub(crate) fn byte_at<D: Disk>(disk: &mut D, at: u64) -> Result<u8, DiskFailed>
    requires { at < length (D.content disk.old) }
    ensures byte { IfOk result (λ byte. byte ≡ get_or (D.content disk.old) at 0) }
    ensures reads { OnlyReads D.content D.images D.clock D.images_since D.calls_left D.outcome D.faults disk.old disk.new (IsErr result) }
{
    let mut bytes = [0u8];
    load(disk, at, &mut bytes)?;
    Ok(bytes[0])
}

/// How many bytes a record that stands behind a gate has there, by the count of its writes; None where none can stand there.
fn body_len<D: Disk>(disk: &mut D, columns: u32, at: u64) -> Result<Option<usize>, DiskFailed>
    requires columns { columns ≤ 8 }
    requires within { at ≤ length (D.content disk.old) }
    ensures some { IfOk result (λ found. IfSome found (λ len. (at + len ≤ length (D.content disk.old)) × ((c : CommitValue) (rest : List ℕ) → HasRecord columns c → drop at (D.content disk.old) ≡ body columns c ++ rest → len ≡ length (body columns c)))) }
    ensures none { IfOk result (λ found. IfNone found ((c : CommitValue) (rest : List ℕ) → HasRecord columns c → ¬ (drop at (D.content disk.old) ≡ body columns c ++ rest))) }
    ensures reads { OnlyReads D.content D.images D.clock D.images_since D.calls_left D.outcome D.faults disk.old disk.new (IsErr result) }
{
    let left = disk.size() - at;
    let mut head = [0u8; 20];
    if left < 20 {
        return Ok(None);
    }
    load(disk, at, &mut head)?;
    let Some(((_, _, _, count), _)) = head_of(&head) else {
        return Ok(None);
    };
    let len = 20 + count as u64 * (11 + 8 * columns as u64);
    if left < len {
        return Ok(None);
    }
    Ok(Some(len as usize))
}

/// Puts so many bytes from a place on into a list, in place of those that it has.
fn fill<D: Disk>(disk: &mut D, at: u64, len: usize, bytes: &mut Vec<u8>) -> Result<(), LogCause>
    requires { at + len ≤ length (D.content disk.old) }
    ensures bytes { OnOk result (bytes.new.items ≡ take len (drop at (D.content disk.old))) }
    ensures never { (place : ℕ) → ¬ (result ≡ Err (LogCause.Damaged place)) }
    ensures reads { OnlyReads D.content D.images D.clock D.images_since D.calls_left D.outcome D.faults disk.old disk.new (result ≡ Err LogCause.Disk) }
{
    bytes.clear();
    let Ok(()) = bytes.resize(len, 0) else {
        return Err(LogCause::OutOfMemory);
    };
    match load(disk, at, bytes.as_mut_slice()) {
        Ok(()) => Ok(()),
        Err(DiskFailed) => Err(LogCause::Disk),
    }
}

/// The commit whose record stands behind an open gate on a disk, and the number of its bytes there; None exactly where no record stands there. Its bytes are
/// put into lists that the caller keeps, so that a record after another takes no memory for them.
pub(crate) fn load_record<D: Disk>(
    alloc: Global,
    columns: u32,
    disk: &mut D,
    at: u64,
    bytes: &mut Vec<u8>,
    own: &mut Vec<u8>,
) -> Result<Option<(Commit, usize)>, LogCause>
    requires columns { columns ≤ 8 }
    requires within { at ≤ length (D.content disk.old) }
    ensures found { IfOk result (λ read. IfSome read (λ x. HasRecord columns x.0 × (x.1 ≡ length (body columns x.0)) × (drop at (D.content disk.old) ≡ body columns x.0 ++ drop x.1 (drop at (D.content disk.old))))) }
    ensures none { IfOk result (λ read. IfNone read ((c : CommitValue) (rest : List ℕ) → HasRecord columns c → ¬ (drop at (D.content disk.old) ≡ body columns c ++ rest))) }
    ensures never { (place : ℕ) → ¬ (result ≡ Err (LogCause.Damaged place)) }
    ensures reads { OnlyReads D.content D.images D.clock D.images_since D.calls_left D.outcome D.faults disk.old disk.new (result ≡ Err LogCause.Disk) }
{
    let found = match body_len(disk, columns, at) {
        Ok(found) => found,
        Err(DiskFailed) => return Err(LogCause::Disk),
    };
    let Some(len) = found else {
        return Ok(None);
    };
    match fill(disk, at, len, bytes) {
        Ok(()) => match read_record(alloc, columns, own, bytes.as_slice()) {
            Ok(read) => Ok(read),
            Err(_) => Err(LogCause::OutOfMemory),
        },
        Err(cause) => Err(cause),
    }
}
