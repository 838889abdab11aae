//! Pieces that are stored so that they last.
ghost use Rattle.std.specs.Prelude.{◌≡◌, ◌+◌, ◌≤◌, ◌<◌, ◌^◌, [], ◌∷◌, List, ℕ, length, OnOk, OnErr};
ghost use Rattle.lst_model.specs.Faults.{HasCause};
ghost use Rattle.lst_disk.specs.Disk.{overwritten, Torn, Only, LeavesOnly, tears};
ghost use Rattle.lst_log.specs.Stores.{CountsCalls, staged, opened, HalfStored, written_once, written_by, synced_by, IsLeftSo};

use lst_disk::{Disk, DiskFailed};

/// Writes a piece over the bytes from a place on, and syncs.
fn store<D: Disk>(disk: &mut D, at: u64, piece: &[u8]) -> Result<(), DiskFailed>
    requires within { at + length piece.now ≤ length (D.content disk.old) }
    requires calls { 2 ≤ D.room_calls disk.old }
    requires bytes { length piece.now ≤ D.room_bytes disk.old }
    requires lasts { Only (D.content disk.old) (D.images disk.old) }
    ensures stored { OnOk result (D.content disk.new ≡ overwritten (D.content disk.old) at piece.now) }
    ensures lasts { OnOk result (Only (D.content disk.new) (D.images disk.new)) }
    ensures any_moment { LeavesOnly D.clock D.images_since disk.old disk.new (Torn at (length piece.now) (D.content disk.old)) }
    ensures elsewhere { Torn at (length piece.now) (D.content disk.old) (D.content disk.new) }
    ensures room_calls { D.room_calls disk.old ≤ D.room_calls disk.new + 2 }
    ensures room_bytes { D.room_bytes disk.old ≤ D.room_bytes disk.new + length piece.now }
    ensures left { CountsCalls 2 (D.calls_left disk.old) (D.calls_left disk.new) result }
    ensures stopped { OnErr result (IsLeftSo (D.calls_left disk.old) (D.outcome disk.new) (D.content disk.new) (λ left. written_once left (D.content disk.old) at piece.now) (λ left. D.content disk.old)) }
    ensures torn { tears (D.outcome disk.new) ≡ tears (D.outcome disk.old) }
    ensures cause { HasCause (D.faults disk.old) (D.faults disk.new) result }
{
    disk.write_at(at, piece)?;
    disk.sync()?;
    Ok(())
}

/// Stores a piece behind a closed gate, and then opens the gate.
pub(crate) fn store_gated<D: Disk>(disk: &mut D, gate: u64, piece: &[u8]) -> Result<(), DiskFailed>
    requires place { gate + 1 < 2 ^ 64 }
    requires within { gate + 1 + length piece.now ≤ length (D.content disk.old) }
    requires calls { 4 ≤ D.room_calls disk.old }
    requires bytes { length piece.now + 1 ≤ D.room_bytes disk.old }
    requires lasts { Only (D.content disk.old) (D.images disk.old) }
    ensures stored { OnOk result (D.content disk.new ≡ opened (D.content disk.old) gate piece.now) }
    ensures lasts { OnOk result (Only (D.content disk.new) (D.images disk.new)) }
    ensures any_moment { LeavesOnly D.clock D.images_since disk.old disk.new (HalfStored (D.content disk.old) gate piece.now) }
    ensures left { CountsCalls 4 (D.calls_left disk.old) (D.calls_left disk.new) result }
    ensures stopped { OnErr result (IsLeftSo (D.calls_left disk.old) (D.outcome disk.new) (D.content disk.new) (λ left. written_by left (D.content disk.old) gate piece.now) (λ left. synced_by left (D.content disk.old) gate piece.now)) }
    ensures torn { tears (D.outcome disk.new) ≡ tears (D.outcome disk.old) }
    ensures cause { HasCause (D.faults disk.old) (D.faults disk.new) result }
{
    store(disk, gate + 1, piece)?;
    store(disk, gate, &[1])?;
    Ok(())
}
