//! What a disk is, by what it shows and what each of its calls does.
ghost use Rattle.std.specs.Prelude.{◌≡◌, ◌+◌, ◌≤◌, ℕ, List, Option, Some, length, take, drop, IsSome, IsOk, IsErr, OnOk};
ghost use Rattle.lst_model.specs.Faults.{HasCause};
ghost use Rattle.lst_disk.specs.Disk.{CrashOutcome, overwritten, Torn, Follows, Only, Elapses, CountsCall, outcome_after};

use lst_model::OutOfMemory;

/// A call of a disk failed. It comes only where the disk's count of faults has risen.
#[derive(Clone, Copy, Debug, PartialEq, Eq)]
pub struct DiskFailed;

/// A device of fixed size.
pub trait Disk {
    /// The bytes that reads give.
    ghost content: { Self → List ℕ };

    /// What a crash at this moment may leave.
    ghost images: { Self → List ℕ → Type 0 };

    /// The moment, as a number that never falls.
    ghost clock: { Self → ℕ };

    /// What a crash at some moment since that one, during a call or between two, may have left.
    ghost images_since: { Self → ℕ → List ℕ → Type 0 };

    /// How often a call has failed. The count never falls, and one that stands at the last value of `u64` counts as risen.
    ghost faults: { Self → ℕ };

    /// For how many writes and syncs the disk has room in its own record.
    ghost room_calls: { Self → ℕ };

    /// For how many bytes of pieces it has room there.
    ghost room_bytes: { Self → ℕ };

    /// How many writes and syncs it will still make, where it tells.
    ghost calls_left: { Self → Option ℕ };

    /// How a crash turns out, where the disk tells it. A call of such a disk that fails leaves the content as it was.
    ghost outcome: { Self → Option CrashOutcome };

    /// The number of bytes, which never changes.
    fn size(&self) -> u64
        ensures { result ≡ length (content self.now) };

    /// The bytes from a place on, as many as `into` has. A disk that tells how many calls it will make doesn't fail here.
    fn read(&mut self, at: u64, into: &mut [u8]) -> Result<(), DiskFailed>
        requires { at + length into.old ≤ length (content self.old) }
        ensures bytes { OnOk result (into.new ≡ take (length into.old) (drop at (content self.old))) }
        ensures content { content self.new ≡ content self.old }
        ensures crash { (c : List ℕ) → images self.new c → images self.old c }
        ensures time { Elapses (clock self.old) (clock self.new) (images_since self.old) (images_since self.new) (images self.new) }
        ensures room_calls { room_calls self.new ≡ room_calls self.old }
        ensures room_bytes { room_bytes self.new ≡ room_bytes self.old }
        ensures left { calls_left self.new ≡ calls_left self.old }
        ensures told { IsSome (calls_left self.old) → IsOk result }
        ensures outcome { outcome self.new ≡ outcome self.old }
        ensures cause { HasCause (faults self.old) (faults self.new) result };

    /// Writes a piece over the bytes from a place on. Until the next sync that succeeds, and also where the write fails, these
    /// bytes may be anything in what a crash leaves.
    fn write_at(&mut self, at: u64, from: &[u8]) -> Result<(), DiskFailed>
        requires within { at + length from.now ≤ length (content self.old) }
        requires calls { 1 ≤ room_calls self.old }
        requires bytes { length from.now ≤ room_bytes self.old }
        ensures written { OnOk result (content self.new ≡ overwritten (content self.old) at from.now) }
        ensures elsewhere { Torn at (length from.now) (content self.old) (content self.new) }
        ensures refused { IsErr result → IsSome (outcome self.old) → content self.new ≡ content self.old }
        ensures outcome { outcome self.new ≡ outcome self.old }
        ensures crash { Follows (Torn at (length from.now)) (images self.old) (images self.new) }
        ensures time { Elapses (clock self.old) (clock self.new) (images_since self.old) (images_since self.new) (images self.new) }
        ensures room_calls { room_calls self.old ≤ room_calls self.new + 1 }
        ensures room_bytes { room_bytes self.old ≤ room_bytes self.new + length from.now }
        ensures left { CountsCall (calls_left self.old) (calls_left self.new) result }
        ensures cause { HasCause (faults self.old) (faults self.new) result };

    /// After it, a crash leaves the content and nothing else. Where it fails, a crash leaves nothing that it couldn't leave before.
    fn sync(&mut self) -> Result<(), DiskFailed>
        requires { 1 ≤ room_calls self.old }
        ensures durable { OnOk result (Only (content self.old) (images self.new)) }
        ensures content { content self.new ≡ content self.old }
        ensures outcome { outcome self.new ≡ outcome_after (content self.old) (outcome self.old) result }
        ensures crash { (c : List ℕ) → images self.new c → images self.old c }
        ensures time { Elapses (clock self.old) (clock self.new) (images_since self.old) (images_since self.new) (images self.new) }
        ensures room_calls { room_calls self.old ≤ room_calls self.new + 1 }
        ensures room_bytes { room_bytes self.old ≤ room_bytes self.new }
        ensures left { CountsCall (calls_left self.old) (calls_left self.new) result }
        ensures cause { HasCause (faults self.old) (faults self.new) result };

    /// Makes room for the record of four writes and syncs whose pieces have at most so many bytes together. It syncs nothing: a
    /// crash may leave exactly what it could leave before.
    fn room(&mut self, bytes: u64) -> Result<(), OutOfMemory>
        ensures calls { OnOk result (4 ≤ room_calls self.new) }
        ensures bytes { OnOk result (bytes ≤ room_bytes self.new) }
        ensures content { content self.new ≡ content self.old }
        ensures crash { (c : List ℕ) → images self.new c → images self.old c }
        ensures kept { (c : List ℕ) → images self.old c → images self.new c }
        ensures outcome { outcome self.new ≡ outcome self.old }
        ensures time { Elapses (clock self.old) (clock self.new) (images_since self.old) (images_since self.new) (images self.new) }
        ensures room_calls { room_calls self.old ≤ room_calls self.new }
        ensures room_bytes { room_bytes self.old ≤ room_bytes self.new }
        ensures left { calls_left self.new ≡ calls_left self.old }
        ensures faults { faults self.new ≡ faults self.old };

    /// The content is one of the images: a crash may lose nothing.
    ghost content_counts: { (disk : Self) → images disk (content disk) };

    /// So are the bytes of the last sync: it may lose all that was written since.
    ghost synced_counts: { (disk : Self) (o : CrashOutcome) → outcome disk ≡ Some o → images disk o.synced };

    /// This moment is one of those since an earlier one.
    ghost counts_now: { (disk : Self) (t : ℕ) (c : List ℕ) → t ≤ clock disk → images disk c → images_since disk t c };

    /// What a crash since a moment may have left, it may have left since each earlier one.
    ghost counts_earlier: { (disk : Self) (t u : ℕ) (c : List ℕ) → t ≤ u → u ≤ clock disk → images_since disk u c → images_since disk t c };

    /// Since this moment there is no other.
    ghost only_now: { (disk : Self) (c : List ℕ) → images_since disk (clock disk) c → images disk c };
}
