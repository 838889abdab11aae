//! A count of faults that rises, and why a disk was not made longer.
ghost use Rattle.std.specs.Prelude.{◌≡◌, ◌+◌, ◌≤◌, min};
ghost use Rattle.lst_model.specs.Faults.{Rose};

/// The count after one more fault. It stands still at the last value of `u64`.
pub(crate) fn raised(count: u64) -> u64
    ensures value { result ≡ min (count + 1) u64.MAX }
    ensures later { count ≤ result }
    ensures risen { Rose count result }
{
    count.saturating_add(1)
}

/// Why a disk was not made longer.
#[derive(Clone, Copy, Debug, PartialEq, Eq)]
pub enum GrowFault {
    /// A call of the file failed, now or earlier: the disk is dead.
    Disk,
    /// The file's length would be more than a `u64` holds.
    TooLong,
}
