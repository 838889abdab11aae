//! A law of images. The function's contract holds at all values, and its body does nothing.
ghost use Rattle.lst_disk.specs.Memory.{ImagesDifferInPending};

/// What a crash of a disk in memory may leave now is exactly what differs from the bytes of the last sync in ranges alone that
/// were written since.
pub fn images_differ_in_pending_bytes()
    ensures { ImagesDifferInPending }
{}
