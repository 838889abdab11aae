//! Worked blocks, and how bytes are opened as one.

use lst_historic::{BlockFault, Historic, open_block};
use lst_model::{OutOfMemory, Text};
use std::alloc::Global;
use std::test::Fail;

/// Key 7 is 10 20 at time 1, and 11 20 at time 2.
pub(crate) const CHANGED: [u8; 12] = [2, 2, 1, 7, 2, 1, 4, 20, 40, 1, 2, 2];

/// Key 7 is 10 20 at time 1, absent at 2, and 30 40 at 3.
pub(crate) const PUT_AGAIN: [u8; 15] = [2, 3, 1, 7, 3, 1, 4, 20, 40, 1, 0, 1, 4, 60, 80];

/// Key 3 is put and deleted by one commit at time 2. Key 7 is 10 and null at 1, 9 0 at 2, the same at 3, and absent at 4.
pub(crate) const NULLS: [u8; 21] = [
    2, 4, 2, 3, 1, 2, 0, 4, 4, 1, 132, 4, 20, 1, 4, 1, 0, 1, 1, 1, 0,
];

/// Keys 1001 to 1003, put at time 1, the last two changed at 2.
pub(crate) const STOCK: [u8; 31] = [
    2, 2, 3, 233, 7, 1, 1, 4, 80, 244, 3, 1, 2, 1, 4, 30, 136, 14, 1, 2, 1, 1, 2, 1, 4, 16, 224,
    18, 1, 2, 3,
];

/// The block of these bytes, or why they are none.
pub(crate) fn opened(
    alloc: Global,
    bytes: &[u8],
) -> Result<Result<Historic, BlockFault>, OutOfMemory> {
    let mut text = Text::new(alloc);
    text.push_bytes(bytes)?;
    Ok(open_block(alloc, text))
}

/// The block of these bytes, which are one.
pub(crate) fn block_of(alloc: Global, bytes: &[u8]) -> Result<Historic, Fail> {
    match opened(alloc, bytes)? {
        Ok(block) => Ok(block),
        Err(_) => Err(Fail::from("the bytes are a block")),
    }
}
