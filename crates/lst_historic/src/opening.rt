//! A block opened from its bytes.
ghost use Rattle.std.specs.Prelude.{◌≡◌, ℕ, ◌≤◌, ◌↔◌, List, length, IfOk, IsErrOf};
ghost use Rattle.std.specs.Result.{IsOk};
ghost use Rattle.lst_historic.specs.Blocks.{Chain, IsBlock};
ghost use Rattle.lst_historic.specs.Places.{IsSomeBlock, ArePlaced};
ghost use Rattle.lst_historic.specs.declared.opening.BlockFault.TheVariants.{BadBlock};

use crate::checking::{Head, checked, head_at, versions_end};
use crate::historic::Historic;
use crate::numbers::word_at;
use crate::places::Place;
use lst_model::{OutOfMemory, Text};
use std::alloc::Global;

/// Why a block could not be opened: the bytes aren't one, or memory ran out.
#[derive(Clone, Copy, Debug, Drop, PartialEq, Eq)]
pub enum BlockFault {
    BadBlock,
    OutOfMemory,
}

/// Opens a block. Bytes that aren't one are told before any memory is taken.
pub fn open_block(alloc: Global, bytes: Text) -> Result<Historic, BlockFault>
    ensures bytes { IfOk result (λ block. block ≡ bytes) }
    ensures block { IsOk result → IsSomeBlock bytes }
    ensures bad { IsErrOf result BadBlock ↔ ¬ (IsSomeBlock bytes) }
{
    let Some(head) = checked(bytes.as_bytes()) else {
        return Err(BlockFault::BadBlock);
    };
    match places_of(alloc, head, bytes.as_bytes()) {
        Ok(places) => Ok(Historic::from_parts(bytes, head.columns, head.until, places)),
        Err(OutOfMemory) => Err(BlockFault::OutOfMemory),
    }
}

/// The places of the keys of a block that has this in front of them.
fn places_of(alloc: Global, head: Head, bytes: &[u8]) -> Result<Vec<Place>, OutOfMemory>
    requires { head.columns ≤ 8 }
    ensures { IfOk result (λ places. (chains : List Chain) → IsBlock bytes.now head.columns head.until chains → length chains ≡ head.count → ArePlaced head.columns bytes.now chains places.items) }
{
    let mut places = Vec::new(alloc);
    let Some((_, rest)) = head_at(bytes) else {
        return Ok(places);
    };
    let mut rest = rest;
    let mut key = 0u64;
    for _ in 0..head.count {
        let Some((gap, behind)) = word_at(rest) else {
            return Ok(places);
        };
        let at = bytes.len().saturating_sub(behind.len());
        let Some((count, versions)) = word_at(behind) else {
            return Ok(places);
        };
        let Some(end) = versions_end(count, head.columns, head.until, versions) else {
            return Ok(places);
        };
        key = key.wrapping_add(gap);
        places.push(Place { key, at })?;
        rest = end;
    }
    Ok(places)
}
