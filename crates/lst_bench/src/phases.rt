//! Sessions that hear of each other between phases.
ghost use Rattle.std.specs.List.{All};
ghost use Rattle.lst_session.specs.Passes.{IsReady};

use lst_layout::Limits;
use lst_model::OutOfMemory;
use lst_session::{next_phase, open_crew};
use std::alloc::Global;

/// As many sessions as a store may have.
const LIMITS: Limits = Limits {
    columns: 2,
    ranges: 1,
    tails: 256,
    sessions: 16,
    txns: 16,
    spare: 1,
    indexed: 0,
};

/// Parts the crew of a store that opens, lets its sessions hear of each other so often, and answers how many sessions there are.
pub fn phases(alloc: Global, count: u32) -> Result<u64, OutOfMemory> {
    let Ok(layout) = LIMITS.check() else {
        return Ok(0);
    };
    let (store, crew) = open_crew(alloc, &layout)?;
    let Ok((mut sessions, _)) = crew.part(alloc, &store) else {
        return Err(OutOfMemory);
    };
    for _ in 0..count {
        next_phase(&store, &mut sessions);
    }
    Ok(sessions.into_vec().len() as u64)
}
