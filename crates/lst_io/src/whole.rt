//! A whole input, and a whole output.
ghost use Rattle.std.specs.Prelude.{◌≡◌, ◌≤◌, ◌<◌, ◌^◌, ℕ, take, IfOk, IfErr, IfSome, OnOk};
ghost use Rattle.std.specs.Io.KnownBytes.{Appends};
ghost use Rattle.lst_model.specs.Faults.{HasCause, Rose};
ghost use Rattle.lst_io.specs.Inputs.{IsWholeInput, StopsAt, IsDue};

use crate::ends::{Failed, Sink, Source};
use lst_model::Text;
use std::alloc::Global;

/// How many bytes one read asks for.
const PIECE: usize = 8_192;

/// Why a whole input was not read.
#[derive(Clone, Copy, Debug, PartialEq, Eq)]
pub enum ReadAllFault {
    Failed,
    TooLong,
    OutOfMemory,
}

/// Reads a source to its end, in pieces of some KiB. More than `limit` bytes are refused as `TooLong`, and then exactly one
/// byte more than the limit was read; after every other answer at most `limit` bytes were. `Failed` comes only where the
/// source's count of faults has risen. Want of memory may come at any byte.
pub fn read_all<S: Source>(alloc: Global, source: &mut S, limit: u64) -> Result<Text, ReadAllFault>
    requires { limit < 2 ^ 32 }
    ensures whole { IfOk result (λ text. IsWholeInput limit (S.left source.old) (S.left source.new) text) }
    ensures part { IfErr result (λ fault. StopsAt fault limit (S.left source.old) (S.left source.new)) }
    ensures later { S.faults source.old ≤ S.faults source.new }
    ensures failed { result ≡ Err ReadAllFault.Failed → Rose (S.faults source.old) (S.faults source.new) }

    // Where the source tells its bytes, they alone decide between the whole text and `TooLong`.
    ensures told { IfSome (S.left source.old) (λ bytes. IsDue limit bytes result) }
{
    let most = limit as usize;
    let mut bytes = Vec::new(alloc);
    let mut piece = [0u8; PIECE];
    loop {
        let room = PIECE.min(most + 1 - bytes.len());
        let Ok(count) = source.read(&mut piece[..room]) else {
            return Err(ReadAllFault::Failed);
        };
        if count == 0 {
            return Ok(Text::from_bytes(bytes));
        }
        if bytes.len() + count > most {
            return Err(ReadAllFault::TooLong);
        }
        if bytes.extend_from_slice(&piece[..count]).is_err() {
            return Err(ReadAllFault::OutOfMemory);
        }
    }
}

/// Writes all the bytes. After a failure the sink has taken a front of them, and its count of faults has risen.
#[tactic(auto, using(crate::proofs::Sent::sent_more))]
pub fn write_all<K: Sink>(sink: &mut K, from: &[u8]) -> Result<(), Failed>
    ensures all { OnOk result (Appends (K.taken sink.old) (K.taken sink.new) from.now) }
    ensures front { (count : ℕ) × Appends (K.taken sink.old) (K.taken sink.new) (take count from.now) }
    ensures cause { HasCause (K.faults sink.old) (K.faults sink.new) result }
{
    let mut at = 0;
    while at < from.len() {
        at += sink.write(&from[at..])?;
    }
    Ok(())
}
