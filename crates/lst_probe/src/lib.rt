//! Linear probing in a table of words whose length is a power of two. No word is touched.
#![tactic(auto)]

ghost use Rattle.std.specs.Prelude.{◌≡◌, ℕ, ◌^◌, ◌<◌, ◌≤◌, length, slice_index, true, false};
ghost use Rattle.std.specs.List.{All, Contains};
ghost use Rattle.lst_probe.specs.Run.{start_of, IsPowerOfTwo};
ghost use Rattle.lst_probe.specs.Found.{Answers};

mod laws;

pub use laws::{
    distinct_within, empty_position, one_answer, pigeonhole, reachable_positions, run_positions,
};

/// Where a probe ended.
#[derive(Clone, Copy, Debug, PartialEq, Eq)]
pub enum Found {
    /// An equal value stands at the position.
    At { position: u32 },
    /// The run has no equal value, and the position is its first empty one.
    Free { position: u32 },
}

/// The multiplier of Fibonacci hashing: 2^64 over the golden ratio, made odd.
const MULTIPLIER: u64 = 11400714819323198485;

/// The position, from 0, at which the run of `value` begins in a table of 2 to the power of `bits`
/// positions.
pub fn start(value: u64, bits: u32) -> u32
    requires some { 1 ≤ bits }
    requires few { bits ≤ 32 }
    ensures start { result ≡ start_of value bits }
    ensures below { result < 2 ^ bits }
{
    (value.wrapping_mul(MULTIPLIER) >> (64 - bits)) as u32
}

/// Probes the positions from `from` on, for a word that `same` takes for equal. `At` comes exactly
/// where the run has such a word before its first empty position, and tells the first one. `Free`
/// tells the first empty position of the run.
///
/// `same` is asked of filled positions alone.
pub fn find<T: Fn(u64) -> bool>(positions: &[u64], from: u32, same: T) -> Found
    requires power { IsPowerOfTwo (length positions.now) }
    requires few { length positions.now ≤ 2 ^ 31 }
    requires start { from < length positions.now }
    requires empty { Contains positions.now 0 }
    requires callable { All (λ word. 0 < word → T.pre same word) positions.now }
    ensures { Answers (slice_index positions.now) (λ word. T.post same word true) (λ word. T.post same word false) (length positions.now) from result }
{
    let count = positions.len() as u32;
    for offset in 0..count {
        let position = (from + offset) & (count - 1);
        let word = positions[position as usize];
        if word == 0 {
            return Found::Free { position };
        }
        if same(word) {
            return Found::At { position };
        }
    }
    unreachable!()
}
