//! The packings of a store's words: a value in its range is packed to a word, and unpacked again. It packs numbers, and touches no word of a store.
#![tactic(auto)]

mod encodings;
mod heads;
mod logs;
mod numbers;
mod postings;
mod starts;
mod states;
mod times;

pub use encodings::{
    Encoding, Kind, encodings_are_packed, full_mask, has_column, holds_number, pack_encoding, slot,
    unpack_encoding,
};
pub use heads::{heads_are_packed, latched, pack_head, unpack_head};
pub use logs::{Log, logs_are_packed, pack_log, unpack_log};
pub use numbers::{
    numbers_are_packed, pack_begin, pack_index, pack_pin, pack_turn, unpack_begin, unpack_index,
    unpack_pin,
};
pub use postings::{pack_posting, postings_are_packed, unpack_posting};
pub use starts::{Start, pack_start, starts_are_packed, unpack_start};
pub use states::{State, pack_state, states_are_packed, unpack_state};
pub use times::{pack_time, times_are_packed, unpack_time};
