//! A store's words in one table of atomic words, under a rule that ties them, and what the sessions at each seat know of them, to the protocol core.
//! All words are touched here, and nowhere else.
#![tactic(auto)]

mod actions;
mod acts;
mod any;
mod frames;
mod joins;
mod laws;
mod loads;
mod moves;
mod open;
mod page_acts;
mod page_loads;
mod page_steps;
mod parts;
mod records;
mod resolutions;
mod rule;
mod runs;
mod seat;
mod spares;
mod splits;
mod status;
mod steps;
mod store;
mod surveys;
mod table_seats;
mod versions;
mod view;
mod writes;

pub use actions::Action;
pub use any::load;
pub use frames::{load_frame_from, load_frame_words, store_frame_words};
pub use joins::{hear_note, join_seat};
pub use laws::{
    chains_are_copied, statuses_tell, versions_are_seen, watchers_keep, words_are_found,
    writers_are_judged,
};
pub use loads::{
    load_cell, load_cell_from, load_clock, load_head, load_index, load_key, load_record_counter,
    load_state, load_tail_counter,
};
pub use moves::{
    SharedWords, TableSeat, add_one, compare_exchange, load_word, set_lowest_bit, store_word,
};
pub use open::open_store;
pub use page_loads::{load_directory, load_epoch, load_frame, load_posting};
pub use page_steps::{
    step_look_page, step_look_page_from, step_look_pin, step_pin, step_raise, step_store_frame,
    step_swap, step_unpin,
};
pub use parts::{Binds, Chooses, Confirms, Hears, Notes, Parts, Unites};
pub use records::RecordId;
pub use resolutions::{Resolution, resolve, resolve_from};
pub use rule::{Adds, Exchanges, Loads, Means, SetsBits, StoreRule, Stores};
pub use runs::{Run, load_heads, load_times};
pub use seat::Seat;
pub use spares::Spares;
pub use splits::{Room, note_of, room_for, split_off};
pub use status::{Status, status_of, transaction_status};
pub use steps::{step_begin, step_clock, step_close, step_give, step_log, step_state, step_take};
pub use store::Store;
pub use surveys::survey;
pub use table_seats::{confirm, hear_told, note_seat, split_seat, unite_seats};
pub use versions::{is_own, tail_of, version_below};
pub use view::View;
pub use writes::{
    step_claim, step_draw_record, step_draw_tail, step_install, step_latch, step_post,
    step_release, step_stamp, step_store_cell, step_store_key,
};
