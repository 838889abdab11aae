//! The options behind a command's name. Words in, numbers out; nothing else is touched.
#![tactic(auto)]

mod as_of;
mod crash;
mod laws;
mod level;
mod limits;
mod load;
mod table;
mod words;

pub use as_of::{AsOfOptions, as_of_of_words};
pub use crash::{CrashOptions, DiskOptions, crash_of_words};
pub use laws::{
    words_name_one_crash, words_name_one_level, words_name_one_load, words_name_one_store,
    words_name_one_table, words_name_one_time,
};
pub use level::{LevelOptions, level_of_words};
pub use limits::limits_of_words;
pub use load::{LoadNumbers, load_of_words};
pub use table::table_of_words;
