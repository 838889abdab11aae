//! The commands of the program `lstore`: from the words of a command line, or the arguments of a process, to bytes and a status.
#![tactic(auto)]

mod command;
mod crashing;
mod dumping;
mod ending;
mod execution;
mod laws;
mod looking;
mod messages;
mod output;
mod printing;
mod shell;
mod status;
mod tables;

pub use command::{Command, Task};
pub use ending::{ended, program};
pub use laws::{
    a_load_reads_nothing, a_migration_changes_no_reply, histories_of_runs_are_sound,
    input_is_one_script, merges_change_no_other_text, tables_come_back, work_is_judged_legal,
};
pub use lst_options::LoadNumbers;
pub use lst_work::{FreeGate, Gate};
pub use shell::lstore;
pub use status::Status;
