//! What is told of a past table. It knows no words of a store.
#![tactic(auto)]

mod lines;
mod past;

pub use lines::push_number_line;
pub use past::print_past;
