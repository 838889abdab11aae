//! What the replies to the lines of sessions at work tell, and why a report of them is legal. Nothing here runs.
#![tactic(auto)]

mod laws;

pub use laws::{
    lines_carry_on, script_is_explained, script_is_told, tails_are_written, worked_script_is_legal,
};
