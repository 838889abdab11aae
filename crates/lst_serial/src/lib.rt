//! Sessions at the serializable level: each transaction that commits answers as if it had run alone at its commit.
#![tactic(auto)]

mod checks;
mod keys;
mod kinds;
mod laws;
mod locks;
mod reads;
mod serial;

pub use keys::KeySet;
pub use kinds::{SerialCommit, SerialEnd, SerialRead, SerialWrite};
pub use laws::stale_found_it_free;
pub use locks::end_at_last;
pub use serial::Serial;
