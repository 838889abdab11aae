//! The exact checker of reports: `legal` answers true exactly where a report is legal for a script, `legal_serial` where it is legal at the serializable level.
#![tactic(auto)]

mod judging;
mod places;
mod reads;
mod sights;
mod stales;
mod writes;

pub use judging::{are_sessions_below, legal, legal_at, legal_serial};
pub use lst_legal_runs::Level;
pub use places::are_commits_in_place;
pub use sights::are_sights_told;
pub use stales::are_stales_explained;
