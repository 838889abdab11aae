//! The rules of a legal report that ask for no rows of the table.
#![tactic(auto)]

mod conflicts;
mod firsts;
mod floors;
mod fullness;
mod gathering;
mod levels;
mod marks;
mod merges;
mod outlines;
mod places;
mod refusals;

pub use conflicts::are_conflicts_explained;
pub use firsts::first_numbers;
pub use floors::are_times_bounded;
pub use fullness::is_fullness_explained;
pub use gathering::{gather, write_of};
pub use levels::Level;
pub use marks::Marks;
pub use merges::are_merges_consistent;
pub use outlines::{OpenOutline, StateOutline};
pub use places::{Place, trace};
pub use refusals::are_refusals_exact;
