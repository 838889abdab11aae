//! The executable page core: a state of frames, pins and base pages that makes each step of `lst_pages`. No shared word is touched.
#![tactic(auto)]

mod hands;
mod page_core;
mod queue;
mod tails;

pub use hands::PageId;
pub use page_core::{NotEnabled, PageCore};
