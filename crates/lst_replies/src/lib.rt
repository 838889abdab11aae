//! Replies and reports: their texts, and which reports are legal. Texts and lists alone.
#![tactic(auto)]

mod answers;
mod backward;
mod laws;
mod lines;
mod long;
mod numbers;
mod parse;
mod print;
mod reports;
mod short;
mod states;
mod words;

pub use answers::{Answer, has_reply_shape, paired};
pub use laws::{level_one_is_no_stale, printed_report_is_read};
pub use lines::{print_line, push_line};
pub use parse::{ReportFault, parse_report};
pub use print::print_report;
pub use reports::{Replies, Report, Stamp, Stamps};
pub use states::{SessionState, Transaction};
