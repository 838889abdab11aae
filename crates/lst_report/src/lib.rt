//! Reports of runs: written and read, alone or behind the script that they are claimed for. Texts and lists alone.
#![tactic(auto)]

mod claims;
mod laws;

pub use claims::{Claim, read_claim};
pub use laws::{legal_report_fits, legal_report_is_claimed};
pub use lst_legal::legal;
pub use lst_replies::{
    Answer, Replies, Report, ReportFault, SessionState, Stamp, Stamps, Transaction,
    has_reply_shape, paired, parse_report, print_line, print_report, printed_report_is_read,
    push_line,
};
