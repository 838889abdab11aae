//! Tests of reports: how their lines are printed and read again, alone and behind their scripts; and legal reports, at both levels, with those that break
//! a rule.
#![tactic(auto)]

#[cfg(test)]
mod claim_tests;
#[cfg(test)]
mod legal_tests;
#[cfg(test)]
mod line_tests;
#[cfg(test)]
mod reply_tests;
#[cfg(test)]
mod serial_tests;
