//! Tests of the checker of reports: drawn scripts with drawn reports, judged by a plain, slow checker too.
#![tactic(auto)]

#[cfg(test)]
mod drawn_tests;
#[cfg(test)]
mod plain;
#[cfg(test)]
mod plain_replies;
#[cfg(test)]
mod plain_serial;
