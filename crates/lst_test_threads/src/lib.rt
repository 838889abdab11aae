//! Tests of sessions that are parted, tell each other what they have seen, work on threads of their own, and are gathered.
#![tactic(auto)]

#[cfg(test)]
mod block_tests;
#[cfg(test)]
mod line_tests;
#[cfg(test)]
mod par_tests;
#[cfg(test)]
mod part_tests;
#[cfg(test)]
mod serial_tests;
#[cfg(test)]
mod thread_tests;
#[cfg(test)]
mod work_tests;
