//! Tests of the calls of sessions and crews, scans among them, and of sessions at the serializable level. A script is a constant table: `scripts.rt` has lines and
//! replies as texts, with the crew that answers them, `steps.rt` one session's calls with their answers, `serials.rt` those of three serializable sessions.
#![tactic(auto)]

#[cfg(test)]
mod crew_tests;
#[cfg(test)]
mod index_tests;
#[cfg(test)]
mod merge_tests;
#[cfg(test)]
mod scan_line_tests;
#[cfg(test)]
mod scan_tests;
#[cfg(test)]
mod scripts;
#[cfg(test)]
mod serial_drawn_tests;
#[cfg(test)]
mod serial_refusal_tests;
#[cfg(test)]
mod serials;
#[cfg(test)]
mod session_tests;
#[cfg(test)]
mod skew_tests;
#[cfg(test)]
mod steps;
