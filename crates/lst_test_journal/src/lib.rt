//! Tests of a journal: how a disk is opened, what lines through it are answered and leave on the disk, and scripts that are crashed. Lines stand as texts beside
//! what they are answered: `driving.rt` has the open journal that they go through, `disks.rt` disks of all kinds, `own_tests.rt` the writes kept for each session.
#![tactic(auto)]

#[cfg(test)]
mod crash_tests;
#[cfg(test)]
mod disks;
#[cfg(test)]
mod driving;
#[cfg(test)]
mod line_tests;
#[cfg(test)]
mod opening_tests;
#[cfg(test)]
mod own_tests;
