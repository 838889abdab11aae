//! Tests of the parts that stand alone: packed words, addresses and limits, values and lists, sums over a page, packed pages, probing, chains, streams of
//! bytes, and disks.
#![tactic(auto)]

#[cfg(test)]
mod bits_tests;
#[cfg(test)]
mod chain_tests;
#[cfg(test)]
mod disk_tests;
#[cfg(test)]
mod io_tests;
#[cfg(test)]
mod kernel_tests;
#[cfg(test)]
mod layout_tests;
#[cfg(test)]
mod line_list_tests;
#[cfg(test)]
mod model_tests;
#[cfg(test)]
mod pack_tests;
#[cfg(test)]
mod probe_tests;
#[cfg(test)]
mod reply_queue_tests;
#[cfg(test)]
mod rows;
#[cfg(test)]
mod same;
