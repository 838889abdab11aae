//! Tests of the program, over `lstore` itself: the examples and other worked inputs, faulty inputs, and ends that fail; and hostile use of it: inputs cut off and
//! changed at each byte, merges in each gap of a script, limits that are met, drawn scripts beside the engines of one thread, and sessions that wait for another's line.
#![tactic(auto)]

#[cfg(test)]
mod answer_tests;
#[cfg(test)]
mod asof_tests;
#[cfg(test)]
mod byte_tests;
#[cfg(test)]
mod calls;
#[cfg(test)]
mod check_tests;
#[cfg(test)]
mod crash_tests;
#[cfg(test)]
mod drawn_tests;
#[cfg(test)]
mod end_tests;
#[cfg(test)]
mod example_tests;
#[cfg(test)]
mod fault_tests;
#[cfg(test)]
mod gate_tests;
#[cfg(test)]
mod limit_tests;
#[cfg(test)]
mod load_tests;
#[cfg(test)]
mod merge_tests;
#[cfg(test)]
mod null_tests;
#[cfg(test)]
mod prefix_tests;
#[cfg(test)]
mod rows;
#[cfg(test)]
mod thread_tests;
#[cfg(test)]
mod work_tests;
