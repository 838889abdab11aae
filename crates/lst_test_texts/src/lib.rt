//! Tests of texts: scripts with numbers and with names, each fault of a line, scripts that are generated, tables of comma-separated values, and the options of a command line.
#![tactic(auto)]

#[cfg(test)]
mod drawn_tests;
#[cfg(test)]
mod fault_tests;
#[cfg(test)]
mod named_tests;
#[cfg(test)]
mod option_tests;
#[cfg(test)]
mod printed_tests;
#[cfg(test)]
mod script_tests;
#[cfg(test)]
mod table_tests;
#[cfg(test)]
mod texts;
