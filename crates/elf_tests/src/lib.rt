//! Tests of what is read of an ELF64 file for a report, on files, tables and units made by hand. A crate with tests
//! of its own is proved twice, so they stand here alone.
#![tactic(auto)]

#[cfg(test)]
mod files;
#[cfg(test)]
mod frames;
#[cfg(test)]
mod lines;
#[cfg(test)]
mod numbers;
#[cfg(test)]
mod units;
