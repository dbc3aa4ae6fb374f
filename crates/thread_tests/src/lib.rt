//! Tests of copies, of turns as they are kept and of runs on threads. A crate with tests of its own is
//! proved twice, so they stand here alone.
#![tactic(auto)]

#[cfg(test)]
mod copies;
#[cfg(test)]
mod turns;
#[cfg(test)]
mod workers;
