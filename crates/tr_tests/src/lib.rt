//! Tests of the tracer's public calls that no program shows. A crate with tests of its own is proved twice, so they stand
//! here alone.
#![tactic(auto)]

#[cfg(test)]
mod booting;
#[cfg(test)]
mod expressions;
#[cfg(test)]
mod lines;
#[cfg(test)]
mod local_runs;
#[cfg(test)]
mod random_runs;
#[cfg(test)]
mod runs;
