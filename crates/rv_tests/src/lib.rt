//! Tests of the guests' public calls. A crate with tests of its own is proved twice, so they stand here alone.
#![tactic(auto)]

#[cfg(test)]
mod hart;
#[cfg(test)]
mod images;
#[cfg(test)]
mod instructions;
#[cfg(test)]
mod listings;
#[cfg(test)]
mod memory;
#[cfg(test)]
mod near;
