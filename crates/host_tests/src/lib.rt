//! Tests of the public calls of kernels and hosts, of frames and links. A crate with tests of its own is proved twice,
//! so they stand here alone.
#![tactic(auto)]

#[cfg(test)]
mod abi;
#[cfg(test)]
mod ahead;
#[cfg(test)]
mod asking;
#[cfg(test)]
mod boots;
#[cfg(test)]
mod bounds;
#[cfg(test)]
mod children;
#[cfg(test)]
mod ends;
#[cfg(test)]
mod frames;
#[cfg(test)]
mod kernels;
#[cfg(test)]
mod limits;
#[cfg(test)]
mod local;
#[cfg(test)]
mod schedules;
#[cfg(test)]
mod scripts;
#[cfg(test)]
mod wire;
#[cfg(test)]
mod words;
