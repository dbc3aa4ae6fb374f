//! Laws of reachable states that stand on their soundness: parents and children agree, nothing is left open behind a
//! process that ended, and calls do to a sound state what their pages of the manual say.
#![tactic(auto)]

pub mod laws;
