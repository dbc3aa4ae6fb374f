//! Laws of all states that a traced run reaches: those of `lx_sound` and `lx_laws` on soundness, families and limits.
#![tactic(auto)]

pub mod laws;
