//! Whole traced runs by words `p` and `p.`, and by the default schedule, beside the untraced kernel's runs by the same
//! words.
#![tactic(auto)]

pub mod laws;
