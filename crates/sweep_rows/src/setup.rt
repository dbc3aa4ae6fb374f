//! What all runs of a sweep begin with.

use lx_abi::{Boot, Word};

/// What all runs of a sweep begin with: a boot, the words of a schedule, and the most turns of each.
#[derive(Drop)]
pub struct Setup {
    pub boot: Boot,
    pub turns: Vec<Word>,
    pub limit: u64,
}
