//! Turns of several processes, which come again in the same order.

ghost use Rattle.std.specs.Prelude.{◌<◌, length};

/// Rounds of turns: one after the other as often as there were, and then a beginning of the next.
#[derive(Drop)]
pub struct Cycle {
    pub(crate) pids: Vec<u32>,
    pub(crate) rounds: u64,
    pub(crate) at: usize,
    pub(crate) ghost within: { at < length pids.items },
}
