//! What a tracer is made with.

ghost use Rattle.std.specs.Prelude.{◌≤◌};

use lx_abi::{Script, Set};
use std::alloc::Global;

/// What is traced and shown.
#[derive(Drop)]
pub struct Options {
    pub follow: bool,
    /// The calls that are shown.
    pub shown: Set,
    /// The longest text of a string.
    pub string_limit: u32,
    pub ghost limit_in_range: { string_limit ≤ 4096 },
    /// The column of the results.
    pub width: u32,
}

/// What stays the same from reply to reply.
#[derive(Drop)]
pub struct Settings {
    pub alloc: Global,
    pub options: Options,
    pub script: Script,
}
