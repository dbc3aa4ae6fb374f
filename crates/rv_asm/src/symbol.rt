//! Labels.

ghost use Rattle.std.specs.Prelude.{◌≤◌};

/// A label and its address.
#[derive(Clone, Copy, Debug)]
pub struct Symbol<'a> {
    pub name: &'a [u8],
    pub address: u64,
    /// The line that it stands on, counted from 1.
    pub line: usize,
    pub ghost small: { address ≤ 0x20000 },
}
