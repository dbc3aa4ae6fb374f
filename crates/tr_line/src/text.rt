//! Text under way.

ghost use Rattle.std.specs.Prelude.{◌≡◌, ◌≤◌, ◌++◌, [], IfOk, OnOk, length, decimal, codes, replicate, false};
ghost use Rattle.std.specs.Fmt.{digits};

use containers::Bytes;
use itoa::Buffer;
use std::alloc::{AllocError, Global};
use std::marker::Model;

/// Spaces for most gaps.
const BLANKS: &[u8] = &[b' '; 64];

fn blanks(n: usize) -> &'static [u8]
    requires { n ≤ 64 }
    ensures { result.now ≡ replicate n 32 }
{
    &BLANKS[..n]
}

/// Text under way, which contracts see as the list of its bytes.
#[derive(Drop)]
pub(crate) struct Text {
    alloc: Global,
    bytes: Vec<u8>,
}

impl Model for Text {
    ghost use Rattle.std.specs.Prelude.{ℕ, List};

    ghost Value = { List ℕ };

    ghost view = { λ t. t.bytes.items };
}

impl Text {
    /// An empty one, with room for so many bytes.
    pub(crate) fn with_room(alloc: Global, room: usize) -> Result<Self, AllocError>
        ensures { IfOk result (λ t. t ≡ []) }
    {
        let bytes = Vec::with_capacity(alloc, room)?;
        Ok(Text { alloc, bytes })
    }

    pub(crate) fn into_bytes(self) -> Bytes
        ensures { result ≡ self }
    {
        Bytes::from_vec(self.bytes)
    }

    pub(crate) fn put(&mut self, text: &str) -> Result<(), AllocError>
        ensures { OnOk result (self.new ≡ self.old ++ text.now) }
    {
        self.bytes.extend_from_slice(text.as_bytes())
    }

    pub(crate) fn decimal(&mut self, n: u64) -> Result<(), AllocError>
        ensures { OnOk result (self.new ≡ self.old ++ decimal n) }
    {
        let mut buffer = Buffer::new();
        self.put(buffer.format(n))
    }

    pub(crate) fn hex(&mut self, n: u64) -> Result<(), AllocError>
        ensures { OnOk result (self.new ≡ self.old ++ (codes "0x" ++ digits 16 false n)) }
    {
        let digits = format!(in self.alloc; "0x{n:x}")?;
        self.put(digits.as_str())
    }

    pub(crate) fn len(&self) -> usize
        ensures { result ≡ length self.now }
    {
        self.bytes.len()
    }

    pub(crate) fn spaces(&mut self, n: usize) -> Result<(), AllocError>
        ensures { OnOk result (self.new ≡ self.old ++ replicate n 32) }
    {
        if n <= 64 {
            return self.bytes.extend_from_slice(blanks(n));
        }
        let Some(length) = self.len().checked_add(n) else {
            return Err(AllocError);
        };
        self.bytes.resize(length, b' ')
    }
}
