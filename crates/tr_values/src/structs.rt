//! Structs in the memory of a process: numbers at their places, and what shows a struct that can't be read.

ghost use Rattle.std.specs.Prelude.{◌≡◌, ◌≤◌, ◌+◌, ◌^◌, ◌<◌, length};
ghost use Rattle.tr_values.specs.Structs as spec;

/// The 32 bits at a place.
pub(crate) fn half_at(bytes: &[u8], at: usize) -> u64
    requires { at + 4 ≤ length bytes.now }
    ensures value { result ≡ spec.half_at at bytes.now }
    ensures small { result < 2 ^ 32 }
{
    let mut half = [0; 4];
    half.copy_from_slice(&bytes[at..at + 4]);
    u64::from(u32::from_le_bytes(half))
}

/// The 64 bits at a place.
pub(crate) fn word_at(bytes: &[u8], at: usize) -> u64
    requires { at + 8 ≤ length bytes.now }
    ensures { result ≡ spec.word_at at bytes.now }
{
    let mut word = [0; 8];
    word.copy_from_slice(&bytes[at..at + 8]);
    u64::from_le_bytes(word)
}

/// Shows a struct of so many bytes by a function of these; its address stands where they can't be read.
macro_rules! struct_at {
    ($sheet:ident, $address:ident, $size:literal, $shown:ident) => {{
        if $address == 0 {
            return $sheet.put("NULL");
        }
        let bytes = $sheet.read($address, $size)?;
        if bytes.len() < $size {
            return crate::numbers::pointer($sheet, $address);
        }
        $shown($sheet, bytes)
    }};
}

pub(crate) use struct_at;
