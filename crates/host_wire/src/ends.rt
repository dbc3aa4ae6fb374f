//! Where bytes come from, and where they go.

ghost use Rattle.std.specs.Prelude.{◌≡◌, ◌≤◌, ℕ, List, [], ◌∷◌, ◌++◌, Option, length, IfOk, OnOk, OnErr, IsErr, is_ok, if◌then◌else◌};
ghost use Rattle.std.specs.Io.KnownBytes.{Appends, ReadConsumes};
ghost use Rattle.host_wire.specs.Ends.{AppendsPart, Input, IsPut, count_of};

/// The reader or writer failed; every call after that fails too.
#[derive(Clone, Copy, Debug, PartialEq, Eq)]
pub struct Broken;

/// A reader, by the bytes that it has left where these are known, and by how many bytes each read gave.
pub trait Source {
    ghost input: { Self → Input };

    /// Reads some bytes to the front of `into`: none only at the end of input, or where `into` is empty.
    fn read(&mut self, into: &mut [u8]) -> Result<usize, Broken>
        ensures within { IfOk result (λ n. n ≤ length into.old) }
        ensures bytes { ReadConsumes (input self.old).remaining (input self.new).remaining result into.new }
        ensures counted { (input self.new).reads ≡ (input self.old).reads ++ count_of result ∷ [] }
        ensures faults { (input self.new).broken ≡ (if is_ok result then (input self.old).broken else 1) }
        ensures for_good { (input self.old).broken ≡ 1 → IsErr result };

    fn faults(&self) -> u64
        ensures { result ≡ (input self.now).broken };
}

/// A writer, by the bytes that it holds where these are known, and by how many bytes each put was of.
pub trait Sink {
    ghost contents: { Self → Option (List ℕ) };

    /// How many bytes each put was of, one that failed too.
    ghost puts: { Self → List ℕ };

    /// 1 once it has failed.
    ghost broken: { Self → ℕ };

    /// Puts all of the bytes.
    fn put(&mut self, bytes: &[u8]) -> Result<(), Broken>
        ensures whole { OnOk result (Appends (contents self.old) (contents self.new) bytes.now) }
        ensures part { OnErr result (AppendsPart (contents self.old) (contents self.new) bytes.now) }
        ensures counted { IsPut (puts self.old) (puts self.new) bytes.now }
        ensures faults { broken self.new ≡ (if is_ok result then broken self.old else 1) }
        ensures for_good { broken self.old ≡ 1 → IsErr result };

    fn faults(&self) -> u64
        ensures { result ≡ broken self.now };
}
