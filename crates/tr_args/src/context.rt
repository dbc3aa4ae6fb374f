//! What the text of a call is made from.

ghost use Rattle.std.specs.Prelude.{◌≡◌};
ghost use Rattle.tr_args.specs.Decoders as spec;

/// What the text of one half of a call is made from, beside the memory.
#[derive(Clone, Copy, Debug, PartialEq, Eq)]
pub struct Context {
    pub number: u64,
    pub arguments: [u64; 6],
    /// The stack pointer at the entry.
    pub sp: u64,
    /// None at the entry.
    pub result: Option<u64>,
    /// At most so many bytes of a string are shown.
    pub most: u32,
}

impl Context {
    /// Of a call's entry.
    pub(crate) fn entering(number: u64, arguments: [u64; 6], sp: u64, most: u32) -> Context
        ensures { result ≡ spec.entering number arguments sp most }
    {
        Context {
            number,
            arguments,
            sp,
            result: None,
            most,
        }
    }

    /// Of what follows once the call has returned this.
    pub(crate) fn leaving(number: u64, arguments: [u64; 6], value: u64, most: u32) -> Context
        ensures { result ≡ spec.leaving number arguments value most }
    {
        Context {
            number,
            arguments,
            sp: 0,
            result: Some(value),
            most,
        }
    }
}

/// An argument of a call, and what its text may depend on besides.
#[derive(Clone, Copy, Debug)]
pub(crate) struct ArgumentPlace {
    /// The argument before it.
    pub(crate) before: u64,
    pub(crate) value: u64,
    /// The argument after it.
    pub(crate) next: u64,
    /// At most so many bytes of a string are shown.
    pub(crate) most: u32,
    /// The stack pointer at the entry.
    pub(crate) sp: u64,
    /// The call's result, once it has one.
    pub(crate) result: Option<u64>,
}
