//! Texts of calls, from registers and from what is read of a memory.

ghost use Rattle.std.specs.Prelude.{◌≡◌, ◌≤◌, IfOk, OnOk, OnErr, string_bytes};
ghost use Rattle.tr_args.specs.Arguments.{half, wish_of, text_of};
ghost use Rattle.tr_args.specs.Decoders as spec;

use crate::context::Context;
use crate::progress::{Made, go_on, make_first};
use containers::Bytes;
use std::alloc::{AllocError, Global};
use std::marker::Model;
use std::mem;

/// The text of one half of a call, as far as it can be made from what was read.
#[derive(Drop)]
pub struct Decoder {
    alloc: Global,
    context: Context,
    read: Vec<Bytes>,
    /// What is read next.
    wish: Option<(u64, u32)>,
    made: Made,
}

impl Model for Decoder {
    ghost use Rattle.std.specs.Prelude.{◌≡◌, ◌≤◌, ◌<◌, ◌^◌, ◌++◌, ℕ, List, length, take, string_bytes};
    ghost use Rattle.tr_args.specs.Arguments.{half, wish_of};
    ghost use Rattle.tr_args.specs.Progress.{is_left, is_wanted, numbered, sheet, stage_left};
    ghost use Rattle.tr_args.specs.Decoders.{Decoding};

    ghost Value = { Decoding };

    ghost view = { λ d. record { context = d.context; got = d.read.items } };

    ghost invariant = { λ d. (d.context.most ≤ 4096) × (d.wish ≡ wish_of (half d.context d.read.items))
        × (is_wanted d.wish ≡ is_left d.made.stage)
        × (d.made.used ≤ length d.read.items) × (numbered d.made.stage < 2 ^ 32)
        × ((more : List (List ℕ)) → half d.context (take d.made.used d.read.items ++ more)
        ≡ stage_left d.context d.made.stage (sheet (string_bytes d.made.text) more)) };
}

/// What is read next, or the text.
pub fn made(
    alloc: Global,
    context: &Context,
    read: &[Bytes],
) -> Result<(Option<(u64, u32)>, String), AllocError>
    requires { context.now.most ≤ 4096 }
    ensures wish { IfOk result (λ r. r.0 ≡ wish_of (half context.now read.now)) }
    ensures text { IfOk result (λ r. string_bytes r.1 ≡ text_of (half context.now read.now)) }
{
    let (made, wish) = make_first(alloc, context, read)?;
    match wish {
        None => Ok((None, made.text)),
        Some(wish) => Ok((Some(wish), String::new(alloc))),
    }
}

impl Decoder {
    /// Begins the text of a half.
    pub(crate) fn begin(alloc: Global, context: Context) -> Result<Decoder, AllocError>
        requires { context.most ≤ 4096 }
        ensures { IfOk result (λ d. d ≡ spec.started context) }
    {
        let read = Vec::new(alloc);
        let (made, wish) = make_first(alloc, &context, read.as_slice())?;
        Ok(Decoder {
            alloc,
            context,
            read,
            wish,
            made,
        })
    }

    /// Begins the text of a call's entry, of which at most so many bytes of a string are shown.
    pub fn start(
        alloc: Global,
        number: u64,
        arguments: [u64; 6],
        sp: u64,
        most: u32,
    ) -> Result<Decoder, AllocError>
        requires { most ≤ 4096 }
        ensures { IfOk result (λ d. d ≡ spec.started (spec.entering number arguments sp most)) }
    {
        Decoder::begin(alloc, Context::entering(number, arguments, sp, most))
    }

    /// Begins the text of what follows once a call has returned.
    pub fn leave(
        alloc: Global,
        number: u64,
        arguments: [u64; 6],
        value: u64,
        most: u32,
    ) -> Result<Decoder, AllocError>
        requires { most ≤ 4096 }
        ensures { IfOk result (λ d. d ≡ spec.started (spec.leaving number arguments value most)) }
    {
        Decoder::begin(alloc, Context::leaving(number, arguments, value, most))
    }

    /// The address and the length that are read next; none once the text is whole.
    pub fn wants(&self) -> Option<(u64, u32)>
        ensures { result ≡ spec.wants self.now }
    {
        self.wish
    }

    /// Takes what was read.
    pub fn give(&mut self, bytes: Bytes) -> Result<(), AllocError>
        ensures ok { OnOk result (self.new ≡ spec.given self.old bytes) }
        ensures err { OnErr result (self.new ≡ self.old) }
    {
        self.read.push(bytes)?;
        match self.wish {
            None => Ok(()),
            Some(_) => {
                let made = mem::replace(&mut self.made, Made::new(self.alloc));
                match go_on(self.alloc, &self.context, self.read.as_slice(), made) {
                    Ok((made, wish)) => {
                        self.wish = wish;
                        self.made = made;
                        Ok(())
                    }
                    Err(error) => {
                        self.read.pop();
                        Err(error)
                    }
                }
            }
        }
    }

    /// The text, empty until all was read.
    pub fn text(&self) -> &str
        ensures { result.now ≡ spec.text self.now }
    {
        match self.wish {
            None => self.made.text.as_str(),
            Some(_) => "",
        }
    }
}
