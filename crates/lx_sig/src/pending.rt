//! The signals that are pending to a process.

ghost use Rattle.std.specs.Prelude.{◌≡◌, ◌<◌, None, Some, set, get_or, replicate, not, is_some};
ghost use Rattle.std.specs.List.{list_any};

use lx_abi::Cause;
use std::marker::Model;

/// Signals that are pending, by number, each with why it came first. Nothing has the number 0.
#[derive(Clone, Copy, Debug, PartialEq, Eq)]
pub struct Pending {
    causes: [Option<Cause>; 32],
    /// One is there. Mostly none is, and every turn asks.
    any: bool,
}

impl Model for Pending {
    ghost use Rattle.std.specs.Prelude.{◌≡◌, List, Option, is_some};
    ghost use Rattle.std.specs.List.{list_any};
    ghost use Rattle.lx_abi.specs.declared.log.Cause.{Cause};

    ghost Value = { List (Option Cause) };

    ghost view = { λ p. p.causes };

    ghost invariant = { λ p. p.any ≡ list_any is_some p.causes };

    ghost inverse = { λ causes. record { causes = causes; any = list_any is_some causes } };
}

/// One of the causes is there.
fn has_any(causes: &[Option<Cause>; 32]) -> bool
    ensures { result ≡ list_any is_some causes.now }
{
    causes.iter().any(|cause| cause.is_some())
}

impl Pending {
    /// Nothing is pending.
    pub fn none() -> Self
        ensures { result ≡ replicate 32 None }
    {
        Pending {
            causes: [None; 32],
            any: false,
        }
    }

    pub fn is_empty(&self) -> bool
        ensures { result ≡ not (list_any is_some self.now) }
    {
        !self.any
    }

    /// Why the signal with this number came first, where it is pending.
    pub fn cause(&self, number: u8) -> Option<Cause>
        requires { number < 32 }
        ensures { result ≡ get_or self.now number None }
    {
        self.causes[usize::from(number)]
    }

    /// Makes the signal with this number pending.
    pub fn insert(&mut self, number: u8, cause: Cause)
        requires { number < 32 }
        ensures { self.new ≡ set self.old number (Some cause) }
    {
        self.causes[usize::from(number)] = Some(cause);
        self.any = true;
    }

    /// The signal with this number is no longer pending.
    pub fn remove(&mut self, number: u8)
        requires { number < 32 }
        ensures { self.new ≡ set self.old number None }
    {
        self.causes[usize::from(number)] = None;
        self.any = has_any(&self.causes);
    }
}
