//! Why an expression is refused.

use std::alloc::{AllocError, AllocFailed};
use thiserror::Error;

/// A kind of refusal. Of several causes in a text the one with the least number is reported, `NothingToDo` last.
#[derive(Clone, Copy, Debug, PartialEq, Eq, Error)]
pub enum ExprFault {
    #[error("no system call has this name")]
    UnknownCall = 1,
    #[error("no class of system calls has this name")]
    UnknownClass,
    #[error("no error has this name")]
    UnknownErrno,
    #[error("no signal that can be joined has this name")]
    UnknownSignal,
    #[error("a number is malformed or out of its range")]
    BadNumber,
    #[error("the occurrences after `when=` are malformed or out of range")]
    BadWhen,
    #[error("an error and a return value exclude each other")]
    BothResults,
    #[error("neither an error nor a return value nor a signal is given")]
    NothingToDo,
    #[error("the regular expression is malformed")]
    BadPattern,
    #[error("out of memory")]
    Memory,
    #[error("a part is not one that this expression takes")]
    UnknownPart,
}

ghost use Rattle.std.specs.Prelude.{◌≡◌};
ghost use Rattle.tr_expr.specs.declared.fault.ExprFault.TheVariants.{Memory};
ghost use Rattle.tr_expr.specs.Faults as spec;

impl From<AllocError> for ExprFault {
    ghost from_gives = { λ _ e. e ≡ Memory };

    fn from(_error: AllocError) -> ExprFault {
        ExprFault::Memory
    }
}

impl<T: Drop> From<AllocFailed<T>> for ExprFault {
    ghost from_gives = { λ _ e. e ≡ Memory };

    fn from(_error: AllocFailed<T>) -> ExprFault {
        ExprFault::Memory
    }
}

impl ExprFault {
    /// 1 to 11, in the order of the variants.
    pub fn number(self) -> u8
        ensures { result ≡ spec.number_of self }
    {
        self as u8
    }

    fn rank(self) -> u8
        ensures { result ≡ spec.rank self }
    {
        match self {
            ExprFault::NothingToDo => 12,
            fault => fault.number(),
        }
    }

    fn first(self, other: ExprFault) -> ExprFault
        ensures { result ≡ spec.first self other }
    {
        if other.rank() < self.rank() {
            other
        } else {
            self
        }
    }

    /// The one that is found first, this or what was found before.
    pub(crate) fn after(self, before: Option<ExprFault>) -> ExprFault
        ensures { result ≡ spec.sooner before self }
    {
        match before {
            Some(earlier) => earlier.first(self),
            None => self,
        }
    }
}
