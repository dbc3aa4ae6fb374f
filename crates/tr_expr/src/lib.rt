//! Filtering and tampering expressions, as strace(1) takes them after `-e`.
//!
//! ```text
//! word   trace=SET, a bare SET, inject=SET:PARTS or fault=SET[:PARTS]
//! SET    items joined by commas; a `!` in front negates the whole
//! item   NAME, ?NAME (which may be unknown), %CLASS, /REGEX (searched for in the names), all or none
//! PARTS  parts joined by colons; of a repeated part the last counts
//! part   error=E (a name, or 1 to 4095), retval=V (decimal, or hexadecimal behind 0x), signal=S
//!        or when=W; fault= takes error and when alone, and fails with ENOSYS by itself
//! S      a signal: a name, with or without SIG, or 1 to 31
//! W      FIRST, FIRST+, FIRST+STEP, FIRST..LAST, FIRST..LAST+ or FIRST..LAST+STEP: a first and a step from 1 to
//!        65535, a last from 1 to 65534 that isn't before the first
//! ```
//!
//! The classes are file, desc, process, signal and memory; a regular expression is one of the crate `regex`, without
//! commas or colons. A refusal is the first kind of [`ExprFault`] that has a cause anywhere in the text.
#![tactic(auto)]

pub mod expr;
pub mod fault;
mod item;
mod number;
mod occurrences;
mod part;
pub mod piece;
pub mod rule;
mod said;
pub mod set;
mod text;

pub use expr::{Expr, parse_expr};
pub use fault::ExprFault;
pub use lx_abi::{Choice, Rule, Script, Set, When};
pub use part::errno;
pub use piece::{RefusedPiece, refused_piece};
pub use rule::{InjectParts, parse_fault, parse_inject};
pub use set::parse_trace;
