//! What a call replies, beside what it leaves in the two parts that it is lent.

use crate::state::UserState;
use lx_abi::Errno;

/// What a call replies.
#[derive(Drop)]
pub enum CallReply {
    /// The call fails, and nothing is changed.
    Refused(Errno),
    /// The result.
    Returned(u64),
    /// pc and a0 stand already.
    Jumped,
    /// A new program stands, with its registers.
    Execed,
    /// A child with this body; its pid is the result.
    Bore(Box<UserState>),
    /// The call can't be done yet, and nothing is changed.
    Blocked,
    /// The process ends with this wait word, and nothing is changed yet.
    Ended(u32),
}
