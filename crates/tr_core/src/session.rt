//! What hearing of a tracee works on.

use crate::settings::Settings;
use lx_abi::Occurrences;
use tr_line::Printer;

/// What is one for all tracees.
#[derive(Drop)]
pub struct Session {
    pub settings: Settings,
    /// How often each tracee entered each call.
    pub counts: Occurrences,
    pub printer: Printer,
}
