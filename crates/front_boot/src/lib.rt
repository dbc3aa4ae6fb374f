//! What a run begins with, as the command lines of the programs say it: the guest's files and directories, its
//! environment, its arguments and its input, and why a boot of these is refused.
#![tactic(auto)]

mod boot;
mod boot_faults;
mod directories;
mod environment;

pub use boot::read_boot;
pub use boot_faults::refuse_boot;
