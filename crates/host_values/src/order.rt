//! The order of an outcome's lists.

ghost use Rattle.std.specs.Prelude.{◌≡◌, nat_lt};
ghost use Rattle.std.specs.Option.{option_copied};
ghost use Rattle.host_values.specs.Reading as spec;

use lx_abi::{Ended, OutcomeFile};
use std::cmp::Ordering;

/// Whether the path may stand behind the one before it, in byte order. The root stands nowhere.
fn can_follow(before: Option<&[u8]>, path: &[u8]) -> bool
    ensures { result ≡ spec.can_follow (option_copied before.entry) path.now }
{
    if path.len() == 1 && path[0] == b'/' {
        return false;
    }
    match before {
        None => true,
        Some(before) => before.cmp(&path) == Ordering::Less,
    }
}

#[tactic(auto, unfolding(crate::specs::Reading::paths_rise))]
pub fn paths_rise(files: &[OutcomeFile]) -> bool
    ensures { result ≡ spec.paths_rise None files.now }
{
    let mut before = None;
    for file in files {
        let path = file.path.as_slice();
        if !can_follow(before, path) {
            return false;
        }
        before = Some(path);
    }
    true
}

fn is_after(before: Option<u32>, pid: u32) -> bool
    ensures { result ≡ spec.is_after nat_lt before pid }
{
    match before {
        None => true,
        Some(before) => before < pid,
    }
}

#[tactic(auto, unfolding(crate::specs::Reading::pids_rise))]
pub fn pids_rise(ended: &[Ended]) -> bool
    ensures { result ≡ spec.pids_rise None ended.now }
{
    let mut before = None;
    for end in ended {
        if !is_after(before, end.pid) {
            return false;
        }
        before = Some(end.pid);
    }
    true
}
