//! Who looks at a run's end.

use host_shared::Cut;
use lx_kernel::Kernel;

/// Looks at what a run has left, before it is let go.
pub trait Onlooker {
    /// The kernel as the run left it, and why the run is out of turns, where it is.
    fn look(&mut self, kernel: &Kernel, cut: Option<Cut>);
}

/// It has no eyes.
#[derive(Drop)]
pub(crate) struct Blind;

impl Onlooker for Blind {
    fn look(&mut self, _kernel: &Kernel, _cut: Option<Cut>) {}
}
