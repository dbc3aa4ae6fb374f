//! How far a sweep is.

/// Is told how far a sweep is. What it does with that changes nothing of the sweep.
pub trait Progress {
    /// So many of all runs with a failure are made.
    fn tell(&mut self, made: usize, all: usize);
}

/// Tells nobody.
#[derive(Clone, Copy, Debug, PartialEq, Eq)]
pub struct Silent;

impl Progress for Silent {
    fn tell(&mut self, _made: usize, _all: usize) {}
}
