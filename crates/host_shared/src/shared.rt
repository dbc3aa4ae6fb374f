//! A host under a lock, and what its threads wait for.

use crate::held::Held;
use std::sync::{Condvar, Mutex, Wait};
use transcript::{Naming, Record};

/// A host under a lock. Who waits for something to be done there sleeps until it is told.
#[derive(Drop)]
pub struct SharedHost<J: Naming> {
    pub(crate) held: Mutex<Held<J>>,
    pub(crate) book: Record<J>,
    /// The request that waits may be answered now. The tracer waits for it.
    pub(crate) news: Condvar,
    /// A process may be able now, or nothing more is done. Workers wait for it.
    pub(crate) able: Condvar,
}

impl<J: Naming> SharedHost<J> {
    pub fn new(held: Held<J>, book: Record<J>) -> Self {
        SharedHost {
            held: Mutex::new(held),
            book,
            news: Condvar::new(),
            able: Condvar::new(),
        }
    }

    /// Nothing more is done.
    pub fn close<R: Wait>(&self, rt: &R) {
        let mut guard = self.held.lock(rt);
        guard.close();
        drop(guard);
        self.news.notify_one();
        self.able.notify_all();
    }

    pub fn into_held(self) -> Held<J> {
        self.held.into_inner()
    }
}
