//! What happened, for proofs alone.

ghost use Rattle.std.specs.Prelude.{◌≡◌, List, [], ◌∷◌, ◌++◌};
ghost use Rattle.std.specs.Borrow.{ftrue};

use std::marker::{Model, PhantomData};

/// A list that only proofs read, as `items`. It takes no memory, and its functions do nothing when they run.
#[derive(Drop)]
pub struct History<T> {
    of: PhantomData<T>,
    pub ghost items: { List T },
}

/// A value that tells a list, to proofs alone.
pub trait Tells<T> {
    ghost use Rattle.std.specs.Prelude.{List};

    ghost told: { Self → List T };
}

impl<T> Model for History<T> {
    ghost also_owns = { λ _. ftrue };
}

// It owns nothing, and there is nothing in it to read.
unsafe impl<T: Send> Send for History<T> {}

unsafe impl<T: Sync> Sync for History<T> {}

impl<T> History<T> {
    pub fn new() -> History<T>
        ensures { result.items ≡ [] }
    {
        History { of: PhantomData }
    }

    /// The same once more.
    pub fn again(&self) -> History<T>
        ensures { result.items ≡ self.now.items }
    {
        History { of: PhantomData }
    }

    /// The same, and one more.
    pub fn and(&self, item: &T) -> History<T>
        ensures { result.items ≡ self.now.items ++ item.now ∷ [] }
    {
        History { of: PhantomData }
    }

    /// What a value tells.
    pub fn of<S: Tells<T>>(source: &S) -> History<T>
        ensures { result.items ≡ S.told source.now }
    {
        History { of: PhantomData }
    }
}
