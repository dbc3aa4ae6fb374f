//! Whether two values are the same.

ghost use Rattle.std.specs.Prelude.{◌≡◌, true};

use containers::{Bytes, Content};
use lx_abi::Boxed;

/// Values that can be compared.
pub trait Same {
    /// True exactly where both are the same value.
    fn same(&self, other: &Self) -> bool
        ensures found { result ≡ true → self.now ≡ other.now }
        ensures equal { self.now ≡ other.now → result ≡ true };
}

impl Same for Bytes {
    fn same(&self, other: &Bytes) -> bool {
        self.as_slice() == other.as_slice()
    }
}

impl Same for Content {
    fn same(&self, other: &Content) -> bool {
        self.as_slice() == other.as_slice()
    }
}

impl<T: Same> Same for Boxed<T> {
    fn same(&self, other: &Boxed<T>) -> bool {
        self.get().same(other.get())
    }
}

/// As many values, each the same.
pub fn same_list<T: Same>(one: &[T], other: &[T]) -> bool
    ensures found { result ≡ true → one.now ≡ other.now }
    ensures equal { one.now ≡ other.now → result ≡ true }
{
    let mut rest = other;
    for x in one {
        match rest.split_first() {
            None => return false,
            Some((y, after)) => {
                if !x.same(y) {
                    return false;
                }
                rest = after;
            }
        }
    }
    rest.is_empty()
}
