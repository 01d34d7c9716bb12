//! A list that only clauses read.

ghost use Rattle.std.specs.Prelude.{◌≡◌, List, [], ◌∷◌, ◌++◌};
ghost use Rattle.std.specs.Borrow.{ftrue};

use std::marker::{Model, PhantomData};

/// Values as clauses see them, in the order in which they were noted. It has no bytes and owns
/// nothing, so any thread may have it, and the values themselves may change or go.
#[derive(Drop)]
pub struct Noted<T> {
    marker: PhantomData<T>,
    pub ghost items: { List T },
}

impl<T> Model for Noted<T> {
    ghost also_owns = { λ _. ftrue };
}

impl<T> Noted<T> {
    /// Nothing noted yet.
    pub fn new() -> Noted<T>
        ensures { result.items ≡ [] }
    {
        Noted {
            marker: PhantomData,
        }
    }

    /// What was noted, and after it one more value, as it is now.
    pub fn and(&self, x: &T) -> Noted<T>
        ensures { result.items ≡ self.now.items ++ x.now ∷ [] }
    {
        let _ = x;
        Noted {
            marker: PhantomData,
        }
    }
}

unsafe impl<T> Send for Noted<T> {}

unsafe impl<T> Sync for Noted<T> {}
