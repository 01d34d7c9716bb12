//! A value that only clauses read.

ghost use Rattle.std.specs.Prelude.{◌≡◌};
ghost use Rattle.std.specs.Borrow.{ftrue};

use std::marker::{Model, PhantomData};

/// A `T` as clauses see it. It has no bytes and owns nothing, so any thread may have it, and the `T`
/// itself may go on, change or be given away.
#[derive(Drop)]
pub struct Ghost<T> {
    marker: PhantomData<T>,
    pub ghost value: { T },
}

impl<T> Model for Ghost<T> {
    ghost also_owns = { λ _. ftrue };
}

impl<T> Ghost<T> {
    /// Shows a value, as it is now, to contracts.
    pub fn of(x: &T) -> Ghost<T>
        ensures { result.value ≡ x.now }
    {
        let _ = x;
        Ghost {
            marker: PhantomData,
        }
    }
}

unsafe impl<T> Send for Ghost<T> {}

unsafe impl<T> Sync for Ghost<T> {}
