//! A part of a tree or of a program that is kept while others are made.
ghost use Rattle.std.specs.Prelude.{◌≡◌};

/// A part that is owned across calls that may fail. That it is dropped is one call of its own, at
/// each place where it may be, and not a call for each of its variants.
pub struct Kept<T> {
    part: T,
}

impl<T: Drop> Drop for Kept<T> {
    fn drop(self) {
        let Kept { part: _ } = self;
    }
}

impl<T> Kept<T> {
    pub fn new(part: T) -> Kept<T>
        ensures { result.part ≡ part }
    {
        Kept { part }
    }

    pub fn into_inner(self) -> T
        ensures { result ≡ self.part }
    {
        let Kept { part } = self;
        part
    }
}
