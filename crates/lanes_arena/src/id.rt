//! The number of a value of an arena.
ghost use Rattle.std.specs.Prelude.{◌≡◌};

use std::marker::PhantomData;

/// The number of a value of an arena. The type parameter is the kind of values that it names: the
/// type of the values themselves, or a type without values that stands for it where that type holds
/// ids of its own kind.
#[derive_where(Clone, Copy, Debug, PartialEq, Eq, Hash)]
pub struct Id<K> {
    pub(crate) number: u64,
    pub(crate) kind: PhantomData<K>,
}

impl<K> Id<K> {
    /// The number, counted from 0 in order of making.
    #[inline]
    pub fn number(self) -> u64
        ensures { result ≡ self.number }
    {
        self.number
    }
}
