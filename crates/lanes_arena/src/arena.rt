//! Values of one type, by number.
ghost use Rattle.std.specs.Prelude.{◌≡◌, ◌↔◌, ◌+◌, ◌-◌, ◌<◌, ◌≤◌, ◌^◌, ◌++◌, ◌∷◌, [], length, max, slice_get, Some, OnOk, OnErr};
ghost use Rattle.std.specs.Option.{option_copied, option_copied_mut};
ghost use Rattle.std.specs.Borrow.{sem};

use crate::Id;
use std::alloc::Global;
use std::marker::{Model, PhantomData};

/// The most values that an arena holds.
const LIMIT: usize = u32::MAX as usize;

/// Why room for more values was refused.
#[derive(Clone, Copy, Debug, PartialEq, Eq)]
pub enum ArenaFault {
    /// No numbers are left.
    Full,
    /// Want of memory.
    Memory,
}

/// Values by number, and a count of those that can still be added without a refusal. Contracts see
/// the list of the values and that count, `spare`. `K` is the kind that its ids name.
#[derive(Drop)]
pub struct Arena<T, K = T> {
    items: Vec<T>,
    spare: u32,
    kind: PhantomData<K>,
}

impl<T, K> Model for Arena<T, K> {
    ghost use Rattle.std.specs.Prelude.{◌+◌, ◌≤◌, ◌^◌, ◌-◌, vec_len, vec_capacity};
    ghost use Rattle.lanes_arena.specs.Arena.{Held};

    ghost Value = { Held T };

    ghost view = { λ a. record { items = a.items.items; spare = a.spare } };

    ghost invariant = { λ a. (vec_len a.items + a.spare ≤ 2 ^ 32 - 1)
        × (vec_len a.items + a.spare ≤ vec_capacity a.items) };
}

impl<T, K> Arena<T, K> {
    ghost use Rattle.lanes_arena.specs.LendsValue.{lends_value, lends_found};

    /// An arena without values, which takes no memory.
    pub fn new(alloc: Global) -> Arena<T, K>
        ensures items { result.items ≡ [] }
        ensures spare { result.spare ≡ 0 }
    {
        Arena {
            items: Vec::new(alloc),
            spare: 0,
            kind: PhantomData,
        }
    }

    /// How many values there are.
    #[inline]
    pub fn len(&self) -> u32
        ensures len { result ≡ length self.now.items }
        ensures limit { length self.now.items + self.now.spare ≤ 2 ^ 32 - 1 }
    {
        let _spare = self.spare;
        self.items.len() as u32
    }

    /// Makes room for `n` more values. `Full` comes first, and where `n` more would be more than
    /// 2^32 - 1.
    pub fn reserve(&mut self, n: usize) -> Result<(), ArenaFault>
        ensures items { self.new.items ≡ self.old.items }
        ensures ok { OnOk result (self.new.spare ≡ max n self.old.spare) }
        ensures full { (result ≡ Err ArenaFault.Full) ↔ (2 ^ 32 - 1 < length self.old.items + n) }
        ensures err { OnErr result (self.new ≡ self.old) }
    {
        let len = self.items.len();
        if n > LIMIT - len {
            return Err(ArenaFault::Full);
        }
        let more = n as u32;
        if more <= self.spare {
            return Ok(());
        }
        if self.items.reserve(n).is_err() {
            return Err(ArenaFault::Memory);
        }
        self.spare = more;
        Ok(())
    }

    /// Adds a value for which room was made. Its number is how many there were.
    pub fn push(&mut self, value: T) -> Id<K>
        requires { 0 < self.old.spare }
        ensures number { result.number ≡ length self.old.items }
        ensures below_limit { result.number < 2 ^ 32 - 1 }
        ensures items { self.new.items ≡ self.old.items ++ value ∷ [] }
        ensures spare { self.new.spare ≡ self.old.spare - 1 }
    {
        let number = self.items.len() as u64;
        self.items.push_reserved(value);
        self.spare -= 1;
        Id {
            number,
            kind: PhantomData,
        }
    }

    /// The value of this number.
    #[inline]
    pub fn get(&self, id: Id<K>) -> &T
        requires { id.number < length self.now.items }
        ensures { slice_get self.now.items id.number ≡ Some result.now }
    {
        &self.items[id.number as usize]
    }

    /// The value of this number, for writing.
    #[inline]
    pub fn get_mut(&mut self, id: Id<K>) -> &mut T
        requires { id.number < length self.old.items }
        ensures* writes_back { sem 𝓛 (lends_value T.row K.row self.entry id.number result) }
        ensures value { slice_get self.old.items id.number ≡ Some result.now }
    {
        &mut self.items[id.number as usize]
    }

    /// The value of this number, where there is one.
    #[inline]
    pub fn find(&self, id: Id<K>) -> Option<&T>
        ensures { option_copied result ≡ slice_get self.now.items id.number }
    {
        self.items.get(id.number as usize)
    }

    /// The value of this number, where there is one, for writing.
    #[inline]
    pub fn find_mut(&mut self, id: Id<K>) -> Option<&mut T>
        ensures* writes_back { sem 𝓛 (lends_found T.row K.row self.entry id.number result) }
        ensures value { option_copied_mut result ≡ slice_get self.old.items id.number }
    {
        self.items.get_mut(id.number as usize)
    }

    /// The id of the value that is added once `n` more were added.
    #[inline]
    pub fn id_ahead(&self, n: u32) -> Id<K>
        ensures { result.number ≡ length self.now.items + n }
    {
        Id {
            number: self.len() as u64 + n as u64,
            kind: PhantomData,
        }
    }
}
