//! A text of bytes.
ghost use Rattle.std.specs.Prelude.{◌≡◌, ◌≤◌, ◌-◌, length, take, drop, IfOk, nat_eq};
ghost use Rattle.std.specs.Cmp.{partial_equiv_from_equiv};
ghost use Rattle.std.specs.Cmp.Lexicographic.{pointwise, nat_list_eq_equiv};
ghost use Rattle.std.specs.Cmp.Rules.{hashing};
ghost use Rattle.std.specs.Hash as fed;
ghost use Rattle.std.proofs.Common.{rules};

use std::alloc::{AllocError, Global};
use std::fmt;
use std::fmt::{Debug, Formatter, Write};
use std::hash::{Hash, Hasher};
use std::marker::Model;
use std::sync::ArcSlice;

/// A text of any bytes, which need not be UTF-8. Contracts see the list of its bytes. It is a range
/// of bytes that never change, so copies and parts of it share them, in any threads.
#[derive(Drop)]
pub struct Bytes {
    shared: ArcSlice<u8>,
    start: u32,
    size: u32,
}

impl Model for Bytes {
    ghost use Rattle.std.specs.Prelude.{◌≤◌, ◌<◌, ◌+◌, ◌^◌, List, ℕ, length, take, drop};
    ghost use Rattle.std.specs.Coded.{coded_list, coded_ℕ};
    ghost use Rattle.std.specs.Arc.{arc_slice_items};

    ghost Value = { List ℕ };

    ghost coded = { coded_list coded_ℕ };

    ghost view = { λ text. take text.size (drop text.start (arc_slice_items text.shared)) };

    ghost invariant = { λ text. (text.start + text.size ≤ length (arc_slice_items text.shared))
        × (length (arc_slice_items text.shared) < 2 ^ 32) };
}

impl Bytes {
    /// A text of these bytes. It is refused for want of memory, and above 4,294,967,295 bytes.
    pub fn of(alloc: Global, bytes: &[u8]) -> Result<Bytes, AllocError>
        ensures { IfOk result (λ text. text ≡ bytes.now) }
    {
        Bytes::from_vec(bytes.to_vec(alloc)?)
    }

    /// The text of these bytes, which are not copied. It is refused for want of memory, and above
    /// 4,294,967,295 bytes.
    pub fn from_vec(bytes: Vec<u8>) -> Result<Bytes, AllocError>
        ensures { IfOk result (λ text. text ≡ bytes.items) }
    {
        let Ok(size) = u32::try_from(bytes.len()) else {
            return Err(AllocError);
        };
        Ok(Bytes {
            shared: ArcSlice::from_vec(bytes)?,
            start: 0,
            size,
        })
    }

    #[inline]
    pub fn as_slice(&self) -> &[u8]
        ensures { result.now ≡ self.now }
    {
        let start = self.start as usize;
        &self.shared.as_slice()[start..start + self.size as usize]
    }

    /// The bytes from one offset up to another. They are shared with this text. The only refusal is
    /// of more than 2^63 shares.
    #[tactic(auto, using(crate::proofs::Parts::part_rules))]
    pub fn part(&self, start: usize, end: usize) -> Result<Bytes, AllocError>
        requires order { start ≤ end }
        requires within { end ≤ length self.now }
        ensures { IfOk result (λ text. text ≡ take (end - start) (drop start self.now)) }
    {
        Ok(Bytes {
            shared: self.shared.clone()?,
            start: self.start + start as u32,
            size: (end - start) as u32,
        })
    }

    /// A second text of the same bytes, which it shares with this one. The only refusal is of more
    /// than 2^63 shares.
    pub fn copy(&self) -> Result<Bytes, AllocError>
        ensures { IfOk result (λ text. text ≡ self.now) }
    {
        Ok(Bytes {
            shared: self.shared.clone()?,
            start: self.start,
            size: self.size,
        })
    }
}

impl Debug for Bytes {
    fn fmt<W: Write>(&self, f: &mut Formatter<W>) -> fmt::Result {
        self.as_slice().fmt(f)
    }
}

impl PartialEq for Bytes {
    ghost eq = { pointwise nat_eq };

    ghost laws = { partial_equiv_from_equiv nat_list_eq_equiv };

    fn eq(&self, other: &Bytes) -> bool {
        self.as_slice() == other.as_slice()
    }
}

impl Eq for Bytes {
    ghost laws = { nat_list_eq_equiv };
}

impl Hash for Bytes {
    ghost hash_input = { fed.slice fed.u8 };

    ghost respects_eq = { Prim.search (hashing, rules) };

    fn hash<H: Hasher>(&self, state: &mut H) {
        self.as_slice().hash(state);
    }
}
