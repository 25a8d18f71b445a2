//! Texts by number, each once.
ghost use Rattle.std.specs.Prelude.{◌≡◌, [], ◌<◌, length, slice_get, Some, IsSome, IsOk, IfOk, OnOk, OnErr};
ghost use Rattle.std.specs.Option.{option_map, option_copied};
ghost use Rattle.std.specs.List.{IsDistinct};
ghost use Rattle.std.specs.Str.{bytes_eq};
ghost use Rattle.lanes_arena.specs.Names.{named, number_of, found};

use crate::Memory;
use indexmap::IndexSet;
use std::alloc::Global;
use std::marker::Model;

/// The number of a text.
#[derive(Clone, Copy, Debug, PartialEq, Eq, Hash)]
pub struct NameId {
    number: u64,
}

impl NameId {
    /// The id of this number. It names a text where there are more texts than the number.
    #[inline]
    pub fn at(number: u64) -> NameId
        ensures { result.number ≡ number }
    {
        NameId { number }
    }

    /// The number, counted from 0 in the order in which the texts were first named.
    #[inline]
    pub fn number(self) -> u64
        ensures { result ≡ self.number }
    {
        self.number
    }
}

/// Texts in the order in which they were first named, each once. Contracts see the list of the
/// texts.
#[derive(Drop)]
pub struct Names {
    texts: IndexSet<Vec<u8>>,
    alloc: Global,
}

impl Model for Names {
    ghost use Rattle.std.specs.Prelude.{List, ℕ, map};
    ghost use Rattle.std.specs.Coded.{coded_list, coded_ℕ};

    ghost Value = { List (List ℕ) };

    ghost coded = { coded_list (coded_list coded_ℕ) };

    ghost view = { λ names. map (λ text. text.items) names.texts.keys };
}

impl Names {
    /// No texts. It takes no memory.
    pub fn new(alloc: Global) -> Names
        ensures { result ≡ [] }
    {
        Names {
            texts: IndexSet::new(alloc),
            alloc,
        }
    }

    /// The number of a text, which is added last where it is new. The only refusal is want of
    /// memory.
    pub fn name(&mut self, text: &[u8]) -> Result<NameId, Memory>
        ensures number { IfOk result (λ id. id.number ≡ number_of self.old text.now) }
        ensures texts { OnOk result (self.new ≡ named self.old text.now) }
        ensures held { IfOk result (λ id. slice_get self.new id.number ≡ Some text.now) }
        ensures err { OnErr result (self.new ≡ self.old) }

        // Only a new text can be refused.
        ensures succeeds { IsSome (found self.old text.now) → IsOk result }
        ensures distinct { IsDistinct bytes_eq self.new }
    {
        let _len = self.texts.len();
        if let Some(place) = self.texts.get_index_of(text) {
            return Ok(NameId {
                number: place as u64,
            });
        }
        let text = Vec::from_slice(self.alloc, text)?;
        let (place, _) = self.texts.insert_full(text)?;
        Ok(NameId {
            number: place as u64,
        })
    }

    /// The number of a text that is held.
    pub fn find(&self, text: &[u8]) -> Option<NameId>
        ensures { option_map (λ id. id.number) result ≡ found self.now text.now }
    {
        match self.texts.get_index_of(text) {
            Some(place) => Some(NameId {
                number: place as u64,
            }),
            None => None,
        }
    }

    /// The text of this number.
    #[inline]
    pub fn text(&self, id: NameId) -> &[u8]
        requires { id.number < length self.now }
        ensures text { slice_get self.now id.number ≡ Some result.now }
        ensures distinct { IsDistinct bytes_eq self.now }
    {
        let _len = self.texts.len();
        self.texts.get_index(id.number as usize).unwrap().as_slice()
    }

    /// The text of this number, where there is one.
    #[inline]
    pub fn text_of(&self, id: NameId) -> Option<&[u8]>
        ensures { option_copied result ≡ slice_get self.now id.number }
    {
        match self.texts.get_index(id.number as usize) {
            Some(text) => Some(text.as_slice()),
            None => None,
        }
    }
}
