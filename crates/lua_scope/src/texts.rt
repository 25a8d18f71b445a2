//! The texts of a program, each once.
ghost use Rattle.std.specs.Prelude.{◌≡◌, [], IfOk, OnOk};
ghost use Rattle.lanes_arena.specs.Names.{named, number_of};

use crate::build::narrow;
use indexmap::IndexSet;
use lanes_arena::{Bytes, Row};
use std::alloc::{AllocError, Global};
use std::marker::Model;

/// Texts in the order in which they were first named, each once. Contracts see the list.
#[derive(Drop)]
pub struct Texts {
    set: IndexSet<Bytes>,
}

impl Model for Texts {
    ghost use Rattle.std.specs.Prelude.{List, ℕ};
    ghost use Rattle.std.specs.Coded.{coded_list, coded_ℕ};

    ghost Value = { List (List ℕ) };

    ghost coded = { coded_list (coded_list coded_ℕ) };

    ghost view = { λ texts. texts.set.keys };
}

impl Texts {
    /// No texts. It takes no memory.
    pub fn new(alloc: Global) -> Texts
        ensures { result ≡ [] }
    {
        Texts {
            set: IndexSet::new(alloc),
        }
    }

    /// The place of a text, which is added last where it is new. A place of more than 32 bits is
    /// answered as want of memory.
    pub fn place(&mut self, text: &Bytes) -> Result<u32, AllocError>
        ensures place { IfOk result (λ place. place ≡ number_of self.old text.now) }
        ensures texts { OnOk result (self.new ≡ named self.old text.now) }
    {
        let (place, _) = self.set.insert_full(text.copy()?)?;
        narrow(place)
    }

    /// The texts as a list.
    pub fn into_list(self, alloc: Global) -> Result<Row<Bytes>, AllocError>
        ensures { IfOk result (λ list. list ≡ self) }
    {
        let mut list = Row::new(alloc);
        for text in self.set {
            list.push(text)?;
        }
        Ok(list)
    }
}
