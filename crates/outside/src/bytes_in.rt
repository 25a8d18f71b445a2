//! A source in memory.
ghost use Rattle.std.specs.Prelude.{◌≡◌, ◌<◌, ◌↔◌, [], length, take, min, Some, IfOk, IsErr, Contains};
ghost use Rattle.std.specs.Io.{ReadsAtMost};
ghost use Rattle.std.specs.Io.KnownBytes.{ReadConsumes};
ghost use Rattle.outside.specs.Faults.{HasCause, one_more};

use crate::source::{ReadFault, Source};
use std::marker::Model;

/// The most bytes that one read gives.
const MOST_BYTES: usize = 4096;

/// A source of known bytes, of which the listed calls fail.
#[derive(Drop)]
pub struct BytesIn {
    bytes: Vec<u8>,
    at: usize,
    fails: Vec<u64>,
    calls: u64,
    faults: u64,
}

impl Model for BytesIn {
    ghost use Rattle.std.specs.Prelude.{◌≤◌, drop, length};
    ghost use Rattle.outside.specs.Memory.{Supply};

    ghost Value = { Supply };

    ghost view = { λ s. record {
      left = drop s.at s.bytes.items;
      fails = s.fails.items;
      calls = s.calls;
      faults = s.faults;
    } };

    ghost invariant = { λ s. s.at ≤ length s.bytes.items };
}

impl BytesIn {
    /// A source of these bytes. It gives at most 4,096 bytes a call, and the calls whose numbers,
    /// from 1, are in `fails` are faults.
    pub fn new(bytes: Vec<u8>, fails: Vec<u64>) -> BytesIn
        ensures { result
            ≡ record { left = bytes.items; fails = fails.items; calls = 0; faults = 0 } }
    {
        BytesIn {
            bytes,
            at: 0,
            fails,
            calls: 0,
            faults: 0,
        }
    }
}

impl Source for BytesIn {
    ghost left = { λ source. Some source.left };

    ghost faults = { λ source. source.faults };

    // The clauses of the trait, and then which calls fail and how many bytes the others give.
    fn read(&mut self, into: &mut [u8]) -> Result<usize, ReadFault>
        requires { 0 < length into.old }
        ensures bound { ReadsAtMost result into.new }
        ensures bytes { ReadConsumes (Some self.old.left) (Some self.new.left) result into.new }
        ensures cause { HasCause self.old.faults self.new.faults result }
        ensures listed { IsErr result ↔ Contains self.old.fails (one_more self.old.calls) }
        ensures count { IfOk result
            (λ n. n ≡ min (min (length self.old.left) (length into.old)) 4096) }
        ensures calls { self.new.calls ≡ one_more self.old.calls }
        ensures fails { self.new.fails ≡ self.old.fails }
    {
        self.calls = self.calls.saturating_add(1);
        if self.fails.contains(&self.calls) {
            self.faults = self.faults.saturating_add(1);
            return Err(ReadFault);
        }
        let count = copy_front(into, &self.bytes[self.at..]);
        self.at += count;
        Ok(count)
    }
}

// Copies the first bytes, as many as fit and at most `MOST_BYTES`, and says how many.
fn copy_front(into: &mut [u8], from: &[u8]) -> usize
    ensures count { result ≡ min (min (length from.now) (length into.old)) 4096 }
    ensures copied { take result into.new ≡ take result from.now }
{
    let count = from.len().min(into.len()).min(MOST_BYTES);
    into[..count].copy_from_slice(&from[..count]);
    count
}
