//! The trusted edge: a source over any reader of std, and a sink over any writer. A real file tells
//! no content.

ghost use Rattle.std.specs.Prelude.{◌≡◌};

use crate::sink::{Sink, WriteFault};
use crate::source::{ReadFault, Source};
use std::io::{Read, Write};

/// A source over a reader. Each `Err` of the reader is a fault.
#[derive(Drop)]
pub struct FileIn<R> {
    inner: R,
    faults: u64,
}

impl<R> FileIn<R> {
    /// This reader, with no fault so far.
    pub fn new(inner: R) -> FileIn<R>
        ensures { result ≡ record { inner = inner; faults = 0 } }
    {
        FileIn { inner, faults: 0 }
    }
}

impl<R: Read> Source for FileIn<R> {
    ghost left = { λ source. R.remaining source.inner };

    ghost faults = { λ source. source.faults };

    fn read(&mut self, into: &mut [u8]) -> Result<usize, ReadFault> {
        match self.inner.read(into) {
            Ok(count) => Ok(count),
            Err(_) => {
                self.faults = self.faults.saturating_add(1);
                Err(ReadFault)
            }
        }
    }
}

/// A sink over a writer. Each `Err` of the writer is a fault, and so is a write that takes nothing.
#[derive(Drop)]
pub struct FileOut<W> {
    inner: W,
    faults: u64,
}

impl<W> FileOut<W> {
    /// This writer, with no fault so far.
    pub fn new(inner: W) -> FileOut<W>
        ensures { result ≡ record { inner = inner; faults = 0 } }
    {
        FileOut { inner, faults: 0 }
    }
}

impl<W: Write> Sink for FileOut<W> {
    ghost taken = { λ sink. W.contents sink.inner };

    ghost faults = { λ sink. sink.faults };

    fn write(&mut self, piece: &[u8]) -> Result<usize, WriteFault> {
        match self.inner.write(piece) {
            Ok(count) if count > 0 => Ok(count),
            _ => {
                self.faults = self.faults.saturating_add(1);
                Err(WriteFault)
            }
        }
    }
}
