//! What a program reads from and writes to: traits that count their faults, parts in memory for
//! tests and embedders, and adapters over std's readers and writers.
#![tactic(auto)]

mod bytes_in;
mod bytes_out;
mod file;
mod sink;
mod source;

pub use bytes_in::BytesIn;
pub use bytes_out::BytesOut;
pub use file::{FileIn, FileOut};
pub use sink::{Sink, WriteFault};
pub use source::{ReadFault, Source};
