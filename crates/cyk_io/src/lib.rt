//! Lines and blocks of bytes from one source, and bytes to one sink. Each fault that a call answers
//! is one that the source or the sink has counted.
#![tactic(auto)]

mod ahead;
mod block;
mod fault;
mod gathering;
mod laws;
mod line;
mod memory;
mod pieces;
mod sink;
mod source;
mod standard;
#[cfg(test)]
mod tests;

pub use ahead::Ahead;
pub use block::{ReadBlock, read_exact_n};
pub use fault::IoFault;
pub use gathering::Gathered;
pub use laws::{each_block_has_one_answer, each_line_has_one_answer};
pub use line::{Line, ReadLine, read_line};
pub use memory::{CleanSink, CleanSource};
pub use pieces::{ByteSink, ByteSource};
pub use sink::{Sink, SinkFault, write_all_counted};
pub use source::{Failed, Source};
pub use standard::{StdSink, StdSource};
