//! The only door between the program and the outside: sources and sinks of bytes, and clocks.
#![tactic(auto)]

mod clock;
mod memory;
mod sink;
mod source;
mod status;
mod stream;
mod transfer;

pub use clock::{Clock, FixedClock, SystemClock};
pub use memory::{MemorySink, MemorySource};
pub use sink::{Put, Sink};
pub use source::{Got, Source};
pub use status::ExitStatus;
pub use stream::{StreamSink, StreamSource};
pub use transfer::{Input, read_up_to, write_whole};
