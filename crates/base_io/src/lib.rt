//! The outside as traits: sources and sinks of bytes, doors of connections, clocks.
//!
//! It depends on `base_value`. Its contract: what an object holds is said where the object tells it, and a call returns a
//! failure only where the object's count of faults rose in that call.
//!
//! # Example
//!
//! ```
//! let mut source = MemorySource::new(alloc, b"abc", &[])?;
//! let mut sink = MemorySink::new(alloc, 3, &[])?;
//! let bytes = read_all(alloc, &mut source, 3)?;
//! write_all(&mut sink, bytes.as_slice())?;
//! // The source has nothing left, and `sink.written()` is `b"abc"`.
//! ```
#![tactic(auto)]

mod all;
mod clock;
mod copied;
mod door;
mod memory_door;
mod memory_sink;
mod memory_source;
mod polling;
mod reply_lines;
mod schedule;
mod signals;
mod standard;
mod stoppable_door;
mod tcp_connection;
mod tcp_door;
mod tcp_listener;
mod traits;
mod whole;

pub use crate::all::{ReadFail, read_all};
pub use crate::clock::{Clock, MemoryClock, SystemClock};
pub use crate::door::{Door, Line};
pub use crate::memory_door::MemoryDoor;
pub use crate::memory_sink::MemorySink;
pub use crate::memory_source::MemorySource;
pub use crate::standard::{StdSink, StdSource};
pub use crate::stoppable_door::StoppableDoor;
pub use crate::tcp_door::TcpDoor;
pub use crate::traits::{IoFail, Sink, Source};
pub use crate::whole::write_all;
