//! What a program says beside a run, which its contract doesn't know: where an input is refused, and how far the output has
//! come.
//!
//! It depends on the outside (`base_io`) and the tables of CSV (`base_csv`). Its contract: `KeptSource` and `CountedSink` hand on
//! what the source and the sink in them read and take, each byte once and no other, and fail exactly if these do.
//!
//! # Example
//!
//! ```
//! let mut source = KeptSource::new(alloc, MemorySource::new(alloc, b"Name\nAda,Bob\n", &[])?, true);
//! // .. a reader of CSV reads it to its end, and refuses it
//! let place = place_of(alloc, source.kept().unwrap_or(&[]));      // Some((2, 2))
//! ```
#![tactic(auto)]

mod counted_sink;
mod front;
mod kept_source;
mod place;
mod refused;

pub use crate::counted_sink::CountedSink;
pub use crate::kept_source::KeptSource;
pub use crate::place::place_of;
pub use crate::refused::{Refused, refused_in};
