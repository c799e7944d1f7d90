//! The rows that differ where an edit touches records, in one list.

mod laws;

pub use self::laws::touched_laws;
