//! What rows are ordered by, made once a row.
//!
//! It depends on `query_plan` for keys and for the values of a row. Its contract: the order of two ranks, and where they tie that of the
//! ids, is the order of the rows by the keys.

mod laws;
mod ranks;

pub use self::laws::rank_laws;
pub use self::ranks::{Rank, rank_of};
