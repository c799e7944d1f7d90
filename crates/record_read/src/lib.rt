//! Records and the rows of table 7, by the layout of their object.
//!
//! It depends on `store_abstraction`. Its contract: where an organisation's rows stand for a tenant it reads the records that the tenant
//! has, whatever the rows of others are; a row is read exactly as its layout says, and the row that is made of a record is the
//! one that tables have of it.
#![tactic(auto)]

mod decoding;
mod encoding;
mod laws;
mod reads;

pub use crate::decoding::{has_types, record_of, record_within};
pub use crate::encoding::row_of;
pub use crate::laws::data_laws;
pub use crate::reads::{has_record, load_record, walk, walk_rows};
