//! The rows of a query over one object: its records that pass a test, without the first few and at most so many, written as they
//! come or in an order.
//!
//! It depends on `record_read`. Its contract: where an organisation's rows stand for a tenant it appends exactly the rows that the
//! tenant's records make, and tells how many they are, unless they have more bytes than there is room for. What a row is, how it
//! is written, how rows are ordered, and which parents and children a record has comes from traits.
#![tactic(auto)]

mod asked;
mod candidates;
mod fail;
mod offers;
mod pages;
mod permitted;
mod ranked;
mod relatives;
mod rows;
mod seen;
mod sorted;
mod window;

pub use crate::asked::{Keeps, RowForm};
pub use crate::fail::ExecFail;
pub use crate::ranked::{Ranked, Ranks};
pub use crate::relatives::{NoRelatives, Relatives};
pub use crate::rows::write_rows;
pub use crate::seen::SeenRecord;
pub use crate::sorted::{put_in_order, write_sorted_rows};
pub use crate::window::Window;
