//! What it means that tables stand for a world, and the reads and writes of typed rows that all operations share.
//!
//! It depends on `model` and `store_rows`. Its contract: what is read of an organisation whose rows stand for a tenant is what
//! the tenant has there, whatever the rows of others are; and tables with the rows of a new or changed organisation stand for the
//! world with it.
#![tactic(auto)]

mod calls;
mod ending;
mod fail;
mod judged;
mod laws;
mod layout;
mod layout_reads;
mod local;
mod opening;
mod reads;
mod records;
mod rows;

pub use crate::calls::{call_laws, ended_laws};
pub use crate::ending::finish;
pub use crate::fail::{EditFail, OpenFail};
pub use crate::judged::Judged;
pub use crate::laws::{change_rows, stands_laws, stands_rows};
pub use crate::layout::{FieldPlace, JobPlace, Layout};
pub use crate::layout_reads::{change_row, layout_at, layout_named, layouts};
pub use crate::local::local_laws;
pub use crate::opening::{KNOWN_VERSION, open_tables};
pub use crate::reads::user;
pub use crate::records::{metadata_laws, record_laws, slot_laws};
pub use crate::rows::{object_there, org_row, org_there, rule_row};
