//! The keys and rows of the tables, and how they are read and written.
//!
//! A form of rows is a struct with an impl of `RowForm`; what is done with rows is written once, for all forms. This crate
//! depends on `base_value`, `store_kv` and `store_codec`. Its contract: `read` returns a row exactly if key and bytes spell
//! one, and then that one; what is read at a key is the row that the tables have there; and of tables that have certain
//! rows the laws say which rows they have after a change, and which an interval has.
#![tactic(auto)]

mod data;
mod fail;
mod field;
mod form;
mod grant;
mod group;
mod index;
mod job;
mod laws;
mod object;
mod ops;
mod org;
mod owner;
mod relation;
mod role;
mod scans;
mod share;
mod sharing;
mod unique;
mod user;
mod validation;
mod version;

pub use crate::data::DataRow;
pub use crate::fail::StoreFail;
pub use crate::field::FieldRow;
pub use crate::form::RowForm;
pub use crate::grant::GrantRow;
pub use crate::group::GroupRow;
pub use crate::index::IndexRow;
pub use crate::job::JobRow;
pub use crate::laws::{listing_laws, row_laws, table_laws};
pub use crate::object::ObjectRow;
pub use crate::ops::{put, row_at};
pub use crate::org::OrgRow;
pub use crate::owner::OwnerRow;
pub use crate::relation::RelationRow;
pub use crate::role::RoleRow;
pub use crate::scans::page_under;
pub use crate::share::ShareRow;
pub use crate::sharing::SharingRow;
pub use crate::unique::UniqueRow;
pub use crate::user::UserRow;
pub use crate::validation::ValidationRow;
pub use crate::version::VersionRow;
pub use store_codec::{
    CodecFail, FieldFlags, Mark, ObjectAccess, Part, Slots, UserStanding, spelling_of,
};
