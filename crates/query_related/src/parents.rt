//! The records that refer to a record, and the parents that a row needs, as who asks may read them.
//!
//! It depends on `record_read` for records, on `access_traits` for what who asks may read, on `record_references` for the ids of the records that
//! refer to one, and for branches on `query_plan`, and on `query_plan` for the values of a row's record. Its contract: over tables in which
//! an organisation's rows stand for a tenant it finds a page of a record's children, and the records of branches, as
//! the user of the tenant may read them whose rights are passed.

mod branches;
mod children;
mod parents;
mod readable;

pub use self::branches::records_of_branches;
pub use self::children::{ChildPage, children_of};
