//! A page of records that a step of a change of a field's type copies or clears: which rows differ, and their changes.
//!
//! It depends on `record_index` for the rows of one record, and on `record_index` for those of an organisation that don't differ. Its
//! contract: by the changes of a page and by that of the change itself an organisation's change has come to the last of the page.

mod laws;
mod layouts;
mod pages;

pub use self::laws::progress_laws;
pub use self::pages::page_changes;
