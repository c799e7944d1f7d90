//! The commands of a command line: what its words say, what each command comes to, and how those that print are done over what is
//! handed in.
//!
//! It depends on the outside (`base_io`), the keeper, the tables that stand for a world, and what each command does: `people_edit`,
//! `cmd_user_set`, `cmd_csvq`, `cmd_demo`, `cmd_export` and `cmd_load`. Its contract: the words are taken apart as `command_of` says, and what a command
//! that prints writes, and the world that it leaves, are those of the definition `printed`.
#![tactic(auto)]

mod command;
mod csvq;
mod demo;
mod export;
mod input;
mod load;
mod org_add;
mod printing;
mod printout;
mod stop;
mod tables;
mod user_set;

pub use crate::command::{Words, is_count, is_record_count, read_words, uses_keeper};
pub use crate::csvq::InputFail;
pub use crate::demo::print_demo;
pub use crate::export::Exporting;
pub use crate::load::{Load, print_load};
pub use crate::org_add::OrgAdd;
pub use crate::printing::{
    CsvqStop, StoreStop, csvq_status, print_csvq, print_tables, store_status,
};
pub use crate::printout::Printout;
pub use crate::stop::Stop;
pub use crate::tables::TableWork;
pub use crate::user_set::UserSet;
