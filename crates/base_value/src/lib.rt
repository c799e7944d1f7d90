//! The values that every layer speaks of: texts, bytes, lists, ids, values of fields and their types.
//!
//! It depends on nothing of the product. Its contract: a text is seen as its characters, bytes and lists as what they
//! hold, an id as its fifteen characters. A value is read exactly where a text has one, and then that one; what is
//! printed reads back; conversion, order, order keys and copies are their definitions.
#![tactic(auto)]

mod bytes;
mod checking;
mod comparing;
mod conversion;
mod count;
mod date_text;
mod dates;
mod decimal;
mod exact;
mod fail;
mod forms;
mod id;
mod job;
mod laws;
mod number;
mod numeral;
mod ordering;
mod ordering_laws;
mod printing;
mod reading;
mod rows;
mod sharing;
mod text;
mod value;
mod zones;

pub use crate::bytes::Bytes;
pub use crate::checking::{check_value, is_reference, is_type, suits_indexed, suits_unique};
pub use crate::conversion::{convert, convertible};
pub use crate::date_text::day_of_moment;
pub use crate::dates::{is_written_day, is_written_moment};
pub use crate::decimal::number_text;
pub use crate::exact::exact_size;
pub use crate::fail::{ConvertFail, ValueFail};
pub use crate::id::{Id, NotAnId};
pub use crate::job::{Outcome, Phase, RuleState};
pub use crate::laws::{
    cause_laws, digit_laws, id_laws, id_rows, law_rows, principal_laws, value_laws,
};
pub use crate::numeral::{is_digit, is_written_number};
pub use crate::ordering::{order, order_key, same_value};
pub use crate::ordering_laws::{order_laws, order_rows};
pub use crate::printing::print_value;
pub use crate::reading::{empty_value, id_in, read_value};
pub use crate::rows::value_rows;
pub use crate::sharing::{Access, Level, Principal, RuleSource};
pub use crate::text::{Text, character_count, is_text};
pub use crate::value::{FieldType, OnDelete, Value};
pub use sqlite_items::{Boxed, Items};
