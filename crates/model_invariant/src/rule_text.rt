//! How the texts of rules' formulas are read: by the grammar of formulas, over the fields of an object.
//!
//! It depends on `formula`, and on `model`, which defines how a text is read (`reads_text`). Its contract: what
//! `reads_text` reads is what the text spells, and `reads_text` has what soundness asks of such a reading.

mod texts;

pub use self::texts::{text_laws, text_rows};
