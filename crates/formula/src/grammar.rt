//! The grammar of formulas: which formula a text spells over some fields, and the place at which a text is refused.
//!
//! It depends on `formula`, which has the formulas, on `base_grammar` and on `base_value`. It has the definitions alone, with
//! what the grammar sees of a token, so that the rules of an organisation can cite them. `formula_parser` reads texts by it.

mod laws;
mod sign;

pub use self::laws::spelling_laws;
pub use self::sign::{Kind, Sign, SignKind, Sort, sort_of};
