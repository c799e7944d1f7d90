//! The grammar of queries: which query a text spells, and the place at which a text is refused.
//!
//! It depends on `soql`, which has the queries, on `base_grammar` and on `base_value`. It has the definitions alone, with what
//! the grammar sees of a token, so that the model can cite them. `soql_parser` reads texts by it.

mod laws;
mod sign;

pub use self::laws::spelling_laws;
pub use self::sign::{Sign, SignKind};
