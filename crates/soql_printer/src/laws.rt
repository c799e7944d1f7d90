//! What holds of the texts of queries, for the layers above.

ghost use Rattle.std.specs.Prelude.{ℕ, ◌≤◌, List};
ghost use Rattle.soql.specs.grammar.Spelling.{Spells};
ghost use Rattle.soql.specs.declared.query.Query.{Query};
ghost use Rattle.soql_printer.specs.Printing.{printed};
ghost use Rattle.soql_printer.specs.Nesting.{nesting};

/// What is printed of a query is parsed to it again. The call does nothing.
///
/// The query is one that some text spells. Its printed text may have more parentheses than that text, so it is a premise of its
/// own that they and NOT nest at most 32 levels in it.
pub fn printing_laws()
    ensures parsed { (text : List ℕ) (query : Query) → Spells text query → nesting query ≤ 32 → Spells (printed query) query }
{}
