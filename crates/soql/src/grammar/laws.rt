//! What holds of texts of queries, for the layers above.

ghost use Rattle.std.specs.Prelude.{◌≡◌, ℕ, List, Some, None};
ghost use Rattle.soql.specs.declared.query.Query.{Query};
ghost use Rattle.soql.specs.grammar.Spelling.{IsRefusedAt, Spells, place_in, query_in};

/// What holds of texts and the queries that they spell. The call does nothing.
pub fn spelling_laws()
    // `query_in` computes the one query that a text spells.
    ensures spelled { (text : List ℕ) (query : Query) → query_in text ≡ Some query → Spells text query }
    ensures computed { (text : List ℕ) (query : Query) → Spells text query → query_in text ≡ Some query }

    // A text that spells none is refused at one place, which `place_in` computes.
    ensures refused { (text : List ℕ) (end : ℕ) → query_in text ≡ None → IsRefusedAt text end (place_in text end) }
    ensures one_place { (text : List ℕ) (end p q : ℕ) → IsRefusedAt text end p → IsRefusedAt text end q → p ≡ q }
{}
