//! What holds of tokens, for the layers above.

ghost use Rattle.std.specs.Prelude.{◌≡◌, ℕ, List};
ghost use Rattle.base_grammar.specs.Lexing.{tokens_of};
ghost use Rattle.base_grammar.specs.Tokens.{AreTokens, Lexis};
ghost use Rattle.base_grammar.specs.declared.token.Placed.{Placed};

/// The laws of tokens. The call does nothing.
pub fn token_laws()
    // Every text has tokens, which `tokens_of` computes, and only one list of them.
    ensures meets { (lexis : Lexis) (cs : List ℕ) → AreTokens lexis 0 cs (tokens_of lexis 0 cs) }
    ensures one_list { (lexis : Lexis) (cs : List ℕ) (ts us : List Placed) → AreTokens lexis 0 cs ts → AreTokens lexis 0 cs us → ts ≡ us }
{}
