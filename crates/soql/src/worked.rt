//! Texts that are like a pattern, and texts that aren't, worked out by hand. A comment has the pattern.

ghost use Rattle.std.specs.Prelude.{◌≡◌, ◌∷◌, ◌++◌, [], codes, true, false};
ghost use Rattle.soql.specs.Like.{like};
ghost use Rattle.soql.specs.Worked.{a_to_b, accented_e, e_and_accent, exactly, final_sigma, sharp_s, sigma, street};
ghost use Rattle.soql.specs.declared.query.LikePart.TheVariants.{One, Many};

/// What LIKE takes and what it doesn't take. The call does nothing.
pub fn like_rows()
    // '' and '%'
    ensures nothing { like [] [] ≡ true }
    ensures not_nothing { like [] (codes "a") ≡ false }
    ensures any_of_none { like (Many ∷ []) [] ≡ true }
    ensures any { like (Many ∷ []) (codes "Ada") ≡ true }

    // '_' and '__': characters of the folded text, so two for ß
    ensures one_of_none { like (One ∷ []) [] ≡ false }
    ensures one { like (One ∷ []) (codes "a") ≡ true }
    ensures one_of_two { like (One ∷ []) (codes "ab") ≡ false }
    ensures one_of_sharp_s { like (One ∷ []) sharp_s ≡ false }
    ensures two_of_sharp_s { like (One ∷ One ∷ []) sharp_s ≡ true }

    // 'a%b'
    ensures run { like a_to_b (codes "axxb") ≡ true }
    ensures empty_run { like a_to_b (codes "ab") ≡ true }
    ensures run_with_both { like a_to_b (codes "abab") ≡ true }
    ensures more_behind { like a_to_b (codes "abx") ≡ false }
    ensures more_before { like a_to_b (codes "xab") ≡ false }

    // '%%', '_%_', '%a%b%' and '%a%ba%b%'
    ensures any_twice { like (Many ∷ Many ∷ []) [] ≡ true }
    ensures two_or_more { like (One ∷ Many ∷ One ∷ []) (codes "ab") ≡ true }
    ensures fewer_than_two { like (One ∷ Many ∷ One ∷ []) (codes "a") ≡ false }
    ensures within { like (Many ∷ a_to_b ++ Many ∷ []) (codes "xaxbx") ≡ true }
    ensures later_run { like (Many ∷ a_to_b ++ a_to_b ++ Many ∷ []) (codes "aabab") ≡ true }
    ensures run_too_few { like (Many ∷ a_to_b ++ a_to_b ++ Many ∷ []) (codes "abb") ≡ false }

    // 'ADA', 'ada ' and 'Ad': case is ignored, a blank isn't, and a beginning isn't enough
    ensures other_case { like (exactly (codes "ADA")) (codes "ada") ≡ true }
    ensures blank { like (exactly (codes "ada ")) (codes "ada") ≡ false }
    ensures beginning { like (exactly (codes "Ad")) (codes "Ada") ≡ false }

    // 'STRASSE', 'stra__e', 'stra_e' and 'stra%' on Straße, and 'Straße' on STRASSE
    ensures street_in_capitals { like (exactly (codes "STRASSE")) street ≡ true }
    ensures street_with_two { like (exactly (codes "stra") ++ One ∷ One ∷ exactly (codes "e")) street ≡ true }
    ensures street_with_one { like (exactly (codes "stra") ++ One ∷ exactly (codes "e")) street ≡ false }
    ensures street_with_any { like (exactly (codes "stra") ++ Many ∷ []) street ≡ true }
    ensures street_as_pattern { like (exactly street) (codes "STRASSE") ≡ true }

    // 'ς' on Σ, and 'é' on e with an accent behind it, which is another text
    ensures sigmas { like (exactly final_sigma) sigma ≡ true }
    ensures accents { like (exactly accented_e) e_and_accent ≡ false }

    // '50\%', 'a\_b' and 'a_b'
    ensures percent { like (exactly (codes "50%")) (codes "50%") ≡ true }
    ensures no_percent { like (exactly (codes "50%")) (codes "500") ≡ false }
    ensures underscore { like (exactly (codes "a_b")) (codes "a_b") ≡ true }
    ensures no_underscore { like (exactly (codes "a_b")) (codes "axb") ≡ false }
    ensures wildcard { like (exactly (codes "a") ++ One ∷ exactly (codes "b")) (codes "axb") ≡ true }
    ensures wildcard_itself { like (exactly (codes "a") ++ One ∷ exactly (codes "b")) (codes "a_b") ≡ true }
{}
