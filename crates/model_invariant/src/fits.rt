//! That what is read of a body has the form that the laws take as given.

ghost use Rattle.std.specs.List.{list_all};
ghost use Rattle.std.specs.Prelude.{IsTrue, List, Option, true, ℕ, ◌≡◌};
ghost use Rattle.std.specs.Str.{all_scalars};
ghost use Rattle.model.specs.Cases.{in_case};
ghost use Rattle.model.specs.declared.record_bodies.Assignment.{Assignment};
ghost use Rattle.model.specs.Paths.{Asked};
ghost use Rattle.model.specs.Sound.{IsSound};
ghost use Rattle.model.specs.Tenant.{Object};
ghost use Rattle.model_invariant.specs.Fit.{OfObjects, ReadsWell, ReadsWellByKey, SpellsCharacters, is_spelled};

use base_json::json_laws;
use base_value::value_laws;

/// What is given in JSON, in texts of characters, is read as values of its fields' types, and so is the key of an upsert. In
/// every body that is read, the members that are texts are of characters. The call does nothing.
pub fn fit_laws()
    ensures given { (a : Asked) (o : Object) (given : List Assignment) → IsTrue (list_all (λ x. is_spelled x.given) given) → ReadsWell a o given }
    ensures key { (a : Asked) (key : List ℕ) (text : Option (List ℕ)) (given : List Assignment) → IsSound a.tenant
        → IsTrue (list_all (λ x. is_spelled x.given) given) → IsTrue (in_case text true all_scalars)
        → OfObjects a (λ o. ReadsWellByKey a key text o given) }
    ensures spelled { (body : List ℕ) → SpellsCharacters body }
{
    json_laws();
    value_laws();
}
