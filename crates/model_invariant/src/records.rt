//! Records: new ones, other values, and upserts.

ghost use Rattle.std.specs.Prelude.{List, Option, ℕ};
ghost use Rattle.model.specs.Creates.{create};
ghost use Rattle.model.specs.declared.record_bodies.Assignment.{Assignment};
ghost use Rattle.model.specs.Paths.{Asked};
ghost use Rattle.model.specs.Sound.{IsSound};
ghost use Rattle.model.specs.Updates.{update};
ghost use Rattle.model.specs.Upserts.{upsert};
ghost use Rattle.model_invariant.specs.Fit.{IsCaller, OfObjects, ReadsWell, ReadsWellByKey};

use base_value::id_laws;

/// What an edit of a record leaves is sound, if a user of the organisation asks and what is read in the body is of its
/// field's type. The call does nothing.
pub fn records_sound()
    ensures create { (a : Asked) (object : List ℕ) (given : List Assignment) → IsCaller a → OfObjects a (λ o. ReadsWell a o given)
        → IsSound a.tenant → IsSound (create a object given).tenant }
    ensures update { (a : Asked) (object key : List ℕ) (given : List Assignment) → IsCaller a → OfObjects a (λ o. ReadsWell a o given)
        → IsSound a.tenant → IsSound (update a object key given).tenant }
    ensures upsert { (a : Asked) (object key : List ℕ) (text : Option (List ℕ)) (given : List Assignment) → IsCaller a
        → OfObjects a (λ o. ReadsWellByKey a key text o given) → IsSound a.tenant → IsSound (upsert a object key text given).tenant }
{
    id_laws();
}
