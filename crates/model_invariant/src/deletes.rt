//! Records: their deletion, with all that it takes along.

ghost use Rattle.std.specs.Prelude.{IsTrue, List, ℕ};
ghost use Rattle.base_value.specs.Dates.{is_moment};
ghost use Rattle.model.specs.Deletes.{delete};
ghost use Rattle.model.specs.Paths.{Asked};
ghost use Rattle.model.specs.Sound.{IsSound};

/// What a delete leaves is sound, if it is asked at a moment of the calendar. The call does nothing.
pub fn deletes_sound()
    ensures delete { (a : Asked) (object key : List ℕ) → IsTrue (is_moment a.now) → IsSound a.tenant → IsSound (delete a object key).tenant }
{}
