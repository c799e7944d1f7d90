//! What soundness says of the numbers of ids.

ghost use Rattle.std.specs.Prelude.{IsTrue, List, Some, bytes_eq, false, length, map, slice_get, ℕ, ◌≡◌};
ghost use Rattle.base_value.specs.Id.{made};
ghost use Rattle.base_value.specs.Texts.{texts_differ};
ghost use Rattle.model.specs.declared.record.Record.{Record};
ghost use Rattle.model.specs.Known.{NumbersDiffer, known, names_any, number_part};
ghost use Rattle.model.specs.Membership.{Has};
ghost use Rattle.model.specs.Objects.{record_prefix};
ghost use Rattle.model.specs.Same.{drawn_ids};
ghost use Rattle.model.specs.Sound.{IsSound};
ghost use Rattle.model.specs.Tenant.{Object, Tenant};

use base_value::id_laws;

/// That ids with one number are one id says of a sound organisation that the numbers of all its ids differ, and follows from
/// it for any organisation. The call does nothing.
pub fn number_laws()
    ensures differ { (t : Tenant) → IsSound t → IsTrue (texts_differ (map number_part (drawn_ids t))) }
    ensures one { (t : Tenant) → IsTrue (texts_differ (map number_part (drawn_ids t))) → NumbersDiffer (known t) }

    // An id with the next number names nothing yet, whatever its prefix; and so it is no record's.
    ensures unnamed { (t : Tenant) (prefix : List ℕ) → IsSound t → length prefix ≡ 3
        → names_any (known t) (made prefix t.counter) ≡ false }
    ensures fresh { (t : Tenant) (n : ℕ) (o : Object) → IsSound t → slice_get t.objects n ≡ Some o
        → (y : Record) → Has t.records y → bytes_eq y.id (made (record_prefix n) t.counter) ≡ false }
{
    id_laws();
}
