//! The premises of laws on sound organisations, met by a small one.

ghost use Rattle.std.specs.Prelude.{◌≡◌, Some, codes, slice_get, true};
ghost use Rattle.model.specs.declared.record.Record.{Record};
ghost use Rattle.model.specs.Known.{known, names_any};
ghost use Rattle.model.specs.Membership.{Has};
ghost use Rattle.model.specs.Sound.{IsSound};
ghost use Rattle.model.specs.Tenant.{Object};
ghost use Rattle.model_invariant.specs.Worked.{acme, founder, with_deal, with_deals};

use crate::fits::fit_laws;
use crate::objects::objects_sound;
use crate::records::records_sound;
use model::organisation_laws;

/// An organisation that is sound when it is new, with an object, and with a record, each from the one before by the laws: what
/// `number_laws`, and `record_laws` and `administrator_laws` of `model`, take as given. The call does nothing.
pub fn sound_rows()
    ensures new { IsSound acme }
    ensures object { IsSound with_deals }
    ensures record { IsSound with_deal }

    // It has the object, the record, an administrator, and a number that is used.
    ensures numbered { (o : Object) × (slice_get with_deal.objects 0 ≡ Some o) }
    ensures has { (r : Record) × Has with_deal.records r × (r.id ≡ codes "a00000000000001") }
    ensures administrator { Has with_deal.users founder × (founder.admin ≡ true) }
    ensures used { names_any (known with_deal) (codes "a00000000000001") ≡ true }
{
    organisation_laws();
    objects_sound();
    records_sound();
    fit_laws();
}
