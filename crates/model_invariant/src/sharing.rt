//! Sharing rules and manual shares.

ghost use Rattle.std.specs.Prelude.{IsTrue, List, Option, ℕ};
ghost use Rattle.model.specs.Paths.{Asked};
ghost use Rattle.model.specs.declared.people_bodies.Spelled.{Spelled};
ghost use Rattle.model.specs.declared.sharing_bodies.NewShare.{NewShare};
ghost use Rattle.model.specs.Shares.{share, unshare};
ghost use Rattle.model.specs.declared.sharing_bodies.NewSharingRule.{NewSharingRule};
ghost use Rattle.model.specs.SharingRules.{add_sharing_rule, remove_sharing_rule};
ghost use Rattle.model.specs.Sound.{IsSound};
ghost use Rattle.model.specs.Tenant.{Tenant};
ghost use Rattle.model_invariant.specs.Fit.{is_fit_rule, is_fit_share};

/// What a request about sharing leaves is sound, if its body has the form that every body has that is read. The call does
/// nothing.
pub fn sharing_sound()
    ensures add_rule { (t : Tenant) (b : NewSharingRule) → IsTrue (is_fit_rule b)
        → IsSound t → IsSound (add_sharing_rule t b).tenant }
    ensures remove_rule { (t : Tenant) (name : List ℕ) → IsSound t → IsSound (remove_sharing_rule t name).tenant }
    ensures share { (a : Asked) (b : NewShare) → IsTrue (is_fit_share b) → IsSound a.tenant → IsSound (share a b).tenant }
    ensures unshare { (a : Asked) (item part : List ℕ) (to : Option Spelled)
        → IsSound a.tenant → IsSound (unshare a item part to).tenant }
{}
