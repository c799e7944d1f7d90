//! Which rows stay where a sharing rule comes or goes.

ghost use Rattle.std.specs.Prelude.{◌≡◌, ◌<◌, ◌+◌, ◌^◌, ℕ, List, None, Some, false, is_some, length, map};
ghost use Rattle.std.specs.List.{list_any};
ghost use Rattle.std.specs.Str.{IsUtf8};
ghost use Rattle.store_rows.specs.Forms.{FitsForm, row_bytes};
ghost use Rattle.store_rows.specs.Keys.{Key, Sharing as SharingKey};
ghost use Rattle.store_rows.specs.Rows.{sharing_form};
ghost use Rattle.model.specs.Fields.{same_name};
ghost use Rattle.model.specs.Membership.{Has};
ghost use Rattle.model.specs.SharingRules.{with_rule};
ghost use Rattle.model.specs.Sound.{IsSound};
ghost use Rattle.model.specs.Tenant.{SharingRule, Tenant};
ghost use Rattle.access_rules.specs.Sharing.{is_sharing_key, without_rule};
ghost use Rattle.store_abstraction.specs.Metadata.{lower_bytes, named_so, sharing_of};
ghost use Rattle.store_abstraction.specs.Plan.{OrgPlan};
ghost use Rattle.store_abstraction.specs.Records.{is_org_key};
ghost use Rattle.store_abstraction.specs.Stands.{row_in};

use base_value::id_laws;
use model::name_laws;

/// The laws of the rows of sharing rules: which stay where one comes or goes, and what its own row is then. The call does nothing.
pub fn sharing_laws()
    // All rows stay but the organisation's and the rule's own.
    ensures rule { (p : OrgPlan) (t : Tenant) (r : SharingRule) (k : Key) → is_org_key k ≡ false → is_sharing_key r.name k ≡ false
        → row_in p (with_rule r t) k ≡ row_in p t k }
    ensures no_rule { (p : OrgPlan) (t : Tenant) (name : List ℕ) (k : Key) → is_org_key k ≡ false → is_sharing_key name k ≡ false
        → row_in p (without_rule name t) k ≡ row_in p t k }

    // A rule that comes has its row, if no rule had its name; one that goes has none, whatever text it was named by.
    ensures rule_row { (p : OrgPlan) (t : Tenant) (org : ℕ) (r : SharingRule)
        → named_so (λ x. x.name) t.sharing_rules (lower_bytes r.name) ≡ None
        → row_in p (with_rule r t) (SharingKey org (lower_bytes r.name)) ≡ Some (row_bytes sharing_form (sharing_of org r)) }
    ensures no_rule_row { (p : OrgPlan) (t : Tenant) (org : ℕ) (name : List ℕ) → IsUtf8 (lower_bytes name)
        → row_in p (without_rule name t) (SharingKey org (lower_bytes name)) ≡ None }

    // A rule is found by its name in lower case exactly if one has that name, whatever the case of its letters.
    ensures found { (t : Tenant) (name : List ℕ) → IsUtf8 (lower_bytes name)
        → is_some (named_so (λ r. r.name) t.sharing_rules (lower_bytes name)) ≡ list_any (same_name name) (map (λ r. r.name) t.sharing_rules) }

    // One more, and one less, if there is one with the name.
    ensures more { (t : Tenant) (r : SharingRule) → length (with_rule r t).sharing_rules ≡ length t.sharing_rules + 1 }
    ensures less { (t : Tenant) (name : List ℕ) (r : SharingRule) → IsSound t → IsUtf8 (lower_bytes name)
        → named_so (λ x. x.name) t.sharing_rules (lower_bytes name) ≡ Some r
        → length (without_rule name t).sharing_rules + 1 ≡ length t.sharing_rules }

    // The rule that comes is one of the organisation's, and the rows of its rules fit their form.
    ensures has { (t : Tenant) (r : SharingRule) → Has (with_rule r t).sharing_rules r }
    ensures fits { (org : ℕ) (t : Tenant) (r : SharingRule) → org < 2 ^ 32 → IsSound t → Has t.sharing_rules r
        → FitsForm sharing_form (sharing_of org r) }
{
    id_laws();
    name_laws();
}
