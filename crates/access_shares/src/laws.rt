//! Which rows stay where a manual share comes or ends.

ghost use Rattle.std.specs.Prelude.{◌≡◌, ℕ, None, Some, false};
ghost use Rattle.store_rows.specs.Forms.{row_bytes};
ghost use Rattle.store_rows.specs.Keys.{Key, Share as ShareKey};
ghost use Rattle.store_rows.specs.Rows.{share_form};
ghost use Rattle.model.specs.Shares.{with_share, without_share};
ghost use Rattle.model.specs.Tenant.{Share, Tenant};
ghost use Rattle.access_shares.specs.Shares.{is_share_key};
ghost use Rattle.store_abstraction.specs.Metadata.{row_of_share};
ghost use Rattle.store_abstraction.specs.Plan.{OrgPlan};
ghost use Rattle.store_abstraction.specs.Stands.{row_in};

use base_value::principal_laws;

/// The laws of the rows of manual shares: which stay where one comes or ends, and what its own row is then. The call does nothing.
pub fn share_laws()
    // All rows stay but its own.
    ensures share { (p : OrgPlan) (t : Tenant) (s : Share) (k : Key) → is_share_key s k ≡ false
        → row_in p (record t { shares = with_share s t.shares }) k ≡ row_in p t k }
    ensures no_share { (p : OrgPlan) (t : Tenant) (s : Share) (k : Key) → is_share_key s k ≡ false
        → row_in p (record t { shares = without_share s t.shares }) k ≡ row_in p t k }

    // Its own row is then its, or none.
    ensures shared { (p : OrgPlan) (t : Tenant) (org : ℕ) (s : Share)
        → row_in p (record t { shares = with_share s t.shares }) (ShareKey org s.item s.to)
        ≡ Some (row_bytes share_form (row_of_share org s)) }
    ensures unshared { (p : OrgPlan) (t : Tenant) (org : ℕ) (s : Share)
        → row_in p (record t { shares = without_share s t.shares }) (ShareKey org s.item s.to) ≡ None }
{
    principal_laws();
}
