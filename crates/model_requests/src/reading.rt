//! What a refusal leaves.

ghost use Rattle.std.specs.Prelude.{◌≡◌, Err};
ghost use Rattle.model.specs.declared.refusal.Refusal.{Refusal};
ghost use Rattle.model.specs.Paths.{Asked};
ghost use Rattle.model_requests.specs.Requests.{Request, verdict_on};

/// A request that is refused leaves the organisation as it was. The call does nothing.
pub fn refusal_laws()
    ensures refused { (a : Asked) (x : Request) (r : Refusal) → (verdict_on a x).answer ≡ Err r → (verdict_on a x).tenant ≡ a.tenant }
{}
