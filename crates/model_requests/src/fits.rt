//! That every request that is read has the form that the laws take as given.

ghost use Rattle.std.specs.Prelude.{List, Ok, ℕ, ◌≡◌};
ghost use Rattle.model.specs.Paths.{Asked};
ghost use Rattle.model.specs.Sound.{IsSound};
ghost use Rattle.model_requests.specs.declared.route.Route.{Route};
ghost use Rattle.model_requests.specs.Fit.{IsFit};
ghost use Rattle.model_requests.specs.RequestOf.{request_of};
ghost use Rattle.model_requests.specs.Requests.{Request};

use base_json::json_laws;
use base_value::value_laws;

/// Every request that is read has its form. The call does nothing.
pub fn requests_fit()
    ensures request { (a : Asked) (r : Route) (body : List ℕ) (x : Request) → IsSound a.tenant
        → request_of r body ≡ Ok x → IsFit a x }
{
    json_laws();
    value_laws();
}
