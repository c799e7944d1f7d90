ghost use Rattle.std.specs.Prelude.{◌≡◌, IfOk, bytes_eq, codes};
ghost use Rattle.std.specs.Str.{chars};
ghost use Rattle.model_requests.specs.Routing.{routed};

use crate::place::Place;
use crate::routing::route_by;
use crate::table::router;
use crate::target::path_and_query;
use crate::version::as_served;
use http::Method;
use matchit::Router;
use model_requests::Routed;
use std::alloc::{AllocError, Global};
use std::marker::Model;

// Whether a message is judged as one with GET.
fn is_head(method: &Method) -> bool
    ensures { result ≡ bytes_eq method.now (codes "HEAD") }
{
    *method == Method::HEAD
}

/// All routes, as a router: made once, and lent to what is answered.
#[derive(Drop)]
pub struct Routes {
    router: Router<Place>,
}

impl Model for Routes {
    ghost use Rattle.std.specs.Prelude.{◌≡◌};
    ghost use Rattle.api.specs.router.Pick.{router_rows};
    ghost use Rattle.api.specs.inner.Places.{table};

    ghost Value = { Unit {0} };

    ghost view = { λ r. tt };

    ghost invariant = { λ r. r.router ≡ router_rows table };
}

impl Routes {
    /// The routes.
    ///
    /// # Errors
    ///
    /// When out of memory.
    pub fn new(alloc: Global) -> Result<Routes, AllocError> {
        match router(alloc) {
            Ok(router) => Ok(Routes { router }),
            Err(_) => Err(AllocError),
        }
    }

    /// The request that a method and a target ask for.
    ///
    /// # Errors
    ///
    /// When out of memory.
    pub fn route(&self, alloc: Global, method: &Method, target: &str) -> Result<Routed, AllocError>
        ensures { IfOk result (λ r. r ≡ routed method.now (chars target.now)) }
    {
        let (path, query) = path_and_query(target);
        let path = as_served(alloc, path)?;
        if is_head(method) {
            route_by(alloc, &self.router, &Method::GET, path.as_str(), query)
        } else {
            route_by(alloc, &self.router, method, path.as_str(), query)
        }
    }
}
