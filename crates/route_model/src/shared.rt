//! Routes that several changes share.

ghost use Rattle.std.specs.Prelude.{◌≡◌, IfOk, length};
ghost use Rattle.route_model.specs.Encoding.{route_octets, EncodesRoute};

use crate::route::Route;
use std::alloc::{AllocError, Global};
use std::marker::Model;
use std::sync::Arc;

/// A route with its encoding.
#[derive(Debug, Drop)]
struct Encoded {
    route: Route,
    octets: Vec<u8>,
}

/// A route that is kept once, with its encoding, however many changes announce it.
#[derive(Debug, Drop)]
pub struct SharedRoute {
    shared: Arc<Encoded>,
}

impl Model for SharedRoute {
    ghost use Rattle.route_model.specs.declared.route.Route.{Route};

    ghost Value = { Route };

    ghost use Rattle.route_model.specs.Encoding.{EncodesRoute};

    ghost view = { λ a. a.shared.value.route };

    ghost invariant = { λ a. EncodesRoute a.shared.value.route a.shared.value.octets.items };
}

impl SharedRoute {
    /// The route, to be shared from now on.
    pub fn new(alloc: Global, route: Route) -> Result<SharedRoute, AllocError>
        ensures route { IfOk result (λ r. r ≡ route) }
    {
        let octets = route.encode(alloc)?;
        let shared = Arc::new(alloc, Encoded { route, octets })?;
        Ok(SharedRoute { shared })
    }

    /// The same route once more: nothing is copied. (Memory is refused only if the count of owners
    /// would pass its limit.)
    pub fn share(&self) -> Result<SharedRoute, AllocError>
        ensures route { IfOk result (λ r. r ≡ self.now) }
    {
        let shared = self.shared.clone()?;
        Ok(SharedRoute { shared })
    }

    /// The route.
    pub fn route(&self) -> &Route
        ensures route { result.now ≡ self.now }
    {
        let shared: &Encoded = &self.shared;
        &shared.route
    }

    /// The unique encoding of the route, which is kept with it.
    pub fn encoding(&self) -> &[u8]
        ensures encoding { EncodesRoute self.now result.now }
    {
        let shared: &Encoded = &self.shared;
        shared.octets.as_slice()
    }
}
