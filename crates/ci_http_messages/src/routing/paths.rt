//! The paths of all routes.

ghost use Rattle.std.specs.Prelude.{◌≡◌};
ghost use Rattle.ci_http_messages.specs.Table.{table};
ghost use Rattle.ci_http_messages.specs.Routes.{asked_in};
ghost use Rattle.ci_http_messages.specs.Answers.{as_asked};

use crate::routing::lookup::{Lookup, lookup_at};
use crate::routing::place::place_of;
use crate::routing::router::router_of;
use crate::routing::table::Pattern;
use matchit::Router;
use std::alloc::{AllocError, Global};

/// The paths of all routes, built once: a look-up takes no memory.
#[derive(Drop)]
pub struct Paths {
    router: Router<Pattern>,
    ghost whole: { router ≡ table },
}

impl Paths {
    /// All paths. Errors: memory was refused.
    pub fn new(alloc: Global) -> Result<Paths, AllocError> {
        let router = router_of(alloc)?;
        Ok(Paths { router })
    }

    /// What a method asks for at a path, which is a target without its query. Nothing in it is
    /// decoded, and the key of an operation is lent from it.
    pub fn look_up<'p>(&self, method: &[u8], path: &'p str) -> Lookup<&'p str>
        ensures { asked_in method.now path.now ≡ as_asked (λ key. key.now) result }
    {
        match place_of(&self.router, path) {
            Some(place) => lookup_at(&place, method),
            None => Lookup::NoRoute,
        }
    }
}
