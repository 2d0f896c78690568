//! What targets name.

ghost use Rattle.std.specs.Prelude.{◌≡◌, option_map, IfOk, IsUtf8};
ghost use Rattle.matchit.specs.Router.{RouteOf};
ghost use Rattle.matchit.specs.Seek.{first};
ghost use Rattle.http_requests.specs.Inside.Routing.{desk_rows, place_of};

use matchit::{InsertError, Router};
use std::alloc::{AllocError, Global};
use std::marker::Model;

/// What a request's target names.
#[derive(Clone, Copy, Debug, PartialEq, Eq)]
pub(crate) enum Place {
    /// Where calls are sent.
    Call,
    /// Where a session is asked for.
    Session,
}

/// The routes of the server: `/call` and `/session`. Contracts see nothing of them, since there are no others.
#[derive(Drop)]
pub struct Routes {
    router: Router<Place>,
}

impl Model for Routes {
    ghost use Rattle.std.specs.Prelude.{◌≡◌, ⊤};
    ghost use Rattle.http_requests.specs.Inside.Routing.{desk_rows};

    ghost Value = { ⊤ };

    ghost view = { λ a. tt };

    ghost invariant = { λ a. a.router ≡ desk_rows };
}

impl Routes {
    /// The routes. It fails for want of memory alone.
    pub fn new(alloc: Global) -> Result<Routes, AllocError> {
        match router(alloc) {
            Ok(router) => Ok(Routes { router }),
            Err(_) => Err(AllocError),
        }
    }

    /// What a target names.
    pub(crate) fn place_of(&self, target: &[u8]) -> Option<Place>
        requires { IsUtf8 target.now }
        ensures { result ≡ place_of target.now }
    {
        match str::from_utf8(target) {
            Ok(target) => place_at(&self.router, target),
            Err(_) => None,
        }
    }
}

fn place_at(router: &Router<Place>, target: &str) -> Option<Place>
    ensures { result ≡ option_map (λ (route : RouteOf Place). route.value) (first router.now target.now) }
{
    match router.at(target) {
        Ok(found) => Some(*found.value),
        Err(_) => None,
    }
}

fn router(alloc: Global) -> Result<Router<Place>, InsertError>
    ensures { IfOk result (λ router. router ≡ desk_rows) }
{
    let mut router = Router::new(alloc);
    router.insert("/call", Place::Call)?;
    router.insert("/session", Place::Session)?;
    Ok(router)
}
