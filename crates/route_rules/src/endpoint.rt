// The endpoint of a method and a path, by a router.
ghost use Rattle.std.specs.Prelude.{◌≡◌, IfOk};
ghost use Rattle.route_rules.specs.Endpoints.{asked_rows, posted_rows, rows_of};
ghost use Rattle.route_rules.specs.Finding.{FindsEndpoint};

use crate::method::Asking;
use matchit::{InsertError, Router};
use std::alloc::{AllocError, Global};
use std::marker::Model;

/// A route without the values in its path.
#[derive(Clone, Copy)]
pub(crate) enum Endpoint {
    Publish,
    Act,
    Stop,
    File,
    AskSites,
    AskSite,
    AskFile,
    Report,
    Results,
}

/// The paths of all routes, for finding. They are made once and lent to each finding.
#[derive(Drop)]
pub struct Paths {
    /// None where memory ran out: each finding tells so.
    routers: Option<Routers>,
}

impl Paths {
    /// Makes them. Where memory runs out in it, each finding by them answers so.
    pub fn new(alloc: Global) -> Paths {
        Paths {
            routers: Routers::new(alloc).ok(),
        }
    }

    /// The endpoint of a path.
    pub(crate) fn find(&self, asking: Asking, path: &str) -> Result<Option<Endpoint>, AllocError>
        ensures { IfOk result (λ found. FindsEndpoint asking path.now found) }
    {
        match &self.routers {
            Some(routers) => Ok(routers.find(asking, path)),
            None => Err(AllocError),
        }
    }
}

/// A router for each method.
#[derive(Drop)]
struct Routers {
    asked: Router<Endpoint>,
    posted: Router<Endpoint>,
}

impl Model for Routers {
    ghost Value = { Unit {0} };

    ghost view = { λ _. tt };

    ghost invariant = { λ r. (r.asked ≡ asked_rows) × (r.posted ≡ posted_rows) };
}

impl Routers {
    // No two endpoints of a method have the same path: only memory can lack.
    fn new(alloc: Global) -> Result<Routers, InsertError> {
        Ok(Routers {
            asked: asked(alloc)?,
            posted: posted(alloc)?,
        })
    }

    fn find(&self, asking: Asking, path: &str) -> Option<Endpoint>
        ensures { FindsEndpoint asking path.now result }
    {
        match asking {
            Asking::Get => endpoint_at(&self.asked, asking, path),
            Asking::Post => endpoint_at(&self.posted, asking, path),
        }
    }
}

fn endpoint_at(router: &Router<Endpoint>, asking: Asking, path: &str) -> Option<Endpoint>
    requires { router.now ≡ rows_of asking }
    ensures { FindsEndpoint asking path.now result }
{
    match router.at(path) {
        Ok(found) => Some(*found.value),
        Err(_) => None,
    }
}

/// What is asked for by GET.
fn asked(alloc: Global) -> Result<Router<Endpoint>, InsertError>
    ensures { IfOk result (λ router. router ≡ asked_rows) }
{
    let mut router = Router::new(alloc);
    router.insert("/sites", Endpoint::AskSites)?;
    router.insert("/sites/{name}/{version}", Endpoint::AskSite)?;
    router.insert("/files/{sha256}", Endpoint::AskFile)?;
    router.insert("/results/{computer}", Endpoint::Results)?;
    Ok(router)
}

/// What is asked for by POST.
fn posted(alloc: Global) -> Result<Router<Endpoint>, InsertError>
    ensures { IfOk result (λ router. router ≡ posted_rows) }
{
    let mut router = Router::new(alloc);
    router.insert("/sites", Endpoint::Publish)?;
    router.insert("/actions", Endpoint::Act)?;
    router.insert("/actions/{id}/stop", Endpoint::Stop)?;
    router.insert("/files", Endpoint::File)?;
    router.insert("/reports", Endpoint::Report)?;
    Ok(router)
}
