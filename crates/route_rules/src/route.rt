ghost use Rattle.std.specs.Prelude.{◌≡◌, IfOk};
ghost use Rattle.route_rules.specs.Routes.{FindsRoute, row_of};
ghost use Rattle.route_rules.specs.Endpoints.{Matches, opens, pattern_of};
ghost use Rattle.route_rules.specs.Finding.{ReadsRoute};

use crate::endpoint::{Endpoint, Paths};
use crate::method::{Asking, read_method};
use crate::path::{computer_in, digest_in, id_in, site_in};
use rel_lexer::Text;
use std::alloc::{AllocError, Global};

/// Which routes are open.
#[derive(Clone, Copy)]
pub enum Routes {
    /// All of them.
    Server,
    /// Those of a relay.
    Relay,
}

/// What is asked for by a method and a path.
#[derive(Drop)]
pub enum Route {
    /// To keep a site: its text is the body.
    Publish,
    /// To act on an action: its text is the body.
    Act,
    /// To stop the action of this id.
    Stop(u64),
    /// To keep a file: its bytes are the body.
    File,
    /// Which sites there are, and of which versions.
    AskSites,
    /// The text of the site of this name, where its version is greater than this one.
    AskSite(Text, u64),
    /// The file of this SHA-256.
    AskFile([u8; 32]),
    /// To keep a report: its text is the body.
    Report,
    /// The results of the computer of this name.
    Results(Text),
}

impl Route {
    /// The method that it is asked by.
    pub fn asking(&self) -> Asking
        ensures { result ≡ (row_of self.now).asking }
    {
        match self {
            Route::AskSites | Route::AskSite(..) | Route::AskFile(_) | Route::Results(_) =>
                Asking::Get,
            Route::Publish | Route::Act | Route::Stop(_) | Route::File | Route::Report =>
                Asking::Post,
        }
    }

    /// The most bytes of its body.
    pub fn most(&self) -> u64
        ensures { result ≡ (row_of self.now).most }
    {
        match self {
            Route::Report => 65_536,
            _ => 4_194_304,
        }
    }
}

/// The route of a method and a path. The error is want of memory, here and below.
pub fn find_route(
    alloc: Global,
    paths: &Paths,
    routes: Routes,
    method: &[u8],
    path: &[u8],
) -> Result<Option<Route>, AllocError>
    ensures { IfOk result (λ found. FindsRoute routes method.now path.now found) }
{
    let Some(asking) = read_method(method) else {
        return Ok(None);
    };
    let Ok(text) = str::from_utf8(path) else {
        return Ok(None);
    };
    let Some(endpoint) = paths.find(asking, text)? else {
        return Ok(None);
    };
    if !is_open(routes, endpoint) {
        return Ok(None);
    }
    read_route(alloc, endpoint, path)
}

/// Whether an endpoint is open among these routes.
fn is_open(routes: Routes, endpoint: Endpoint) -> bool
    ensures { result ≡ opens routes endpoint }
{
    match routes {
        Routes::Server => true,
        Routes::Relay => matches!(
            endpoint,
            Endpoint::AskSites | Endpoint::AskSite | Endpoint::AskFile | Endpoint::Report
        ),
    }
}

/// The route of an endpoint, by the values in the path. None where one of them isn't in its form.
fn read_route(alloc: Global, endpoint: Endpoint, path: &[u8]) -> Result<Option<Route>, AllocError>
    requires { Matches (pattern_of endpoint) path.now }
    ensures { IfOk result (λ found. ReadsRoute endpoint path.now found) }
{
    match endpoint {
        Endpoint::Publish => Ok(Some(Route::Publish)),
        Endpoint::Act => Ok(Some(Route::Act)),
        Endpoint::Stop => Ok(stop(path)),
        Endpoint::File => Ok(Some(Route::File)),
        Endpoint::AskSites => Ok(Some(Route::AskSites)),
        Endpoint::AskSite => ask_site(alloc, path),
        Endpoint::AskFile => Ok(ask_file(path)),
        Endpoint::Report => Ok(Some(Route::Report)),
        Endpoint::Results => ask_results(alloc, path),
    }
}

fn stop(path: &[u8]) -> Option<Route>
    ensures { ReadsRoute Endpoint.Stop path.now result }
{
    let id = id_in(path)?;
    Some(Route::Stop(id))
}

fn ask_file(path: &[u8]) -> Option<Route>
    ensures { ReadsRoute Endpoint.AskFile path.now result }
{
    let digest = digest_in(path)?;
    Some(Route::AskFile(digest))
}

fn ask_site(alloc: Global, path: &[u8]) -> Result<Option<Route>, AllocError>
    ensures { IfOk result (λ found. ReadsRoute Endpoint.AskSite path.now found) }
{
    match site_in(path) {
        Some(site) => Ok(Some(Route::AskSite(Text::from_str(alloc, site.name)?, site.version))),
        None => Ok(None),
    }
}

fn ask_results(alloc: Global, path: &[u8]) -> Result<Option<Route>, AllocError>
    ensures { IfOk result (λ found. ReadsRoute Endpoint.Results path.now found) }
{
    match computer_in(path) {
        Some(computer) => Ok(Some(Route::Results(Text::from_str(alloc, computer)?))),
        None => Ok(None),
    }
}
