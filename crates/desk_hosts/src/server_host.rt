ghost use Rattle.std.specs.Prelude.{◌≡◌, IfOk};
ghost use Rattle.desk_hosts.specs.ServerCalls.{RepliesTo, ServerAnswers, request_of};

use desk_base::Bytes;
use desk_http::{Asking, Called, Paths, Route, Routes, Site2, find_route};
use desk_keep::Keeper;
use http_replies::Answer;
use server_core::Server;
use server_text::{Reply, Request};
use std::alloc::{AllocError, Global};

/// A server that answers calls over its keeper.
#[derive(Drop)]
pub struct ServerHost<'a, K: Keeper> {
    pub alloc: Global,
    pub paths: &'a Paths,
    pub server: &'a Server,
    pub keeper: &'a mut K,
}

impl<'a, K: Keeper> Site2 for ServerHost<'a, K> {
    ghost use Rattle.std.specs.Prelude.{[], ◌∷◌};
    ghost use Rattle.desk_hosts.specs.ServerCalls.{ServerCalls, ServerTells};

    ghost Told = { ServerTells };

    ghost told = { λ h. record { limits = h.server.now.limits; keeper = K.told h.keeper.now } };

    ghost holds = { λ h. h.keeper.ghost_name ∷ [] };

    ghost calls = { ServerCalls };

    fn call(&mut self, asking: Asking, path: &[u8], body: &[u8]) -> Called {
        match find_route(
            self.alloc,
            self.paths,
            Routes::Server,
            asking.word().as_bytes(),
            path,
        ) {
            Ok(route) => {
                answer(self.alloc, self.server, self.keeper, route, body).called(self.alloc)
            }
            Err(_) => Called::Memory,
        }
    }
}

/// What is answered to a route and a body, or to no route.
fn answer<K: Keeper>(
    alloc: Global,
    server: &Server,
    keeper: &mut K,
    route: Option<Route>,
    body: &[u8],
) -> Answer
    ensures { ServerAnswers (record { limits = server.now.limits; keeper = K.told keeper.old }) route body.now result
        (record { limits = server.now.limits; keeper = K.told keeper.new }) }
{
    let Some(route) = route else {
        return Answer::Reply(Reply::NoSuch);
    };
    match request_of(alloc, route, body) {
        Ok(request) => Answer::Reply(server.answer(alloc, keeper, &request)),
        Err(_) => Answer::Reply(Reply::Memory),
    }
}

/// What a route and a body ask of a server. The error is want of memory.
fn request_of(alloc: Global, route: Route, body: &[u8]) -> Result<Request, AllocError>
    ensures { IfOk result (λ request. request ≡ request_of route body.now) }
{
    Ok(match route {
        Route::Publish => Request::Publish(Bytes::from_slice(alloc, body)?),
        Route::Act => Request::Act(Bytes::from_slice(alloc, body)?),
        Route::Stop(id) => Request::Stop(id),
        Route::File => Request::File(Bytes::from_slice(alloc, body)?),
        Route::AskSites => Request::AskSites,
        Route::AskSite(name, version) => Request::AskSite(name, version),
        Route::AskFile(digest) => Request::AskFile(digest),
        Route::Report => Request::Report(Bytes::from_slice(alloc, body)?),
        Route::Results(computer) => Request::Results(computer),
    })
}
