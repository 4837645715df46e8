// What holds of requests and replies.
ghost use Rattle.std.specs.Prelude.{◌≡◌, ◌++◌, ◌<◌, ◌≤◌, ◌^◌, ℕ, List, length, true};
ghost use Rattle.http.specs.StatusCode.{IsStatusCode};
ghost use Rattle.route_rules.specs.declared.route.Route.{Route};
ghost use Rattle.route_rules.specs.declared.route.Routes.{Routes};
ghost use Rattle.route_rules.specs.Routes.{HasForms, is_open, row_of};
ghost use Rattle.desk_http.specs.Asked.{ask_text};
ghost use Rattle.desk_http.specs.Heard.{Heard, Hears, Call};
ghost use Rattle.desk_http.specs.Replied.{IsNoReply, IsReply};
ghost use Rattle.desk_http.specs.Spoken.{spoken};

use route_rules::one_route;

/// What is heard in the bytes of a conversation is one thing.
pub fn what_is_heard_is_one_thing()
    ensures { (routes : Routes) (bytes : List ℕ) (heard other : Heard) (most least : ℕ)
        → Hears routes bytes heard most → Hears routes bytes other least → (heard ≡ other) × (most ≡ least) }
{
    // Proof: a method and a path have one route.
    one_route();
}

/// A request of an open route's path, with a body within its limit, is heard as that call.
pub fn what_is_asked_is_heard()
    ensures { (routes : Routes) (route : Route) (body : List ℕ) → HasForms route → is_open routes (row_of route).relay ≡ true
        → length body ≤ (row_of route).most
        → (most : ℕ) × Hears routes (ask_text (row_of route).asking (row_of route).path body)
        (Call (row_of route).asking (row_of route).path body) most }
{}

/// The response of a status and a body is read as these.
pub fn what_is_spoken_is_read()
    ensures { (status : ℕ) (body : List ℕ) → IsStatusCode status → length body < 2 ^ 63 → IsReply (spoken status body) status body }
{}

/// The bytes of a reply have one status and one body.
pub fn a_reply_is_one_thing()
    ensures { (bytes : List ℕ) (status code : ℕ) (body rest : List ℕ) → IsReply bytes status body → IsReply bytes code rest
        → (status ≡ code) × (body ≡ rest) }
{}

/// A reply with a byte or more behind its body is none.
pub fn a_byte_behind_a_reply_is_bad()
    ensures { (bytes more : List ℕ) (status : ℕ) (body : List ℕ) → IsReply bytes status body → 0 < length more
        → IsNoReply (bytes ++ more) }
{}
