//! Properties of all replies and all routes. Each is the contract of a function with an empty body.
ghost use Rattle.std.specs.Prelude.{◌≡◌, ℕ, Ok, codes};
ghost use Rattle.club_requests.specs.Outcome.{Reply, accepted, repeated};
ghost use Rattle.http_head.specs.Request.{HttpRequest};
ghost use Rattle.http_desk.specs.declared.faults.ClubFault.{ClubFault};
ghost use Rattle.http_desk.specs.Desk.{outcome_answer, this, shows_page, serve, shut_serve};
ghost use Rattle.http_desk.specs.There.{AreAllRoutes, AreFound, HaveCaching};
ghost use Rattle.http_desk.specs.Patterns.{ArePaths};

use crate::served::ClubService;

/// A repeated command has the same answer as the accepted one (idempotence).
pub fn repeats_are_answered_alike()
    ensures { (game : ℕ) (reply : Reply) →
        outcome_answer game (accepted tt reply) ≡ outcome_answer game (repeated reply) }
{}

/// Every route of the table parses and is in the router, and the router has no other routes.
pub fn routes_are_there()
    ensures { AreAllRoutes }
{}

/// An example path of each route is matched to this route.
pub fn paths_are_found()
    ensures { AreFound }
{}

/// The replies of each route have `Cache-Control: no-store`, except those that the route table marks `Unspecified`.
pub fn further_replies_are_not_stored()
    ensures { HaveCaching }
{}

/// The pattern of each route is its path in the table.
pub fn patterns_are_paths()
    ensures { ArePaths }
{}

/// GET `/play` shows the members' page with any key or none, also if the club is unavailable.
pub fn the_page_is_for_all<C: ClubService>()
    ensures stands { (s : C.State) (moment : ℕ) (request : HttpRequest) → request.method ≡ codes "GET" →
        request.target ≡ codes "/play" → serve C.club s moment request ≡ (s, this shows_page) }
    ensures shut { (fault : ClubFault) (request : HttpRequest) → request.method ≡ codes "GET" →
        request.target ≡ codes "/play" → shut_serve fault request ≡ Ok shows_page }
{}
