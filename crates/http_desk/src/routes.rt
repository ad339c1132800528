//! The router: from a request target to an endpoint, a route with the parameters of a path.
ghost use Rattle.std.specs.Prelude.{◌≡◌, [], IfOk, Ok, length, map, option_map};
ghost use Rattle.matchit.specs.Params.{AllText, named};
ghost use Rattle.http_desk.specs.Paths.{before, rest_after, starts_with, path_after_authority, path_of};
ghost use Rattle.http_desk.specs.internal.Paths.{text_of};
ghost use Rattle.http_desk.specs.Routes.{route_with, with_routes, number_given, text_given, match_route};
ghost use Rattle.http_desk.specs.Routes.{caching_at};
ghost use Rattle.http_desk.specs.Patterns.{pattern_of, analysis_pattern, question_pattern, action_pattern};
ghost use Rattle.http_desk.specs.internal.Taken.{parts_taken, endpoint_taken};
ghost use Rattle.http_desk.specs.internal.DeskViews.{endpoint_view};

use crate::table::{Access, GameAction, QuestionTopic, Route, TABLE, Topic};
use club_rules::GameKind;
use http_bodies::{Caching, Method};
use http_head::number_of;
use matchit::{InsertError, Params, Router};
use std::alloc::Global;
use std::marker::Model;

/// A route, and the parameters of a path by their names in the route table: 0 or empty if there is none of this name.
#[derive(Clone, Copy)]
pub struct Endpoint<'p> {
    /// The route.
    pub route: Route,
    /// `{id}`: the number of a game.
    pub id: u32,
    /// `{ply}`: a ply, counted from 1.
    pub ply: u32,
    /// `{number}`: the number of a challenge.
    pub number: u32,
    /// `{name}`: the name of an event.
    pub name: &'p str,
    /// `{member}`: the name of a member.
    pub member: &'p str,
}

/// The bytes before the first `byte`; all of them if there is none.
pub fn front(bytes: &[u8], byte: u8) -> &[u8]
    ensures { result.now ≡ before byte bytes.now }
{
    match bytes.iter().position(|other| *other == byte) {
        Some(i) => &bytes[..i],
        None => bytes,
    }
}

/// The bytes after the first `byte`; none if there is none.
pub fn rest_after(bytes: &[u8], byte: u8) -> &[u8]
    ensures { result.now ≡ rest_after byte bytes.now }
{
    let n = front(bytes, byte).len();
    if n >= bytes.len() {
        return &[];
    }
    &bytes[n + 1..]
}

/// Whether `bytes` starts with `front`.
pub fn starts_with(bytes: &[u8], front: &[u8]) -> bool
    ensures { result ≡ starts_with bytes.now front.now }
{
    let length = bytes.len().min(front.len());
    &bytes[..length] == front
}

// The path after a non-empty authority.
fn path_after_authority(bytes: &[u8]) -> Option<&[u8]>
    ensures { option_map (λ p. p.now) result ≡ path_after_authority (length (before 47 bytes.now)) bytes.now }
{
    let n = front(bytes, b'/').len();
    if n == 0 {
        return None;
    }
    if n >= bytes.len() {
        return None;
    }
    Some(&bytes[n..])
}

/// The path of a request target in origin form or absolute form (`http`), without its query (RFC 9112, section 3.2).
pub fn path_of(target: &[u8]) -> Option<&[u8]>
    ensures { option_map (λ p. p.now) result ≡ path_of target.now }
{
    let bytes = front(target, b'?');
    if starts_with(bytes, b"/") {
        return Some(bytes);
    }
    if starts_with(bytes, b"http://") && bytes.len() >= 7 {
        return path_after_authority(&bytes[7..]);
    }
    None
}

fn router_of(
    alloc: Global,
    rows: &[(&str, Method, Access, Topic, Caching)],
) -> Result<Router<Route>, InsertError>
    ensures { IfOk result (λ router. router ≡
        with_routes (map (λ row. (row.0.now, route_with row.1 row.2 row.3 row.4)) rows.now) []) }
{
    let mut router = Router::new(alloc);
    for (path, method, access, topic, caching) in rows {
        let route = Route {
            method: *method,
            access: *access,
            topic: *topic,
            caching: *caching,
        };
        router.insert(path, route)?;
    }
    Ok(router)
}

/// The router, built once.
#[derive(Drop)]
pub struct Routes {
    router: Router<Route>,
}

impl Model for Routes {
    ghost use Rattle.std.specs.Prelude.{◌≡◌};
    ghost use Rattle.matchit.specs.Rows.{RowsOf};
    ghost use Rattle.matchit.specs.Router.{RouteOf};
    ghost use Rattle.http_desk.specs.declared.table.Route.{Route};
    ghost use Rattle.http_desk.specs.Routes.{routes};

    ghost Value = { RowsOf (RouteOf Route) };

    ghost view = { λ r. r.router };

    ghost invariant = { λ r. r.router ≡ routes };
}

impl Routes {
    /// Builds the router.
    ///
    /// # Errors
    ///
    /// `InsertError` if out of memory.
    pub fn new(alloc: Global) -> Result<Routes, InsertError> {
        let router = router_of(alloc, &TABLE)?;
        Ok(Routes { router })
    }

    /// The endpoint of a request target, if a route matches and its numbers are valid.
    pub fn match_route<'t>(&self, target: &'t [u8]) -> Option<Endpoint<'t>>
        ensures { option_map endpoint_view result ≡ match_route target.now }
    {
        let Some(path) = path_of(target) else {
            return None;
        };
        let Some(path) = text_of(path) else {
            return None;
        };
        match self.router.at(path) {
            Ok(found) => endpoint_of_route(*found.value, &found.params),
            Err(_) => None,
        }
    }
}

/// The caching of the replies at an endpoint; unspecified if no route matches.
pub fn caching_at(asked: Option<Endpoint<'_>>) -> Caching
    ensures { result ≡ caching_at (option_map endpoint_view asked.entry) }
{
    match asked {
        None => Caching::Unspecified,
        Some(asked) => asked.route.caching,
    }
}

/// The path in the route table of what a route serves.
pub fn pattern_of(topic: Topic) -> &'static str
    ensures { result.now ≡ pattern_of topic }
{
    match topic {
        Topic::MembersPage => "/play",
        Topic::Question(topic, _) => question_pattern(topic),
        Topic::Analysis(kind) => analysis_pattern(kind),
        Topic::OnGame(action) => action_pattern(action),
        Topic::Challenge => "/challenges/{number}",
        Topic::Withdraw => "/challenges/{number}/withdraw",
        Topic::Answer => "/answers/{member}/{number}",
    }
}

// The path of an analysis by the rules of a game.
fn analysis_pattern(kind: GameKind) -> &'static str
    ensures { result.now ≡ analysis_pattern kind }
{
    match kind {
        GameKind::Draughts => "/analysis/draughts",
        GameKind::Shogi => "/analysis/shogi",
    }
}

// The path of a query.
fn question_pattern(topic: QuestionTopic) -> &'static str
    ensures { result.now ≡ question_pattern topic }
{
    match topic {
        QuestionTopic::GameView => "/games/{id}",
        QuestionTopic::LegalMoves => "/games/{id}/legal",
        QuestionTopic::GameRecord => "/games/{id}/record",
        QuestionTopic::GameClock => "/games/{id}/clock",
        QuestionTopic::GamePage => "/games/{id}/page",
        QuestionTopic::GameRulings => "/games/{id}/rulings",
        QuestionTopic::EventTable => "/events/{name}/table",
        QuestionTopic::EventGames => "/events/{name}/games",
        QuestionTopic::EventStandings => "/events/{name}/standings",
        QuestionTopic::MyGames => "/me",
        QuestionTopic::MyEndedGames => "/me/ended",
        QuestionTopic::MyEvents => "/me/events",
    }
}

// The path of a command on a game.
fn action_pattern(action: GameAction) -> &'static str
    ensures { result.now ≡ action_pattern action }
{
    match action {
        GameAction::MakeMove => "/games/{id}/moves/{ply}",
        GameAction::OfferDraw => "/games/{id}/draw/{ply}/offer",
        GameAction::AcceptDraw => "/games/{id}/draw/{ply}/accept",
        GameAction::Resign => "/games/{id}/resign",
        GameAction::ClaimTime => "/games/{id}/claim-time",
        GameAction::Declare => "/games/{id}/declare/{ply}",
    }
}

/// The bytes as text, if they are UTF-8.
pub fn text_of(bytes: &[u8]) -> Option<&str>
    ensures { option_map (λ t. t.now) result ≡ text_of bytes.now }
{
    match str::from_utf8(bytes) {
        Ok(text) => Some(text),
        Err(_) => None,
    }
}

// A path parameter as a number, 0 if there is none; `None` if it is malformed.
fn number_named(params: &Params<'_, '_>, name: &str) -> Option<u32>
    requires { AllText (parts_taken params.now) }
    ensures { result ≡ number_given (named name.now (parts_taken params.now)) }
{
    match params.get(name) {
        None => Some(0),
        Some(part) => number_of(part.as_bytes()),
    }
}

// A path parameter as text, empty if there is none.
fn text_named<'p>(params: &Params<'_, 'p>, name: &str) -> &'p str
    requires { AllText (parts_taken params.now) }
    ensures { result.now ≡ text_given (named name.now (parts_taken params.now)) }
{
    match params.get(name) {
        None => "",
        Some(part) => part,
    }
}

// The endpoint of a route and its parameters; `None` if a number is malformed.
fn endpoint_of_route<'p>(route: Route, params: &Params<'_, 'p>) -> Option<Endpoint<'p>>
    requires { AllText (parts_taken params.now) }
    ensures { option_map endpoint_view result ≡ endpoint_taken route (parts_taken params.now) }
{
    let id = number_named(params, "id")?;
    let ply = number_named(params, "ply")?;
    let number = number_named(params, "number")?;
    Some(Endpoint {
        route,
        id,
        ply,
        number,
        name: text_named(params, "name"),
        member: text_named(params, "member"),
    })
}
