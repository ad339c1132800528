//! The reply to a request: route, method, key, then query or command.
ghost use Rattle.std.specs.Prelude.{◌≡◌, None, IfOk, IfErr, option_map, option_and_then, string_bytes};
ghost use Rattle.http_head.specs.Request.{whole};
ghost use Rattle.http_head.specs.internal.RequestViews.{request_view, seen_view};
ghost use Rattle.http_desk.specs.internal.Paths.{text_of};
ghost use Rattle.http_desk.specs.Desk.{is_method, answer_reply, serve_page, serve_known, serve_caller, serve_asked};
ghost use Rattle.http_desk.specs.Desk.{serve};
ghost use Rattle.http_desk.specs.Desk.{RepliesTo, Answers, shut_known, shut_caller, shut_asked, shut_serve};
ghost use Rattle.http_desk.specs.internal.Desk.{ServesDue};
ghost use Rattle.http_desk.specs.Desk.{club_fault_reply, shut_text, shut_reply, IsShutReply};
ghost use Rattle.http_desk.specs.Desk.{known_caller, caller_for, asked_caller, caller};
ghost use Rattle.http_desk.specs.internal.Desk.{NamesExpectedCaller};
ghost use Rattle.http_desk.specs.Desk.{NamesCaller, NamesCallerOf};
ghost use Rattle.http_desk.specs.Routes.{caching_for};
ghost use Rattle.http_desk.specs.internal.DeskViews.{answer_view, endpoint_view, IsShutBy};

use crate::commands::{serve_command, turn_given, withdrawal};
use crate::faults::{ClubFault, DeskFault};
use crate::pages::{serve_analysis, serve_question};
use crate::routes::{Endpoint, Routes, caching_at, text_of};
use crate::served::ClubService;
use crate::table::{Access, Topic};
use clocks::Moment;
use club_requests::Refusal;
use http_bodies::{
    Caching, ContentType, HttpRefusal, Method, answer_of, challenge_of, fault_reply, page_reply,
    refusal_reply, shown_reply,
};
use http_head::{HttpRequest, ParseState, read_request};
use std::alloc::{AllocError, Global};

/// The content of a reply.
#[derive(Drop)]
pub(crate) enum Response {
    Refused(HttpRefusal),
    Shows(ContentType, Vec<u8>),
    /// The members' page.
    Page,
}

// An answer, and the name of the member whose key the request has, as soon as it is known.
#[derive(Drop)]
struct Served {
    shown: Result<Response, AnswerFault>,
    caller: Option<String>,
}

/// A reply, and the member who sent the request.
#[derive(Drop)]
pub struct AttributedReply {
    /// The bytes of the reply.
    pub reply: Vec<u8>,
    /// The name of the member, if the route needs a key and the key is a member's.
    pub caller: Option<String>,
}

/// Why there is no answer.
#[derive(Clone, Copy)]
pub(crate) enum AnswerFault {
    Club(ClubFault),
    Memory,
}

impl From<ClubFault> for AnswerFault {
    ghost use Rattle.std.specs.Prelude.{◌≡◌};
    ghost use Rattle.http_desk.specs.declared.desk.AnswerFault.TheVariants.{Club};

    ghost from_gives = { λ fault given. given ≡ Club fault };

    fn from(fault: ClubFault) -> AnswerFault {
        AnswerFault::Club(fault)
    }
}

impl From<AllocError> for AnswerFault {
    ghost use Rattle.std.specs.Prelude.{◌≡◌};
    ghost use Rattle.http_desk.specs.declared.desk.AnswerFault.TheVariants.{Memory};

    ghost from_gives = { λ _ given. given ≡ Memory };

    fn from(_error: AllocError) -> AnswerFault {
        AnswerFault::Memory
    }
}

// Executes a route for a member.
fn serve_page<C: ClubService>(
    alloc: Global,
    club: &mut C,
    key: &str,
    body: &[u8],
    asked: Endpoint<'_>,
    moment: Moment,
) -> Result<Response, AnswerFault>
    ensures clean { C.IsClean club.new → C.IsClean club.old }
    ensures serves { C.IsClean club.new → (s : C.State) → C.Stands club.old s →
        ServesDue C.club (C.Stands club.new) (C.Leaves club.new) answer_view s
        (serve_page C.club s moment key.now body.now (endpoint_view asked.entry)) result }
{
    match asked.route.topic {
        Topic::MembersPage => Ok(Response::Page),
        Topic::Question(topic, kind) => {
            serve_question(alloc, club, key, (topic, kind), asked, moment)
        }
        Topic::Analysis(kind) => serve_analysis(alloc, club, kind, body, moment),
        Topic::OnGame(action) => {
            let command = turn_given(alloc, action, asked, body)?;
            serve_command(alloc, club, key, asked.id, command, moment)
        }
        Topic::Challenge => {
            let command = challenge_of(alloc, asked.number, body)?;
            serve_command(alloc, club, key, asked.number, command, moment)
        }
        Topic::Withdraw => {
            let command = Some(withdrawal(asked.number));
            serve_command(alloc, club, key, asked.number, command, moment)
        }
        Topic::Answer => {
            let command = answer_of(alloc, asked.member, asked.number, body)?;
            serve_command(alloc, club, key, asked.number, command, moment)
        }
    }
}

fn is_method(bytes: &[u8], method: Method) -> bool
    ensures { result ≡ is_method bytes.now method }
{
    match method {
        Method::Get => bytes == b"GET".as_slice(),
        Method::Post => bytes == b"POST".as_slice(),
    }
}

// The key as text, if it is UTF-8.
fn key_text<'k>(key: Option<&'k [u8]>) -> Option<&'k str>
    ensures { option_map (λ t. t.now) result ≡ option_and_then text_of (option_map (λ k. k.now) key.entry) }
{
    match key {
        None => None,
        Some(key) => text_of(key),
    }
}

// Executes a route if the key is a member's; otherwise refuses it as `UnknownKey`.
fn serve_known<C: ClubService>(
    alloc: Global,
    club: &mut C,
    key: Option<&[u8]>,
    body: &[u8],
    asked: Endpoint<'_>,
    moment: Moment,
) -> Served
    ensures clean { C.IsClean club.new → C.IsClean club.old }
    ensures shut { (fault : ClubFault) → C.IsShut club.old fault → C.IsShut club.new fault ×
        IsShutBy (shut_known fault (option_map (λ k. k.now) key.entry)) result.shown }
    ensures nobody { (fault : ClubFault) → C.IsShut club.old fault → result.caller ≡ None }
    ensures serves { C.IsClean club.new → (s : C.State) → C.Stands club.old s →
        ServesDue C.club (C.Stands club.new) (C.Leaves club.new) answer_view s
        (serve_known C.club s moment (option_map (λ k. k.now) key.entry) body.now (endpoint_view asked.entry))
        result.shown }
    ensures caller { C.IsClean club.new → (s : C.State) → C.Stands club.old s →
        NamesExpectedCaller (known_caller C.club s (option_map (λ k. k.now) key.entry))
        (option_map string_bytes result.caller) result.shown }
{
    let Some(key) = key_text(key) else {
        return Served {
            shown: Ok(Response::Refused(HttpRefusal::Club(Refusal::UnknownKey))),
            caller: None,
        };
    };
    match club.member_by_key(alloc, key) {
        Ok(Some(name)) => Served {
            shown: serve_page(alloc, club, key, body, asked, moment),
            caller: Some(name),
        },
        Ok(None) => Served {
            shown: Ok(Response::Refused(HttpRefusal::Club(Refusal::UnknownKey))),
            caller: None,
        },
        Err(fault) => Served {
            shown: Err(AnswerFault::Club(fault)),
            caller: None,
        },
    }
}

// Executes a route: a public one at once, another for the holder of the key.
fn serve_caller<C: ClubService>(
    alloc: Global,
    club: &mut C,
    request: &HttpRequest<'_>,
    asked: Endpoint<'_>,
    moment: Moment,
) -> Served
    ensures clean { C.IsClean club.new → C.IsClean club.old }
    ensures shut { (fault : ClubFault) → C.IsShut club.old fault → C.IsShut club.new fault ×
        IsShutBy (shut_caller fault (request_view request.now).key (endpoint_view asked.entry)) result.shown }
    ensures nobody { (fault : ClubFault) → C.IsShut club.old fault → result.caller ≡ None }
    ensures serves { C.IsClean club.new → (s : C.State) → C.Stands club.old s →
        ServesDue C.club (C.Stands club.new) (C.Leaves club.new) answer_view s
        (serve_caller C.club s moment (request_view request.now).key (request_view request.now).body
        (endpoint_view asked.entry)) result.shown }
    ensures caller { C.IsClean club.new → (s : C.State) → C.Stands club.old s →
        NamesExpectedCaller (caller_for C.club s (request_view request.now).key (endpoint_view asked.entry))
        (option_map string_bytes result.caller) result.shown }
{
    match asked.route.access {
        Access::Public => Served {
            shown: Ok(Response::Page),
            caller: None,
        },
        Access::Members => serve_known(alloc, club, request.key, request.body, asked, moment),
    }
}

// Executes a route if the method is its own.
fn serve_asked<C: ClubService>(
    alloc: Global,
    club: &mut C,
    request: &HttpRequest<'_>,
    asked: Option<Endpoint<'_>>,
    moment: Moment,
) -> Served
    ensures clean { C.IsClean club.new → C.IsClean club.old }
    ensures shut { (fault : ClubFault) → C.IsShut club.old fault → C.IsShut club.new fault ×
        IsShutBy (shut_asked fault (request_view request.now) (option_map endpoint_view asked.entry)) result.shown }
    ensures nobody { (fault : ClubFault) → C.IsShut club.old fault → result.caller ≡ None }
    ensures serves { C.IsClean club.new → (s : C.State) → C.Stands club.old s →
        ServesDue C.club (C.Stands club.new) (C.Leaves club.new) answer_view s
        (serve_asked C.club s moment (request_view request.now) (option_map endpoint_view asked.entry)) result.shown }
    ensures caller { C.IsClean club.new → (s : C.State) → C.Stands club.old s →
        NamesExpectedCaller (asked_caller C.club s (request_view request.now) (option_map endpoint_view asked.entry))
        (option_map string_bytes result.caller) result.shown }
{
    match asked {
        None => Served {
            shown: Ok(Response::Refused(HttpRefusal::NoRoute)),
            caller: None,
        },
        Some(asked) => {
            let method = asked.route.method;
            if is_method(request.method, method) {
                serve_caller(alloc, club, request, asked, moment)
            } else {
                Served {
                    shown: Ok(Response::Refused(HttpRefusal::WrongMethod(method))),
                    caller: None,
                }
            }
        }
    }
}

// The answer to a complete request, and the caching of its reply.
#[tactic(auto, unfolding(crate::specs::Desk::serve, crate::specs::Desk::shut_serve, crate::specs::Desk::caller, crate::specs::Routes::caching_for))]
fn serve<C: ClubService>(
    alloc: Global,
    routes: &Routes,
    club: &mut C,
    request: &HttpRequest<'_>,
    moment: Moment,
) -> (Served, Caching)
    ensures clean { C.IsClean club.new → C.IsClean club.old }
    ensures shut { (fault : ClubFault) → C.IsShut club.old fault → C.IsShut club.new fault ×
        IsShutBy (shut_serve fault (request_view request.now)) result.0.shown }
    ensures nobody { (fault : ClubFault) → C.IsShut club.old fault → result.0.caller ≡ None }
    ensures serves { C.IsClean club.new → (s : C.State) → C.Stands club.old s →
        ServesDue C.club (C.Stands club.new) (C.Leaves club.new) answer_view s
        (serve C.club s moment (request_view request.now)) result.0.shown }
    ensures caller { C.IsClean club.new → (s : C.State) → C.Stands club.old s →
        NamesExpectedCaller (caller C.club s (request_view request.now)) (option_map string_bytes result.0.caller)
        result.0.shown }
    ensures caching { result.1 ≡ caching_for (request_view request.now).target }
{
    let asked = routes.match_route(request.target);
    let caching = caching_at(asked);
    let served = serve_asked(alloc, club, request, asked, moment);
    (served, caching)
}

fn answer_reply(
    alloc: Global,
    answer: Response,
    caching: Caching,
    without_body: bool,
) -> Result<Vec<u8>, AllocError>
    ensures { IfOk result (λ v. v.items ≡ answer_reply (answer_view answer) caching without_body) }
{
    match answer {
        Response::Refused(refusal) => refusal_reply(alloc, refusal, caching, without_body),
        Response::Shows(kind, bytes) => shown_reply(alloc, kind, &bytes, caching, without_body),
        Response::Page => page_reply(alloc, caching, without_body),
    }
}

// The reply that reports a fault of the club.
fn club_fault_reply(
    alloc: Global,
    fault: ClubFault,
    caching: Caching,
    without_body: bool,
) -> Result<Vec<u8>, AllocError>
    ensures { IfOk result (λ v. v.items ≡ club_fault_reply fault caching without_body) }
{
    let (number, name) = (fault.number(), fault.name());
    fault_reply(
        alloc,
        number,
        name,
        fault.passes_soon(),
        caching,
        without_body,
    )
}

// The reply to a complete request.
fn reply_whole<C: ClubService>(
    alloc: Global,
    routes: &Routes,
    club: &mut C,
    request: &HttpRequest<'_>,
    moment: Moment,
    without_body: bool,
) -> Result<AttributedReply, DeskFault>
    ensures fault { IfErr result (λ e. e ≡ DeskFault.Memory) }
    ensures clean { C.IsClean club.new → C.IsClean club.old }
    ensures shut { (fault : ClubFault) → C.IsShut club.old fault → C.IsShut club.new fault ×
        IfOk result (λ v. v.reply.items ≡ shut_text (shut_serve fault (request_view request.now))
        (caching_for (request_view request.now).target) without_body) }
    ensures nobody { (fault : ClubFault) → C.IsShut club.old fault → IfOk result (λ v. v.caller ≡ None) }
    ensures replies { C.IsClean club.new → (s : C.State) → C.Stands club.old s →
        RepliesTo C.club (C.Stands club.new) (C.Leaves club.new) (λ v. v.reply.items) s moment without_body
        (whole (request_view request.now)) result }
    ensures caller { C.IsClean club.new → (s : C.State) → C.Stands club.old s → IfOk result (λ v.
        NamesCaller C.club s without_body (whole (request_view request.now)) v.reply.items
        (option_map string_bytes v.caller)) }
{
    let (served, caching) = serve(alloc, routes, club, request, moment);
    let Served { shown, caller } = served;
    match shown {
        Ok(answer) => {
            let reply = answer_reply(alloc, answer, caching, without_body)?;
            Ok(AttributedReply { reply, caller })
        }
        Err(AnswerFault::Memory) => Err(DeskFault::Memory),
        Err(AnswerFault::Club(fault)) => {
            let reply = club_fault_reply(alloc, fault, caching, without_body)?;
            Ok(AttributedReply { reply, caller })
        }
    }
}

// The reply to the result of parsing.
fn reply<C: ClubService>(
    alloc: Global,
    routes: &Routes,
    club: &mut C,
    seen: ParseState<'_>,
    moment: Moment,
    without_body: bool,
) -> Result<AttributedReply, DeskFault>
    ensures fault { IfErr result (λ e. e ≡ DeskFault.Memory) }
    ensures clean { C.IsClean club.new → C.IsClean club.old }
    ensures shut { (fault : ClubFault) → C.IsShut club.old fault → C.IsShut club.new fault ×
        IfOk result (λ v. v.reply.items ≡ shut_reply fault without_body (seen_view seen.entry)) }
    ensures nobody { (fault : ClubFault) → C.IsShut club.old fault → IfOk result (λ v. v.caller ≡ None) }
    ensures replies { C.IsClean club.new → (s : C.State) → C.Stands club.old s →
        RepliesTo C.club (C.Stands club.new) (C.Leaves club.new) (λ v. v.reply.items) s moment without_body
        (seen_view seen.entry) result }
    ensures caller { C.IsClean club.new → (s : C.State) → C.Stands club.old s → IfOk result (λ v.
        NamesCaller C.club s without_body (seen_view seen.entry) v.reply.items (option_map string_bytes v.caller)) }
{
    match seen {
        ParseState::Unfinished => Ok(AttributedReply {
            reply: Vec::new(alloc),
            caller: None,
        }),
        ParseState::Refused(refusal) => {
            let refusal = HttpRefusal::Head(refusal);
            let reply = refusal_reply(alloc, refusal, Caching::Unspecified, without_body)?;
            Ok(AttributedReply {
                reply,
                caller: None,
            })
        }
        ParseState::Whole(request) => reply_whole(
            alloc,
            routes,
            club,
            &request,
            moment,
            without_body,
        ),
    }
}

/// Parses and executes the request in the bytes of a connection at a timestamp, and returns the reply.
///
/// The reply is empty if the request is incomplete.
///
/// # Errors
///
/// `Memory` if out of memory; the command may or may not have taken effect.
///
/// # Guarantees
///
/// - `replies`: the reply is the one that the club's state and the request determine, or reports a fault of the club;
///   the request is executed at most once.
/// - `caller`: the member named is the holder of the key.
/// - `shut`, `nobody`: a failed club answers with its fault, and no member is named.
pub fn answer<C: ClubService>(
    alloc: Global,
    routes: &Routes,
    club: &mut C,
    bytes: &[u8],
    moment: Moment,
) -> Result<AttributedReply, DeskFault>
    ensures fault { IfErr result (λ e. e ≡ DeskFault.Memory) }
    ensures clean { C.IsClean club.new → C.IsClean club.old }
    ensures shut { (fault : ClubFault) → C.IsShut club.old fault → C.IsShut club.new fault ×
        IfOk result (λ v. IsShutReply fault bytes.now v.reply.items) }
    ensures nobody { (fault : ClubFault) → C.IsShut club.old fault → IfOk result (λ v. v.caller ≡ None) }
    ensures replies { C.IsClean club.new → (s : C.State) → C.Stands club.old s →
        Answers C.club (C.Stands club.new) (C.Leaves club.new) (λ v. v.reply.items) s moment bytes.now result }
    ensures caller { C.IsClean club.new → (s : C.State) → C.Stands club.old s → IfOk result (λ v.
        NamesCallerOf C.club s bytes.now v.reply.items (option_map string_bytes v.caller)) }
{
    let reading = read_request(bytes);
    let reply = reply(alloc, routes, club, reading.seen, moment, reading.asks_head)?;
    Ok(reply)
}
