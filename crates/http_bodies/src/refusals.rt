//! Refusals of requests, with their error numbers, names and HTTP statuses.
ghost use Rattle.std.specs.Prelude.{◌≡◌};
ghost use Rattle.http_bodies.specs.Refusals.{club_status, refusal_number, refusal_name, refusal_status};

use club_requests::Refusal;
use http_head::HeadRefusal;

/// An HTTP method that a route may have.
#[derive(Clone, Copy, Debug, PartialEq, Eq)]
pub enum Method {
    /// GET.
    Get,
    /// POST.
    Post,
}

/// Why a request is refused: by its head, by its route, method or body, or by the club.
#[derive(Clone, Copy, Debug, PartialEq, Eq)]
pub enum HttpRefusal {
    /// By its head.
    Head(HeadRefusal),
    /// No route matches the target (404).
    NoRoute,
    /// The route has another method, this one (405).
    WrongMethod(Method),
    /// The body is malformed (400).
    BadBody,
    /// By the club.
    Club(Refusal),
}

// The HTTP status of a refusal of the club.
fn club_status(refusal: Refusal) -> u16
    ensures { result ≡ club_status refusal }
{
    match refusal {
        Refusal::UnknownKey => 401,
        Refusal::NotAllowed => 403,
        Refusal::NotAPlayer => 403,
        Refusal::UnknownEvent => 404,
        Refusal::UnknownGame => 404,
        Refusal::UnknownChallenge => 404,
        Refusal::GameOver => 409,
        Refusal::WrongPly => 409,
        Refusal::Conflict => 409,
        Refusal::NotYourTurn => 409,
        Refusal::OutOfTime => 409,
        Refusal::TimeLeft => 409,
        Refusal::NoOffer => 409,
        Refusal::NameTaken => 409,
        Refusal::Full => 409,
        Refusal::NotDeclarable => 409,
        Refusal::EventClosed => 409,
        Refusal::NotInThisGame => 422,
        Refusal::BadValue => 422,
        Refusal::Play { ply: _, refusal: _ } => 422,
        Refusal::Record(_) => 422,
    }
}

impl HttpRefusal {
    /// The error number in the reply.
    pub fn number(self) -> u16
        ensures { result ≡ refusal_number self }
    {
        match self {
            HttpRefusal::Head(refusal) => refusal.number(),
            HttpRefusal::NoRoute => 82,
            HttpRefusal::WrongMethod(_) => 83,
            HttpRefusal::BadBody => 81,
            HttpRefusal::Club(refusal) => u16::from(refusal.number()),
        }
    }

    /// The error name in the reply.
    pub fn name(self) -> &'static str
        ensures { result.now ≡ refusal_name self }
    {
        match self {
            HttpRefusal::Head(refusal) => refusal.name(),
            HttpRefusal::NoRoute => "NoRoute",
            HttpRefusal::WrongMethod(_) => "WrongMethod",
            HttpRefusal::BadBody => "BadBody",
            HttpRefusal::Club(refusal) => refusal.name(),
        }
    }

    /// The HTTP status of the reply.
    pub fn status(self) -> u16
        ensures { result ≡ refusal_status self }
    {
        match self {
            HttpRefusal::Head(refusal) => refusal.status(),
            HttpRefusal::NoRoute => 404,
            HttpRefusal::WrongMethod(_) => 405,
            HttpRefusal::BadBody => 400,
            HttpRefusal::Club(refusal) => club_status(refusal),
        }
    }
}
