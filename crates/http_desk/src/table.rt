//! The route table: the path and the method of each route, who is served, and what.

use self::Access::{Members, Public};
use self::GameAction::{AcceptDraw, ClaimTime, Declare, MakeMove, OfferDraw, Resign};
use self::QuestionTopic::{
    EventGames, EventStandings, EventTable, GameClock, GamePage, GameRecord, GameRulings, GameView,
    LegalMoves, MyEndedGames, MyEvents, MyGames,
};
use self::Topic::{Analysis, Answer, Challenge, MembersPage, OnGame, Question, Withdraw};
use club_rules::GameKind::{self, Draughts, Shogi};
use http_bodies::Caching::{NoStore, Unspecified};
use http_bodies::ContentType::{Json, Plain};
use http_bodies::Method::{Get, Post};
use http_bodies::{Caching, ContentType, Method};

/// A query of a member.
#[derive(Clone, Copy, Debug, PartialEq, Eq)]
pub enum QuestionTopic {
    /// The game `{id}`.
    GameView,
    /// The legal moves of the game `{id}`.
    LegalMoves,
    /// The record of the game `{id}`.
    GameRecord,
    /// The clock of the game `{id}`.
    GameClock,
    /// The rulings on the game `{id}`.
    GameRulings,
    /// The game `{id}`, its clock and its legal moves.
    GamePage,
    /// The cross table of the event `{name}`.
    EventTable,
    /// The games of the event `{name}`.
    EventGames,
    /// The standings of the event `{name}`.
    EventStandings,
    /// The games and challenges of the member who has the key.
    MyGames,
    /// The ended games of the member who has the key.
    MyEndedGames,
    /// The events, and the members to challenge in each.
    MyEvents,
}

/// A command on the game `{id}`; a command with a `{ply}` is for that ply, counted from 1.
#[derive(Clone, Copy, Debug, PartialEq, Eq)]
pub enum GameAction {
    /// A move; the body has its text.
    MakeMove,
    /// An offer of a draw.
    OfferDraw,
    /// The acceptance of a draw.
    AcceptDraw,
    /// A resignation.
    Resign,
    /// A claim that the opponent is out of time.
    ClaimTime,
    /// A declaration.
    Declare,
}

/// What a route serves.
#[derive(Clone, Copy, Debug, PartialEq, Eq)]
pub enum Topic {
    /// The members' page.
    MembersPage,
    /// The answer to a query, as a body of this content type.
    Question(QuestionTopic, ContentType),
    /// An analysis by the rules of a game; the body says where it begins, and has the moves to try.
    Analysis(GameKind),
    /// A command on the game `{id}`.
    OnGame(GameAction),
    /// A new challenge, `{number}`.
    Challenge,
    /// The withdrawal of the challenge `{number}`.
    Withdraw,
    /// An answer to the challenge `{number}` of `{member}`.
    Answer,
}

/// Who is served.
#[derive(Clone, Copy, Debug, PartialEq, Eq)]
pub enum Access {
    /// Anyone.
    Public,
    /// The holder of a member's key.
    Members,
}

/// A route, without its path.
#[derive(Clone, Copy, Debug, PartialEq, Eq)]
pub struct Route {
    /// The one method.
    pub method: Method,
    /// Who is served.
    pub access: Access,
    /// The content that is served.
    pub topic: Topic,
    /// Whether its replies may be cached.
    pub caching: Caching,
}

/// All routes, each after its path with the parameters in braces.
pub(crate) const TABLE: [(&str, Method, Access, Topic, Caching); 24] = [
    (
        "/games/{id}",
        Get,
        Members,
        Question(GameView, Json),
        Unspecified,
    ),
    (
        "/games/{id}/legal",
        Get,
        Members,
        Question(LegalMoves, Json),
        Unspecified,
    ),
    (
        "/games/{id}/record",
        Get,
        Members,
        Question(GameRecord, Plain),
        NoStore,
    ),
    (
        "/games/{id}/clock",
        Get,
        Members,
        Question(GameClock, Json),
        NoStore,
    ),
    (
        "/games/{id}/rulings",
        Get,
        Members,
        Question(GameRulings, Json),
        NoStore,
    ),
    (
        "/games/{id}/page",
        Get,
        Members,
        Question(GamePage, Json),
        NoStore,
    ),
    (
        "/events/{name}/table",
        Get,
        Members,
        Question(EventTable, Plain),
        Unspecified,
    ),
    (
        "/events/{name}/games",
        Get,
        Members,
        Question(EventGames, Json),
        NoStore,
    ),
    (
        "/events/{name}/standings",
        Get,
        Members,
        Question(EventStandings, Json),
        NoStore,
    ),
    ("/me", Get, Members, Question(MyGames, Json), NoStore),
    (
        "/me/ended",
        Get,
        Members,
        Question(MyEndedGames, Json),
        NoStore,
    ),
    (
        "/me/events",
        Get,
        Members,
        Question(MyEvents, Json),
        NoStore,
    ),
    (
        "/analysis/draughts",
        Post,
        Members,
        Analysis(Draughts),
        NoStore,
    ),
    ("/analysis/shogi", Post, Members, Analysis(Shogi), NoStore),
    (
        "/games/{id}/moves/{ply}",
        Post,
        Members,
        OnGame(MakeMove),
        Unspecified,
    ),
    (
        "/games/{id}/draw/{ply}/offer",
        Post,
        Members,
        OnGame(OfferDraw),
        Unspecified,
    ),
    (
        "/games/{id}/draw/{ply}/accept",
        Post,
        Members,
        OnGame(AcceptDraw),
        Unspecified,
    ),
    (
        "/games/{id}/resign",
        Post,
        Members,
        OnGame(Resign),
        Unspecified,
    ),
    (
        "/games/{id}/claim-time",
        Post,
        Members,
        OnGame(ClaimTime),
        Unspecified,
    ),
    (
        "/games/{id}/declare/{ply}",
        Post,
        Members,
        OnGame(Declare),
        Unspecified,
    ),
    (
        "/challenges/{number}",
        Post,
        Members,
        Challenge,
        Unspecified,
    ),
    (
        "/challenges/{number}/withdraw",
        Post,
        Members,
        Withdraw,
        Unspecified,
    ),
    (
        "/answers/{member}/{number}",
        Post,
        Members,
        Answer,
        Unspecified,
    ),
    ("/play", Get, Public, MembersPage, NoStore),
];
