use clocks::Moment;
use club_core::GameEnd;
use club_lists::{GameShown, game_text, moves_text};
use club_requests::{
    Answer, AnswerChallenge, Command, GameCommand, MoveAnswer, OnGame, OpenChallenge, Outcome,
    OutsideEnd, Question, Refusal, Who, Withdraw,
};
use control_socket::{Countdown, Deadline};
use http_desk::{
    AttributedReply, ClubFault, ClubService, DeskFault, Routes, UnavailableClub, answer,
};
use server::{Connection, serve_one};
use squares::Score;
use std::alloc::{AllocError, Global};
use std::io;
use std::io::{ErrorKind, Read};
use std::process::Abort;
use std::test::Fail;

const AFTER_7G7F: &str = "lnsgkgsnl/1r5b1/ppppppppp/9/9/2P6/PP1PPPPPP/1B5R1/LNSGKGSNL w -";

const AFTER_TWO: &str = "W:W28,31,33,34,35,36,37,38,39,40,41,42,43,44,45,46,47,48,49,50\
    :B1,2,3,4,5,6,7,8,9,10,11,12,13,14,15,16,17,18,20,23";

/// A club with fixed answers; nothing is proved of it.
#[derive(Drop)]
struct Toy {
    /// Whether the move of game 8 was played.
    played: bool,
    fault: Option<ClubFault>,
}

fn new_club() -> Toy {
    Toy {
        played: false,
        fault: None,
    }
}

fn text(alloc: Global, text: &str) -> Result<String, ClubFault> {
    match String::from_str(alloc, text) {
        Ok(text) => Ok(text),
        Err(_) => Err(ClubFault::Memory),
    }
}

fn list(alloc: Global, rows: &[&str]) -> Result<Vec<String>, ClubFault> {
    let mut list = Vec::new(alloc);
    for row in rows {
        let row = text(alloc, row)?;
        if list.push(row).is_err() {
            return Err(ClubFault::Memory);
        }
    }
    Ok(list)
}

fn bytes_of(shown: Result<String, AllocError>) -> Result<Result<Vec<u8>, Refusal>, ClubFault> {
    match shown {
        Ok(text) => Ok(Ok(text.into_bytes())),
        Err(_) => Err(ClubFault::Memory),
    }
}

// A game that ended by time.
fn ended_game(alloc: Global) -> Result<GameShown, ClubFault> {
    Ok(GameShown {
        event: text(alloc, "autumn")?,
        first: text(alloc, "anna")?,
        second: text(alloc, "bert")?,
        moves: list(alloc, &["32-28", "19-23"])?,
        position: text(alloc, AFTER_TWO)?,
        left_first: 5,
        left_second: 5,
        offer: None,
        end: Some(GameEnd::Outside(OutsideEnd::Time)),
        result: Some(Score::SecondWins),
    })
}

fn first_move(alloc: Global) -> Result<Answer, ClubFault> {
    Ok(Answer::Moved(MoveAnswer {
        ply: 1,
        text: text(alloc, "7g7f")?,
        left: 86_400,
        position: text(alloc, AFTER_7G7F)?,
        end: None,
    }))
}

fn ends(end: OutsideEnd, score: Score) -> Answer {
    Answer::Ended { end, result: score }
}

// The outcome of opening a challenge: accepted for number 3, to bert in event `autumn` as First.
fn opened(challenge: &OpenChallenge) -> Outcome {
    let is_known = challenge.event.as_bytes() == b"autumn".as_slice()
        && challenge.other.as_bytes() == b"bert".as_slice();
    if challenge.number == 3 && is_known && challenge.first {
        Outcome::Accepted(Answer::ChallengeOpened { number: 3 })
    } else {
        Outcome::Refused(Refusal::BadValue)
    }
}

fn withdrawn(number: u64) -> Outcome {
    if number == 3 {
        Outcome::Accepted(Answer::ChallengeWithdrawn { number: 3 })
    } else {
        Outcome::Refused(Refusal::UnknownChallenge)
    }
}

// The outcome of answering a challenge: accepted for bert's challenge 3.
fn answered(answer: &AnswerChallenge) -> Outcome {
    if answer.number != 3 || answer.challenger.as_bytes() != b"bert".as_slice() {
        return Outcome::Refused(Refusal::UnknownChallenge);
    }
    if answer.accept {
        Outcome::Accepted(Answer::ChallengeAccepted { number: 3, game: 7 })
    } else {
        Outcome::Accepted(Answer::ChallengeRefused { number: 3 })
    }
}

impl Toy {
    fn play(&mut self, alloc: Global, text: &str) -> Result<Outcome, ClubFault> {
        if text.as_bytes() != b"7g7f".as_slice() {
            return Ok(Outcome::Refused(Refusal::Conflict));
        }
        let answer = first_move(alloc)?;
        if self.played {
            return Ok(Outcome::Repeated(answer));
        }
        self.played = true;
        Ok(Outcome::Accepted(answer))
    }

    fn on_game(&mut self, alloc: Global, command: &GameCommand) -> Result<Outcome, ClubFault> {
        let answer = match command {
            GameCommand::Move { ply: _, text } => return self.play(alloc, text.as_str()),
            GameCommand::OfferDraw { ply: _ } => Answer::Offered { ply: 5 },
            GameCommand::AcceptDraw { ply: _ } => ends(OutsideEnd::Agreed, Score::Draw),
            GameCommand::Resign => ends(OutsideEnd::Resigned, Score::SecondWins),
            GameCommand::ClaimTime => ends(OutsideEnd::Time, Score::FirstWins),
            GameCommand::Declare { ply: _ } => ends(OutsideEnd::Declared, Score::FirstWins),
        };
        Ok(Outcome::Accepted(answer))
    }
}

impl ClubService for Toy {
    ghost use Rattle.http_desk.specs.internal.Closed.{closed};

    ghost State = { Unit {0} };

    ghost club = { closed };

    ghost IsClean = { λ b. ⊥ };

    ghost Stands = { λ b s. Unit {0} };

    ghost Leaves = { λ b s t. Unit {0} };

    ghost IsShut = { λ b fault. ⊥ };

    fn member_by_key(&mut self, alloc: Global, key: &str) -> Result<Option<String>, ClubFault> {
        if let Some(fault) = self.fault {
            return Err(fault);
        }
        if key.as_bytes() != b"keyanna1".as_slice() {
            return Ok(None);
        }
        Ok(Some(text(alloc, "anna")?))
    }

    fn ask(
        &mut self,
        alloc: Global,
        question: &Question,
        _moment: Moment,
    ) -> Result<Result<Vec<u8>, Refusal>, ClubFault> {
        match question {
            Question::GameJson(1) => bytes_of(game_text(alloc, 1, ended_game(alloc)?)),
            Question::LegalMovesJson(1) => bytes_of(moves_text(alloc, Vec::new(alloc))),
            Question::LegalMovesJson(2) => {
                bytes_of(moves_text(alloc, list(alloc, &["32-28", "33-29"])?))
            }
            Question::GameJson(_) => Ok(Err(Refusal::UnknownGame)),
            Question::LegalMovesJson(_) => Ok(Err(Refusal::UnknownGame)),
            _ => Ok(Err(Refusal::UnknownEvent)),
        }
    }

    fn apply(
        &mut self,
        alloc: Global,
        _who: &Who,
        command: &Command,
        _moment: Moment,
    ) -> Result<Outcome, ClubFault> {
        match command {
            Command::OnGame(OnGame { game: _, command }) => self.on_game(alloc, command),
            Command::Challenge(challenge) => Ok(opened(challenge)),
            Command::Withdraw(Withdraw { number }) => Ok(withdrawn(*number)),
            Command::Answer(answer) => Ok(answered(answer)),
            _ => Ok(Outcome::Refused(Refusal::NotAllowed)),
        }
    }

    ghost stays = { λ b s t h. tt };

    ghost settled = { λ b s t h. tt };

    ghost wider = { λ b s t h. tt };
}

// A request with anna's key.
fn request(alloc: Global, line: &str, body: &str) -> Result<Vec<u8>, Fail> {
    let length = body.len();
    let mut bytes = Vec::new(alloc);
    bytes.extend_from_slice(line.as_bytes())?;
    bytes.extend_from_slice(b" HTTP/1.1\r\nHost: localhost\r\nMember-Key: keyanna1\r\n")?;
    let named = format!(in alloc; "Content-Length: {length}\r\n\r\n")?;
    bytes.extend_from_slice(named.as_bytes())?;
    bytes.extend_from_slice(body.as_bytes())?;
    Ok(bytes)
}

// The reply at timestamp 1000.
fn replied<C: ClubService>(alloc: Global, club: &mut C, bytes: &[u8]) -> Option<AttributedReply> {
    let moment = Moment::new(1000)?;
    let routes = Routes::new(alloc).ok()?;
    answer(alloc, &routes, club, bytes, moment).ok()
}

// Asserts that the reply starts with `front` and ends with `end`; returns its length.
fn begins_and_ends<R: Abort + AllocGlobal, C: ClubService>(
    rt: &R,
    club: &mut C,
    bytes: &[u8],
    front: &str,
    end: &str,
) -> usize {
    let Some(AttributedReply { reply, caller: _ }) = replied(rt.alloc(), club, bytes) else {
        assert!(rt; false);
        return 0;
    };
    assert!(rt; reply.starts_with(front.as_bytes()));
    assert!(rt; reply.ends_with(end.as_bytes()));
    reply.len()
}

// Asserts that the reply is this head and this body.
fn is_answered<R: Abort + AllocGlobal, C: ClubService>(
    rt: &R,
    club: &mut C,
    bytes: &[u8],
    head: &str,
    body: &str,
) {
    let length = begins_and_ends(rt, club, bytes, head, body);
    assert!(rt; length == head.len() + body.len());
}

#[test]
fn a_club_that_fails_is_told(rt: HostRuntime) {
    let bytes = b"GET /games/1 HTTP/1.0\r\nMember-Key: keyanna1\r\n\r\n".as_slice();
    let mut club = new_club();
    club.fault = Some(ClubFault::Reopen);
    let head = "HTTP/1.1 503 Service Unavailable\r\nContent-Type: application/json\r\n\
        Content-Length: 28\r\nConnection: close\r\n\r\n";
    is_answered(
        &rt,
        &mut club,
        bytes,
        head,
        "{\"error\":74,\"name\":\"Reopen\"}",
    );
    let mut closed = UnavailableClub {
        fault: ClubFault::Damaged,
    };
    let head = "HTTP/1.1 503 Service Unavailable\r\nContent-Type: application/json\r\n\
        Content-Length: 29\r\nConnection: close\r\n\r\n";
    is_answered(
        &rt,
        &mut closed,
        bytes,
        head,
        "{\"error\":72,\"name\":\"Damaged\"}",
    );
    let unrouted = b"GET /game/1 HTTP/1.0\r\n\r\n".as_slice();
    let head = "HTTP/1.1 404 Not Found\r\nContent-Type: application/json\r\nContent-Length: 29\r\n\
        Connection: close\r\n\r\n";
    is_answered(
        &rt,
        &mut closed,
        unrouted,
        head,
        "{\"error\":82,\"name\":\"NoRoute\"}",
    );
}

// Whether the reply names anna as the sender of the request.
fn asks_as_anna<C: ClubService>(alloc: Global, club: &mut C, bytes: &[u8]) -> bool {
    let Some(AttributedReply { reply: _, caller }) = replied(alloc, club, bytes) else {
        return false;
    };
    match caller {
        Some(name) => name.as_bytes() == b"anna".as_slice(),
        None => false,
    }
}

// Whether the reply names no member.
fn asks_as_nobody<C: ClubService>(alloc: Global, club: &mut C, bytes: &[u8]) -> bool {
    match replied(alloc, club, bytes) {
        Some(replied) => replied.caller.is_none(),
        None => false,
    }
}

#[test]
fn who_asked_is_known_by_the_key(rt: HostRuntime) -> Result<(), Fail> {
    let alloc = rt.alloc();
    let mut club = new_club();
    let shown = request(alloc, "GET /games/1", "")?;
    assert!(rt; asks_as_anna(alloc, &mut club, &shown));
    let refused = request(alloc, "POST /games/8/moves/1", "{}")?;
    assert!(rt; asks_as_anna(alloc, &mut club, &refused));
    let page = request(alloc, "GET /play", "")?;
    assert!(rt; asks_as_nobody(alloc, &mut club, &page));
    let unrouted = request(alloc, "GET /nowhere", "")?;
    assert!(rt; asks_as_nobody(alloc, &mut club, &unrouted));
    let stranger = b"GET /games/1 HTTP/1.0\r\nMember-Key: keyanna2\r\n\r\n".as_slice();
    assert!(rt; asks_as_nobody(alloc, &mut club, stranger));
    let twice = b"GET /games/1 HTTP/1.0\r\nMember-Key: keyanna1\r\nMember-Key: keyanna1\r\n\r\n";
    assert!(rt; asks_as_nobody(alloc, &mut club, twice.as_slice()));
    club.fault = Some(ClubFault::Reopen);
    assert!(rt; asks_as_nobody(alloc, &mut club, &shown));
    Ok(())
}

#[test]
fn the_page_comes_all_the_same(rt: HostRuntime) {
    let mut closed = UnavailableClub {
        fault: ClubFault::Damaged,
    };
    let bytes = b"GET /play HTTP/1.0\r\n\r\n".as_slice();
    let front = "HTTP/1.1 200 OK\r\nContent-Type: text/html; charset=utf-8\r\nContent-Length: ";
    let end = "</script>\n";
    let length = begins_and_ends(&rt, &mut closed, bytes, front, end);
    let mut club = new_club();
    assert!(rt; begins_and_ends(&rt, &mut club, bytes, front, end) == length);
    let posted = b"POST /play HTTP/1.0\r\nContent-Length: 0\r\n\r\n".as_slice();
    let head =
        "HTTP/1.1 405 Method Not Allowed\r\nContent-Type: application/json\r\nContent-Length: 33\r\n\
        Connection: close\r\nAllow: GET\r\nCache-Control: no-store\r\n\
        X-Content-Type-Options: nosniff\r\n\r\n";
    is_answered(
        &rt,
        &mut closed,
        posted,
        head,
        "{\"error\":83,\"name\":\"WrongMethod\"}",
    );
}

/// A reader that returns one byte a call.
#[derive(Drop)]
struct Dripping<'b> {
    bytes: &'b [u8],
}

impl Read for Dripping<'_> {
    ghost use Rattle.std.specs.Prelude.{None};

    ghost remaining = { λ r. None };

    fn read(&mut self, buf: &mut [u8]) -> io::Result<usize> {
        if buf.is_empty() {
            return Ok(0);
        }
        match self.bytes.split_first() {
            None => Ok(0),
            Some((byte, rest)) => {
                buf[0] = *byte;
                self.bytes = rest;
                Ok(1)
            }
        }
    }
}

/// A countdown that permits a number of calls.
#[derive(Drop)]
struct Calls {
    left: u32,
}

impl Countdown for Calls {
    fn allow(&mut self) -> io::Result<()> {
        if self.left == 0 {
            return Err(io::Error::from(ErrorKind::TimedOut));
        }
        self.left -= 1;
        Ok(())
    }
}

#[test]
fn a_slow_peer_is_given_up(rt: HostRuntime) -> Result<(), Fail> {
    let alloc = rt.alloc();
    let routes = Routes::new(alloc)?;
    let Some(moment) = Moment::new(1000) else {
        return Ok(());
    };
    let bytes = request(alloc, "POST /games/8/moves/1", "{\"move\":\"7g7f\"}")?;
    let mut club = new_club();
    let mut slow = Connection {
        reader: Deadline::new(Dripping { bytes: &bytes }, Calls { left: 50 }),
        writer: Vec::new(alloc),
    };
    let done = serve_one(
        alloc,
        &routes,
        Vec::new(alloc),
        &mut slow,
        &mut club,
        moment,
    );
    assert!(rt; done.err() == Some(DeskFault::Read));
    assert!(rt; slow.writer.is_empty());
    assert!(rt; !club.played);
    let mut in_time = Connection {
        reader: Deadline::new(bytes.as_slice(), Calls { left: 50 }),
        writer: Deadline::new(slow.writer, Calls { left: 1 }),
    };
    let done = serve_one(
        alloc,
        &routes,
        Vec::new(alloc),
        &mut in_time,
        &mut club,
        moment,
    );
    assert!(rt; done.is_ok());
    assert!(rt; club.played);
    Ok(())
}

#[test]
fn a_reply_that_is_lost_is_given_again(rt: HostRuntime) -> Result<(), Fail> {
    let alloc = rt.alloc();
    let routes = Routes::new(alloc)?;
    let Some(moment) = Moment::new(1000) else {
        return Ok(());
    };
    let bytes = request(alloc, "POST /games/8/moves/1", "{\"move\":\"7g7f\"}")?;
    let mut undisturbed = Connection {
        reader: bytes.as_slice(),
        writer: Vec::new(alloc),
    };
    let done = serve_one(
        alloc,
        &routes,
        Vec::new(alloc),
        &mut undisturbed,
        &mut new_club(),
        moment,
    );
    assert!(rt; done.is_ok());
    let undisturbed = undisturbed.writer;
    let mut club = new_club();
    for n in 0..undisturbed.len() {
        let mut room = [0_u8; 256];
        let Some(part) = room.get_mut(..n) else {
            return Ok(());
        };
        let mut cut = Connection {
            reader: bytes.as_slice(),
            writer: part,
        };
        let done = serve_one(alloc, &routes, Vec::new(alloc), &mut cut, &mut club, moment);
        assert!(rt; done.err() == Some(DeskFault::Write));
        assert!(rt; undisturbed.starts_with(&room[..n]));
        let mut again = Connection {
            reader: bytes.as_slice(),
            writer: Vec::new(alloc),
        };
        let done = serve_one(
            alloc,
            &routes,
            Vec::new(alloc),
            &mut again,
            &mut club,
            moment,
        );
        assert!(rt; done.is_ok());
        assert!(rt; again.writer.as_slice() == undisturbed.as_slice());
    }
    Ok(())
}

#[test]
fn faults_have_words(rt: HostRuntime) -> Result<(), Fail> {
    let fault = DeskFault::Write;
    let words = format!(in rt.alloc(); "{fault}")?;
    assert!(rt; words.as_bytes() == b"the reply could not be written".as_slice());
    Ok(())
}
