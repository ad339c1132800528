//! Challenges between members: open, withdraw, accept and refuse.

ghost use Rattle.std.specs.Prelude.{◌≡◌, ◌≤◌, ◌<◌, List, length, Option, Some, None, IsTrue, IfNone, string_bytes};
ghost use Rattle.std.specs.Option.{option_map};
ghost use Rattle.club_requests.specs.Limits.{most_members, most_events, most_games, greatest_challenge};
ghost use Rattle.club_core.specs.Challenges.{pairing_for, repeat_of_opening, opening_refusal, opening_found};
ghost use Rattle.club_core.specs.Challenges.{opening_step, withdrawal_step, repeat_of_answer, answer_refusal, answers};
ghost use Rattle.club_core.specs.Challenges.{answer_step};
ghost use Rattle.club_core.specs.Events as core_events;
ghost use Rattle.club_core.specs.Events.{is_closed};
ghost use Rattle.club_requests.specs.Outcome.{by_member};
ghost use Rattle.club_core.specs.Answer.{reply_of};
ghost use Rattle.club_core.specs.internal.Answer.{members_of, events_of, challenge_outcome_of};

use crate::events::{Event, is_closed};
use crate::members::Member;
use crate::seats::{Pairing, are_distinct, find_event, find_member, is_id};
use club_requests::values::{MOST_GAMES, is_challenge_number};
use club_requests::{Answer, Caller, OpenChallenge, Refusal};

/// The state of a challenge.
#[derive(Clone, Copy, Debug, PartialEq, Eq)]
pub enum ChallengeState {
    /// Waiting for an answer.
    Open,
    /// Withdrawn by the challenger.
    Withdrawn,
    /// Refused by the challenged member.
    Refused,
    /// Accepted by the challenged member; it started this game.
    Accepted { game: u32 },
}

/// A challenge of one member to another, to a game of an event, under a number that the challenger chose. The event and
/// the members are given by id. `first` is true if the challenger moves first.
#[derive(Clone, Copy, Debug, PartialEq, Eq)]
pub struct Challenge {
    pub member: u32,
    pub number: u32,
    pub event: u32,
    pub other: u32,
    pub first: bool,
    pub standing: ChallengeState,
}

/// The decision on a command to a challenge: the new challenge and the answer, a repeat, or a refusal.
#[derive(Debug, Drop)]
pub enum ChallengeDecision {
    Accepted {
        challenge: Challenge,
        answer: Answer,
    },
    Repeated(Answer),
    Refused(Refusal),
}

impl Challenge {
    /// The event and the players of the game that the challenge proposes.
    pub fn pairing(self) -> Pairing
        ensures { result ≡ pairing_for self }
    {
        if self.first {
            Pairing {
                event: self.event,
                first: self.member,
                second: self.other,
            }
        } else {
            Pairing {
                event: self.event,
                first: self.other,
                second: self.member,
            }
        }
    }
}

/// A challenge to open, after its names are looked up; `other` is `None` if no member has the opponent's name, and
/// `closed` is true if the event is closed to challenges.
#[derive(Clone, Copy)]
struct Opening {
    member: u32,
    number: u64,
    event: u32,
    other: Option<u32>,
    first: bool,
    closed: bool,
}

/// The answer to a repeat of the stored challenge, if the command is one.
fn repeat_of_opening(
    event: u32,
    other: Option<u32>,
    first: bool,
    under: Option<Challenge>,
) -> Option<Answer>
    ensures { option_map reply_of result ≡ repeat_of_opening event other first under }
{
    let old = match under {
        Some(old) => old,
        None => return None,
    };
    let same = event == old.event && is_id(other, old.other) && first == old.first;
    if same {
        Some(Answer::ChallengeOpened { number: old.number })
    } else {
        None
    }
}

/// The refusal of a new challenge, if any.
fn refusal_of_opening(opening: Opening, under: Option<Challenge>) -> Option<Refusal>
    ensures value { result ≡ opening_refusal opening.member opening.number opening.other opening.closed under }
    ensures small { IfNone result (opening.number ≤ greatest_challenge) }
{
    if under.is_some() {
        return Some(Refusal::Conflict);
    }
    if !is_challenge_number(opening.number) || !are_distinct(Some(opening.member), opening.other) {
        return Some(Refusal::BadValue);
    }
    if opening.closed {
        return Some(Refusal::EventClosed);
    }
    None
}

/// Opens a challenge after the names are looked up.
fn opening_found(opening: Opening, under: Option<Challenge>) -> ChallengeDecision
    ensures { (events : List core_events.Event) → opening.closed ≡ is_closed events opening.event →
        challenge_outcome_of result ≡ opening_found events opening.member opening.number (Some opening.event)
        opening.other opening.first under }
{
    match repeat_of_opening(opening.event, opening.other, opening.first, under) {
        Some(answer) => return ChallengeDecision::Repeated(answer),
        None => {}
    }
    match refusal_of_opening(opening, under) {
        Some(refusal) => return ChallengeDecision::Refused(refusal),
        None => {}
    }
    let other = match opening.other {
        Some(other) => other,
        None => return ChallengeDecision::Refused(Refusal::BadValue),
    };
    let number = opening.number as u32;
    ChallengeDecision::Accepted {
        challenge: Challenge {
            member: opening.member,
            number,
            event: opening.event,
            other,
            first: opening.first,
            standing: ChallengeState::Open,
        },
        answer: Answer::ChallengeOpened { number },
    }
}

/// Opens a challenge; only members may.
///
/// `members` and `events` are in the order of ids, and `under` is the caller's stored challenge with the same number.
/// The same challenge again is a repeat, whatever its state is now.
pub fn open_challenge(
    members: &[Member],
    events: &[Event],
    under: Option<Challenge>,
    caller: Caller,
    command: &OpenChallenge,
) -> ChallengeDecision
    requires members { length members.now ≤ most_members }
    requires events { length events.now ≤ most_events }
    ensures { challenge_outcome_of result ≡ by_member caller (λ member. opening_step (members_of members.now)
        (events_of events.now) under member command.now.number
        (string_bytes command.now.event) (string_bytes command.now.other) command.now.first) }
{
    let caller = match caller {
        Caller::Officer => return ChallengeDecision::Refused(Refusal::NotAllowed),
        Caller::Member(id) => id,
    };
    let event = match find_event(events, command.event.as_str()) {
        Some(event) => event,
        None => return ChallengeDecision::Refused(Refusal::UnknownEvent),
    };
    let opening = Opening {
        member: caller,
        number: command.number,
        event,
        other: find_member(members, command.other.as_str()),
        first: command.first,
        closed: is_closed(events, event),
    };
    opening_found(opening, under)
}

/// Withdraws the caller's challenge `under`; only members may. Only an open challenge can be withdrawn.
pub fn withdraw(under: Option<Challenge>, caller: Caller) -> ChallengeDecision
    ensures { challenge_outcome_of result ≡ by_member caller (λ member. withdrawal_step under) }
{
    if caller == Caller::Officer {
        return ChallengeDecision::Refused(Refusal::NotAllowed);
    }
    let challenge = match under {
        Some(challenge) => challenge,
        None => return ChallengeDecision::Refused(Refusal::UnknownChallenge),
    };
    let answer = Answer::ChallengeWithdrawn {
        number: challenge.number,
    };
    match challenge.standing {
        ChallengeState::Open => ChallengeDecision::Accepted {
            challenge: Challenge {
                standing: ChallengeState::Withdrawn,
                ..challenge
            },
            answer,
        },
        ChallengeState::Withdrawn => ChallengeDecision::Repeated(answer),
        _ => ChallengeDecision::Refused(Refusal::Conflict),
    }
}

/// The answer to a repeat of the answer that the challenge was given, if the command is one.
fn repeat_of_answer(challenge: Challenge, accept: bool) -> Option<Answer>
    ensures { option_map reply_of result ≡ repeat_of_answer challenge.number challenge.standing accept }
{
    let number = challenge.number;
    match challenge.standing {
        ChallengeState::Refused => {
            if accept {
                None
            } else {
                Some(Answer::ChallengeRefused { number })
            }
        }
        ChallengeState::Accepted { game } => {
            if accept {
                Some(Answer::ChallengeAccepted { number, game })
            } else {
                None
            }
        }
        _ => None,
    }
}

/// The refusal of an answer to a challenge, if any.
fn refusal_of_answer(
    standing: ChallengeState,
    games: u32,
    closed: bool,
    accept: bool,
) -> Option<Refusal>
    ensures value { result ≡ answer_refusal standing games closed accept }
    ensures room { IfNone result (IsTrue accept → games < most_games) }
{
    match standing {
        ChallengeState::Open => {}
        _ => return Some(Refusal::Conflict),
    }
    if accept && games >= MOST_GAMES {
        return Some(Refusal::Full);
    }
    if accept && closed {
        return Some(Refusal::EventClosed);
    }
    None
}

/// Refuses or accepts an open challenge. If it is accepted, its game gets the next id.
fn answered(challenge: Challenge, games: u32, accept: bool) -> ChallengeDecision
    requires { IsTrue accept → games < most_games }
    ensures { challenge_outcome_of result ≡ answers challenge games accept }
{
    let number = challenge.number;
    if accept {
        let game = games + 1;
        ChallengeDecision::Accepted {
            challenge: Challenge {
                standing: ChallengeState::Accepted { game },
                ..challenge
            },
            answer: Answer::ChallengeAccepted { number, game },
        }
    } else {
        ChallengeDecision::Accepted {
            challenge: Challenge {
                standing: ChallengeState::Refused,
                ..challenge
            },
            answer: Answer::ChallengeRefused { number },
        }
    }
}

/// Accepts or refuses the challenge `under`; only the challenged member may. `events` is in the order of ids, and
/// `games` is the number of games; an accepted challenge starts the next one. No challenge is accepted into a closed
/// event.
pub fn answer_challenge(
    events: &[Event],
    under: Option<Challenge>,
    games: u32,
    caller: Caller,
    accept: bool,
) -> ChallengeDecision
    ensures { challenge_outcome_of result ≡ by_member caller (λ member.
        answer_step (events_of events.now) under games member accept) }
{
    let caller = match caller {
        Caller::Officer => return ChallengeDecision::Refused(Refusal::NotAllowed),
        Caller::Member(id) => id,
    };
    let challenge = match under {
        Some(challenge) => challenge,
        None => return ChallengeDecision::Refused(Refusal::UnknownChallenge),
    };
    if challenge.other != caller {
        return ChallengeDecision::Refused(Refusal::UnknownChallenge);
    }
    match repeat_of_answer(challenge, accept) {
        Some(answer) => return ChallengeDecision::Repeated(answer),
        None => {}
    }
    let closed = is_closed(events, challenge.event);
    match refusal_of_answer(challenge.standing, games, closed, accept) {
        Some(refusal) => ChallengeDecision::Refused(refusal),
        None => answered(challenge, games, accept),
    }
}
