//! Commands of members: from a path and a body to the club, and its outcome to a reply.
ghost use Rattle.std.specs.Prelude.{◌≡◌, IfOk, false, option_map};
ghost use Rattle.serde_json.specs.Written.{compact_text};
ghost use Rattle.club_core.specs.Answer.{command_of, game_command_of, outcome_of, reply_of, who_of};
ghost use Rattle.club_core.specs.State.{key_holder, needs_arbiter, on_game, withdraw_challenge};
ghost use Rattle.http_bodies.specs.Bodies.{reply_data};
ghost use Rattle.http_bodies.specs.declared.reply.ContentType.TheVariants.{Json};
ghost use Rattle.http_desk.specs.Desk.{shows, command_given, outcome_answer, serve_command};
ghost use Rattle.http_desk.specs.Served.{IsOfCall, Serves};
ghost use Rattle.http_desk.specs.internal.Desk.{ServesDue, is_for_arbiter};
ghost use Rattle.http_desk.specs.internal.DeskViews.{answer_view, command_view};

use crate::desk::{AnswerFault, Response};
use crate::faults::ClubFault;
use crate::routes::Endpoint;
use crate::served::ClubService;
use crate::table::GameAction;
use clocks::Moment;
use club_requests::{Answer, Command, GameCommand, OnGame, Outcome, Who, Withdraw};
use http_bodies::{ContentType, HttpRefusal, answer_text, move_text};
use std::alloc::{AllocError, Global};

// The command on a game that a route, the ply of its path and a body give; `None` if the body is malformed.
fn command_given(
    alloc: Global,
    action: GameAction,
    ply: u32,
    body: &[u8],
) -> Result<Option<GameCommand>, AllocError>
    ensures { IfOk result (λ command. command_view command ≡ command_given action ply body.now) }
{
    let ply = u64::from(ply);
    match action {
        GameAction::MakeMove => match move_text(alloc, body)? {
            None => Ok(None),
            Some(text) => Ok(Some(GameCommand::Move { ply, text })),
        },
        GameAction::OfferDraw => Ok(Some(GameCommand::OfferDraw { ply })),
        GameAction::AcceptDraw => Ok(Some(GameCommand::AcceptDraw { ply })),
        GameAction::Resign => Ok(Some(GameCommand::Resign)),
        GameAction::ClaimTime => Ok(Some(GameCommand::ClaimTime)),
        GameAction::Declare => Ok(Some(GameCommand::Declare { ply })),
    }
}

// The JSON answer to an accepted command.
fn answer_shown(alloc: Global, game: u32, answer: Answer) -> Result<Response, AllocError>
    ensures { IfOk result (λ shown. answer_view shown ≡ shows Json (compact_text (reply_data game (reply_of answer)))) }
{
    let text = answer_text(alloc, game, answer)?;
    Ok(Response::Shows(ContentType::Json, text.into_bytes()))
}

// The answer to a command; a repeated command has the same answer as the accepted one.
fn outcome_shown(alloc: Global, game: u32, outcome: Outcome) -> Result<Response, AllocError>
    ensures { IfOk result (λ shown. answer_view shown ≡ outcome_answer game (outcome_of outcome)) }
{
    match outcome {
        Outcome::Accepted(answer) => answer_shown(alloc, game, answer),
        Outcome::Repeated(answer) => answer_shown(alloc, game, answer),
        Outcome::Refused(refusal) => Ok(Response::Refused(HttpRefusal::Club(refusal))),
    }
}

fn key_holder(alloc: Global, key: &str) -> Result<Who, AllocError>
    ensures { IfOk result (λ who. who_of who ≡ key_holder key.now) }
{
    let key = String::from_str(alloc, key)?;
    Ok(Who::Key(key))
}

fn on_game(game: u32, command: GameCommand) -> Command
    ensures { command_of result ≡ on_game game (game_command_of command) }
{
    Command::OnGame(OnGame {
        game: u64::from(game),
        command,
    })
}

// The command on the game of an endpoint that its route and a body give; `None` if the body is malformed.
pub(crate) fn turn_given(
    alloc: Global,
    action: GameAction,
    asked: Endpoint<'_>,
    body: &[u8],
) -> Result<Option<Command>, AllocError>
    ensures { IfOk result (λ command. option_map command_of command ≡
        option_map (on_game asked.entry.id) (command_given action asked.entry.ply body.now)) }
{
    match command_given(alloc, action, asked.ply, body)? {
        Some(command) => Ok(Some(on_game(asked.id, command))),
        None => Ok(None),
    }
}

// The command that withdraws a challenge.
pub(crate) fn withdrawal(number: u32) -> Command
    ensures { command_of result ≡ withdraw_challenge number }
{
    Command::Withdraw(Withdraw {
        number: u64::from(number),
    })
}

// Executes a command that is no arbiter's, so that its faults are those of a call.
fn apply_command<C: ClubService>(
    alloc: Global,
    club: &mut C,
    who: &Who,
    command: &Command,
    moment: Moment,
) -> Result<Outcome, ClubFault>
    ensures clean { C.IsClean club.new → C.IsClean club.old }
    ensures serves { C.IsClean club.new → (s : C.State) → C.Stands club.old s →
        needs_arbiter (command_of command.now) ≡ false → Serves (C.Stands club.new) (C.Leaves club.new) s
        (C.club.step s (record { who = who_of who.now; command = command_of command.now; moment = moment })).0
        (λ outcome. outcome_of outcome ≡
        (C.club.step s (record { who = who_of who.now; command = command_of command.now; moment = moment })).1)
        IsOfCall result }
{
    club.apply(alloc, who, command, moment)
}

// Executes a command of a member, or refuses the body if there is none. `id` is the number of its game or challenge.
pub(crate) fn serve_command<C: ClubService>(
    alloc: Global,
    club: &mut C,
    key: &str,
    id: u32,
    command: Option<Command>,
    moment: Moment,
) -> Result<Response, AnswerFault>
    ensures clean { C.IsClean club.new → C.IsClean club.old }
    ensures serves { C.IsClean club.new → (s : C.State) → C.Stands club.old s →
        is_for_arbiter (option_map command_of command) ≡ false →
        ServesDue C.club (C.Stands club.new) (C.Leaves club.new) answer_view s
        (serve_command C.club s moment key.now id (option_map command_of command)) result }
{
    let Some(command) = command else {
        return Ok(Response::Refused(HttpRefusal::BadBody));
    };
    let who = key_holder(alloc, key)?;
    let outcome = apply_command(alloc, club, &who, &command, moment)?;
    let shown = outcome_shown(alloc, id, outcome)?;
    Ok(shown)
}
