//! Parses requests, `SECONDS WHO COMMAND`, where WHO is `officer` or a member's key.

use anyhow::{Context, Result, bail};
use clocks::Moment;
use club_requests::{
    AddEvent, AddMember, AnswerChallenge, CloseEvent, Command, GameCommand, Import, NewKey, OnGame,
    OpenChallenge, Request, Rule, Ruling, Seat, Who, Withdraw,
};
use club_rules::{GameKind, RecordFormat};
use std::alloc::Global;

// The word; `''` is the empty text.
fn text(alloc: Global, word: &str) -> Result<String> {
    let letters = if word == "''" { "" } else { word };
    Ok(String::from_str(alloc, letters)?)
}

fn who(alloc: Global, word: &str) -> Result<Who> {
    Ok(match word {
        "officer" => Who::Officer,
        key => Who::Key(text(alloc, key)?),
    })
}

fn game_kind(word: &str) -> Result<GameKind> {
    match word {
        "draughts" => Ok(GameKind::Draughts),
        "shogi" => Ok(GameKind::Shogi),
        _ => bail!("no such game"),
    }
}

fn on_game(game: &str, command: GameCommand) -> Result<Command> {
    Ok(Command::OnGame(OnGame {
        game: game.parse()?,
        command,
    }))
}

fn game_command(alloc: Global, words: &[&str]) -> Result<Command> {
    match *words {
        ["move", game, ply, letters] => {
            let (ply, text) = (ply.parse()?, text(alloc, letters)?);
            on_game(game, GameCommand::Move { ply, text })
        }
        ["offer", game, ply] => on_game(game, GameCommand::OfferDraw { ply: ply.parse()? }),
        ["accept", game, ply] => on_game(game, GameCommand::AcceptDraw { ply: ply.parse()? }),
        ["resign", game] => on_game(game, GameCommand::Resign),
        ["claim", game] => on_game(game, GameCommand::ClaimTime),
        ["declare", game, ply] => on_game(game, GameCommand::Declare { ply: ply.parse()? }),
        _ => bail!("no such command"),
    }
}

// Whether the word is `one`; an error if it is neither `one` nor `other`.
fn is_the_one(word: &str, one: &str, other: &str) -> Result<bool> {
    if word == one {
        return Ok(true);
    }
    if word == other {
        return Ok(false);
    }
    bail!("no such word")
}

fn challenge_command(alloc: Global, words: &[&str]) -> Result<Command> {
    match *words {
        ["challenge", number, event, other, side] => Ok(Command::Challenge(OpenChallenge {
            number: number.parse()?,
            event: text(alloc, event)?,
            other: text(alloc, other)?,
            first: is_the_one(side, "first", "second")?,
        })),
        ["withdraw", number] => Ok(Command::Withdraw(Withdraw {
            number: number.parse()?,
        })),
        ["answer", challenger, number, word] => Ok(Command::Answer(AnswerChallenge {
            challenger: text(alloc, challenger)?,
            number: number.parse()?,
            accept: is_the_one(word, "accept", "refuse")?,
        })),
        _ => game_command(alloc, words),
    }
}

// The text of a record; `\n` is a newline.
fn record(alloc: Global, word: &str) -> Result<Vec<u8>> {
    let mut text = String::new(alloc);
    for line in word.split("\\n") {
        text.push_str(line)?;
        text.push_str("\n")?;
    }
    Ok(text.into_bytes())
}

fn format(word: &str) -> Result<RecordFormat> {
    match word {
        "pdn" => Ok(RecordFormat::Pdn),
        "csa" => Ok(RecordFormat::Csa),
        _ => bail!("no such format"),
    }
}

fn command(alloc: Global, words: &[&str]) -> Result<Command> {
    match *words {
        ["import", key, event, first, second, part, kind, letters] => Ok(Command::Import(Import {
            key: text(alloc, key)?,
            event: text(alloc, event)?,
            first: text(alloc, first)?,
            second: text(alloc, second)?,
            part: part.parse()?,
            format: format(kind)?,
            text: record(alloc, letters)?,
        })),
        ["member", name, key] => Ok(Command::AddMember(AddMember {
            name: text(alloc, name)?,
            key: text(alloc, key)?,
        })),
        ["event", name, game, budget, increment] => Ok(Command::AddEvent(AddEvent {
            name: text(alloc, name)?,
            game: game_kind(game)?,
            budget: budget.parse()?,
            increment: increment.parse()?,
        })),
        ["seat", key, event, first, second] => Ok(Command::Seat(Seat {
            key: text(alloc, key)?,
            event: text(alloc, event)?,
            first: text(alloc, first)?,
            second: text(alloc, second)?,
        })),
        ["key", name, number, key] => Ok(Command::NewKey(NewKey {
            name: text(alloc, name)?,
            number: number.parse()?,
            key: text(alloc, key)?,
        })),
        ["close", event] => Ok(Command::CloseEvent(CloseEvent {
            event: text(alloc, event)?,
        })),
        ["rule", game, number, ref ruling @ ..] => Ok(Command::Rule(Rule {
            game: game.parse()?,
            number: number.parse()?,
            ruling: Ruling::parse(ruling).context("no such ruling")?,
        })),
        ["sweep"] => Ok(Command::Sweep),
        _ => challenge_command(alloc, words),
    }
}

/// Parses the request with this timestamp and these words.
pub fn request(alloc: Global, seconds: &str, asked: &str) -> Result<Request> {
    let moment = Moment::new(seconds.parse()?).context("no such moment")?;
    let words: Vec<&str> = asked.split_whitespace().collect(alloc)?;
    let [by, words @ ..] = words.as_slice() else {
        bail!("nobody asks for anything")
    };
    Ok(Request {
        who: who(alloc, by)?,
        command: command(alloc, words)?,
        moment,
    })
}
