//! Requests: a command, its caller and its timestamp.

ghost use Rattle.std.specs.Prelude.{◌≡◌, option_map};
ghost use Rattle.club_requests.specs.internal.CommandName.{command_name, game_command_name, import_name};

use crate::rulings::Ruling;
use clocks::Moment;
use club_rules::{GameKind, RecordFormat};

/// The caller of a command as the client names it: the officer, or a member by key.
#[derive(Debug, Drop)]
pub enum Who {
    Officer,
    Key(String),
}

/// The caller of a command after the key is looked up: the officer, or a member by id.
#[derive(Clone, Copy, Debug, PartialEq, Eq)]
pub enum Caller {
    Officer,
    Member(u32),
}

/// Adds a member with a name and a secret key.
#[derive(Debug, Drop)]
pub struct AddMember {
    pub name: String,
    pub key: String,
}

/// Adds an event of one game. The budget (initial time per player) and the increment (per move) are in seconds.
#[derive(Debug, Drop)]
pub struct AddEvent {
    pub name: String,
    pub game: GameKind,
    pub budget: u64,
    pub increment: u64,
}

/// Starts a game between two members under a unique key. The event and the players are given by name.
#[derive(Debug, Drop)]
pub struct Seat {
    pub key: String,
    pub event: String,
    pub first: String,
    pub second: String,
}

/// Adds a game that was played elsewhere, read from one part of a text of records, under a unique key. The event and
/// the players are given by name; parts count from 1.
#[derive(Debug, Drop)]
pub struct Import {
    pub key: String,
    pub event: String,
    pub first: String,
    pub second: String,
    pub part: u64,
    pub format: RecordFormat,
    pub text: Vec<u8>,
}

/// A command on a game. Plies count from 1.
#[derive(Debug, Drop)]
pub enum GameCommand {
    /// Plays a move, given as text, at a ply.
    Move { ply: u64, text: String },
    /// Offers a draw at the next ply. The offer is valid until the next move.
    OfferDraw { ply: u64 },
    /// Accepts the opponent's draw offer at the next ply.
    AcceptDraw { ply: u64 },
    /// Resigns; only the side to move may.
    Resign,
    /// Claims that the opponent, who is to move, has exceeded the time limit.
    ClaimTime,
    /// Declares a win by entering king for the side to move. `ply` is the number of plies played plus 1.
    Declare { ply: u64 },
}

/// A command on the game with this id.
#[derive(Debug, Drop)]
pub struct OnGame {
    pub game: u64,
    pub command: GameCommand,
}

/// Challenges a member to a game of an event, under a number that the challenger chooses. `first` is true if the
/// challenger moves first.
#[derive(Debug, Drop)]
pub struct OpenChallenge {
    pub number: u64,
    pub event: String,
    pub other: String,
    pub first: bool,
}

/// Withdraws the caller's own challenge with this number.
#[derive(Debug, Drop)]
pub struct Withdraw {
    pub number: u64,
}

/// Accepts or refuses a challenge to the caller. The challenge is identified by the challenger's name and number.
#[derive(Debug, Drop)]
pub struct AnswerChallenge {
    pub challenger: String,
    pub number: u64,
    pub accept: bool,
}

/// Gives a member another key, under a number that counts from 1. From then on the earlier keys are nobody's.
#[derive(Debug, Drop)]
pub struct NewKey {
    pub name: String,
    pub number: u64,
    pub key: String,
}

/// Closes an event to challenges. Its games go on, and games can still be added by the officer.
#[derive(Debug, Drop)]
pub struct CloseEvent {
    pub event: String,
}

/// Gives a ruling on the game with this id, under a number that counts from 1.
#[derive(Debug, Drop)]
pub struct Rule {
    pub game: u64,
    pub number: u64,
    pub ruling: Ruling,
}

/// A command to the club.
#[derive(Debug, Drop)]
pub enum Command {
    AddMember(AddMember),
    AddEvent(AddEvent),
    Seat(Seat),
    Import(Import),
    OnGame(OnGame),
    /// Ends every running game whose side to move has exceeded the time limit.
    Sweep,
    Challenge(OpenChallenge),
    Withdraw(Withdraw),
    Answer(AnswerChallenge),
    NewKey(NewKey),
    CloseEvent(CloseEvent),
    Rule(Rule),
}

// The subcommand that imports a record of this format.
fn import_name(format: RecordFormat) -> &'static str
    ensures { result.now ≡ import_name format }
{
    match format {
        RecordFormat::Pdn => "import-pdn",
        RecordFormat::Csa => "import-csa",
    }
}

impl GameCommand {
    // The subcommand of a command on a game; only moves have one.
    fn name(&self) -> Option<&'static str>
        ensures { option_map (λ name. name.now) result ≡ game_command_name self.now }
    {
        match self {
            GameCommand::Move { ply: _, text: _ } => Some("move"),
            _ => None,
        }
    }
}

impl Command {
    /// The name of the subcommand that sends this command; `None` if the command line has none.
    pub fn name(&self) -> Option<&'static str>
        ensures { option_map (λ name. name.now) result ≡ command_name self.now }
    {
        match self {
            Command::AddMember(_) => Some("member"),
            Command::AddEvent(_) => Some("event"),
            Command::Seat(_) => Some("seat"),
            Command::Import(given) => Some(import_name(given.format)),
            Command::OnGame(given) => given.command.name(),
            Command::Sweep => Some("sweep"),
            Command::NewKey(_) => Some("key"),
            Command::CloseEvent(_) => Some("close"),
            Command::Rule(_) => Some("rule"),
            Command::Challenge(_) | Command::Withdraw(_) | Command::Answer(_) => None,
        }
    }
}

/// A command with its caller and the timestamp at which it arrived.
#[derive(Debug, Drop)]
pub struct Request {
    pub who: Who,
    pub command: Command,
    pub moment: Moment,
}
