//! Parsing of the program's command line.

ghost use Rattle.std.specs.Prelude.{◌≡◌, ◌≢◌, IfErr, IfNone, IfOk, IfSome, Some, codes, map, option_map, string_bytes};
ghost use Rattle.std.specs.Prelude.{ℕ, List, true, false};
ghost use Rattle.clap.specs.Words.{first_value, found_of, kind_of};
ghost use Rattle.clap.specs.declared.parser.matches.Found.{Found};
ghost use Rattle.cli.specs.Asked.{Asks, AsksBy, AsksCommand, AsksImport, AsksJsonTask, AsksQuestion, AsksService};
ghost use Rattle.cli.specs.Asked.{AsksTask, AsksTaskBy, HasNoJsonTask, HasNoOrderBy};
ghost use Rattle.cli.specs.Asked.{AreListed, AreShownOf, IsFlagIn, IsMomentIn, IsNumberIn, game_word};
ghost use Rattle.cli.specs.Asked.{AsksForBoth, HasNoCommand, HasNoGame, HasNoOrder, HasNoService, HasNoTask};
ghost use Rattle.cli.specs.Asked.{AsksOrder, AsksRulings, HasNoResult, HasNoRuling, IsBulk, IsLossIn};
ghost use Rattle.cli.specs.Asked.{key_source, record_word, text_in, texts_in, which_of};
ghost use Rattle.cli.specs.internal.Asked.{HasNoTaskBy, IsTold, IsParserErrorFor};
ghost use Rattle.cli.specs.internal.Inputs.{IsTaskWith};
ghost use Rattle.club_requests.specs.Rulings.{IsRulingIn};
ghost use Rattle.cli.specs.Said.{AreRefused, StatesInvocation};
ghost use Rattle.cli.specs.internal.Said.{FindsNone, IsFound, IsParserErrorOf};

use crate::batches::{Batch, BatchOptions, RoundRobin, batch_of, round_robin_of, texts};
use crate::hosts::{are_host_names, bad_host};
use crate::inputs::give_text;
use crate::parser::club_words;
use clap::ArgMatches;
use clap::error::ErrorKind;
use clocks::Moment;
use club_requests::{
    AddEvent, AddMember, BulkRuling, CloseEvent, Command, GameCommand, GameFilter, Import, Listing,
    NewKey, OnGame, Question, Rule, Ruling, Seat,
};
use club_rules::{GameKind, RecordFormat};
use std::alloc::{AllocError, Global};

/// The operation that a command line requests.
#[derive(Debug, Drop)]
pub enum Task {
    /// Create the tables of a club in the file: those of schema 3, which the arbiter's commands need (`--arbiter`), or
    /// those of schema 2.
    Init { has_arbiter: bool },
    /// Execute a command of the officer.
    Request(Command),
    /// End the overdue games, unless there are more than this.
    SweepAtMost(u64),
    /// Answer a query; the club does not change.
    Ask(Question),
    /// Check that the rows of the file are those of a club.
    Verify,
    /// Migrate the file to schema 3, which the arbiter's commands need (`--arbiter`), or to schema 2.
    Upgrade { has_arbiter: bool },
    /// Copy the club into a new file at this path, which must not exist.
    Backup(String),
    /// Execute commands of the officer one after another.
    Batch(Batch),
}

/// A file, the timestamp given by `--now`, and the operation to run.
#[derive(Debug, Drop)]
pub struct Order {
    pub file: String,
    pub now: Option<Moment>,
    pub task: Task,
    /// The source of an import's text or of a new key: a path, or `-` for standard input. Until it is read, the text in
    /// `task` is empty and the key is `-`.
    pub record: Option<String>,
    /// Explain a refusal or fault on a second line (`--explain`).
    pub explains: bool,
}

impl Order {
    /// Sets the text that was read for an order: the record of an import, or the new key that the command line gives as
    /// `-`. Does nothing for another order.
    pub fn set_record(&mut self, text: Vec<u8>)
        ensures task { IsTaskWith text self.old.task self.new.task }
        ensures file { self.new.file ≡ self.old.file }
        ensures now { self.new.now ≡ self.old.now }
        ensures source { self.new.«record» ≡ self.old.«record» }
        ensures explains { self.new.explains ≡ self.old.explains }
    {
        if let Task::Request(command) = &mut self.task {
            give_text(command, text);
        }
    }
}

/// The options of the server, which serves members over HTTP.
#[derive(Debug, Drop)]
pub struct ServeOptions {
    pub file: String,
    /// The timestamp to use for each connection, given by `--now`.
    pub now: Option<Moment>,
    /// The port on 127.0.0.1.
    pub port: u16,
    /// The number of connections to serve before the program exits.
    pub count: u64,
    /// Whether to log each connection.
    pub log: bool,
    /// The host names for which it answers, beside the loopback names and addresses; empty: for all.
    pub hosts: Vec<String>,
    /// Explain a fault on a second line (`--explain`).
    pub explains: bool,
}

/// The parsed command line.
#[derive(Debug, Drop)]
pub enum Invocation {
    Order(Order),
    Serve(ServeOptions),
    Batch(BatchOptions),
    RoundRobin(RoundRobin),
    /// Rulings on many games: the answer to the query of this order is to be executed as a batch.
    BulkRuling(Order),
}

/// The reason why a command line or a batch line gives nothing to execute.
#[derive(Debug, Drop)]
pub enum BadWords {
    /// The parser's error message or help.
    Text(String),
    /// The output of `--version`.
    Version(String),
    /// Out of memory.
    Memory,
}

impl From<AllocError> for BadWords {
    ghost use Rattle.std.specs.Prelude.{◌≡◌};
    ghost use Rattle.cli.specs.declared.words.BadWords.TheVariants as bad;

    ghost from_gives = { λ _ told. told ≡ bad.Memory };

    fn from(_refused: AllocError) -> BadWords {
        BadWords::Memory
    }
}

// A copy of a required argument.
pub(crate) fn text(
    alloc: Global,
    matches: &ArgMatches<'_>,
    name: &str,
) -> Result<String, AllocError>
    ensures { IfOk result (λ text. string_bytes text ≡ text_in (found_of matches.now) name.now) }
{
    String::from_str(alloc, matches.get_str(name).unwrap_or(""))
}

// A copy of an optional argument.
fn text_given(
    alloc: Global,
    matches: &ArgMatches<'_>,
    name: &str,
) -> Result<Option<String>, AllocError>
    ensures { IfOk result (λ text. option_map string_bytes text ≡ first_value (found_of matches.now) name.now) }
{
    match matches.get_str(name) {
        Some(text) => Ok(Some(String::from_str(alloc, text)?)),
        None => Ok(None),
    }
}

// An integer argument, or `other` if it is absent.
fn number_or(matches: &ArgMatches<'_>, name: &str, other: u64) -> u64
    ensures { IsNumberIn (found_of matches.now) name.now other result }
{
    match matches.get_one::<u64>(name) {
        Some(number) => number,
        None => other,
    }
}

// A required integer argument.
fn number_of(matches: &ArgMatches<'_>, name: &str) -> u64
    ensures { IsNumberIn (found_of matches.now) name.now 0 result }
{
    number_or(matches, name, 0)
}

// The GAME argument of an event. The parser accepts only the names of games.
fn game_of(matches: &ArgMatches<'_>) -> Option<GameKind>
    ensures some { IfSome result (λ game.
        first_value (found_of matches.now) (codes "GAME") ≡ Some (game_word game)) }
    ensures none { IfNone result (HasNoGame (found_of matches.now)) }
{
    match matches.get_str("GAME") {
        Some("draughts") => Some(GameKind::Draughts),
        Some("shogi") => Some(GameKind::Shogi),
        _ => None,
    }
}

// The error for arguments that the parser accepts although they state no order. The grammar prevents this case.
pub(crate) fn unknown(alloc: Global, name: &str) -> BadWords
    ensures { IsTold result }
{
    match format!(in alloc; "error: unknown word '{name}'\n") {
        Ok(text) => BadWords::Text(text),
        Err(_) => BadWords::Memory,
    }
}

fn member_of(alloc: Global, words: &ArgMatches<'_>) -> Result<Command, AllocError>
    ensures { IfOk result (AsksCommand (codes "member") (found_of words.now)) }
{
    Ok(Command::AddMember(AddMember {
        name: text(alloc, words, "NAME")?,
        key: text(alloc, words, "KEY")?,
    }))
}

fn event_of(alloc: Global, words: &ArgMatches<'_>) -> Result<Command, BadWords>
    ensures ok { IfOk result (AsksCommand (codes "event") (found_of words.now)) }
    ensures err { IfErr result (IsParserErrorFor (HasNoGame (found_of words.now))) }
{
    let Some(game) = game_of(words) else {
        return Err(unknown(alloc, "GAME"));
    };
    Ok(Command::AddEvent(AddEvent {
        name: text(alloc, words, "NAME")?,
        game,
        budget: number_of(words, "BUDGET"),
        increment: number_of(words, "INCREMENT"),
    }))
}

fn seat_of(alloc: Global, words: &ArgMatches<'_>) -> Result<Command, AllocError>
    ensures { IfOk result (AsksCommand (codes "seat") (found_of words.now)) }
{
    Ok(Command::Seat(Seat {
        key: text(alloc, words, "KEY")?,
        event: text(alloc, words, "EVENT")?,
        first: text(alloc, words, "FIRST")?,
        second: text(alloc, words, "SECOND")?,
    }))
}

fn move_of(alloc: Global, words: &ArgMatches<'_>) -> Result<Command, AllocError>
    ensures { IfOk result (AsksCommand (codes "move") (found_of words.now)) }
{
    Ok(Command::OnGame(OnGame {
        game: number_of(words, "GAME"),
        command: GameCommand::Move {
            ply: number_of(words, "PLY"),
            text: text(alloc, words, "TEXT")?,
        },
    }))
}

fn key_of(alloc: Global, words: &ArgMatches<'_>) -> Result<Command, AllocError>
    ensures { IfOk result (AsksCommand (codes "key") (found_of words.now)) }
{
    Ok(Command::NewKey(NewKey {
        name: text(alloc, words, "NAME")?,
        number: number_of(words, "NUMBER"),
        key: text(alloc, words, "KEY")?,
    }))
}

// The ruling that the arguments state.
fn ruling_of(words: &ArgMatches<'_>) -> Option<Ruling>
    ensures some { IfSome result (IsRulingIn (texts_in (found_of words.now) (codes "RULING"))) }
    ensures none { IfNone result (HasNoRuling (found_of words.now)) }
{
    match words.get_strs("RULING") {
        Some(given) => Ruling::parse(given),
        None => Ruling::parse(&[]),
    }
}

// The error for words that are no ruling.
fn no_ruling(alloc: Global) -> BadWords
    ensures { IsTold result }
{
    error_message(
        alloc,
        "error: a ruling is 'grant first SECONDS', 'grant second SECONDS', 'award 2-0', 'award 1-1', 'award 0-2' \
         or 'void'\n",
    )
}

fn rule_of(alloc: Global, words: &ArgMatches<'_>) -> Result<Command, BadWords>
    ensures ok { IfOk result (AsksCommand (codes "rule") (found_of words.now)) }
    ensures err { IfErr result (IsParserErrorFor (HasNoRuling (found_of words.now))) }
{
    let Some(ruling) = ruling_of(words) else {
        return Err(no_ruling(alloc));
    };
    Ok(Command::Rule(Rule {
        game: number_of(words, "GAME"),
        number: number_of(words, "NUMBER"),
        ruling,
    }))
}

fn close_of(alloc: Global, words: &ArgMatches<'_>) -> Result<Command, AllocError>
    ensures { IfOk result (AsksCommand (codes "close") (found_of words.now)) }
{
    Ok(Command::CloseEvent(CloseEvent {
        event: text(alloc, words, "EVENT")?,
    }))
}

// The import that the arguments state, without its text.
fn import_of(
    alloc: Global,
    words: &ArgMatches<'_>,
    format: RecordFormat,
    part: u64,
) -> Result<Import, AllocError>
    ensures given { IfOk result (AsksImport (found_of words.now)) }
    ensures format { IfOk result (λ import. import.format ≡ format) }
    ensures part { IfOk result (λ import. import.part ≡ part) }
{
    Ok(Import {
        key: text(alloc, words, "KEY")?,
        event: text(alloc, words, "EVENT")?,
        first: text(alloc, words, "FIRST")?,
        second: text(alloc, words, "SECOND")?,
        part,
        format,
        text: Vec::new(alloc),
    })
}

fn import_pdn_of(alloc: Global, words: &ArgMatches<'_>) -> Result<Command, AllocError>
    ensures { IfOk result (AsksCommand (codes "import-pdn") (found_of words.now)) }
{
    Ok(Command::Import(import_of(alloc, words, RecordFormat::Pdn, 1)?))
}

fn import_csa_of(alloc: Global, words: &ArgMatches<'_>) -> Result<Command, AllocError>
    ensures { IfOk result (AsksCommand (codes "import-csa") (found_of words.now)) }
{
    let part = number_or(words, "N", 1);
    Ok(Command::Import(import_of(alloc, words, RecordFormat::Csa, part)?))
}

// Standard input, if KEY is `-`.
fn key_source(alloc: Global, words: &ArgMatches<'_>) -> Result<Option<String>, AllocError>
    ensures { IfOk result (λ path. option_map string_bytes path ≡ key_source (found_of words.now)) }
{
    let key = text(alloc, words, "KEY")?;
    if key.as_str() == "-" {
        return Ok(Some(key));
    }
    Ok(None)
}

// The source of an import's record or of a new key.
pub(crate) fn record_of(
    alloc: Global,
    name: &str,
    words: &ArgMatches<'_>,
) -> Result<Option<String>, AllocError>
    ensures { IfOk result (λ path. option_map string_bytes path ≡ record_word name.now (found_of words.now)) }
{
    match name {
        "import-pdn" => Ok(Some(text(alloc, words, "RECORD")?)),
        "import-csa" => Ok(Some(text(alloc, words, "RECORD")?)),
        "key" => key_source(alloc, words),
        _ => Ok(None),
    }
}

// The command of the subcommand `name`.
pub(crate) fn command_of(
    alloc: Global,
    name: &str,
    words: &ArgMatches<'_>,
) -> Result<Command, BadWords>
    ensures ok { IfOk result (AsksCommand name.now (found_of words.now)) }
    ensures err { IfErr result (IsParserErrorFor (HasNoCommand name.now (found_of words.now))) }
{
    match name {
        "member" => Ok(member_of(alloc, words)?),
        "event" => event_of(alloc, words),
        "seat" => Ok(seat_of(alloc, words)?),
        "sweep" => Ok(Command::Sweep),
        "import-pdn" => Ok(import_pdn_of(alloc, words)?),
        "import-csa" => Ok(import_csa_of(alloc, words)?),
        "move" => Ok(move_of(alloc, words)?),
        "rule" => rule_of(alloc, words),
        "key" => Ok(key_of(alloc, words)?),
        "close" => Ok(close_of(alloc, words)?),
        _ => Err(unknown(alloc, name)),
    }
}

// The filter for the flags `--running` and `--overdue`, which exclude each other.
fn which_of(is_running: bool, is_overdue: bool) -> Option<GameFilter>
    ensures { result ≡ which_of is_running is_overdue }
{
    match (is_running, is_overdue) {
        (true, true) => None,
        (true, false) => Some(GameFilter::Running),
        (false, true) => Some(GameFilter::Overdue),
        (false, false) => Some(GameFilter::All),
    }
}

// The filter that the arguments state.
fn which_in(words: &ArgMatches<'_>) -> Option<GameFilter>
    ensures some { IfSome result (AreShownOf (found_of words.now)) }
    ensures none { IfNone result (AsksForBoth (found_of words.now)) }
{
    let is_running = words.get_flag("RUNNING");
    let is_overdue = words.get_flag("OVERDUE");
    which_of(is_running, is_overdue)
}

// An error message.
fn error_message(alloc: Global, message: &str) -> BadWords
    ensures { IsTold result }
{
    match String::from_str(alloc, message) {
        Ok(text) => BadWords::Text(text),
        Err(_) => BadWords::Memory,
    }
}

// The error for two flags that exclude each other.
fn both_flags(alloc: Global) -> BadWords
    ensures { IsTold result }
{
    error_message(
        alloc,
        "error: the argument '--running' cannot be used with '--overdue'\n",
    )
}

fn listing_of(alloc: Global, words: &ArgMatches<'_>) -> Result<Listing, BadWords>
    ensures ok { IfOk result (AreListed (found_of words.now)) }
    ensures err { IfErr result (IsParserErrorFor (AsksForBoth (found_of words.now))) }
{
    let Some(which) = which_in(words) else {
        return Err(both_flags(alloc));
    };
    Ok(Listing {
        event: text_given(alloc, words, "EVENT")?,
        member: text_given(alloc, words, "MEMBER")?,
        which,
    })
}

fn board_of(words: &ArgMatches<'_>) -> Question
    ensures { AsksQuestion (codes "show") (found_of words.now) result }
{
    Question::Board {
        game: number_of(words, "GAME"),
        letters: words.get_flag("LETTERS"),
    }
}

// The operation of `sweep`, with a limit or without.
fn sweep_of(words: &ArgMatches<'_>) -> Task
    ensures { AsksTask (codes "sweep") (found_of words.now) result }
{
    match words.get_one::<u64>("N") {
        Some(most) => Task::SweepAtMost(most),
        None => Task::Request(Command::Sweep),
    }
}

// The operation of another subcommand that is a command to the club.
fn request_of(alloc: Global, name: &str, words: &ArgMatches<'_>) -> Result<Task, BadWords>
    ensures ok { IfOk result (λ task. name.now ≢ codes "sweep" → AsksTask name.now (found_of words.now) task) }
    ensures err { IfErr result (IsParserErrorFor (HasNoCommand name.now (found_of words.now))) }
{
    match command_of(alloc, name, words) {
        Ok(command) => Ok(Task::Request(command)),
        Err(told) => Err(told),
    }
}

fn games_of(alloc: Global, words: &ArgMatches<'_>) -> Result<Task, BadWords>
    ensures ok { IfOk result (AsksTask (codes "games") (found_of words.now)) }
    ensures err { IfErr result (IsParserErrorFor (AsksForBoth (found_of words.now))) }
{
    match listing_of(alloc, words) {
        Ok(listing) => Ok(Task::Ask(Question::Games(listing))),
        Err(told) => Err(told),
    }
}

// Whether a member who retires loses the games; otherwise they are void.
fn loss_in(words: &ArgMatches<'_>) -> Option<bool>
    ensures some { IfSome result (IsLossIn (found_of words.now)) }
    ensures none { IfNone result (HasNoResult (found_of words.now)) }
{
    match words.get_str("RESULT").unwrap_or("") {
        "loss" => Some(true),
        "void" => Some(false),
        _ => None,
    }
}

fn retire_of(alloc: Global, words: &ArgMatches<'_>) -> Result<Task, BadWords>
    ensures ok { IfOk result (AsksTask (codes "retire") (found_of words.now)) }
    ensures err { IfErr result (IsParserErrorFor (HasNoResult (found_of words.now))) }
{
    let Some(is_loss) = loss_in(words) else {
        return Err(error_message(alloc, "error: a member retires with 'void' or 'loss'\n"));
    };
    Ok(Task::Ask(Question::RulingOrders(BulkRuling::Retire {
        member: text(alloc, words, "NAME")?,
        event: text(alloc, words, "EVENT")?,
        is_loss,
    })))
}

fn extend_of(alloc: Global, words: &ArgMatches<'_>) -> Result<Task, AllocError>
    ensures { IfOk result (AsksTask (codes "extend") (found_of words.now)) }
{
    Ok(Task::Ask(Question::RulingOrders(BulkRuling::Extend {
        event: text(alloc, words, "EVENT")?,
        seconds: number_of(words, "SECONDS"),
    })))
}

// The operation of the subcommand `name`.
fn task_of(alloc: Global, name: &str, words: &ArgMatches<'_>) -> Result<Task, BadWords>
    ensures ok { IfOk result (AsksTask name.now (found_of words.now)) }
    ensures err { IfErr result (IsParserErrorFor (HasNoTask name.now (found_of words.now))) }
{
    match name {
        "init" => Ok(Task::Init {
            has_arbiter: words.get_flag("ARBITER"),
        }),
        "legal" => Ok(Task::Ask(Question::LegalMoves(number_of(words, "GAME")))),
        "export" => Ok(Task::Ask(Question::Record(number_of(words, "GAME")))),
        "show" => Ok(Task::Ask(board_of(words))),
        "export-event" => Ok(Task::Ask(Question::EventRecords(text(alloc, words, "EVENT")?))),
        "table" => Ok(Task::Ask(Question::CrossTable(text(alloc, words, "EVENT")?))),
        "members" => Ok(Task::Ask(Question::Members)),
        "events" => Ok(Task::Ask(Question::Events)),
        "games" => games_of(alloc, words),
        "challenges" => Ok(Task::Ask(Question::Challenges)),
        "sweep" => Ok(sweep_of(words)),
        "verify" => Ok(Task::Verify),
        "upgrade" => Ok(Task::Upgrade {
            has_arbiter: words.get_flag("ARBITER"),
        }),
        "backup" => Ok(Task::Backup(text(alloc, words, "FILE2")?)),
        "rulings" => Ok(Task::Ask(Question::Rulings(number_of(words, "GAME")))),
        "retire" => retire_of(alloc, words),
        "extend" => Ok(extend_of(alloc, words)?),
        _ => request_of(alloc, name, words),
    }
}

// The error for `--json` with a subcommand that has no JSON.
fn no_json(alloc: Global, name: &str) -> BadWords
    ensures { IsTold result }
{
    match format!(in alloc; "error: '--json' is not for '{name}'\n") {
        Ok(text) => BadWords::Text(text),
        Err(_) => BadWords::Memory,
    }
}

fn games_json_of(alloc: Global, words: &ArgMatches<'_>) -> Result<Task, BadWords>
    ensures ok { IfOk result (AsksJsonTask (codes "games") (found_of words.now)) }
    ensures err { IfErr result (IsParserErrorFor (AsksForBoth (found_of words.now))) }
{
    match listing_of(alloc, words) {
        Ok(listing) => Ok(Task::Ask(Question::GamesJson(listing))),
        Err(told) => Err(told),
    }
}

// The operation of the subcommand `name` with `--json`.
fn json_task_of(alloc: Global, name: &str, words: &ArgMatches<'_>) -> Result<Task, BadWords>
    ensures ok { IfOk result (AsksJsonTask name.now (found_of words.now)) }
    ensures err { IfErr result (IsParserErrorFor (HasNoJsonTask name.now (found_of words.now))) }
{
    match name {
        "legal" => Ok(Task::Ask(Question::LegalMovesJson(number_of(words, "GAME")))),
        "show" => Ok(Task::Ask(Question::GamePage(number_of(words, "GAME")))),
        "rulings" => Ok(Task::Ask(Question::RulingsJson(number_of(words, "GAME")))),
        "members" => Ok(Task::Ask(Question::MembersJson)),
        "events" => Ok(Task::Ask(Question::EventsJson)),
        "games" => games_json_of(alloc, words),
        "challenges" => Ok(Task::Ask(Question::ChallengesJson)),
        _ => Err(no_json(alloc, name)),
    }
}

// The operation of the subcommand `name`, with `--json` or without.
fn task_by(
    alloc: Global,
    is_json: bool,
    name: &str,
    words: &ArgMatches<'_>,
) -> Result<Task, BadWords>
    ensures ok { IfOk result (AsksTaskBy is_json name.now (found_of words.now)) }
    ensures err { IfErr result (IsParserErrorFor (HasNoTaskBy is_json name.now (found_of words.now))) }
{
    match is_json {
        true => json_task_of(alloc, name, words),
        false => task_of(alloc, name, words),
    }
}

// The parser's message. What it says of a number that cannot be read is put into an officer's words.
fn in_plain_words(alloc: Global, message: &str) -> Result<String, AllocError> {
    let text = message.replace(
        alloc,
        "invalid digit found in string",
        "it must be a whole number",
    )?;
    let text = text.replace(
        alloc,
        "cannot parse integer from empty string",
        "it must be a whole number",
    )?;
    text.replace(
        alloc,
        "number too large to fit in target type",
        "the number is too large",
    )
}

// The error or output of the parser.
pub(crate) fn usage_error(alloc: Global, error: &clap::Error) -> BadWords
    ensures { IsParserErrorOf (kind_of error.now) result }
{
    if error.kind() == ErrorKind::OutOfMemory {
        return BadWords::Memory;
    }
    let Ok(text) = error.to_string(alloc) else {
        return BadWords::Memory;
    };
    if error.kind() == ErrorKind::DisplayVersion {
        return BadWords::Version(text);
    }
    match in_plain_words(alloc, text.as_str()) {
        Ok(text) => BadWords::Text(text),
        Err(_) => BadWords::Memory,
    }
}

// The options of `serve`. The parser has checked the port, and not the host names.
fn service_of(
    alloc: Global,
    all: &ArgMatches<'_>,
    words: &ArgMatches<'_>,
) -> Result<ServeOptions, BadWords>
    ensures ok { IfOk result (AsksService (found_of all.now) (found_of words.now)) }
    ensures err { IfErr result (IsParserErrorFor (HasNoService (found_of words.now))) }
{
    let Ok(port) = u16::try_from(number_of(words, "PORT")) else {
        return Err(unknown(alloc, "PORT"));
    };
    let hosts = texts(alloc, words, "HOST")?;
    if !are_host_names(&hosts) {
        return Err(bad_host(alloc));
    }
    Ok(ServeOptions {
        file: text(alloc, all, "FILE")?,
        now: moment_of(all),
        port,
        count: number_or(words, "COUNT", u64::MAX),
        log: words.get_flag("LOG"),
        hosts,
        explains: is_explained(all),
    })
}

// The timestamp given by `--now`.
pub(crate) fn moment_of(all: &ArgMatches<'_>) -> Option<Moment>
    ensures { IsMomentIn (found_of all.now) result }
{
    match all.get_one::<u64>("SECONDS") {
        Some(seconds) => Moment::new(seconds),
        None => None,
    }
}

// Whether `--explain` is given.
pub(crate) fn is_explained(all: &ArgMatches<'_>) -> bool
    ensures { IsFlagIn (found_of all.now) (codes "EXPLAIN") result }
{
    all.get_flag("EXPLAIN")
}

fn serve_of(
    alloc: Global,
    all: &ArgMatches<'_>,
    words: &ArgMatches<'_>,
) -> Result<Invocation, BadWords>
    ensures ok { IfOk result (AsksBy false (found_of all.now) (codes "serve") (found_of words.now)) }
    ensures err { IfErr result (IsParserErrorFor (HasNoService (found_of words.now))) }
{
    match service_of(alloc, all, words) {
        Ok(service) => Ok(Invocation::Serve(service)),
        Err(told) => Err(told),
    }
}

// Whether `--json` is given.
fn is_json(all: &ArgMatches<'_>) -> bool
    ensures { IsFlagIn (found_of all.now) (codes "JSON") result }
{
    all.get_flag("JSON")
}

// The order of the subcommand `name`, with `--json` or without.
fn order_of(
    alloc: Global,
    is_json: bool,
    all: &ArgMatches<'_>,
    name: &str,
    words: &ArgMatches<'_>,
) -> Result<Order, BadWords>
    ensures ok { IfOk result (AsksOrder is_json (found_of all.now) name.now (found_of words.now)) }
    ensures err { IfErr result (IsParserErrorFor (HasNoTaskBy is_json name.now (found_of words.now))) }
{
    // The task comes last, so that nothing else is dropped with it.
    let file = text(alloc, all, "FILE")?;
    let record = record_of(alloc, name, words)?;
    let task = match task_by(alloc, is_json, name, words) {
        Ok(task) => task,
        Err(told) => return Err(told),
    };
    Ok(Order {
        file,
        now: moment_of(all),
        task,
        record,
        explains: is_explained(all),
    })
}

// The parsed command line with `--json`, from its subcommand.
fn json_of(
    alloc: Global,
    all: &ArgMatches<'_>,
    name: &str,
    words: &ArgMatches<'_>,
) -> Result<Invocation, BadWords>
    ensures ok { IfOk result (AsksBy true (found_of all.now) name.now (found_of words.now)) }
    ensures err { IfErr result (IsParserErrorFor (HasNoOrderBy true name.now (found_of words.now))) }
{
    match order_of(alloc, true, all, name, words) {
        Ok(order) => Ok(Invocation::Order(order)),
        Err(told) => Err(told),
    }
}

// The order, or the rulings that it prints with `--dry`.
fn order_or_rulings(words: &ArgMatches<'_>, order: Order) -> Invocation
    ensures { (all : Found) (name : List ℕ) → AsksOrder false all name (found_of words.now) order → IsBulk name →
        AsksBy false all name (found_of words.now) result }
{
    match words.get_flag("DRY") {
        true => Invocation::Order(order),
        false => Invocation::BulkRuling(order),
    }
}

// An order, or many rulings.
fn rulings_of(
    alloc: Global,
    all: &ArgMatches<'_>,
    name: &str,
    words: &ArgMatches<'_>,
) -> Result<Invocation, BadWords>
    ensures ok { IfOk result (λ said. IsBulk name.now →
        AsksBy false (found_of all.now) name.now (found_of words.now) said) }
    ensures err { IfErr result (IsParserErrorFor (HasNoTaskBy false name.now (found_of words.now))) }
{
    match order_of(alloc, false, all, name, words) {
        Ok(order) => Ok(order_or_rulings(words, order)),
        Err(told) => Err(told),
    }
}

// The parsed command line without `--json`, from its subcommand.
fn lines_of(
    alloc: Global,
    all: &ArgMatches<'_>,
    name: &str,
    words: &ArgMatches<'_>,
) -> Result<Invocation, BadWords>
    ensures ok { IfOk result (AsksBy false (found_of all.now) name.now (found_of words.now)) }
    ensures err { IfErr result (IsParserErrorFor (HasNoOrderBy false name.now (found_of words.now))) }
{
    match name {
        "serve" => serve_of(alloc, all, words),
        "batch" => Ok(Invocation::Batch(batch_of(alloc, all, words)?)),
        "round-robin" => Ok(Invocation::RoundRobin(round_robin_of(alloc, all, words)?)),
        "retire" => rulings_of(alloc, all, name, words),
        "extend" => rulings_of(alloc, all, name, words),
        _ => match order_of(alloc, false, all, name, words) {
            Ok(order) => Ok(Invocation::Order(order)),
            Err(told) => Err(told),
        },
    }
}

// The parsed command line, from its subcommand.
fn words_of(
    alloc: Global,
    all: &ArgMatches<'_>,
    name: &str,
    words: &ArgMatches<'_>,
) -> Result<Invocation, BadWords>
    ensures ok { IfOk result (Asks (found_of all.now) name.now (found_of words.now)) }
    ensures err { IfErr result (IsParserErrorFor (HasNoOrder (found_of all.now) name.now (found_of words.now))) }
{
    if is_json(all) {
        return json_of(alloc, all, name, words);
    }
    lines_of(alloc, all, name, words)
}

// The parsed command line, from the parser's matches.
fn parsed(alloc: Global, matches: &ArgMatches<'_>) -> Result<Invocation, BadWords>
    ensures ok { IfOk result (IsFound Asks matches.now) }
    ensures err { IfErr result (IsParserErrorFor (FindsNone HasNoOrder matches.now)) }
{
    match matches.subcommand() {
        Some(entered) => words_of(alloc, matches, entered.0, entered.1),
        None => Err(unknown(alloc, "")),
    }
}

/// Parses the program's command line. `words` starts with the program's name.
///
/// # Errors
///
/// - `BadWords::Text` with the parser's message or its help.
/// - `BadWords::Version` for `--version`.
/// - `BadWords::Memory` if out of memory.
///
/// # Guarantees
///
/// `ok`: the result is what the arguments state. `err`: the message has a cause in the arguments.
pub fn read_words(alloc: Global, words: &[&str]) -> Result<Invocation, BadWords>
    ensures ok { IfOk result (StatesInvocation (map (λ word. word.now) words.entry.now)) }
    ensures err { IfErr result (AreRefused (map (λ word. word.now) words.entry.now)) }
{
    let club = club_words(alloc)?;
    match club.try_get_matches_from(words) {
        Ok(matches) => parsed(alloc, &matches),
        Err(error) => Err(usage_error(alloc, &error)),
    }
}
