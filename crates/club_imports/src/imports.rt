//! The decision on an import.

ghost use Rattle.std.specs.Prelude.{◌≡◌, ◌≤◌, ◌<◌, ℕ, length, Option, IfOk, IfNone, string_bytes};
ghost use Rattle.std.specs.Option.{option_map};
ghost use Rattle.club_rules.specs.Records.{IsGameByRules};
ghost use Rattle.club_rules.specs.internal.Records.{recorded_of, reading_of};
ghost use Rattle.club_core.specs.Answer.{import_of};
ghost use Rattle.club_core.specs.internal.Answer.{members_of, events_of};
ghost use Rattle.club_core.specs.Events.{has_event_name, event_declares};
ghost use Rattle.club_core.specs.Game.{Game};
ghost use Rattle.club_core.specs.Imports.{same_format, has_part, reading_of_import, repeat_of_import, import_refusal};
ghost use Rattle.club_core.specs.Imports.{read_in, import_game, import_between, import_step, import_found};
ghost use Rattle.club_requests.specs.Limits.{most_members, most_events, most_games};
ghost use Rattle.club_core.specs.Members.{find_id};
ghost use Rattle.club_requests.specs.Outcome.{by_officer, game_seated};
ghost use Rattle.club_core.specs.Seats.{has_member_name};
ghost use Rattle.club_imports.specs.internal.Importing.{ShowsPlayed, IsByRules, importing_of, AddsByRules};

use crate::played::{ComparedGames, reads_record_of};
use club_core::seats::{are_distinct, find_event, find_member, repeated_seat};
use club_core::{Event, Member, NamedPairing, Pairing, StoredGames, event_declares};
use club_requests::values::{MOST_GAMES, MOST_RECORD_BYTES, is_name};
use club_requests::{Caller, Import, Refusal};
use club_rules::{
    Memory, RecordFormat, RecordReading, RecordRefusal, RecordedGame, Records, Rules,
};
use std::alloc::Global;

/// A new game with its id and what its record states.
#[derive(Drop)]
pub struct NewGame<M> {
    pub game: u32,
    pub pairing: Pairing,
    pub recorded: RecordedGame<M>,
}

/// The outcome of an import: a new game, a repeat (with the id of the game), or a refusal.
#[derive(Drop)]
pub enum ImportDecision<M> {
    Adds(NewGame<M>),
    Repeated(u32),
    Refused(Refusal),
}

fn is_same_format(one: RecordFormat, other: RecordFormat) -> bool
    ensures { result ≡ same_format one other }
{
    one == other
}

/// Reads the part of the import's text. There is no part if the text is too long or of the other game's format.
fn read_import<R: Records>(
    alloc: Global,
    command: &Import,
) -> Result<RecordReading<R::Move>, Memory>
    ensures read { IfOk result (λ read. reading_of read
        ≡ reading_of_import R.rules R.records (import_of command.now)) }
    ensures by_rules { IfOk result (λ read. IsByRules R.rules (reading_of read)) }
{
    let text = command.text.as_slice();
    if !is_same_format(command.format, R::format()) {
        return Ok(RecordReading::NoPart);
    }
    if text.len() > MOST_RECORD_BYTES {
        return Ok(RecordReading::NoPart);
    }
    R::read_record(alloc, text, command.part)
}

fn has_part<M>(reading: &RecordReading<M>) -> bool
    ensures { result ≡ has_part (reading_of reading.now) }
{
    match reading {
        RecordReading::NoPart => false,
        _ => true,
    }
}

/// The id of the game under the key, if it has the same event and players, and the record's moves and score.
fn repeat_of_import<R: Records>(
    command: &Import,
    reading: &RecordReading<R::Move>,
    named: NamedPairing,
    compared: &ComparedGames<R::Move>,
) -> Option<u32>
    requires { reading_of reading.now ≡ reading_of_import R.rules R.records (import_of command.now) }
    ensures { (old : Option (Game R.Move)) (games : ℕ) → ShowsPlayed R.rules old compared.now.played →
        option_map game_seated result ≡ repeat_of_import R.rules R.records (import_of command.now) named.event
        named.first named.second compared.now.stored.under_key old games }
{
    if reads_record_of::<R>(&compared.played, reading) {
        return repeated_seat(named, compared.stored.under_key);
    }
    None
}

/// The refusals that are checked before the record's own.
fn refusal_of_import<R: Records>(
    command: &Import,
    reading: &RecordReading<R::Move>,
    named: NamedPairing,
    stored: StoredGames,
) -> Option<Refusal>
    requires { reading_of reading.now ≡ reading_of_import R.rules R.records (import_of command.now) }
    ensures value { (old : Option (Game R.Move)) →
        result ≡ import_refusal R.rules R.records (import_of command.now) named.event named.first named.second
        stored.under_key old stored.count }
    ensures room { IfNone result (stored.count < most_games) }
{
    if stored.under_key.is_some() {
        return Some(Refusal::Conflict);
    }
    if !is_name(command.key.as_str())
        || !are_distinct(named.first, named.second)
        || !has_part(reading)
    {
        return Some(Refusal::BadValue);
    }
    if stored.count >= MOST_GAMES {
        return Some(Refusal::Full);
    }
    None
}

/// Adds a record that was read to an event, if both players were found. `games` is the number of games.
fn import_game<R: Rules>(
    named: NamedPairing,
    games: u32,
    recorded: RecordedGame<R::Move>,
) -> ImportDecision<R::Move>
    requires room { games < most_games }
    requires by_rules { IsGameByRules R.rules (recorded_of recorded) }
    ensures value { importing_of result ≡ import_game named.event named.first named.second games
        (recorded_of recorded) }
    ensures by_rules { AddsByRules R.rules result }
{
    let first = match named.first {
        Some(first) => first,
        None => return ImportDecision::Refused(Refusal::BadValue),
    };
    let second = match named.second {
        Some(second) => second,
        None => return ImportDecision::Refused(Refusal::BadValue),
    };
    ImportDecision::Adds(NewGame {
        game: games + 1,
        pairing: Pairing {
            event: named.event,
            first,
            second,
        },
        recorded,
    })
}

/// Refuses a record that ends with a declaration, if the event has no declarations.
fn read_in<R: Rules>(
    format: RecordFormat,
    declares: bool,
    reading: RecordReading<R::Move>,
) -> RecordReading<R::Move>
    requires { IsByRules R.rules (reading_of reading) }
    ensures value { reading_of result ≡ read_in format declares (reading_of reading) }
    ensures by_rules { IsByRules R.rules (reading_of result) }
{
    match reading {
        RecordReading::Game(recorded) if recorded.declared && !declares => {
            RecordReading::Refused(RecordRefusal::ResultDiffers(format))
        }
        reading => reading,
    }
}

/// Adds the game that was read, or refuses it. `games` is the number of games.
fn import_between<R: Rules>(
    named: NamedPairing,
    games: u32,
    reading: RecordReading<R::Move>,
) -> ImportDecision<R::Move>
    requires room { games < most_games }
    requires by_rules { IsByRules R.rules (reading_of reading) }
    ensures value { importing_of result ≡ import_between named.event named.first named.second games
        (reading_of reading) }
    ensures by_rules { AddsByRules R.rules result }
{
    match reading {
        RecordReading::Game(recorded) => import_game::<R>(named, games, recorded),
        RecordReading::NoPart => ImportDecision::Refused(Refusal::BadValue),
        RecordReading::Refused(refusal) => ImportDecision::Refused(Refusal::Record(refusal)),
    }
}

/// Decides an import after the names are looked up; `declares`: the event has declarations.
fn import_found<R: Records>(
    alloc: Global,
    command: &Import,
    named: NamedPairing,
    compared: &ComparedGames<R::Move>,
    declares: bool,
) -> Result<ImportDecision<R::Move>, Memory>
    ensures value { IfOk result (λ i. (old : Option (Game R.Move)) → ShowsPlayed R.rules old compared.now.played →
        importing_of i ≡ import_step R.rules R.records (import_of command.now) named.event named.first named.second
        compared.now.stored.under_key old compared.now.stored.count declares) }
    ensures by_rules { IfOk result (λ i. AddsByRules R.rules i) }
{
    let reading = read_import::<R>(alloc, command)?;
    match repeat_of_import::<R>(command, &reading, named, compared) {
        Some(game) => return Ok(ImportDecision::Repeated(game)),
        None => {}
    }
    match refusal_of_import::<R>(command, &reading, named, compared.stored) {
        Some(refusal) => return Ok(ImportDecision::Refused(refusal)),
        None => {}
    }
    let reading = read_in::<R>(R::format(), declares, reading);
    Ok(import_between::<R>(named, compared.stored.count, reading))
}

/// Imports a recorded game; only the officer may.
///
/// `members` and `events` are in the order of ids. The new game gets the next id.
///
/// Refusals of the record come after all others. A declaration in an event without declarations is one of them.
///
/// # Errors
///
/// `Memory` if out of memory.
///
/// # Guarantees
///
/// - `value`: the outcome is that of the specified transition `import_found`.
/// - `by_rules`: a new game has only legal moves, and its score agrees with the rules.
pub fn import<R: Records>(
    alloc: Global,
    members: &[Member],
    events: &[Event],
    compared: &ComparedGames<R::Move>,
    caller: Caller,
    command: &Import,
) -> Result<ImportDecision<R::Move>, Memory>
    requires members { length members.now ≤ most_members }
    requires events { length events.now ≤ most_events }
    ensures value { IfOk result (λ i. (old : Option (Game R.Move)) → ShowsPlayed R.rules old compared.now.played →
        importing_of i ≡ by_officer caller (import_found R.rules R.records (import_of command.now)
        (event_declares (events_of events.now) (string_bytes command.now.event))
        (find_id (has_event_name (string_bytes command.now.event)) (events_of events.now))
        (find_id (has_member_name (string_bytes command.now.first)) (members_of members.now))
        (find_id (has_member_name (string_bytes command.now.second)) (members_of members.now))
        compared.now.stored.under_key old compared.now.stored.count)) }
    ensures by_rules { IfOk result (λ i. AddsByRules R.rules i) }
{
    if caller != Caller::Officer {
        return Ok(ImportDecision::Refused(Refusal::NotAllowed));
    }
    let event = match find_event(events, command.event.as_str()) {
        Some(event) => event,
        None => return Ok(ImportDecision::Refused(Refusal::UnknownEvent)),
    };
    let declares = event_declares(events, command.event.as_str());
    let named = NamedPairing {
        event,
        first: find_member(members, command.first.as_str()),
        second: find_member(members, command.second.as_str()),
    };
    import_found::<R>(alloc, command, named, compared, declares)
}
