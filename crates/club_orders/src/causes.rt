//! The subject of an explanation: a refusal, a refused value or a fault.

ghost use Rattle.std.specs.Prelude.{◌≡◌};
ghost use Rattle.club_orders.specs.Causes.{refusal_explained, wrong_value, value_of_event, value_of_import};
ghost use Rattle.club_orders.specs.Causes.{value_of_key, value_of_member, value_of_ruling, value_of_seat};
ghost use Rattle.club_orders.specs.Lines.{line_of};

use crate::texts::{fault_line, refusal_line, value_line};
use club_requests::values::{MOST_RECORD_BYTES, is_budget, is_member_key, is_name};
use club_requests::{
    AddEvent, AddMember, Command, GameCommand, Import, NewKey, OnGame, Refusal, Rule, Seat,
};

/// Which argument of a refused command or query is wrong, if the command or query alone tells.
#[derive(Clone, Copy, Debug, PartialEq, Eq)]
pub enum WrongValue {
    /// The name of a new member.
    MemberName,
    /// The key of a new member, or a member's new key.
    MemberKey,
    /// The member who gets a new key does not exist, or the number is not that of a later key or the next one.
    KeyOwner,
    /// The name of a new event.
    EventName,
    /// The initial time of each player of an event, in seconds.
    Budget,
    /// The time added for each move in an event, in seconds.
    Increment,
    /// The key of a new game.
    GameKey,
    /// Both players of a new game have the same name.
    SamePlayer,
    /// A player of a new game is not a member.
    UnknownPlayer,
    /// The text of records is too long.
    RecordLength,
    /// The part 0 of a text of records; parts count from 1.
    NoPart,
    /// A player of an imported game is not a member, the text has no such part, or it is in the format of the other
    /// game.
    PlayerOrRecord,
    /// The text of a move is too long.
    MoveText,
    /// The member whose games are listed does not exist.
    ListedMember,
    /// A name of a round robin.
    SeatedName,
    /// A name of a round robin stands twice.
    NameTwice,
    /// A name of a round robin, or that of a member who retires, is no member's.
    UnknownMember,
    /// The number of a ruling is not that of one on the game or the next one.
    RulingNumber,
    /// The time that a ruling grants, in seconds.
    GrantTime,
    /// The prefix of a round robin's keys.
    KeyPrefix,
    /// The limit of a sweep: more games are overdue.
    SweepLimit,
}

/// Why a file was not opened, although no other program holds it.
#[derive(Clone, Copy, Debug, PartialEq, Eq)]
pub enum FileFault {
    /// It is no database.
    NoDatabase,
    /// The folder of its path does not exist.
    NoFolder,
    /// The user may not read and write it, its log or its folder.
    Denied,
    /// Its file system cannot be written.
    ReadOnly,
    /// It, or its log, has a second name (a hard link), or is no regular file.
    Linked,
    /// Another program left a rollback journal beside it.
    Journal,
    /// Its write-ahead log belongs to another user, or more users may read or write the log than the file.
    ForeignLog,
    /// Its name leaves no room for those of its logs.
    LongName,
    /// It is empty and another user's, so that it cannot be made private before a club is written.
    NotPrivate,
    /// Its texts are in UTF-16.
    Utf16,
    /// Its pages are kept for auto_vacuum.
    AutoVacuum,
    /// Bytes of its pages are reserved.
    ReservedBytes,
    /// Its pages or its list of objects are damaged, or it has an object that is not named.
    Malformed,
    /// Rows of a table break its rules, or are older than one of its columns that has a default.
    BrokenRules,
    /// A call of the system failed for another reason.
    Failed,
}

/// The kind of an object that the program does not read, so that it opens no file with one.
#[derive(Clone, Copy, Debug, PartialEq, Eq)]
pub enum ObjectKind {
    /// A virtual table, as those of fts5 and rtree.
    VirtualTable,
    /// A view with a statement that is not read.
    View,
    /// A trigger on a view (INSTEAD OF).
    ViewTrigger,
    /// A trigger with the name of a table or a view.
    Namesake,
    /// A table with foreign keys that is not read, as one WITHOUT ROWID.
    Table,
}

/// An object because of which a file was not opened.
#[derive(Debug, Drop)]
pub struct UnreadObject {
    pub kind: ObjectKind,
    /// Its name, without control characters.
    pub name: String,
}

/// The fault of an order that is not caused by one of its values, with the number that is printed for it.
#[derive(Clone, Copy, Debug, PartialEq, Eq)]
pub enum ExplainedFault {
    /// 70: the file contains no club.
    NoClub,
    /// 70: `init` was given a file that already has tables.
    NotEmpty,
    /// 70: `upgrade --arbiter` was given a file without a club, or one with a table of a name that schema 3 needs.
    NamesTaken,
    /// 71: the file has schema 1.
    OlderSchema,
    /// 71: the file has a schema that this program does not know.
    LaterSchema,
    /// 71: the command is an arbiter's, and the file has schema 2.
    NoArbiter,
    /// 72: a table has rows that are not valid for a club.
    Damaged,
    /// 73: another program has locked the file.
    InUse,
    /// 73: the file cannot be opened.
    NotOpened(FileFault),
    /// 73: a database call failed.
    Store,
    /// 74: an earlier database call failed, so the file must be opened again.
    Reopen,
    /// 75: out of memory.
    Memory,
    /// 76: the system clock cannot be read.
    NoClock,
    /// 76: the record of an import cannot be read.
    NoRecord,
    /// 76: the new key of a member cannot be read from standard input.
    NoKey,
    /// 76: the orders of a batch cannot be read.
    NoOrders,
    /// 76: the server cannot listen on the port.
    NoPort,
    /// 77: the output could not be written.
    NoOutput,
    /// 77: the backup file cannot be created or written.
    NoCopy,
}

/// The subject of an explanation.
#[derive(Clone, Copy, Debug, PartialEq, Eq)]
pub enum Explanation {
    /// A refusal that is explained by its number and parameters alone.
    Refusal(Refusal),
    /// The value that is refused by 65 `BadValue`.
    Value(WrongValue),
    /// A fault of the store, of the input or of the output.
    Fault(ExplainedFault),
}

impl Explanation {
    /// The explanation and its remedy: one line, with its newline.
    pub fn line(self) -> &'static str
        ensures { result.now ≡ line_of self }
    {
        match self {
            Explanation::Refusal(refusal) => refusal_line(refusal),
            Explanation::Value(value) => value_line(value),
            Explanation::Fault(fault) => fault_line(fault),
        }
    }
}

fn value_of_member(member: &AddMember) -> WrongValue
    ensures { result ≡ value_of_member member.now }
{
    if is_name(member.name.as_str()) {
        WrongValue::MemberKey
    } else {
        WrongValue::MemberName
    }
}

fn value_of_key(given: &NewKey) -> WrongValue
    ensures { result ≡ value_of_key given.now }
{
    if is_member_key(given.key.as_str()) {
        WrongValue::KeyOwner
    } else {
        WrongValue::MemberKey
    }
}

fn value_of_event(event: &AddEvent) -> WrongValue
    ensures { result ≡ value_of_event event.now }
{
    if !is_name(event.name.as_str()) {
        return WrongValue::EventName;
    }
    if is_budget(event.budget) {
        WrongValue::Increment
    } else {
        WrongValue::Budget
    }
}

fn value_of_seat(seat: &Seat) -> WrongValue
    ensures { result ≡ value_of_seat seat.now }
{
    if !is_name(seat.key.as_str()) {
        return WrongValue::GameKey;
    }
    if seat.first == seat.second {
        WrongValue::SamePlayer
    } else {
        WrongValue::UnknownPlayer
    }
}

fn value_of_import(import: &Import) -> WrongValue
    ensures { result ≡ value_of_import import.now }
{
    if !is_name(import.key.as_str()) {
        return WrongValue::GameKey;
    }
    if import.first == import.second {
        return WrongValue::SamePlayer;
    }
    if import.text.as_slice().len() > MOST_RECORD_BYTES {
        return WrongValue::RecordLength;
    }
    if import.part == 0 {
        WrongValue::NoPart
    } else {
        WrongValue::PlayerOrRecord
    }
}

fn value_of_ruling(given: &Rule) -> WrongValue
    ensures { result ≡ value_of_ruling given.now }
{
    if given.ruling.has_grant_time() {
        WrongValue::RulingNumber
    } else {
        WrongValue::GrantTime
    }
}

// The value that a command is refused for, if the command alone shows it.
fn wrong_value(command: &Command) -> Option<WrongValue>
    ensures { result ≡ wrong_value command.now }
{
    match command {
        Command::AddMember(member) => Some(value_of_member(member)),
        Command::AddEvent(event) => Some(value_of_event(event)),
        Command::Seat(seat) => Some(value_of_seat(seat)),
        Command::Import(import) => Some(value_of_import(import)),
        Command::NewKey(given) => Some(value_of_key(given)),
        Command::Rule(given) => Some(value_of_ruling(given)),
        Command::OnGame(
            OnGame {
                game: _,
                command: GameCommand::Move { ply: _, text: _ },
            },
        ) => Some(WrongValue::MoveText),
        _ => None,
    }
}

/// The explanation of a refused command.
///
/// For 65 `BadValue` it names the first value, in the order of the command's arguments, that is invalid in itself,
/// otherwise the value that the club does not know.
pub fn explain_refusal(refusal: Refusal, command: &Command) -> Explanation
    ensures { result ≡ refusal_explained refusal command.now }
{
    if refusal != Refusal::BadValue {
        return Explanation::Refusal(refusal);
    }
    match wrong_value(command) {
        Some(value) => Explanation::Value(value),
        None => Explanation::Refusal(refusal),
    }
}
