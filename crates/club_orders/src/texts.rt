//! The texts of the explanations: one line per number; for 65, 70, 71, 73 and 76 one line per cause.

ghost use Rattle.std.specs.Prelude.{◌≡◌};
ghost use Rattle.club_orders.specs.Lines.{fault_line, file_line, move_line, object_end, object_text, record_line};
ghost use Rattle.club_orders.specs.Lines.{refusal_line, value_line};

use crate::causes::{ExplainedFault, FileFault, ObjectKind, WrongValue};
use club_requests::Refusal;
use club_rules::{GameKind, MoveRefusal, RecordFormat, RecordRefusal};

// Refusals by the club, 50 to 68, in the order of their numbers.

// 50
const UNKNOWN_KEY: &str = "no member has this key\n";
// 51
const NOT_ALLOWED: &str =
    "you may not give this command: some are for the officer only, others for a player of the \
    game\n";
// 52
const UNKNOWN_EVENT: &str = "there is no event of this name; 'events' lists them\n";
// 53
const UNKNOWN_GAME: &str = "there is no game with this number; 'games' lists them\n";
// 54
const UNKNOWN_CHALLENGE: &str = "there is no challenge with this number by you or to you\n";
// 55
const NOT_A_PLAYER: &str = "you are not a player of this game\n";
// 56
const GAME_OVER: &str = "the game has ended; 'games' shows its result\n";
// 57
const WRONG_PLY: &str =
    "PLY is 0, or moves before it are missing; 'games' shows how many plies were played\n";
// 58
const CONFLICT: &str =
    "another move was played at this PLY, another key or ruling was given under this NUMBER, or \
    this KEY belongs to another game; 'games' lists the keys of games\n";
// 59
const NOT_YOUR_TURN: &str = "it is the other side's turn\n";
// 60
const OUT_OF_TIME: &str = "the side to move has no time left; 'sweep' ends such games\n";
// 61
const TIME_LEFT: &str = "the side to move still has time; 'games' shows its deadline\n";
// 62
const NO_OFFER: &str = "there is no draw offer by the other side at this ply\n";
// 63
const NOT_IN_THIS_GAME: &str = "a draw cannot be agreed in this game\n";
// 64
const NAME_TAKEN: &str =
    "the name is taken with other values, or a member has or had this key; choose another\n";
// 65
const BAD_VALUE: &str = "a value is not allowed: --help after the command shows the limits\n";
// 66
const FULL: &str =
    "the club is full: it holds 200 members, 50 events and 5,000 games, a member 99 later keys, \
    and a game 99 rulings\n";
// 67
const NOT_DECLARABLE: &str = "the side to move may not declare a win in this position\n";
// 68
const EVENT_CLOSED: &str =
    "the event is closed to challenges; 'seat' can still start games in it\n";

// Refusals of a move by the rules of the games, 10 to 19, and of its text, 20, 21 and 30.

// 10 and 13
const NO_SUCH_MOVE: &str = "no piece can move this way; 'legal' lists the legal moves\n";
// 11
const MUST_CAPTURE: &str = "captures are compulsory; 'legal' lists them\n";
// 12
const NOT_LONGEST: &str = "another capture takes more pieces and is compulsory; 'legal' lists it\n";
// 14
const NOT_IN_HAND: &str = "the side to move has no such piece in hand\n";
// 15
const MUST_PROMOTE: &str =
    "the piece could not move again from there, so it must promote: add + to the move\n";
// 16
const DEAD_DROP: &str = "the piece could not move from there, so it cannot be dropped there\n";
// 17
const TWO_PAWNS: &str = "the side to move already has an unpromoted pawn on this file (nifu)\n";
// 18
const KING_ATTACKED: &str = "after this move the king of the side to move would be in check\n";
// 19
const DROP_MATE: &str = "a pawn drop may not give mate (uchifuzume)\n";
// 20
const NO_DRAUGHTS_MOVE: &str =
    "a move is written as 32-28, a capture as 28x19; the number says how many bytes of the text \
    are right\n";
// 30
const NO_SHOGI_MOVE: &str =
    "a move is written as 7g7f, 8h2b+ or P*5e; the number says how many bytes of the text are \
    right\n";
// 21
const AMBIGUOUS: &str = "several captures fit: add the squares between, as in 46x37x26x12\n";

// Refusals of an imported record: 20 to 27 for PDN, 40 to 46 for CSA.

// 20
const NO_PDN: &str = "RECORD is not PDN from this byte on (the first byte is 0)\n";
// 40
const NO_CSA: &str = "RECORD is not CSA in this line (the first line is 1)\n";
// 41
const NO_VERSION: &str = "RECORD does not begin with V2, V2.1 or V2.2\n";
// 23
const OTHER_TYPE: &str = "the tag GameType of RECORD is not 20 (international draughts)\n";
// 24 and 42
const OTHER_OPENING: &str =
    "the game in RECORD does not start from the initial position of the club's games\n";
// 21
const AMBIGUOUS_PLY: &str =
    "at this ply several captures fit what RECORD says: add the squares between\n";
// 22 and 43
const ILLEGAL: &str =
    "at this ply (the first number) RECORD has an illegal move; the second number is the reason\n";
// 26 and 45
const AFTER_END: &str = "RECORD has a move at this ply, but the game had ended before it\n";
// 25 and 44
const UNFINISHED: &str = "RECORD has no result, and only finished games are imported\n";
// 27 and 46
const RESULT_DIFFERS: &str = "the result in RECORD contradicts the rules or its own Result tag\n";

// Refused values (65), by value.

const MEMBER_NAME: &str =
    "this value is not allowed: NAME must be 1 to 24 letters, digits, '.', '_' or '-'\n";

const MEMBER_KEY: &str =
    "this value is not allowed: KEY, the member's secret, must be 8 to 64 letters and digits\n";

const KEY_OWNER: &str =
    "NAME is not a member, or NUMBER is not that of a later key or the next one; 'members' lists \
    both\n";

const EVENT_NAME: &str =
    "this value is not allowed: NAME of the event must be 1 to 24 letters, digits, '.', '_' or \
    '-'\n";

const BUDGET: &str =
    "this value is not allowed: BUDGET must be 1 to 31,536,000 seconds; 1209600 is 14 days\n";

const INCREMENT: &str =
    "this value is not allowed: INCREMENT must be 0 to 2,592,000 seconds; 86400 is one day\n";

const GAME_KEY: &str =
    "this value is not allowed: KEY of the game must be 1 to 24 letters, digits, '.', '_' or '-'\n";

const SAME_PLAYER: &str = "FIRST and SECOND are the same member\n";

const UNKNOWN_PLAYER: &str = "FIRST or SECOND is not a member; 'members' lists them\n";

const RECORD_LENGTH: &str = "RECORD is longer than 65,536 bytes\n";

const NO_PART: &str = "--part starts at 1\n";

const PLAYER_OR_RECORD: &str =
    "FIRST or SECOND is not a member, RECORD has no such part, or EVENT is of the other game\n";

const MOVE_TEXT: &str = "TEXT is longer than 200 bytes\n";

const LISTED_MEMBER: &str = "--member names no member; 'members' lists them\n";

const SEATED_NAME: &str =
    "this value is not allowed: each NAME must be 1 to 24 letters, digits, '.', '_' or '-'\n";

const NAME_TWICE: &str = "a NAME stands twice\n";

const UNKNOWN_MEMBER: &str = "a NAME is no member's; 'members' lists them\n";

const RULING_NUMBER: &str =
    "NUMBER is not that of a ruling on the game or the next one; 'rulings' lists them\n";

const GRANT_TIME: &str = "this value is not allowed: SECONDS must be 1 to 31,536,000\n";

const KEY_PREFIX: &str =
    "this value is not allowed: PREFIX and the number of each game must be 1 to 24 letters, \
    digits, '.', '_' or '-'\n";

// A limit that is exceeded.

const SWEEP_LIMIT: &str =
    "more games are overdue than --most allows, and none was ended: check the machine's clock; \
    'games --overdue' lists them\n";

// Faults of the file, memory, input and output, 70 to 77.

// 70
const NO_CLUB: &str =
    "FILE does not exist or holds no club: check its path, or create a club with 'init'\n";
// 70, of init
const NOT_EMPTY: &str = "FILE already has tables: 'init' needs a new or an empty file\n";
// 70, of upgrade --arbiter
const NAMES_TAKEN: &str =
    "FILE does not exist or holds no club, or it has a table keys, rulings or closings, which \
    schema 3 needs: rename that table\n";
// 71, schema 1
const OLDER_SCHEMA: &str =
    "an earlier version of the program made FILE: back it up, then run 'upgrade'\n";
// 71
const LATER_SCHEMA: &str = "a later version of the program made FILE: use that version\n";
// 71, schema 2, of an arbiter's command
const NO_ARBITER: &str =
    "FILE is of schema 2, which cannot record what an arbiter does: back it up, then run 'upgrade \
    --arbiter'\n";
// 72
const DAMAGED: &str = "another program has changed rows of this table: restore a backup\n";
// 73
const IN_USE: &str =
    "another program has locked FILE: a server, a long command, a backup, or an open prompt of \
    sqlite3\n";
// 73
const NO_DATABASE: &str = "FILE is not a database: check its path\n";
// 73
const NO_FOLDER: &str = "the folder of FILE does not exist: check its path\n";
// 73
const DENIED: &str =
    "you may not read and write FILE, its log or its folder: run the command as the file's owner\n";
// 73
const READ_ONLY: &str = "the disk of FILE cannot be written: copy FILE to another disk\n";
// 73
const LINKED: &str =
    "FILE or its log (FILE-wal) has a second name, or is no regular file: remove the other name\n";
// 73
const JOURNAL: &str =
    "another program left a rollback journal (FILE-journal): open FILE once with sqlite3\n";
// 73
const FOREIGN_LOG: &str =
    "the log (FILE-wal) is another user's, or more users may read or write it than FILE: somebody \
    may have put it there; remove it, and run 'verify'\n";
// 73
const LONG_NAME: &str = "the name of FILE is too long for a log beside it: take a shorter one\n";
// 73, of init
const NOT_PRIVATE: &str =
    "FILE is empty and another user's, so that its mode cannot be set to 600: run 'init' as its \
    owner, or remove it\n";
// 73
const UTF_16: &str = "the texts of FILE are in UTF-16: copy them into a database in UTF-8\n";
// 73
const AUTO_VACUUM: &str =
    "FILE has auto_vacuum, which this program does not read: in sqlite3 give 'PRAGMA auto_vacuum \
    = 0' and 'VACUUM'\n";
// 73
const RESERVED_BYTES: &str =
    "FILE has reserved bytes in its pages, which this program does not read: copy its tables into \
    another database\n";
// 73
const MALFORMED: &str =
    "FILE is damaged, or has an object that this program does not read: 'PRAGMA integrity_check' \
    of sqlite3 says what is damaged\n";
// 73
const BROKEN_RULES: &str =
    "rows of a table break its rules, or are older than a column with a default: 'PRAGMA \
    foreign_key_check' and 'PRAGMA integrity_check' of sqlite3 name the former, and an UPDATE of \
    the column helps the latter\n";
// 73
const NOT_OPENED: &str = "FILE could not be opened: check the disk, and run the command again\n";
// 73
const STORE: &str =
    "FILE could not be read or written: check the free space, then run the command again\n";
// 74
const REOPEN: &str = "an earlier call failed: run the command again\n";
// 75
const MEMORY: &str = "out of memory: close other programs, then run the command again\n";
// 76
const NO_CLOCK: &str =
    "the system clock cannot be read or is out of range: set it, or give --now\n";
// 76
const NO_RECORD: &str = "RECORD cannot be read: check its path\n";
// 76, of key
const NO_KEY: &str = "the standard input, which holds KEY, cannot be read\n";
// 76
const NO_ORDERS: &str = "ORDERS cannot be read: check its path\n";
// 76
const NO_PORT: &str =
    "the server cannot listen on PORT: another program uses it, or you may not use this port\n";
// 77
const NO_OUTPUT: &str =
    "the output could not be written; the command was executed, and may be repeated\n";
// 77
const NO_COPY: &str =
    "FILE2 must be a new name, not that of a log, in a folder that can be written and has room\n";

// Objects that are not read (73), before and behind the name.

const VIRTUAL_TABLE: &str = "FILE has the virtual table ";

const VIEW: &str = "FILE has the view ";

const VIEW_TRIGGER: &str = "FILE has the trigger on a view ";

const NAMESAKE: &str = "FILE has, with the name of a table or a view, the trigger ";

const TABLE: &str = "FILE has, WITHOUT ROWID and with foreign keys, the table ";

const OBJECT_END: &str =
    ", which this program does not read: remove it, or keep it in a file of its own\n";

/// The explanation of a refusal.
pub(crate) fn refusal_line(refusal: Refusal) -> &'static str
    ensures { result.now ≡ refusal_line refusal }
{
    match refusal {
        Refusal::UnknownKey => UNKNOWN_KEY,
        Refusal::NotAllowed => NOT_ALLOWED,
        Refusal::UnknownEvent => UNKNOWN_EVENT,
        Refusal::UnknownGame => UNKNOWN_GAME,
        Refusal::UnknownChallenge => UNKNOWN_CHALLENGE,
        Refusal::NotAPlayer => NOT_A_PLAYER,
        Refusal::GameOver => GAME_OVER,
        Refusal::WrongPly => WRONG_PLY,
        Refusal::Conflict => CONFLICT,
        Refusal::NotYourTurn => NOT_YOUR_TURN,
        Refusal::OutOfTime => OUT_OF_TIME,
        Refusal::TimeLeft => TIME_LEFT,
        Refusal::NoOffer => NO_OFFER,
        Refusal::NotInThisGame => NOT_IN_THIS_GAME,
        Refusal::NameTaken => NAME_TAKEN,
        Refusal::BadValue => BAD_VALUE,
        Refusal::Full => FULL,
        Refusal::NotDeclarable => NOT_DECLARABLE,
        Refusal::EventClosed => EVENT_CLOSED,
        Refusal::Play { ply: _, refusal } => move_line(refusal),
        Refusal::Record(refusal) => record_line(refusal),
    }
}

fn move_line(refusal: MoveRefusal) -> &'static str
    ensures { result.now ≡ move_line refusal }
{
    match refusal {
        MoveRefusal::NoSuchMove(_) => NO_SUCH_MOVE,
        MoveRefusal::MustCapture => MUST_CAPTURE,
        MoveRefusal::NotLongest => NOT_LONGEST,
        MoveRefusal::NotInHand => NOT_IN_HAND,
        MoveRefusal::MustPromote => MUST_PROMOTE,
        MoveRefusal::DeadDrop => DEAD_DROP,
        MoveRefusal::TwoPawns => TWO_PAWNS,
        MoveRefusal::KingAttacked => KING_ATTACKED,
        MoveRefusal::DropMate => DROP_MATE,
        MoveRefusal::BadText(GameKind::Draughts, _) => NO_DRAUGHTS_MOVE,
        MoveRefusal::BadText(GameKind::Shogi, _) => NO_SHOGI_MOVE,
        MoveRefusal::Ambiguous => AMBIGUOUS,
    }
}

fn record_line(refusal: RecordRefusal) -> &'static str
    ensures { result.now ≡ record_line refusal }
{
    match refusal {
        RecordRefusal::BadText(RecordFormat::Pdn, _) => NO_PDN,
        RecordRefusal::BadText(RecordFormat::Csa, _) => NO_CSA,
        RecordRefusal::Version => NO_VERSION,
        RecordRefusal::OtherType => OTHER_TYPE,
        RecordRefusal::OtherOpening(_) => OTHER_OPENING,
        RecordRefusal::Ambiguous { ply: _ } => AMBIGUOUS_PLY,
        RecordRefusal::Illegal {
            format: _,
            ply: _,
            cause: _,
        } => ILLEGAL,
        RecordRefusal::AfterEnd { format: _, ply: _ } => AFTER_END,
        RecordRefusal::Unfinished(_) => UNFINISHED,
        RecordRefusal::ResultDiffers(_) => RESULT_DIFFERS,
    }
}

/// The explanation of a refused value.
pub(crate) fn value_line(value: WrongValue) -> &'static str
    ensures { result.now ≡ value_line value }
{
    match value {
        WrongValue::MemberName => MEMBER_NAME,
        WrongValue::MemberKey => MEMBER_KEY,
        WrongValue::KeyOwner => KEY_OWNER,
        WrongValue::EventName => EVENT_NAME,
        WrongValue::Budget => BUDGET,
        WrongValue::Increment => INCREMENT,
        WrongValue::GameKey => GAME_KEY,
        WrongValue::SamePlayer => SAME_PLAYER,
        WrongValue::UnknownPlayer => UNKNOWN_PLAYER,
        WrongValue::RecordLength => RECORD_LENGTH,
        WrongValue::NoPart => NO_PART,
        WrongValue::PlayerOrRecord => PLAYER_OR_RECORD,
        WrongValue::MoveText => MOVE_TEXT,
        WrongValue::ListedMember => LISTED_MEMBER,
        WrongValue::SeatedName => SEATED_NAME,
        WrongValue::NameTwice => NAME_TWICE,
        WrongValue::UnknownMember => UNKNOWN_MEMBER,
        WrongValue::RulingNumber => RULING_NUMBER,
        WrongValue::GrantTime => GRANT_TIME,
        WrongValue::KeyPrefix => KEY_PREFIX,
        WrongValue::SweepLimit => SWEEP_LIMIT,
    }
}

// The explanation of a file that was not opened.
fn file_line(fault: FileFault) -> &'static str
    ensures { result.now ≡ file_line fault }
{
    match fault {
        FileFault::NoDatabase => NO_DATABASE,
        FileFault::NoFolder => NO_FOLDER,
        FileFault::Denied => DENIED,
        FileFault::ReadOnly => READ_ONLY,
        FileFault::Linked => LINKED,
        FileFault::Journal => JOURNAL,
        FileFault::ForeignLog => FOREIGN_LOG,
        FileFault::LongName => LONG_NAME,
        FileFault::NotPrivate => NOT_PRIVATE,
        FileFault::Utf16 => UTF_16,
        FileFault::AutoVacuum => AUTO_VACUUM,
        FileFault::ReservedBytes => RESERVED_BYTES,
        FileFault::Malformed => MALFORMED,
        FileFault::BrokenRules => BROKEN_RULES,
        FileFault::Failed => NOT_OPENED,
    }
}

/// The explanation of a fault.
pub(crate) fn fault_line(fault: ExplainedFault) -> &'static str
    ensures { result.now ≡ fault_line fault }
{
    match fault {
        ExplainedFault::NoClub => NO_CLUB,
        ExplainedFault::NotEmpty => NOT_EMPTY,
        ExplainedFault::NamesTaken => NAMES_TAKEN,
        ExplainedFault::OlderSchema => OLDER_SCHEMA,
        ExplainedFault::LaterSchema => LATER_SCHEMA,
        ExplainedFault::NoArbiter => NO_ARBITER,
        ExplainedFault::Damaged => DAMAGED,
        ExplainedFault::InUse => IN_USE,
        ExplainedFault::NotOpened(cause) => file_line(cause),
        ExplainedFault::Store => STORE,
        ExplainedFault::Reopen => REOPEN,
        ExplainedFault::Memory => MEMORY,
        ExplainedFault::NoClock => NO_CLOCK,
        ExplainedFault::NoRecord => NO_RECORD,
        ExplainedFault::NoKey => NO_KEY,
        ExplainedFault::NoOrders => NO_ORDERS,
        ExplainedFault::NoPort => NO_PORT,
        ExplainedFault::NoOutput => NO_OUTPUT,
        ExplainedFault::NoCopy => NO_COPY,
    }
}

/// What stands before the name of an object that is not read.
pub(crate) fn object_text(kind: ObjectKind) -> &'static str
    ensures { result.now ≡ object_text kind }
{
    match kind {
        ObjectKind::VirtualTable => VIRTUAL_TABLE,
        ObjectKind::View => VIEW,
        ObjectKind::ViewTrigger => VIEW_TRIGGER,
        ObjectKind::Namesake => NAMESAKE,
        ObjectKind::Table => TABLE,
    }
}

/// What stands behind the name of an object that is not read.
pub(crate) fn object_end() -> &'static str
    ensures { result.now ≡ object_end }
{
    OBJECT_END
}
