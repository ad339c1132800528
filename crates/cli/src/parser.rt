//! The grammar of the command line, with its help texts.

ghost use Rattle.std.specs.Prelude.{IfOk, codes};
ghost use Rattle.clap.specs.Words.{App, new_app};
ghost use Rattle.clap.specs.declared.builder.value_parser.ValueParser.TheVariants as kind;
ghost use Rattle.cli.specs.App.{Names, a_moment, a_port, are_games, backup_app, batch_app, by_arbiter_app, club_app};
ghost use Rattle.cli.specs.App.{dry_app, event_app, extend_app, game_app, games_app, given_as, import_app};
ghost use Rattle.cli.specs.App.{import_csa_app, key_app, member_app, retire_app, rule_app};
ghost use Rattle.cli.specs.internal.App.{line_app};
ghost use Rattle.cli.specs.App.{move_app, named_app, of_event_app, of_game_app, program_app};
ghost use Rattle.cli.specs.internal.App.{named_line_app};
ghost use Rattle.cli.specs.App.{required_as, required_times, round_robin_app, serve_app, show_app, sweep_app};
ghost use Rattle.cli.specs.App.{with_arbiter_app, with_entries_app, with_files_app, with_games_app, with_lists_app};
ghost use Rattle.cli.specs.App.{with_orders_app, with_round_robin_flags_app};
ghost use Rattle.cli.specs.internal.Built.{IsApp, IsAppOf, IsRule};

use crate::building::{
    add_subcommand, flag, name_option, number, number_option, repeated_option, subcommand,
    with_word, word,
};
use clap::{Arg, ArgAction, value_parser};
use std::alloc::{AllocError, Global};

static GAMES: [&str; 2] = ["draughts", "shogi"];

const VERSION: &str = "0.10.0";

const A_NAME: &str = "1 to 24 letters, digits, '.', '_' or '-'";

const A_LABEL: &str =
    "A label for the game, which is no secret: 1 to 24 letters, digits, '.', '_' or '-'; \
    the same order again, with the same label, is a repeat and makes no second game";

const A_GAME: &str = "The game's number, as 'seat' printed it";

const AN_EVENT: &str = "The event's name";

fn member_words<'a>(alloc: Global) -> Result<clap::Command<'a>, AllocError>
    ensures { IfOk result (IsApp member_app) }
{
    let words = subcommand(
        alloc,
        "member",
        "Adds a member, with the key that the member will show",
    );
    let words = with_word(words, word(alloc, "NAME", A_NAME))?;
    with_word(
        words,
        word(
            alloc,
            "KEY",
            "The member's secret: 8 to 64 letters and digits",
        ),
    )
}

// The GAME argument of an event.
fn game_word<'a>(alloc: Global) -> Arg<'a>
    ensures { (names : Names) × are_games names × IsRule (required_as (kind.Names names) (codes "GAME")) result }
{
    word(alloc, "GAME", "The game that is played in the event").value_parser(GAMES.as_slice())
}

fn event_words<'a>(alloc: Global) -> Result<clap::Command<'a>, AllocError>
    ensures { IfOk result (IsAppOf event_app) }
{
    let words = subcommand(
        alloc,
        "event",
        "Adds an event; each player starts with BUDGET seconds and gains INCREMENT at each move",
    );
    let words = with_word(words, word(alloc, "NAME", A_NAME))?;
    let words = with_word(words, game_word(alloc))?;
    let words = with_word(
        words,
        number(
            alloc,
            "BUDGET",
            "Seconds that each player starts with: 1 to 31536000, as 86400 for a day",
        ),
    )?;
    with_word(
        words,
        number(
            alloc,
            "INCREMENT",
            "Seconds that a player gains at each move: 0 to 2592000",
        ),
    )
}

// The arguments of a new game: key, event and players.
fn new_game_words<'a>(
    alloc: Global,
    name: &'a str,
    about: &'a str,
    first: &'a str,
) -> Result<clap::Command<'a>, AllocError>
    ensures { IfOk result (IsApp (game_app name.entry.now)) }
{
    let words = subcommand(alloc, name, about);
    let words = with_word(words, word(alloc, "KEY", A_LABEL))?;
    let words = with_word(words, word(alloc, "EVENT", AN_EVENT))?;
    let words = with_word(words, word(alloc, "FIRST", first))?;
    with_word(words, word(alloc, "SECOND", "The other member"))
}

fn seat_words<'a>(alloc: Global) -> Result<clap::Command<'a>, AllocError>
    ensures { IfOk result (IsApp (game_app (codes "seat"))) }
{
    new_game_words(
        alloc,
        "seat",
        "Starts a game of an event between two members, under a label",
        "The member who moves first: White in draughts, Black in shogi",
    )
}

// The arguments of an import, except the part of the record.
fn import_words<'a>(
    alloc: Global,
    name: &'a str,
    about: &'a str,
) -> Result<clap::Command<'a>, AllocError>
    ensures { IfOk result (IsApp (import_app name.entry.now)) }
{
    let words = new_game_words(
        alloc,
        name,
        about,
        "The member who moved first: White in draughts, Black in shogi",
    )?;
    with_word(
        words,
        word(
            alloc,
            "RECORD",
            "The file of the record, of at most 65536 bytes; '-' is the standard input",
        ),
    )
}

fn import_pdn_words<'a>(alloc: Global) -> Result<clap::Command<'a>, AllocError>
    ensures { IfOk result (IsApp (import_app (codes "import-pdn"))) }
{
    import_words(
        alloc,
        "import-pdn",
        "Adds an ended game of an event of draughts from a PDN record, under a label",
    )
}

fn import_csa_words<'a>(alloc: Global) -> Result<clap::Command<'a>, AllocError>
    ensures { IfOk result (IsApp import_csa_app) }
{
    let words = import_words(
        alloc,
        "import-csa",
        "Adds an ended game of an event of shogi from a CSA record, under a label",
    )?;
    with_word(
        words,
        number_option(
            alloc,
            "N",
            "part",
            "Which of the records in the file: 1, if it is not given, for the first",
        ),
    )
}

fn move_words<'a>(alloc: Global) -> Result<clap::Command<'a>, AllocError>
    ensures { IfOk result (IsApp move_app) }
{
    let words = subcommand(alloc, "move", "Plays a move for the side whose ply it is");
    let words = with_word(words, number(alloc, "GAME", A_GAME))?;
    let words = with_word(
        words,
        number(
            alloc,
            "PLY",
            "The number of the move in the game, both sides counted: 1 for the first",
        ),
    )?;
    with_word(
        words,
        word(
            alloc,
            "TEXT",
            "The move: in draughts 32-28, or 28x19 for a capture; in shogi 7g7f, 8h2b+ or P*5e",
        ),
    )
}

// The words of a ruling: 1 to 3.
fn ruling_word<'a>(alloc: Global) -> Arg<'a>
    ensures { IsRule (required_times 1 3 (codes "RULING")) result }
{
    word(
        alloc,
        "RULING",
        "'grant first SECONDS', 'grant second SECONDS', 'award 2-0', 'award 1-1', 'award 0-2' or 'void'",
    )
    .num_args(1..=3)
}

fn rule_words<'a>(alloc: Global) -> Result<clap::Command<'a>, AllocError>
    ensures { IfOk result (IsApp rule_app) }
{
    let words = subcommand(
        alloc,
        "rule",
        "Rules on a game as its arbiter: more time for a side, an end with a score, or a game that does not count",
    );
    let words = with_word(words, number(alloc, "GAME", A_GAME))?;
    let words = with_word(
        words,
        number(
            alloc,
            "NUMBER",
            "Which ruling on the game it is: 1 for the first; the same order again is a repeat",
        ),
    )?;
    with_word(words, ruling_word(alloc))
}

// A subcommand that gives many rulings, with its flag.
fn dry_words<'a>(
    alloc: Global,
    name: &'a str,
    about: &'a str,
) -> Result<clap::Command<'a>, AllocError>
    ensures { IfOk result (IsApp (dry_app name.entry.now)) }
{
    let words = subcommand(alloc, name, about);
    with_word(
        words,
        flag(
            alloc,
            "DRY",
            "dry",
            "Prints the rulings as lines that 'batch' takes, and gives none",
        ),
    )
}

fn retire_words<'a>(alloc: Global) -> Result<clap::Command<'a>, AllocError>
    ensures { IfOk result (IsApp retire_app) }
{
    let words = dry_words(
        alloc,
        "retire",
        "Rules on all running games of a member in an event: they are void, or awarded to the opponents",
    )?;
    let words = with_word(words, word(alloc, "NAME", "The member's name"))?;
    let words = with_word(words, word(alloc, "EVENT", AN_EVENT))?;
    with_word(
        words,
        word(
            alloc,
            "RESULT",
            "'void' for games that do not count, 'loss' for games that the member loses",
        ),
    )
}

fn extend_words<'a>(alloc: Global) -> Result<clap::Command<'a>, AllocError>
    ensures { IfOk result (IsApp extend_app) }
{
    let words = dry_words(
        alloc,
        "extend",
        "Grants more time to both sides of all running games of an event; given twice it grants twice",
    )?;
    let words = with_word(words, word(alloc, "EVENT", AN_EVENT))?;
    with_word(
        words,
        number(
            alloc,
            "SECONDS",
            "Seconds more for each side: 1 to 31536000, as 86400 for a day",
        ),
    )
}

fn key_words<'a>(alloc: Global) -> Result<clap::Command<'a>, AllocError>
    ensures { IfOk result (IsApp key_app) }
{
    let words = subcommand(
        alloc,
        "key",
        "Gives a member another key, as after a loss or a theft; from then on no other key is the member's",
    );
    let words = with_word(words, word(alloc, "NAME", "The member's name"))?;
    let words = with_word(
        words,
        number(
            alloc,
            "NUMBER",
            "Which of the member's later keys it is: 1 for the first; the same order again is a repeat",
        ),
    )?;
    with_word(
        words,
        word(
            alloc,
            "KEY",
            "The new secret: 8 to 64 letters and digits that were nobody's key; '-' reads the standard input",
        ),
    )
}

fn close_words<'a>(alloc: Global) -> Result<clap::Command<'a>, AllocError>
    ensures { IfOk result (IsApp (of_event_app (codes "close"))) }
{
    of_event_words(
        alloc,
        "close",
        "Closes an event to challenges for good; its games and its seats go on",
    )
}

// A subcommand with the flag `--arbiter` only.
fn by_arbiter_words<'a>(
    alloc: Global,
    name: &'a str,
    about: &'a str,
    help: &'a str,
) -> Result<clap::Command<'a>, AllocError>
    ensures { IfOk result (IsApp (by_arbiter_app name.entry.now)) }
{
    let words = subcommand(alloc, name, about);
    with_word(words, flag(alloc, "ARBITER", "arbiter", help))
}

fn sweep_words<'a>(alloc: Global) -> clap::Command<'a>
    ensures { IsApp (new_app (codes "sweep")) result }
{
    subcommand(
        alloc,
        "sweep",
        "Ends by time every running game whose side to move has used more seconds than it has left",
    )
}

// `sweep` as a command line has it: a line of a batch has no options.
fn limited_sweep_words<'a>(alloc: Global) -> Result<clap::Command<'a>, AllocError>
    ensures { IfOk result (IsApp sweep_app) }
{
    with_word(
        sweep_words(alloc),
        number_option(
            alloc,
            "N",
            "most",
            "Ends no game if more games than N are overdue, and prints how many",
        ),
    )
}

// A subcommand with a GAME argument only.
fn of_game_words<'a>(
    alloc: Global,
    name: &'a str,
    about: &'a str,
) -> Result<clap::Command<'a>, AllocError>
    ensures { IfOk result (IsApp (of_game_app name.entry.now)) }
{
    let words = subcommand(alloc, name, about);
    with_word(words, number(alloc, "GAME", A_GAME))
}

// A subcommand with an EVENT argument only.
fn of_event_words<'a>(
    alloc: Global,
    name: &'a str,
    about: &'a str,
) -> Result<clap::Command<'a>, AllocError>
    ensures { IfOk result (IsApp (of_event_app name.entry.now)) }
{
    let words = subcommand(alloc, name, about);
    with_word(words, word(alloc, "EVENT", AN_EVENT))
}

fn show_words<'a>(alloc: Global) -> Result<clap::Command<'a>, AllocError>
    ensures { IfOk result (IsApp show_app) }
{
    let words = subcommand(
        alloc,
        "show",
        "Shows a game: whose turn it is, the time that each has left, the board and the moves",
    );
    let words = with_word(
        words,
        flag(
            alloc,
            "LETTERS",
            "letters",
            "Shows pieces of shogi by letters, in place of their Japanese names",
        ),
    )?;
    with_word(words, number(alloc, "GAME", A_GAME))
}

fn batch_words<'a>(alloc: Global) -> Result<clap::Command<'a>, AllocError>
    ensures { IfOk result (IsApp batch_app) }
{
    let words = subcommand(
        alloc,
        "batch",
        "Gives the club many orders in turn, each a line as behind FILE: member, event, seat, move, sweep, \
         import-pdn, import-csa, rule, key, close",
    );
    with_word(
        words,
        word(
            alloc,
            "ORDERS",
            "The file of the orders, at most 1048576 bytes and 10000 orders; '-' is the standard input",
        ),
    )
}

// The members of a round robin: 2 to 32 names.
fn names_word<'a>(alloc: Global) -> Arg<'a>
    ensures { IsRule (required_times 2 32 (codes "NAME")) result }
{
    word(alloc, "NAME", "The members, 2 to 32").num_args(2..=32)
}

// Adds the flags of `round-robin`.
fn with_round_robin_flags<'a>(
    alloc: Global,
    words: clap::Command<'a>,
) -> Result<clap::Command<'a>, AllocError>
    ensures { (app : App) → IsApp app words.entry → IfOk result (IsApp (with_round_robin_flags_app app)) }
{
    let words = with_word(
        words,
        flag(
            alloc,
            "DOUBLE",
            "double",
            "Each pair meets twice, with sides turned",
        ),
    )?;
    with_word(
        words,
        flag(
            alloc,
            "DRY",
            "dry",
            "Prints the seats as lines that 'batch' takes, and seats nobody",
        ),
    )
}

fn round_robin_words<'a>(alloc: Global) -> Result<clap::Command<'a>, AllocError>
    ensures { IfOk result (IsApp round_robin_app) }
{
    let words = subcommand(
        alloc,
        "round-robin",
        "Seats members so that each plays each once, by the Berger table",
    );
    let words = with_round_robin_flags(alloc, words)?;
    let words = with_word(
        words,
        word(
            alloc,
            "PREFIX",
            "What the keys begin with: board 3 of round 1 is seated under PREFIX1.3",
        ),
    )?;
    let words = with_word(words, word(alloc, "EVENT", AN_EVENT))?;
    with_word(words, names_word(alloc))
}

fn backup_words<'a>(alloc: Global) -> Result<clap::Command<'a>, AllocError>
    ensures { IfOk result (IsApp backup_app) }
{
    let words = subcommand(
        alloc,
        "backup",
        "Makes a copy of the club in FILE2, which must not exist",
    );
    with_word(
        words,
        word(
            alloc,
            "FILE2",
            "The file of the copy, which is the whole club once the word has ended",
        ),
    )
}

fn games_words<'a>(alloc: Global) -> Result<clap::Command<'a>, AllocError>
    ensures { IfOk result (IsApp games_app) }
{
    let words = subcommand(
        alloc,
        "games",
        "Lists the games, a line each: who plays whom, and until when a move is due or how it ended",
    );
    let words = with_word(
        words,
        name_option(alloc, "EVENT", "event", "Only games of this event"),
    )?;
    let words = with_word(
        words,
        name_option(alloc, "MEMBER", "member", "Only games of this member"),
    )?;
    let words = with_word(
        words,
        flag(
            alloc,
            "RUNNING",
            "running",
            "Only games that have not ended",
        ),
    )?;
    with_word(
        words,
        flag(
            alloc,
            "OVERDUE",
            "overdue",
            "Only games that 'sweep' would end: the side to move has used up its time",
        ),
    )
}

// The PORT argument of the server.
fn port_word<'a>(alloc: Global) -> Arg<'a>
    ensures { IsRule (required_as a_port (codes "PORT")) result }
{
    word(alloc, "PORT", "The port of 127.0.0.1 on which it listens").value_parser(value_parser!(
        u64
    ).range(1..=65_535))
}

fn serve_words<'a>(alloc: Global) -> Result<clap::Command<'a>, AllocError>
    ensures { IfOk result (IsApp serve_app) }
{
    let words = subcommand(
        alloc,
        "serve",
        "Answers members over HTTP, one connection after another",
    );
    let words = with_word(
        words,
        flag(
            alloc,
            "LOG",
            "log",
            "Writes a line for each connection: moment, method, path and status, and no key",
        ),
    )?;
    let words = with_word(
        words,
        number_option(alloc, "COUNT", "count", "Ends after so many connections"),
    )?;
    let words = with_word(
        words,
        repeated_option(
            alloc,
            "HOST",
            "host",
            "Answers only requests whose Host is a loopback address, localhost or a NAME so given, at any port",
        ),
    )?;
    with_word(words, port_word(alloc))
}

// The option `--now`.
fn now_option<'a>(alloc: Global) -> Arg<'a>
    ensures { IsRule (given_as a_moment (codes "SECONDS") (codes "now")) result }
{
    Arg::new(alloc, "SECONDS")
        .long("now")
        .help(
            "The moment that counts, in Unix seconds, in place of the machine's clock. \
             One accepted command at a mistyped moment raises the club's clock for good",
        )
        .action(ArgAction::Set)
        .value_parser(value_parser!(u64).range(0..=253_402_300_799))
}

// The program without arguments.
fn named_program<'a>(alloc: Global) -> clap::Command<'a>
    ensures { IsApp named_app result }
{
    clap::Command::new(alloc, "club")
        .version(VERSION)
        .about(
            "Keeps a club's games of draughts and shogi in one file.\n\
             Status: 0 done, 1 refused, 2 bad words (and help), 3 a fault",
        )
        .subcommand_required(true)
}

// The program with its global options and the FILE argument.
fn program<'a>(alloc: Global) -> Result<clap::Command<'a>, AllocError>
    ensures { IfOk result (IsApp program_app) }
{
    let words = named_program(alloc);
    let words = with_word(
        words,
        flag(
            alloc,
            "EXPLAIN",
            "explain",
            "Says on a second line what a refusal or a fault means, and what can be done",
        ),
    )?;
    let words = with_word(
        words,
        flag(
            alloc,
            "JSON",
            "json",
            "Prints the answer of legal, show, rulings, members, events, games or challenges as one JSON document",
        ),
    )?;
    let words = with_word(words, now_option(alloc))?;
    with_word(
        words,
        word(
            alloc,
            "FILE",
            "The club's file; beside it may lie FILE-wal, which belongs to it",
        ),
    )
}

// Adds the subcommands that create a club and fill it.
fn with_entries<'a>(
    alloc: Global,
    program: clap::Command<'a>,
) -> Result<clap::Command<'a>, AllocError>
    ensures { (app : App) → IsApp app program.entry → IfOk result (IsAppOf (λ games. with_entries_app games app)) }
{
    let init = by_arbiter_words(
        alloc,
        "init",
        "Makes the tables of a club in an empty file",
        "Makes a club of schema 3, which takes the arbiter's orders: rule, retire, extend, key and close",
    );
    let program = add_subcommand(program, init)?;
    let program = add_subcommand(program, member_words(alloc))?;
    let event = event_words(alloc)?;
    let program = add_subcommand(program, Ok(event))?;
    let program = add_subcommand(program, seat_words(alloc))?;
    let program = add_subcommand(program, import_pdn_words(alloc))?;
    add_subcommand(program, import_csa_words(alloc))
}

// Adds the subcommands that play moves and end games by time, singly or as a batch.
fn with_orders<'a>(
    alloc: Global,
    program: clap::Command<'a>,
) -> Result<clap::Command<'a>, AllocError>
    ensures { (app : App) → IsApp app program.entry → IfOk result (IsApp (with_orders_app app)) }
{
    let program = add_subcommand(program, move_words(alloc))?;
    let program = add_subcommand(program, limited_sweep_words(alloc))?;
    let program = add_subcommand(program, batch_words(alloc))?;
    add_subcommand(program, round_robin_words(alloc))
}

// Adds the arbiter's subcommands.
fn with_arbiter<'a>(
    alloc: Global,
    program: clap::Command<'a>,
) -> Result<clap::Command<'a>, AllocError>
    ensures { (app : App) → IsApp app program.entry → IfOk result (IsApp (with_arbiter_app app)) }
{
    let program = add_subcommand(program, rule_words(alloc))?;
    let program = add_subcommand(program, retire_words(alloc))?;
    let program = add_subcommand(program, extend_words(alloc))?;
    let rulings = of_game_words(
        alloc,
        "rulings",
        "Lists the rulings on a game, a line each: when it was given, after how many plies, and what it is",
    );
    let program = add_subcommand(program, rulings)?;
    let program = add_subcommand(program, key_words(alloc))?;
    add_subcommand(program, close_words(alloc))
}

// Adds the subcommands that show games.
fn with_games<'a>(
    alloc: Global,
    program: clap::Command<'a>,
) -> Result<clap::Command<'a>, AllocError>
    ensures { (app : App) → IsApp app program.entry → IfOk result (IsApp (with_games_app app)) }
{
    let legal = of_game_words(
        alloc,
        "legal",
        "Lists the legal moves of a game, a line each; nothing where it has ended",
    );
    let program = add_subcommand(program, legal)?;
    let program = add_subcommand(program, show_words(alloc))?;
    let export = of_game_words(
        alloc,
        "export",
        "Writes a game as a record: draughts in PDN, shogi in CSA",
    );
    let program = add_subcommand(program, export)?;
    let export_event = of_event_words(
        alloc,
        "export-event",
        "Writes all games of an event as records, by their numbers: PDN parted by an empty line, CSA by '/'",
    );
    add_subcommand(program, export_event)
}

// Adds the subcommands that show the club.
fn with_lists<'a>(
    alloc: Global,
    program: clap::Command<'a>,
) -> Result<clap::Command<'a>, AllocError>
    ensures { (app : App) → IsApp app program.entry → IfOk result (IsApp (with_lists_app app)) }
{
    let table = of_event_words(
        alloc,
        "table",
        "Shows the cross table of an event: who has an ended game in it, by points, wins and id",
    );
    let program = add_subcommand(program, table)?;
    let members = subcommand(
        alloc,
        "members",
        "Lists the members, a line each, without their keys",
    );
    let program = add_subcommand(program, Ok(members))?;
    let events = subcommand(
        alloc,
        "events",
        "Lists the events, a line each, with how many games each has and how many of them run",
    );
    let program = add_subcommand(program, Ok(events))?;
    let program = add_subcommand(program, games_words(alloc))?;
    let challenges = subcommand(
        alloc,
        "challenges",
        "Lists the challenges, a line each: who challenges whom, and what came of it",
    );
    add_subcommand(program, Ok(challenges))
}

// Adds the subcommands on the whole file and the server.
fn with_files<'a>(
    alloc: Global,
    program: clap::Command<'a>,
) -> Result<clap::Command<'a>, AllocError>
    ensures { (app : App) → IsApp app program.entry → IfOk result (IsApp (with_files_app app)) }
{
    let verify = subcommand(
        alloc,
        "verify",
        "Reads and replays the whole file, and says that it is sound, or which table is damaged",
    );
    let program = add_subcommand(program, Ok(verify))?;
    let upgrade = by_arbiter_words(
        alloc,
        "upgrade",
        "Carries a file of schema 1 over to schema 2, which has the rules of events; copy both files first",
        "Carries a file of schema 1 or 2 over to schema 3, which takes the arbiter's orders: rule, retire, extend, \
         key and close",
    );
    let program = add_subcommand(program, upgrade)?;
    let program = add_subcommand(program, backup_words(alloc))?;
    add_subcommand(program, serve_words(alloc))
}

/// The grammar of the program's command line.
///
/// # Errors
///
/// `AllocError` if out of memory.
pub(crate) fn club_words<'a>(alloc: Global) -> Result<clap::Command<'a>, AllocError>
    ensures { IfOk result (IsAppOf club_app) }
{
    let program = program(alloc)?;
    let program = with_entries(alloc, program)?;
    let program = with_orders(alloc, program)?;
    let program = with_arbiter(alloc, program)?;
    let program = with_games(alloc, program)?;
    let program = with_lists(alloc, program)?;
    with_files(alloc, program)
}

// The grammar of a batch line, without subcommands.
fn named_line<'a>(alloc: Global) -> clap::Command<'a>
    ensures { IsApp named_line_app result }
{
    clap::Command::new(alloc, "club").subcommand_required(true)
}

/// The grammar of a batch line, with its subcommands.
///
/// # Errors
///
/// `AllocError` if out of memory.
pub(crate) fn line_words<'a>(alloc: Global) -> Result<clap::Command<'a>, AllocError>
    ensures { IfOk result (IsAppOf line_app) }
{
    let words = add_subcommand(named_line(alloc), member_words(alloc))?;
    let event = event_words(alloc)?;
    let words = add_subcommand(words, Ok(event))?;
    let words = add_subcommand(words, seat_words(alloc))?;
    let words = add_subcommand(words, move_words(alloc))?;
    let words = add_subcommand(words, Ok(sweep_words(alloc)))?;
    let words = add_subcommand(words, import_pdn_words(alloc))?;
    let words = add_subcommand(words, import_csa_words(alloc))?;
    let words = add_subcommand(words, rule_words(alloc))?;
    let words = add_subcommand(words, key_words(alloc))?;
    add_subcommand(words, close_words(alloc))
}
