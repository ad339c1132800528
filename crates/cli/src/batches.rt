//! Batches and round robins: their types, and the parsing of their command lines and of a batch's lines.

ghost use Rattle.std.specs.Prelude.{◌≡◌, IfErr, IfOk, map, string_bytes};
ghost use Rattle.clap.specs.Words.{found_of};
ghost use Rattle.cli.specs.Asked.{AsksBatch, AsksRoundRobin, HasNoCommand, texts_in};
ghost use Rattle.cli.specs.internal.Asked.{AsksLine, IsParserErrorFor};
ghost use Rattle.cli.specs.internal.Said.{AreRefusedInLine, AreSaidInLine, AsksOneLine, FindsNone, HasNoLine, IsFound};

use crate::parser::line_words;
use crate::words::{
    BadWords, command_of, is_explained, moment_of, record_of, text, unknown, usage_error,
};
use clap::ArgMatches;
use clocks::Moment;
use club_requests::{Command, Question, Request};
use std::alloc::{AllocError, Global};

/// Commands of the officer that are executed in order, all with one timestamp.
#[derive(Debug, Drop)]
pub struct Batch {
    /// Queries that are asked first. If one is refused, the batch is refused for the same reason and no command is
    /// executed.
    pub questions: Vec<Question>,
    /// The number of each command, under which its outcome is printed.
    pub numbers: Vec<u64>,
    /// The commands.
    pub requests: Vec<Request>,
}

/// The options of `batch`: the file, the timestamp given by `--now`, and the source of the commands.
#[derive(Debug, Drop)]
pub struct BatchOptions {
    pub file: String,
    pub now: Option<Moment>,
    /// A path, or `-` for standard input.
    pub orders: String,
    /// Explain a refusal or fault on a second line (`--explain`).
    pub explains: bool,
}

/// The options of `round-robin`.
#[derive(Debug, Drop)]
pub struct RoundRobin {
    pub file: String,
    pub now: Option<Moment>,
    /// Each pair plays twice, with sides swapped.
    pub is_double: bool,
    /// Dry run: print the seats as lines of a batch and change nothing.
    pub is_dry: bool,
    /// The prefix of the games' keys.
    pub prefix: String,
    pub event: String,
    /// The members, in the order of the pairing table.
    pub names: Vec<String>,
    /// Explain a refusal or fault on a second line (`--explain`).
    pub explains: bool,
}

/// A command from a line of a batch.
#[derive(Debug, Drop)]
pub struct BatchOrder {
    /// The command; the text of an import is still empty.
    pub command: Command,
    /// The path of an import's record; `-` if the command reads standard input, which no batch allows.
    pub record: Option<String>,
}

/// The options of `batch`.
///
/// # Errors
///
/// `AllocError` if out of memory.
pub(crate) fn batch_of(
    alloc: Global,
    all: &ArgMatches<'_>,
    words: &ArgMatches<'_>,
) -> Result<BatchOptions, AllocError>
    ensures { IfOk result (AsksBatch (found_of all.now) (found_of words.now)) }
{
    Ok(BatchOptions {
        file: text(alloc, all, "FILE")?,
        now: moment_of(all),
        orders: text(alloc, words, "ORDERS")?,
        explains: is_explained(all),
    })
}

// Copies of the values of an argument that may be repeated.
pub(crate) fn texts(
    alloc: Global,
    words: &ArgMatches<'_>,
    name: &str,
) -> Result<Vec<String>, AllocError>
    ensures { IfOk result (λ texts. map string_bytes texts.items ≡ texts_in (found_of words.now) name.now) }
{
    let given = match words.get_strs(name) {
        Some(given) => given,
        None => return Ok(Vec::new(alloc)),
    };
    copies(alloc, given)
}

fn copies(alloc: Global, given: &[&str]) -> Result<Vec<String>, AllocError>
    ensures { IfOk result (λ texts. map string_bytes texts.items ≡ map (λ text. text.now) given.now) }
{
    let mut texts = Vec::new(alloc);
    for text in given {
        texts.push(String::from_str(alloc, text)?)?;
    }
    Ok(texts)
}

/// The options of `round-robin`.
///
/// # Errors
///
/// `AllocError` if out of memory.
pub(crate) fn round_robin_of(
    alloc: Global,
    all: &ArgMatches<'_>,
    words: &ArgMatches<'_>,
) -> Result<RoundRobin, AllocError>
    ensures { IfOk result (AsksRoundRobin (found_of all.now) (found_of words.now)) }
{
    Ok(RoundRobin {
        file: text(alloc, all, "FILE")?,
        now: moment_of(all),
        is_double: words.get_flag("DOUBLE"),
        is_dry: words.get_flag("DRY"),
        prefix: text(alloc, words, "PREFIX")?,
        event: text(alloc, words, "EVENT")?,
        names: texts(alloc, words, "NAME")?,
        explains: is_explained(all),
    })
}

// The command of a batch line, from its subcommand and arguments.
fn line_of(alloc: Global, name: &str, words: &ArgMatches<'_>) -> Result<BatchOrder, BadWords>
    ensures ok { IfOk result (AsksLine name.now (found_of words.now)) }
    ensures err { IfErr result (IsParserErrorFor (HasNoCommand name.now (found_of words.now))) }
{
    let command = match command_of(alloc, name, words) {
        Ok(command) => command,
        Err(told) => return Err(told),
    };
    let record = record_of(alloc, name, words)?;
    Ok(BatchOrder { command, record })
}

// The command of a batch line, from the parser's matches.
fn parsed(alloc: Global, matches: &ArgMatches<'_>) -> Result<BatchOrder, BadWords>
    ensures ok { IfOk result (IsFound AsksOneLine matches.now) }
    ensures err { IfErr result (IsParserErrorFor (FindsNone HasNoLine matches.now)) }
{
    match matches.subcommand() {
        Some(entered) => line_of(alloc, entered.0, entered.1),
        None => Err(unknown(alloc, "")),
    }
}

/// Parses a line of a batch. `words` starts with the program's name.
///
/// # Errors
///
/// - `BadWords::Text` with the parser's message or its help.
/// - `BadWords::Memory` if out of memory.
///
/// # Guarantees
///
/// `ok`: the command is the one that the arguments state. `err`: the message has a cause in the arguments.
pub fn read_line(alloc: Global, words: &[&str]) -> Result<BatchOrder, BadWords>
    ensures ok { IfOk result (AreSaidInLine (map (λ word. word.now) words.entry.now)) }
    ensures err { IfErr result (AreRefusedInLine (map (λ word. word.now) words.entry.now)) }
{
    let club = line_words(alloc)?;
    match club.try_get_matches_from(words) {
        Ok(matches) => parsed(alloc, &matches),
        Err(error) => Err(usage_error(alloc, &error)),
    }
}
