//! The program behind `club`: from the command line to output and exit status, for single commands, batches and the
//! server.
//!
//! # Guarantees
//!
//! - `is_printed_alike` (`answered`, `shown`, `refused`): the definitions of what a server answers and of what a
//!   command over the file reports agree: the same text, stream and status. What is printed is tested.
//! - `after_session` (`again`, `told`, `waits`, `foreign`, `failed`): after a serving session, and after a failed call,
//!   the club is opened again. A file that another program holds is waited for. Else requests get the fault.
//! - `plain_words`, `parse_words` (`ok`, `err`): what is parsed, and sent to a running server, are the words with the
//!   file in place of a `--` and the word behind it.
//! - `run`, `read_bytes`: the exit status is 0 to 3. One byte more than a record's limit is read, so that a longer one
//!   is noticed.
#![tactic(auto)]

ghost use Rattle.std.specs.Prelude.{◌≤◌};

mod batches;
mod course;
mod on_server;
mod orders;
mod printing;
mod records;
mod served_batch;
mod service;
mod words;

use batches::{run_batch, run_bulk_ruling, run_round_robin};
use cli::{BadWords, Invocation};
pub use on_server::is_printed_alike;
use orders::run_with_record;
use printing::refuse_words;
use service::run_service;
use words::{given_words, parse_words, plain_words};

// The words of the command line to parse.
fn words_to_parse(rt: &HostRuntime) -> Result<Vec<String>, BadWords> {
    let words = given_words(rt)?;
    Ok(plain_words(rt, words.as_slice())?)
}

/// Parses the command line, executes it, prints the result, and returns the exit status.
///
/// The status is 0 if the command was done, 1 if it was refused, 2 if the command line is malformed, 3 at a fault.
pub fn run(rt: &HostRuntime) -> u8
    ensures { result ≤ 3 }
{
    let words = match words_to_parse(rt) {
        Ok(words) => words,
        Err(bad) => return refuse_words(rt, bad),
    };
    match parse_words(rt, words.as_slice()) {
        Ok(Invocation::Order(order)) => run_with_record(rt, words.as_slice(), order),
        Ok(Invocation::Batch(batch)) => run_batch(rt, batch),
        Ok(Invocation::RoundRobin(robin)) => run_round_robin(rt, robin),
        Ok(Invocation::BulkRuling(order)) => run_bulk_ruling(rt, order),
        Ok(Invocation::Serve(service)) => run_service(rt, &service),
        Err(bad) => refuse_words(rt, bad),
    }
}
