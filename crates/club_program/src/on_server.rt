//! Execution of a command by the running server that holds the file.

ghost use Rattle.std.specs.Prelude.{◌≡◌, ◌≤◌, ℕ, List, [], Ok, Err, IfSome};
ghost use Rattle.club_orders.specs.declared.report.Report.TheVariants as report;
ghost use Rattle.club_program.specs.Alike.{report_print};
ghost use Rattle.club_requests.specs.declared.answers.Outcome.{Outcome};
ghost use Rattle.club_requests.specs.declared.answers.Outcome.TheVariants as outcome;
ghost use Rattle.club_requests.specs.declared.refusals.Refusal.{Refusal};
ghost use Rattle.control_socket.specs.Printed.{printed, shown_printed};

use crate::printing::print_report;
use cli::{Order, Task};
use club_orders::{REFUSED, Report};
use club_requests::Command;
use control_socket::{OrderAnswer, print_answered};
use server::clock;

// The text of an order, which is a record or a new key; `None` if the server cannot execute the order.
fn text_of(order: &Order) -> Option<&[u8]> {
    match &order.task {
        Task::Request(Command::Import(given)) => Some(&given.text),
        Task::Request(Command::NewKey(given)) => Some(given.key.as_bytes()),
        Task::Request(_) => Some(&[]),
        Task::Ask(_) => Some(&[]),
        _ => None,
    }
}

// Prints an answer of the server.
fn print_server_answer(rt: &HostRuntime, order: &Order, answered: &OrderAnswer) -> u8
    ensures { result ≤ 3 }
{
    match print_answered(answered, &mut rt.stdout(), &mut rt.stderr()) {
        Some(status) => status,
        None if answered.is_done => print_report(rt, &order.task, &Report::OutputFailed, false),
        // A refusal keeps its status, even if it cannot be printed.
        None => REFUSED,
    }
}

/// A command prints the same whether the server or the program itself executes it, for commands and for queries.
pub fn is_printed_alike()
    ensures answered { (given : Outcome) → printed given ≡ report_print [] (report.Answered given) }
    ensures shown { (text : List ℕ) → shown_printed (Ok text) ≡ report_print text report.Shown }
    ensures refused { (refusal : Refusal) →
        shown_printed (Err refusal) ≡ report_print [] (report.Answered (outcome.Refused refusal)) }
{}

/// Executes a command on the running server and prints the answer. `None` if no server holds the file or its answer
/// is incomplete: the command took effect once or not at all, and can be repeated.
pub(crate) fn run_on_server(rt: &HostRuntime, words: &[String], order: &Order) -> Option<u8>
    ensures { IfSome result (λ status. status ≤ 3) }
{
    let Some(text) = text_of(order) else {
        return None;
    };
    let Some(moment) = order.now.or(clock(rt)) else {
        return None;
    };
    match control_socket::order(rt, order.file.as_str(), words, moment, text) {
        Some(answered) => Some(print_server_answer(rt, order, &answered)),
        None => None,
    }
}
