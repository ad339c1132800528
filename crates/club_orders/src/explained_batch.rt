//! Prints batches with explanations of their refused orders.

ghost use Rattle.std.specs.Prelude.{◌≡◌, ◌≢◌, ◌⊎◌, OnOk, string_bytes};
ghost use Rattle.std.specs.Io.KnownBytes.{Appends};
ghost use Rattle.club_orders.specs.Batches.{batch_status, lines_of, IsBegunWith};
ghost use Rattle.club_orders.specs.Explained.{batch_explained, batch_stop, end_explained, order_explained};
ghost use Rattle.club_orders.specs.Explained.{orders_explained, IsBatchFaultExplained};

use crate::batched::{BatchResults, Unprinted, print_batch};
use crate::explained::stop_explained;
use crate::report::FAULT;
use crate::written::write_out;
use crate::{ExplainedFault, Explanation, explain_refusal};
use club_requests::{Command, Outcome, Request};
use std::alloc::{AllocError, Global};
use std::io::Write;
use store::StoreFault;

/// The results of a batch, with what their printing needs.
#[derive(Clone, Copy)]
pub struct BatchReport<'a> {
    /// The requests of the batch.
    pub requests: &'a [Request],
    /// How they ended.
    pub batched: &'a BatchResults,
    /// Whether each refused request and a fault are explained.
    pub explains: bool,
}

// Sets `line` to the explanation of one request; empty if it was not refused.
fn write_explained(
    line: &mut String,
    number: u64,
    command: &Command,
    outcome: &Outcome,
) -> Result<(), AllocError>
    ensures { OnOk result (string_bytes line.new ≡ order_explained number command.now outcome.now) }
{
    line.clear();
    match outcome {
        Outcome::Refused(refusal) => {
            let text = explain_refusal(*refusal, command).line();
            write!(line, "{number} {text}")
        }
        Outcome::Accepted(_) => Ok(()),
        Outcome::Repeated(_) => Ok(()),
    }
}

fn explain_order<E: Write>(
    line: &mut String,
    number: u64,
    command: &Command,
    outcome: &Outcome,
    err: &mut E,
) -> Result<(), Unprinted>
    ensures whole { OnOk result (Appends (E.contents err.old) (E.contents err.new)
        (order_explained number command.now outcome.now)) }
    ensures begun { IsBegunWith (E.contents err.old) (E.contents err.new)
        (order_explained number command.now outcome.now) }
{
    match write_explained(line, number, command, outcome) {
        Ok(()) => {}
        Err(_) => return Err(Unprinted::Memory),
    }
    if write_out(err, line.as_bytes()) {
        Ok(())
    } else {
        Err(Unprinted::Output)
    }
}

// Writes the explanations of all refused requests, up to the first that cannot be written.
fn explain_orders<E: Write>(
    line: &mut String,
    numbers: &[u64],
    requests: &[Request],
    outcomes: &[Outcome],
    err: &mut E,
)
    ensures { IsBegunWith (E.contents err.old) (E.contents err.new)
        (orders_explained numbers.now requests.now outcomes.now) }
{
    for (place, outcome) in outcomes.iter().enumerate() {
        let number = match numbers.get(place) {
            Some(number) => *number,
            None => return,
        };
        let request = match requests.get(place) {
            Some(request) => request,
            None => return,
        };
        match explain_order(line, number, &request.command, outcome, err) {
            Ok(()) => {}
            Err(_) => return,
        }
    }
}

// The explanation of the fault that ended a batch; without one its output failed.
fn batch_stop(fault: &Option<StoreFault>) -> ExplainedFault
    ensures { result ≡ batch_stop fault.now }
{
    match fault {
        Some(fault) => stop_explained(*fault),
        None => ExplainedFault::NoOutput,
    }
}

// The explanation of the end of a batch; empty unless a fault ended it.
fn end_explained(status: u8, fault: &Option<StoreFault>) -> &'static str
    ensures { result.now ≡ end_explained status fault.now }
{
    if status == FAULT {
        Explanation::Fault(batch_stop(fault)).line()
    } else {
        ""
    }
}

// Writes the explanations of a batch that was printed with this status, or a prefix of them if the writer fails.
fn explain_batch<E: Write>(alloc: Global, status: u8, given: &BatchReport<'_>, err: &mut E)
    ensures { IsBegunWith (E.contents err.old) (E.contents err.new)
        (batch_explained given.now.explains status given.now.requests.now given.now.batched.now) }
{
    let BatchReport {
        requests,
        batched,
        explains,
    } = *given;
    if !explains {
        return;
    }
    if !write_out(err, end_explained(status, &batched.fault).as_bytes()) {
        return;
    }
    let mut line = String::new(alloc);
    explain_orders(
        &mut line,
        batched.numbers.as_slice(),
        requests,
        batched.outcomes.as_slice(),
        err,
    )
}

/// Prints a batch as `print_batch` does and returns the same exit status. With `explains`, standard error then gets the
/// explanation of the fault, if one ended the batch, and one line for each refused request: the number of its line and
/// the explanation.
///
/// # Guarantees
///
/// `explained`, `told`: standard error gets exactly these lines behind those of `print_batch`, or a prefix of them if
/// it fails.
pub fn print_batch_explained<O: Write, E: Write>(
    alloc: Global,
    line: String,
    given: &BatchReport<'_>,
    out: &mut O,
    err: &mut E,
) -> u8
    ensures status { (result ≡ batch_status given.now.batched.now) ⊎ (result ≡ 3) }
    ensures printed { result ≢ 3 → Appends (O.contents out.old) (O.contents out.new) (lines_of given.now.batched.now) }
    ensures explained { result ≢ 3 → IsBegunWith (E.contents err.old) (E.contents err.new)
        (batch_explained given.now.explains result given.now.requests.now given.now.batched.now) }
    ensures told { result ≡ 3 → IsBatchFaultExplained given.now.explains given.now.requests.now given.now.batched.now
        (O.contents out.old) (O.contents out.new) (E.contents err.old) (E.contents err.new) }
{
    let status = print_batch(line, given.batched, out, err);
    explain_batch(alloc, status, given, err);
    status
}
