//! The results of a batch, and their output.

ghost use Rattle.std.specs.Prelude.{◌≡◌, ◌≢◌, ◌⊎◌, ◌++◌, [], OnOk, string_bytes};
ghost use Rattle.std.specs.Io.KnownBytes.{Appends};
ghost use Rattle.std.specs.List.{list_any};
ghost use Rattle.club_orders.specs.Batches.{answer_line, answer_lines, batch_status, fault_line, is_refused};
ghost use Rattle.club_orders.specs.Batches.{lines_of, IsBatchTold, IsBegunWith, IsFaultToldOf};

use crate::report::{DONE, FAULT, REFUSED, report_output_failure};
use crate::written::write_out;
use club_requests::Outcome;
use std::alloc::AllocError;
use std::io::Write;
use store::StoreFault;

/// The results of a batch.
#[derive(Debug, Drop)]
pub struct BatchResults {
    /// The line number of each request, also of those that were not executed.
    pub numbers: Vec<u64>,
    /// The outcomes of the requests that were executed, in order.
    pub outcomes: Vec<Outcome>,
    /// The fault that ended the batch, if any.
    pub fault: Option<StoreFault>,
}

/// Why the output of a batch is incomplete.
#[derive(Drop)]
pub(crate) enum Unprinted {
    /// Out of memory for a line.
    Memory,
    /// The writer failed.
    Output,
}

impl From<AllocError> for Unprinted {
    fn from(_refused: AllocError) -> Unprinted {
        Unprinted::Memory
    }
}

fn is_refused(outcome: &Outcome) -> bool
    ensures { result ≡ is_refused outcome.now }
{
    match outcome {
        Outcome::Accepted(_) => false,
        Outcome::Repeated(_) => false,
        Outcome::Refused(_) => true,
    }
}

fn any_refused(outcomes: &[Outcome]) -> bool
    ensures { result ≡ list_any is_refused outcomes.now }
{
    outcomes.iter().any(|outcome| is_refused(outcome))
}

impl BatchResults {
    /// The exit status: `FAULT` after a fault, `REFUSED` if a request was refused, else `DONE`.
    pub fn status(&self) -> u8
        ensures { result ≡ batch_status self.now }
    {
        match self.fault {
            Some(_) => return FAULT,
            None => {}
        }
        if any_refused(self.outcomes.as_slice()) {
            return REFUSED;
        }
        DONE
    }
}

/// Appends the line of the fault, if there is one.
///
/// # Errors
///
/// `AllocError` if out of memory.
pub(crate) fn write_fault(text: &mut String, fault: &Option<StoreFault>) -> Result<(), AllocError>
    ensures { OnOk result (string_bytes text.new ≡ string_bytes text.old ++ fault_line fault.now) }
{
    match fault {
        Some(fault) => writeln!(text, "store {fault}"),
        None => Ok(()),
    }
}

// Sets `line` to the line of one request: its number and outcome.
fn write_answer(line: &mut String, number: u64, outcome: &Outcome) -> Result<(), AllocError>
    ensures { OnOk result (string_bytes line.new ≡ answer_line number outcome.now) }
{
    line.clear();
    writeln!(line, "{number} {outcome}")
}

fn print_answer<O: Write>(
    line: &mut String,
    number: u64,
    outcome: &Outcome,
    out: &mut O,
) -> Result<(), Unprinted>
    ensures whole { OnOk result (Appends (O.contents out.old) (O.contents out.new) (answer_line number outcome.now)) }
    ensures begun { IsBegunWith (O.contents out.old) (O.contents out.new) (answer_line number outcome.now) }
{
    match write_answer(line, number, outcome) {
        Ok(()) => {}
        Err(_) => return Err(Unprinted::Memory),
    }
    if write_out(out, line.as_bytes()) {
        Ok(())
    } else {
        Err(Unprinted::Output)
    }
}

fn print_answers<O: Write>(
    line: &mut String,
    numbers: &[u64],
    outcomes: &[Outcome],
    out: &mut O,
) -> Result<(), Unprinted>
    ensures whole { OnOk result (Appends (O.contents out.old) (O.contents out.new)
        (answer_lines numbers.now outcomes.now)) }
    ensures begun { IsBegunWith (O.contents out.old) (O.contents out.new) (answer_lines numbers.now outcomes.now) }
{
    for (place, outcome) in outcomes.iter().enumerate() {
        let number = match numbers.get(place) {
            Some(number) => *number,
            None => return Ok(()),
        };
        match print_answer(line, number, outcome, out) {
            Ok(()) => {}
            Err(report_output_failure) => return Err(report_output_failure),
        }
    }
    Ok(())
}

// Prints the fault that ended a batch to standard error.
fn tell_fault<E: Write>(line: String, fault: &StoreFault, err: &mut E) -> u8
    ensures status { result ≡ 3 }
    ensures told { IsFaultToldOf fault.now (E.contents err.old) (E.contents err.new) }
{
    let mut line = line;
    line.clear();
    match writeln!(line, "store {fault}") {
        Ok(()) => {}
        Err(_) => return report_output_failure(err, "store 75 Memory\n"),
    }
    let _is_told = write_out(err, line.as_bytes());
    FAULT
}

/// Prints a batch: one line for each executed request, with its number and outcome, to standard output; then the fault,
/// if any, to standard error.
/// Returns the exit status: 0 if nothing was refused, 1 if a request was, 3 after a fault or if a line could not be
/// built or written. `line` is a buffer with preallocated room for a line.
///
/// # Guarantees
///
/// `printed`, `quiet`: without a fault standard output gets every line, and standard error nothing.
pub fn print_batch<O: Write, E: Write>(
    line: String,
    batched: &BatchResults,
    out: &mut O,
    err: &mut E,
) -> u8
    ensures status { (result ≡ batch_status batched.now) ⊎ (result ≡ 3) }
    ensures printed { result ≢ 3 → Appends (O.contents out.old) (O.contents out.new) (lines_of batched.now) }
    ensures quiet { result ≢ 3 → err.new ≡ err.old }
    ensures told { result ≡ 3 → IsBatchTold batched.now (O.contents out.old) (O.contents out.new)
        (E.contents err.old) (E.contents err.new) }
{
    let mut line = line;
    match print_answers(
        &mut line,
        batched.numbers.as_slice(),
        batched.outcomes.as_slice(),
        out,
    ) {
        Ok(()) => {}
        Err(Unprinted::Memory) => return report_output_failure(err, "store 75 Memory\n"),
        Err(Unprinted::Output) => return report_output_failure(err, "store 77 Output\n"),
    }
    match &batched.fault {
        Some(fault) => tell_fault(line, fault, err),
        None => batched.status(),
    }
}
