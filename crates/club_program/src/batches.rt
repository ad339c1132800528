//! Batches of commands from a text, and the games of a round robin.

ghost use Rattle.std.specs.Prelude.{◌≤◌};

use crate::orders::{ask_on_file, run_order, run_order_on_file};
use crate::printing::{print_report, print_text, refuse_words};
use crate::records::{read_batch, read_record, without_mark};
use crate::served_batch::{PreparedBatch, SentBatch, send_batch, status_with};
use cli::{BadWords, Batch, BatchOptions, BatchOrder, Order, RoundRobin, Task, give_text};
use clocks::Moment;
use club_batches::{
    BatchLine, SeatError, batch_for, push_order, read_orders, seat_lines, seats_of,
};
use club_orders::{DONE, FAULT, REFUSED, Report, WrongValue};
use club_requests::{Outcome, Refusal, is_name};
use server::clock;
use std::alloc::AllocError;

// Why a batch was not started.
#[derive(Drop)]
enum Unbegun {
    // A line is no command.
    Words(BadWords),
    // The text of the orders cannot be read.
    Orders(Report),
    // Another reason.
    Report(Report),
}

impl From<AllocError> for Unbegun {
    fn from(_refused: AllocError) -> Unbegun {
        Unbegun::Report(Report::NoMemory)
    }
}

impl From<BadWords> for Unbegun {
    fn from(bad: BadWords) -> Unbegun {
        Unbegun::Words(bad)
    }
}

impl From<Report> for Unbegun {
    fn from(report: Report) -> Unbegun {
        Unbegun::Report(report)
    }
}

impl From<SeatError> for Unbegun {
    fn from(unseated: SeatError) -> Unbegun {
        match unseated {
            SeatError::Refused(refusal) => Unbegun::Report(Report::Answered(Outcome::Refused(
                refusal,
            ))),
            SeatError::Memory => Unbegun::Report(Report::NoMemory),
        }
    }
}

// Adds a command to a batch, with the record that it imports.
fn add_order(
    rt: &HostRuntime,
    batch: &mut Batch,
    order: BatchLine,
    moment: Moment,
) -> Result<(), Unbegun> {
    let BatchLine { number, line } = order;
    let BatchOrder {
        mut command,
        record,
    } = line;
    if let Some(path) = record {
        give_text(&mut command, read_record(rt, path.as_str())?);
    }
    push_order(batch, number, command, moment)?;
    Ok(())
}

// The batch in a text, with the records that it imports.
fn batch_in(rt: &HostRuntime, text: &[u8], moment: Moment) -> Result<Batch, Unbegun> {
    let orders = read_orders(rt.alloc(), text)?;
    let mut batch = batch_for(rt.alloc(), Vec::new(rt.alloc()));
    for order in orders {
        add_order(rt, &mut batch, order, moment)?;
    }
    Ok(batch)
}

// The timestamp of the command line, or of the system clock.
fn moment_for(rt: &HostRuntime, now: Option<Moment>) -> Result<Moment, Unbegun> {
    match now.or(clock(rt)) {
        Some(moment) => Ok(moment),
        None => Err(Unbegun::Report(Report::NoClock)),
    }
}

fn order_for(file: String, moment: Moment, batch: Batch, explains: bool) -> Order {
    Order {
        file,
        now: Some(moment),
        task: Task::Batch(batch),
        record: None,
        explains,
    }
}

fn prepared_batch(rt: &HostRuntime, words: BatchOptions) -> Result<PreparedBatch, Unbegun> {
    let moment = moment_for(rt, words.now)?;
    let text = match read_batch(rt, words.orders.as_str()) {
        Ok(text) => text,
        Err(report) => return Err(Unbegun::Orders(report)),
    };
    let text = without_mark(text.as_slice());
    let mut lines = Vec::new(rt.alloc());
    lines.extend_from_slice(text)?;
    Ok(PreparedBatch {
        file: words.file,
        moment,
        batch: batch_in(rt, text, moment)?,
        lines,
        explains: words.explains,
    })
}

// Whether a name stands among the first `count` names.
fn stands_before(names: &[String], count: usize, name: &str) -> bool {
    for other in names.iter().take(count) {
        if other.as_str() == name {
            return true;
        }
    }
    false
}

// Whether a name stands twice.
fn has_twice(names: &[String]) -> bool {
    for (place, name) in names.iter().enumerate() {
        if stands_before(names, place, name.as_str()) {
            return true;
        }
    }
    false
}

// The value for which a round robin is refused with 65 before its file is opened.
fn wrong_value(robin: &RoundRobin) -> WrongValue {
    let names = robin.names.as_slice();
    if has_twice(names) {
        return WrongValue::NameTwice;
    }
    if names.iter().all(|name| is_name(name.as_str())) {
        WrongValue::KeyPrefix
    } else {
        WrongValue::SeatedName
    }
}

fn is_bad_value(error: &SeatError) -> bool {
    match error {
        SeatError::Refused(refusal) => *refusal == Refusal::BadValue,
        SeatError::Memory => false,
    }
}

// Why a round robin was not seated. A value that is refused is named.
fn unseated(error: SeatError, robin: &RoundRobin) -> Unbegun {
    if is_bad_value(&error) {
        Unbegun::Report(Report::ValueRefused(wrong_value(robin)))
    } else {
        error.into()
    }
}

// The batch that seats a round robin.
fn seats_at(rt: &HostRuntime, robin: &RoundRobin) -> Result<(Moment, Batch), Unbegun> {
    let moment = moment_for(rt, robin.now)?;
    match seats_of(rt.alloc(), robin, moment) {
        Ok(batch) => Ok((moment, batch)),
        Err(error) => Err(unseated(error, robin)),
    }
}

// Prints why a batch was not started.
fn print_unbegun(rt: &HostRuntime, unbegun: Unbegun, explains: bool) -> u8
    ensures { result ≤ 3 }
{
    match unbegun {
        Unbegun::Words(bad) => refuse_words(rt, bad),
        Unbegun::Orders(report) => {
            let batch = batch_for(rt.alloc(), Vec::new(rt.alloc()));
            print_report(rt, &Task::Batch(batch), &report, explains)
        }
        Unbegun::Report(report) => print_report(rt, &Task::Verify, &report, explains),
    }
}

// The commands of a batch from an index on.
fn rest_of(rt: &HostRuntime, batch: Batch, from: usize) -> Result<Batch, AllocError> {
    if from == 0 {
        return Ok(batch);
    }
    let mut rest = batch_for(rt.alloc(), Vec::new(rt.alloc()));
    for (place, request) in batch.requests.into_iter().enumerate() {
        if place >= from {
            let number = batch.numbers.get(place).copied().unwrap_or(0);
            push_order(&mut rest, number, request.command, request.moment)?;
        }
    }
    Ok(rest)
}

// Executes the commands of a batch from an index on over the file; returns the exit status.
fn run_rest(rt: &HostRuntime, given: PreparedBatch, from: usize) -> u8
    ensures { result ≤ 3 }
{
    let explains = given.explains;
    match rest_of(rt, given.batch, from) {
        Ok(rest) => run_order(rt, &order_for(given.file, given.moment, rest, explains)),
        Err(_) => print_report(rt, &Task::Verify, &Report::NoMemory, explains),
    }
}

// Executes a batch: on the running server as far as that answers, and the rest over the file.
fn run_prepared(rt: &HostRuntime, given: PreparedBatch) -> u8
    ensures { result ≤ 3 }
{
    if given.explains {
        return run_rest(rt, given, 0);
    }
    match send_batch(rt, &given) {
        SentBatch::Ended(status) => status.min(FAULT),
        SentBatch::Answered(count, has_refusal) => {
            let is_whole = count != 0 && count >= given.batch.requests.len();
            let rest = if is_whole {
                DONE
            } else {
                run_rest(rt, given, count)
            };
            status_with(has_refusal, rest)
        }
    }
}

/// Executes a batch of commands; returns the exit status.
pub(crate) fn run_batch(rt: &HostRuntime, words: BatchOptions) -> u8
    ensures { result ≤ 3 }
{
    let explains = words.explains;
    match prepared_batch(rt, words) {
        Ok(given) => run_prepared(rt, given),
        Err(unbegun) => print_unbegun(rt, unbegun, explains),
    }
}

// Prints the commands of a round robin as lines of a batch.
fn print_seats(rt: &HostRuntime, batch: &Batch, explains: bool) -> u8
    ensures { result ≤ 3 }
{
    match seat_lines(rt.alloc(), batch) {
        Ok(lines) => print_text(rt, lines.as_str()),
        Err(_) => print_report(rt, &Task::Verify, &Report::NoMemory, explains),
    }
}

// Opens the file of a round robin and changes nothing.
fn open_without_orders(rt: &HostRuntime, robin: RoundRobin) -> Result<(), Report> {
    let Some(moment) = robin.now.or(clock(rt)) else {
        return Err(Report::NoClock);
    };
    let batch = batch_for(rt.alloc(), Vec::new(rt.alloc()));
    let report = run_order_on_file(rt, &order_for(robin.file, moment, batch, robin.explains));
    if report.status() == DONE {
        Ok(())
    } else {
        Err(report)
    }
}

fn is_refusal(unbegun: &Unbegun) -> bool {
    match unbegun {
        Unbegun::Report(report) => report.status() == REFUSED,
        _ => false,
    }
}

// Prints a fault, and lets it go.
fn print_fault(rt: &HostRuntime, report: Report, explains: bool) -> u8
    ensures { result ≤ 3 }
{
    let status = print_report(rt, &Task::Verify, &report, explains);
    drop(report);
    status
}

// Prints a refusal, unless the file of the round robin has a fault: that comes first.
fn print_refusal(rt: &HostRuntime, robin: RoundRobin, refusal: Unbegun, explains: bool) -> u8
    ensures { result ≤ 3 }
{
    match open_without_orders(rt, robin) {
        Ok(()) => print_unbegun(rt, refusal, explains),
        Err(report) => {
            drop(refusal);
            print_fault(rt, report, explains)
        }
    }
}

// Prints why a round robin was not seated.
fn print_unseated(rt: &HostRuntime, robin: RoundRobin, unbegun: Unbegun) -> u8
    ensures { result ≤ 3 }
{
    let explains = robin.explains;
    if is_refusal(&unbegun) && !robin.is_dry {
        print_refusal(rt, robin, unbegun, explains)
    } else {
        drop(robin);
        print_unbegun(rt, unbegun, explains)
    }
}

/// Seats a round robin, or prints its commands for a dry run; returns the exit status.
pub(crate) fn run_round_robin(rt: &HostRuntime, robin: RoundRobin) -> u8
    ensures { result ≤ 3 }
{
    let (moment, batch) = match seats_at(rt, &robin) {
        Ok(seats) => seats,
        Err(unbegun) => return print_unseated(rt, robin, unbegun),
    };
    if robin.is_dry {
        return print_seats(rt, &batch, robin.explains);
    }
    match seat_lines(rt.alloc(), &batch) {
        Ok(lines) => run_prepared(
            rt,
            PreparedBatch {
                file: robin.file,
                moment,
                batch,
                lines: lines.into_bytes(),
                explains: robin.explains,
            },
        ),
        Err(_) => print_report(rt, &Task::Verify, &Report::NoMemory, robin.explains),
    }
}

// The batch that gives the rulings of these lines.
fn rulings_at(rt: &HostRuntime, order: &Order, lines: &[u8]) -> Result<(Moment, Batch), Unbegun> {
    let moment = moment_for(rt, order.now)?;
    Ok((moment, batch_in(rt, lines, moment)?))
}

/// Gives the rulings on many games that the query of the order lists, as a batch; returns the exit status.
pub(crate) fn run_bulk_ruling(rt: &HostRuntime, order: Order) -> u8
    ensures { result ≤ 3 }
{
    let explains = order.explains;
    let mut lines = Vec::new(rt.alloc());
    let report = ask_on_file(rt, &order, &mut lines);
    if report.status() != DONE {
        return print_report(rt, &order.task, &report, explains);
    }
    match rulings_at(rt, &order, lines.as_slice()) {
        Ok((moment, batch)) => run_prepared(
            rt,
            PreparedBatch {
                file: order.file,
                moment,
                batch,
                lines,
                explains,
            },
        ),
        Err(unbegun) => print_unbegun(rt, unbegun, explains),
    }
}
