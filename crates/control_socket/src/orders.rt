//! Execution of orders on the server.

ghost use Rattle.std.specs.Prelude.{◌≡◌, ◌++◌, ℕ, List, Err, IfOk, codes};
ghost use Rattle.club_requests.specs.AnswerText.{outcome_text};
ghost use Rattle.club_core.specs.Answer.{command_of};
ghost use Rattle.http_desk.specs.declared.faults.ClubFault.{ClubFault};
ghost use Rattle.http_desk.specs.Served.{IsOfCommand, IsOfQuestion, Serves};
ghost use Rattle.http_bodies.specs.ShownViews.{shown_view};
ghost use Rattle.control_socket.specs.Orders.{HasRunOperation, HasSentAnswer, IsPrinted, state_after};
ghost use Rattle.control_socket.specs.internal.Asking.{IsOfOperation};
ghost use Rattle.control_socket.specs.Printed.{print_of, printed, shown_printed};
ghost use Rattle.control_socket.specs.declared.orders.Operation.TheVariants as errand_is;
ghost use Rattle.control_socket.specs.declared.orders.OrderFault.TheVariants.{NotDone};

use crate::answers::{OrderAnswer, encode_answer};
use crate::writing::write_reply;
use clocks::Moment;
use club_requests::{Command, Outcome, Question, Refusal, Who};
use http_desk::{ClubFault, ClubService};
use std::alloc::{AllocError, Global};
use std::io::Write;

/// An operation that the server can execute for the command line.
#[derive(Debug, Drop)]
pub enum Operation {
    /// A command, sent as the officer.
    Command(Command),
    /// A query, which changes nothing.
    Question(Question),
}

/// Why an order has no answer.
#[derive(Clone, Copy, Debug, PartialEq, Eq)]
pub enum OrderFault {
    /// A call on the club failed, or out of memory: it took effect once or not at all, and nothing was sent.
    NotDone,
    /// It took effect, and the answer could not be sent; a prefix of it may have been.
    ReplyLost,
}

// Whether a command was accepted, now or before.
fn is_done(outcome: &Outcome) -> bool
    ensures { (text : List ℕ) → text ≡ outcome_text outcome.now ++ codes "\n" →
        print_of result text ≡ printed outcome.now }
{
    match outcome {
        Outcome::Accepted(_) => true,
        Outcome::Repeated(_) => true,
        Outcome::Refused(_) => false,
    }
}

// The output of a command.
fn outcome_printed(alloc: Global, outcome: &Outcome) -> Result<OrderAnswer, AllocError>
    ensures { IfOk result (λ answered. print_of answered.is_done answered.text.items ≡ printed outcome.now) }
{
    let line = format!(in alloc; "{outcome}\n")?;
    Ok(OrderAnswer {
        is_done: is_done(outcome),
        text: line.into_bytes(),
    })
}

// The output of a query.
fn shown_printed(alloc: Global, shown: Result<Vec<u8>, Refusal>) -> Result<OrderAnswer, AllocError>
    ensures { IfOk result (λ answered.
        print_of answered.is_done answered.text.items ≡ shown_printed (shown_view shown)) }
{
    match shown {
        Ok(text) => Ok(OrderAnswer {
            is_done: true,
            text,
        }),
        Err(refusal) => {
            let printed = outcome_printed(alloc, &Outcome::Refused(refusal))?;
            Ok(printed)
        }
    }
}

fn give<C: ClubService>(
    alloc: Global,
    club: &mut C,
    command: &Command,
    moment: Moment,
) -> Result<OrderAnswer, ClubFault>
    ensures clean { C.IsClean club.new → C.IsClean club.old }
    ensures shut { (fault : ClubFault) → C.IsShut club.old fault → (result ≡ Err fault) × C.IsShut club.new fault }
    ensures serves { C.IsClean club.new → (s : C.State) → C.Stands club.old s →
        Serves (C.Stands club.new) (C.Leaves club.new) s
        (state_after C.club s moment (errand_is.Command command.now)) (λ printed.
        IsPrinted C.club s moment (errand_is.Command command.now) (print_of printed.is_done printed.text.items))
        (IsOfCommand (command_of command.now)) result }
{
    let outcome = match club.apply(alloc, &Who::Officer, command, moment) {
        Ok(outcome) => outcome,
        Err(fault) => return Err(fault),
    };
    match outcome_printed(alloc, &outcome) {
        Ok(printed) => Ok(printed),
        Err(_) => Err(ClubFault::Memory),
    }
}

fn ask<C: ClubService>(
    alloc: Global,
    club: &mut C,
    question: &Question,
    moment: Moment,
) -> Result<OrderAnswer, ClubFault>
    ensures clean { C.IsClean club.new → C.IsClean club.old }
    ensures shut { (fault : ClubFault) → C.IsShut club.old fault → (result ≡ Err fault) × C.IsShut club.new fault }
    ensures serves { C.IsClean club.new → (s : C.State) → C.Stands club.old s →
        Serves (C.Stands club.new) (C.Leaves club.new) s s (λ printed.
        IsPrinted C.club s moment (errand_is.Question question.now) (print_of printed.is_done printed.text.items))
        (IsOfQuestion question.now) result }
{
    let shown = match club.ask(alloc, question, moment) {
        Ok(shown) => shown,
        Err(fault) => return Err(fault),
    };
    match shown_printed(alloc, shown) {
        Ok(printed) => Ok(printed),
        Err(_) => Err(ClubFault::Memory),
    }
}

fn obey<C: ClubService>(
    alloc: Global,
    club: &mut C,
    errand: &Operation,
    moment: Moment,
) -> Result<OrderAnswer, ClubFault>
    ensures clean { C.IsClean club.new → C.IsClean club.old }
    ensures shut { (fault : ClubFault) → C.IsShut club.old fault → (result ≡ Err fault) × C.IsShut club.new fault }
    ensures serves { C.IsClean club.new → (s : C.State) → C.Stands club.old s →
        Serves (C.Stands club.new) (C.Leaves club.new) s (state_after C.club s moment errand.now)
        (λ printed. IsPrinted C.club s moment errand.now (print_of printed.is_done printed.text.items))
        (IsOfOperation errand.now) result }
{
    match errand {
        Operation::Command(command) => give(alloc, club, command, moment),
        Operation::Question(question) => ask(alloc, club, question, moment),
    }
}

/// Executes an operation at a timestamp and sends its output to the client; `false` if the club refuses it.
///
/// # Errors
///
/// - `NotDone` if a call on the club fails, or if out of memory: it took effect once or not at all, and nothing is
///   sent.
/// - `ReplyLost` if the answer cannot be sent: it took effect.
///
/// # Guarantees
///
/// - `obeys`: the operation takes effect once or not at all.
/// - `tells`: nothing is sent before it has taken effect.
/// - `shut`: nothing is sent for a club that is unavailable, so that the sender executes its order itself.
pub fn serve_order<W: Write, C: ClubService>(
    alloc: Global,
    writer: &mut W,
    club: &mut C,
    errand: &Operation,
    moment: Moment,
) -> Result<bool, OrderFault>
    ensures clean { C.IsClean club.new → C.IsClean club.old }
    ensures obeys { C.IsClean club.new → (s : C.State) → C.Stands club.old s →
        HasRunOperation C.club (C.Stands club.new) (C.Leaves club.new) s moment errand.now }
    ensures tells { C.IsClean club.new → (s : C.State) → C.Stands club.old s →
        HasSentAnswer C.club (C.Stands club.new) s moment errand.now (W.contents writer.old) (W.contents writer.new)
        result }
    ensures shut { (fault : ClubFault) → C.IsShut club.old fault → (result ≡ Err NotDone) ×
        (W.contents writer.new ≡ W.contents writer.old) × C.IsShut club.new fault }
{
    let printed = match obey(alloc, club, errand, moment) {
        Ok(printed) => printed,
        Err(_) => return Err(OrderFault::NotDone),
    };
    let is_done = printed.is_done;
    let bytes = match encode_answer(alloc, &printed) {
        Ok(bytes) => bytes,
        Err(_) => return Err(OrderFault::NotDone),
    };
    match write_reply(writer, &bytes) {
        Ok(()) => Ok(is_done),
        Err(_) => Err(OrderFault::ReplyLost),
    }
}
