//! Requests at the control socket: decoding of a message into a lease request or an operation.

ghost use Rattle.std.specs.Prelude.{◌≡◌, IfOk, map};
ghost use Rattle.control_socket.specs.internal.Asking.{IsOperationOf, operation_of, parted};
ghost use Rattle.control_socket.specs.internal.Wishes.{IsDecodedOperation, IsOrderRequest, IsControlRequest};

use crate::frames::{Frame, OrderFrame, decode_frame};
use crate::orders::Operation;
use cli::{BadWords, Invocation, Order, Task, read_words};
use clocks::Moment;
use std::alloc::{AllocError, Global};

/// A request at the control socket.
#[derive(Drop)]
pub(crate) enum ControlRequest {
    /// The message is incomplete.
    Part,
    /// A lease of the file.
    File,
    /// An operation at a timestamp.
    Order(Operation, Moment),
    /// Nothing that the server does.
    Nothing,
}

// The operation of a task; `None` for tasks that need the file to themselves.
fn operation_in(task: Task) -> Option<Operation>
    ensures { result ≡ operation_of task }
{
    match task {
        Task::Request(command) => Some(Operation::Command(command)),
        Task::Ask(question) => Some(Operation::Question(question)),
        _ => None,
    }
}

fn text_given(alloc: Global, text: &[u8]) -> Result<Vec<u8>, AllocError>
    ensures { IfOk result (λ given. given.items ≡ text.now) }
{
    let mut given = Vec::new(alloc);
    given.extend_from_slice(text)?;
    Ok(given)
}

// The operation of an order with its record.
fn operation_with(alloc: Global, order: Order, text: &[u8]) -> Result<Option<Operation>, BadWords>
    ensures { IfOk result (IsOperationOf (Invocation.Order order) text.now) }
{
    let given = text_given(alloc, text)?;
    let mut order = order;
    order.set_record(given);
    Ok(operation_in(order.task))
}

// The operation of a parsed command line with its record; `None` for batches, round robins, rulings on many games and
// `serve`.
fn operation_from(
    alloc: Global,
    words: Invocation,
    text: &[u8],
) -> Result<Option<Operation>, BadWords>
    ensures { IfOk result (IsOperationOf words text.now) }
{
    match words {
        Invocation::Order(order) => {
            let errand = operation_with(alloc, order, text)?;
            Ok(errand)
        }
        _ => Ok(None),
    }
}

// The words of a command line.
fn parts_of(alloc: Global, words: &str) -> Result<Vec<&str>, AllocError>
    ensures { IfOk result (λ parts. map (λ part. part.now) parts.items ≡ parted words.now) }
{
    words.split('\0').collect(alloc)
}

// The operation of the command line in a message, parsed as by the program itself.
fn decode_operation(alloc: Global, words: &[u8], text: &[u8]) -> Result<Option<Operation>, BadWords>
    ensures { IfOk result (IsDecodedOperation words.now text.now) }
{
    let words = match str::from_utf8(words) {
        Ok(words) => words,
        Err(_) => return Ok(None),
    };
    let parts = parts_of(alloc, words)?;
    let words = read_words(alloc, parts.as_slice())?;
    let errand = operation_from(alloc, words, text)?;
    Ok(errand)
}

fn parse_order(alloc: Global, given: &OrderFrame<'_>) -> Result<ControlRequest, BadWords>
    ensures { IfOk result (IsOrderRequest given.now.moment given.now.words.now given.now.text.now) }
{
    let errand = decode_operation(alloc, given.words, given.text)?;
    match errand {
        Some(errand) => Ok(ControlRequest::Order(errand, given.moment)),
        None => Ok(ControlRequest::Nothing),
    }
}

/// Decodes a message.
///
/// # Errors
///
/// `BadWords` if its command line is malformed, or if out of memory.
pub(crate) fn parse_request(alloc: Global, said: &[u8]) -> Result<ControlRequest, BadWords>
    ensures { IfOk result (IsControlRequest said.now) }
{
    match decode_frame(said) {
        Frame::Part => Ok(ControlRequest::Part),
        Frame::File => Ok(ControlRequest::File),
        Frame::Order(given) => {
            let wish = parse_order(alloc, &given)?;
            Ok(wish)
        }
        Frame::Nothing => Ok(ControlRequest::Nothing),
    }
}
