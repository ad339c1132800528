//! One connection: read a request, execute it, write the reply.
ghost use Rattle.std.specs.Prelude.{◌≡◌, ◌++◌, ℕ, List, None, Some, IfOk};
ghost use Rattle.std.specs.Prelude.{option_map, string_bytes};
ghost use Rattle.std.specs.Io.KnownBytes.{Appends};
ghost use Rattle.http_desk.specs.declared.faults.ClubFault.{ClubFault};
ghost use Rattle.http_desk.specs.Desk.{NamesCallerOf};
ghost use Rattle.server.specs.Serving.{Serving, ShutServing};
ghost use Rattle.server.specs.Visits.{HasActedOn, HasShutReply, IsAnswered};

use clocks::Moment;
use control_socket::write_reply;
use http_desk::{AttributedReply, ClubService, DeskFault, Routes, answer};
use http_head::{RequestReadFault, read_request_bytes};
use std::alloc::Global;
use std::io::{Read, Write};

/// A connection to a client: its bytes are read from one half, and the reply is written to the other. Of a socket the
/// other half is a buffer, so that no write waits for the client.
#[derive(Drop)]
pub struct Connection<R, W> {
    /// What the client sends.
    pub reader: R,
    /// What the client receives.
    pub writer: W,
}

/// The request bytes of a connection, the reply to them, and the member who sent them.
#[derive(Drop)]
pub struct Exchange {
    /// The bytes of the request, as received.
    pub bytes: Vec<u8>,
    /// The bytes of the reply, as written.
    pub reply: Vec<u8>,
    /// The name of the member who sent the request, if the route needs a key and the key is a member's.
    pub caller: Option<String>,
}

/// Serves one connection at a timestamp: reads until the request is complete, rejected or at its end, executes it,
/// and writes the reply.
///
/// `heard` has the bytes that were received before; the connection's reader gives the rest.
///
/// # Errors
///
/// - `Memory` if out of memory: nothing is written; the command may or may not have taken effect.
/// - `Read` if the reader fails: nothing is written, and the club is unchanged.
/// - `Write` if the writer fails: a prefix of the reply may be written; the command may have taken effect.
///
/// # Guarantees
///
/// - `acts`: whatever is received, the request is executed once or not at all.
/// - `serves`, `answers`: the reply is the one that the club's state and the request determine, or reports a fault of
///   the club; also if only a prefix of it could be written.
/// - `caller`, `nobody`: no member is named but the holder of the key.
/// - `shut`, `unavailable`: a failed club answers with its fault.
pub fn serve_one<R: Read, W: Write, C: ClubService>(
    alloc: Global,
    routes: &Routes,
    heard: Vec<u8>,
    connection: &mut Connection<R, W>,
    club: &mut C,
    moment: Moment,
) -> Result<Exchange, DeskFault>
    ensures clean { C.IsClean club.new → C.IsClean club.old }
    ensures acts { C.IsClean club.new → (s : C.State) → C.Stands club.old s →
        HasActedOn C.club (C.Stands club.new) (C.Leaves club.new) s moment heard.items }
    ensures answers { C.IsClean club.new → (s : C.State) → C.Stands club.old s →
        IsAnswered C.club (C.Stands club.new) (C.Leaves club.new) s moment result }
    ensures caller { C.IsClean club.new → (s : C.State) → C.Stands club.old s → IfOk result (λ done.
        NamesCallerOf C.club s done.bytes.items done.reply.items (option_map string_bytes done.caller)) }
    ensures nobody { (fault : ClubFault) → C.IsShut club.old fault → IfOk result (λ done. done.caller ≡ None) }
    ensures begins { IfOk result (λ done. (further : List ℕ) × (done.bytes.items ≡ heard.items ++ further)) }
    ensures written { IfOk result (λ done.
        Appends (W.contents connection.old.writer) (W.contents connection.new.writer) done.reply.items) }
    ensures serves { C.IsClean club.new → (s : C.State) (input before : List ℕ) → C.Stands club.old s →
        R.remaining connection.old.reader ≡ Some input → W.contents connection.old.writer ≡ Some before →
        Serving C.club (C.Stands club.new) (C.Leaves club.new) s moment (heard.items ++ input) before
        (R.remaining connection.new.reader) (W.contents connection.new.writer) result }
    ensures shut { (fault : ClubFault) → C.IsShut club.old fault → C.IsShut club.new fault ×
        ((input before : List ℕ) → R.remaining connection.old.reader ≡ Some input →
        W.contents connection.old.writer ≡ Some before →
        ShutServing fault (heard.items ++ input) before (W.contents connection.new.writer) result) }
    ensures unavailable { (fault : ClubFault) → C.IsShut club.old fault →
        C.IsShut club.new fault × HasShutReply fault result }
{
    let bytes = match read_request_bytes(heard, &mut connection.reader) {
        Ok(bytes) => bytes,
        Err(RequestReadFault::Memory) => return Err(DeskFault::Memory),
        Err(RequestReadFault::Read) => return Err(DeskFault::Read),
    };
    let AttributedReply { reply, caller } = match answer(alloc, routes, club, &bytes, moment) {
        Ok(replied) => replied,
        Err(fault) => return Err(fault),
    };
    match write_reply(&mut connection.writer, &reply) {
        Ok(()) => Ok(Exchange {
            bytes,
            reply,
            caller,
        }),
        Err(fault) => Err(fault),
    }
}
