//! Replies to clients: the application, the timestamp of a request, and the access log.

ghost use Rattle.std.specs.Prelude.{◌≡◌, ◌++◌, ℕ, List, IfOk, Option, map, string_bytes};
ghost use Rattle.http_head.specs.Head.{NamedHost};
ghost use Rattle.http_head.specs.Request.{NamesHost, asks_head};
ghost use Rattle.http_head.specs.declared.refusals.HeadRefusal.TheVariants.{BadHost};
ghost use Rattle.http_bodies.specs.Reply.{refusal_reply};
ghost use Rattle.http_bodies.specs.declared.refusals.HttpRefusal.TheVariants.{Head};
ghost use Rattle.http_bodies.specs.declared.reply.Caching.TheVariants.{Unspecified};
ghost use Rattle.http_desk.specs.Hosts.{is_foreign};
ghost use Rattle.http_desk.specs.declared.faults.ClubFault.{ClubFault};
ghost use Rattle.server.specs.Visits.{HasActedOn, HasShutReply, IsAnswered};

use crate::access_log::{Log, LogEntry};
use crate::nonblocking_stderr::NonBlockingStderr;
use crate::serve::{Connection, Exchange, serve_one};
use crate::times::clock;
use clocks::Moment;
use control_socket::write_reply;
use http_desk::{ClubService, DeskFault, Routes, foreign_reply, is_foreign};
use std::alloc::Global;
use std::io;
use std::io::{ErrorKind, Read};

/// The options of a server.
#[derive(Debug, Drop)]
pub struct ServerOptions {
    /// A fixed timestamp for every request; if `None`, the system clock is read.
    pub now: Option<Moment>,
    /// Whether requests are logged to standard error.
    pub is_logged: bool,
    /// The number of connections to accept before the server ends.
    pub count: u64,
    /// The host names for which the server answers, beside the loopback names and addresses; empty: for all.
    pub hosts: Vec<String>,
}

/// Replies to requests, and logs them.
#[derive(Drop)]
pub(crate) struct Responder<'a> {
    rt: &'a HostRuntime,
    routes: Routes,
    // A fixed timestamp for every request.
    now: Option<Moment>,
    // The host names for which it answers; empty: for all.
    hosts: Vec<String>,
    log: Option<Log<NonBlockingStderr<'a>>>,
}

impl<'a> Responder<'a> {
    /// A responder with these options.
    ///
    /// # Errors
    ///
    /// An `io::Error` if the poll of standard error cannot be made, or if out of memory.
    pub(crate) fn new(rt: &'a HostRuntime, options: ServerOptions) -> io::Result<Responder<'a>> {
        let Ok(routes) = Routes::new(rt.alloc()) else {
            return Err(io::Error::from(ErrorKind::OutOfMemory));
        };
        let log = if options.is_logged {
            Some(Log::new(NonBlockingStderr::new(rt)?))
        } else {
            None
        };
        Ok(Responder {
            rt,
            routes,
            now: options.now,
            hosts: options.hosts,
            log,
        })
    }

    /// The timestamp for a request: the fixed one, or the system clock.
    pub(crate) fn timestamp(&self) -> Option<Moment> {
        self.now.or(clock(self.rt))
    }

    /// The host names for which the server answers.
    pub(crate) fn hosts(&self) -> &[String]
        ensures { result.now ≡ self.entry.now.hosts.items }
    {
        &self.hosts
    }

    /// Whether these bytes of a request are for a host for which the server does not answer.
    pub(crate) fn is_foreign(&self, bytes: &[u8]) -> bool
        ensures { (named : Option NamedHost) × NamesHost bytes.now named ×
            (result ≡ is_foreign (map string_bytes self.entry.now.hosts.items) named) }
    {
        is_foreign(&self.hosts, bytes)
    }

    /// Replies to a request for another host. The reply is in memory, and is not sent yet.
    ///
    /// # Guarantees
    ///
    /// - `request`, `refused`: the reply refuses the host of these bytes.
    /// - `buffered`: the buffer gets the bytes of the reply that is returned, and no others.
    pub(crate) fn refuse_host(
        &self,
        alloc: Global,
        heard: Vec<u8>,
        writer: &mut Vec<u8>,
    ) -> Result<Exchange, DeskFault>
        ensures request { IfOk result (λ done. done.bytes.items ≡ heard.items) }
        ensures refused { IfOk result (λ done. done.reply.items ≡
            refusal_reply (Head BadHost) Unspecified (asks_head heard.items)) }
        ensures buffered { IfOk result (λ done. writer.new.items ≡ writer.old.items ++ done.reply.items) }
    {
        let reply = foreign_reply(alloc, &heard)?;
        match write_reply(writer, &reply) {
            Ok(()) => Ok(Exchange {
                bytes: heard,
                reply,
                caller: None,
            }),
            Err(fault) => Err(fault),
        }
    }

    /// Serves a client: `heard` and what its reader gives. The reply is in memory, and is not sent yet.
    ///
    /// # Guarantees
    ///
    /// `buffered`: the buffer gets the bytes of the reply that is returned, and no others.
    pub(crate) fn reply<R: Read, C: ClubService>(
        &self,
        alloc: Global,
        heard: Vec<u8>,
        connection: &mut Connection<R, Vec<u8>>,
        club: &mut C,
        moment: Moment,
    ) -> Result<Exchange, DeskFault>
        ensures clean { C.IsClean club.new → C.IsClean club.old }
        ensures acts { C.IsClean club.new → (s : C.State) → C.Stands club.old s →
            HasActedOn C.club (C.Stands club.new) (C.Leaves club.new) s moment heard.items }
        ensures answers { C.IsClean club.new → (s : C.State) → C.Stands club.old s →
            IsAnswered C.club (C.Stands club.new) (C.Leaves club.new) s moment result }
        ensures unavailable { (fault : ClubFault) → C.IsShut club.old fault →
            C.IsShut club.new fault × HasShutReply fault result }
        ensures begins { IfOk result (λ done. (further : List ℕ) × (done.bytes.items ≡ heard.items ++ further)) }
        ensures buffered { IfOk result (λ done.
            connection.new.writer.items ≡ connection.old.writer.items ++ done.reply.items) }
    {
        let routes = &self.routes;
        let done = serve_one(alloc, routes, heard, connection, club, moment);
        done
    }

    /// Logs an event, if there is a log.
    pub(crate) fn log(&mut self, alloc: Global, moment: Moment, entry: LogEntry<'_>) {
        if let Some(log) = &mut self.log {
            log.write_entry(alloc, &self.routes, moment, entry);
        }
    }
}
