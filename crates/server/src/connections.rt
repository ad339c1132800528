//! A source of connections, served one after another.

ghost use Rattle.std.specs.Prelude.{◌++◌, List};
ghost use Rattle.server.specs.Visits.{AreShutServed, IsNextServed, listed};
ghost use Rattle.server.specs.declared.connections.Served.{Served};

use crate::serve::Exchange;
use clocks::Moment;
use control_socket::{Operation, OrderFault};
use http_desk::{ClubFault, ClubService, DeskFault, UnavailableClub};
use std::alloc::Global;

/// A connection or an order that was served, at a timestamp, and what is returned to its client. The reply to a request
/// is in memory then, and is sent while others are served.
#[derive(Drop)]
pub enum Served {
    /// A request of a member: the exchange, or why there is no reply.
    Request(Moment, Result<Exchange, DeskFault>),
    /// An order of the officer: whether the club accepted it, or why there is no answer.
    Order(Moment, Operation, Result<bool, OrderFault>),
    /// A request that the club did not see, since it is for another host, or there is no timestamp: the exchange, or
    /// why there is no reply.
    Rejected(Result<Exchange, DeskFault>),
}

/// A source of connections and of control socket orders.
pub trait Connections {
    ghost use Rattle.std.specs.Prelude.{List};
    ghost use Rattle.server.specs.declared.connections.Served.{Served};

    /// The connections and orders that were served so far, in order. Of sockets nothing is known.
    ghost HasServed: { Self → List Served → Type 0 };

    /// Serves the next connection or order; `None` if none is left or the server must release the file first.
    ///
    /// # Guarantees
    ///
    /// - `acts`: the reply is the one that the club's state and the request determine, and the club executes the
    ///   request once. Without a reply it executes the request once or not at all.
    /// - `unavailable`: a club that is unavailable replies with its fault, and executes no order.
    /// - `acknowledged`: the result is what was served, after all that was served before.
    fn serve_next<C: ClubService>(&mut self, alloc: Global, club: &mut C) -> Option<Served>
        ensures clean { C.IsClean club.new → C.IsClean club.old }
        ensures acts { C.IsClean club.new → (s : C.State) → C.Stands club.old s →
            IsNextServed C.club (C.Stands club.new) (C.Leaves club.new) s result }
        ensures unavailable { (fault : ClubFault) → C.IsShut club.old fault →
            C.IsShut club.new fault × AreShutServed fault (listed result) }
        ensures acknowledged { (before : List Served) → HasServed self.old before →
            HasServed self.new (before ++ listed result) };
}

/// Answers every connection with the fault of an unavailable club, until `serve_next` returns `None`.
///
/// # Guarantees
///
/// `unavailable`: each reply of this time is one that needs no club or reports the fault, and no order is executed.
pub fn serve_unavailable<V: Connections>(alloc: Global, visits: &mut V, fault: ClubFault)
    ensures unavailable { (before : List Served) → V.HasServed visits.old before →
        (more : List Served) × V.HasServed visits.new (before ++ more) × AreShutServed fault more }
{
    let mut closed = UnavailableClub { fault };
    for _ in 0..u64::MAX {
        let item = visits.serve_next(alloc, &mut closed);
        if item.is_none() {
            return;
        }
    }
}
