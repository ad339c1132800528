//! The capture routes of a move.
ghost use Rattle.std.specs.Prelude.{◌≡◌, ◌↔◌, ◌≤◌, ◌++◌, [], ◌∷◌, ◌&&◌, ◌==◌, if◌then◌else◌, ℕ, List, length, map};
ghost use Rattle.std.specs.Prelude.{OnOk, IfOk, MatchOption, Contains, take, drop};
ghost use Rattle.std.specs.List.Sorted.{IsStrictlySortedBy};
ghost use Rattle.squares.specs.DraughtsSets.{same_squares};
ghost use Rattle.squares.specs.OrderedLists.{put, put_all};
ghost use Rattle.draughts_moves.specs.Capture.{without, Capture};
ghost use Rattle.draughts_moves.specs.Routes.{route_cmp, landings_of};
ghost use Rattle.draughts_moves.specs.internal.Routes.{lists_in};

use crate::jumps::jumps_from;
use crate::most::own_at;
use crate::mover::Mover;
use memory::Memory;
use squares::{DMove, DPos, Dsq};
use std::alloc::{AllocError, Global};
use std::cmp::Ordering;

// The index at which a route belongs in the sorted list, or `None` if it is there already.
fn place_of(routes: &[Vec<Dsq>], route: &[Dsq]) -> Option<usize>
    ensures { MatchOption result
        (put route_cmp route.now (lists_in routes.now) ≡ lists_in routes.now)
        (λ i. (i ≤ length routes.now)
        × (put route_cmp route.now (lists_in routes.now)
        ≡ take i (lists_in routes.now) ++ route.now ∷ drop i (lists_in routes.now))) }
{
    for (i, there) in routes.iter().enumerate() {
        match there.as_slice().cmp(route) {
            Ordering::Less => {}
            Ordering::Equal => return None,
            Ordering::Greater => return Some(i),
        }
    }
    Some(routes.len())
}

// Inserts a route at its place, unless it is there already.
fn put_route(alloc: Global, route: &[Dsq], routes: &mut Vec<Vec<Dsq>>) -> Result<(), AllocError>
    ensures { OnOk result (lists_in routes.new.items
        ≡ put route_cmp route.now (lists_in routes.old.items)) }
{
    match place_of(routes.as_slice(), route) {
        Some(i) => {
            let copy = Vec::from_slice(alloc, route)?;
            routes.insert(i, copy)?;
            Ok(())
        }
        None => Ok(()),
    }
}

// Inserts the route if the piece has reached the end of the move with the move's captured pieces.
fn put_end(
    alloc: Global,
    played: &DMove,
    mover: &Mover,
    path: &[Dsq],
    routes: &mut Vec<Vec<Dsq>>,
) -> Result<(), AllocError>
    ensures { OnOk result (lists_in routes.new.items ≡ put_all route_cmp
        (if mover.now.at == played.now.to && same_squares mover.now.taken played.now.taken
        then path.now ∷ [] else [])
        (lists_in routes.old.items)) }
{
    if mover.at != played.to {
        return Ok(());
    }
    if mover.taken != played.taken {
        return Ok(());
    }
    put_route(alloc, path, routes)
}

// The landings of the jumps made so far, and the routes found so far, in lexicographic order.
#[derive(Drop)]
struct RouteSearch {
    path: Vec<Dsq>,
    routes: Vec<Vec<Dsq>>,
}

// Inserts the routes that extend the path by `left` more jumps.
fn collect_routes(
    alloc: Global,
    position: &DPos,
    played: &DMove,
    mover: &Mover,
    left: usize,
    search: &mut RouteSearch,
) -> Result<(), AllocError>
    ensures found { OnOk result (lists_in search.new.routes.items ≡ put_all route_cmp
        (map (λ ls. search.old.path.items ++ ls)
        (landings_of (without position.now.board mover.now.origin) mover.now.piece
        played.now.taken played.now.to left mover.now.taken mover.now.at))
        (lists_in search.old.routes.items)) }
    ensures path { OnOk result (search.new.path.items ≡ search.old.path.items) }
{
    if left == 0 {
        put_end(
            alloc,
            played,
            mover,
            search.path.as_slice(),
            &mut search.routes,
        )?;
        return Ok(());
    }
    let jumps = jumps_from(position, mover);
    for (over, to) in jumps.items() {
        search.path.push(*to)?;
        let next = mover.after_jump(*over, *to);
        collect_routes(alloc, position, played, &next, left - 1, search)?;
        search.path.pop();
    }
    Ok(())
}

/// The routes by which a piece can make a capture, each once, in lexicographic order.
///
/// A route is the list of landing squares.
///
/// # Errors
///
/// `Memory` if out of memory.
pub fn routes(alloc: Global, position: &DPos, played: &DMove) -> Result<Vec<Vec<Dsq>>, Memory>
    ensures in_order { IfOk result
        (λ routes. IsStrictlySortedBy route_cmp (lists_in routes.items)) }
    ensures members { IfOk result (λ routes. (landings : List ℕ)
        → Contains (lists_in routes.items) landings
        ↔ Capture position.now played.now.from landings played.now.taken played.now.to) }
{
    let mut search = RouteSearch {
        path: Vec::new(alloc),
        routes: Vec::new(alloc),
    };
    match own_at(position, played.from) {
        Some(piece) => {
            let size = played.taken.len();
            let mover = Mover::new(piece, played.from);
            collect_routes(alloc, position, played, &mover, size, &mut search)?;
            Ok(search.routes)
        }
        None => Ok(search.routes),
    }
}
