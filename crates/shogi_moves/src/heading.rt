//! The directions in which pieces move, and their ranges.
ghost use Rattle.std.specs.Prelude.{◌≡◌, ◌≤◌};
ghost use Rattle.shogi_moves.specs.Reach.{next_file, ranks_forward, next_rank, straight, diagonal, gold, silver};
ghost use Rattle.shogi_moves.specs.Reach.{knight, ahead, range, step};

use squares::{Role, Side, Ssq};

/// A direction of movement, as the moving side sees it, except that left and right are as First sees the board.
///
/// Forward is toward the enemy. A jump goes two ranks forward and one file aside.
#[derive(Clone, Copy, Debug, PartialEq, Eq)]
pub enum MoveDirection {
    Forward,
    ForwardLeft,
    ForwardRight,
    Left,
    Right,
    Back,
    BackLeft,
    BackRight,
    JumpLeft,
    JumpRight,
}

impl MoveDirection {
    /// A direction of movement. Forward is toward the enemy; left and right are as First sees the board.
    ///
    /// A jump goes two ranks forward and one file aside.
    pub const ALL: [MoveDirection; 10] = [
        MoveDirection::Forward,
        MoveDirection::ForwardLeft,
        MoveDirection::ForwardRight,
        MoveDirection::Left,
        MoveDirection::Right,
        MoveDirection::Back,
        MoveDirection::BackLeft,
        MoveDirection::BackRight,
        MoveDirection::JumpLeft,
        MoveDirection::JumpRight,
    ];
}

// The file of the next square; 0 or 10 if it is off the board.
fn next_file(heading: MoveDirection, file: u8) -> u8
    requires { file ≤ 9 }
    ensures { result ≡ next_file heading file }
{
    match heading {
        MoveDirection::ForwardLeft
        | MoveDirection::Left
        | MoveDirection::BackLeft
        | MoveDirection::JumpLeft => file + 1,
        MoveDirection::ForwardRight
        | MoveDirection::Right
        | MoveDirection::BackRight
        | MoveDirection::JumpRight => { file.saturating_sub(1) }
        MoveDirection::Forward | MoveDirection::Back => file,
    }
}

// The rank `ranks` ranks nearer to the enemy; 0 or above 9 if it is off the board.
fn ranks_forward(side: Side, ranks: u8, rank: u8) -> u8
    requires rank { rank ≤ 9 }
    requires ranks { ranks ≤ 2 }
    ensures { result ≡ ranks_forward side ranks rank }
{
    match side {
        Side::First => rank.saturating_sub(ranks),
        Side::Second => rank + ranks,
    }
}

// The rank of the next square; 0 or above 9 if it is off the board.
fn next_rank(side: Side, heading: MoveDirection, rank: u8) -> u8
    requires { rank ≤ 9 }
    ensures { result ≡ next_rank side heading rank }
{
    match heading {
        MoveDirection::Forward | MoveDirection::ForwardLeft | MoveDirection::ForwardRight => {
            ranks_forward(side, 1, rank)
        }
        MoveDirection::Left | MoveDirection::Right => rank,
        MoveDirection::Back | MoveDirection::BackLeft | MoveDirection::BackRight => {
            ranks_forward(side.other(), 1, rank)
        }
        MoveDirection::JumpLeft | MoveDirection::JumpRight => ranks_forward(side, 2, rank),
    }
}

/// The next square along a heading for a piece of the side, or `None` at the edge of the board.
pub fn step(side: Side, heading: MoveDirection, from: Ssq) -> Option<Ssq>
    ensures { result ≡ step side heading from }
{
    Ssq::new(
        next_file(heading, from.file()),
        next_rank(side, heading, from.rank()),
    )
}

fn straight(distance: u8, heading: MoveDirection) -> u8
    ensures { result ≡ straight distance heading }
{
    match heading {
        MoveDirection::Forward | MoveDirection::Left | MoveDirection::Right | MoveDirection::Back =>
            distance,
        _ => 0,
    }
}

fn diagonal(distance: u8, heading: MoveDirection) -> u8
    ensures { result ≡ diagonal distance heading }
{
    match heading {
        MoveDirection::ForwardLeft
        | MoveDirection::ForwardRight
        | MoveDirection::BackLeft
        | MoveDirection::BackRight => distance,
        _ => 0,
    }
}

fn gold(heading: MoveDirection) -> u8
    ensures { result ≡ gold heading }
{
    match heading {
        MoveDirection::ForwardLeft | MoveDirection::ForwardRight => 1,
        _ => straight(1, heading),
    }
}

fn silver(heading: MoveDirection) -> u8
    ensures { result ≡ silver heading }
{
    match heading {
        MoveDirection::Forward => 1,
        _ => diagonal(1, heading),
    }
}

fn knight(heading: MoveDirection) -> u8
    ensures { result ≡ knight heading }
{
    match heading {
        MoveDirection::JumpLeft | MoveDirection::JumpRight => 1,
        _ => 0,
    }
}

fn ahead(distance: u8, heading: MoveDirection) -> u8
    ensures { result ≡ ahead distance heading }
{
    match heading {
        MoveDirection::Forward => distance,
        _ => 0,
    }
}

/// The greatest distance, in squares, that a piece moves along a heading; 8 means any distance.
pub fn range(role: Role, heading: MoveDirection) -> u8
    ensures { result ≡ range role heading }
{
    match role {
        Role::King => straight(1, heading) + diagonal(1, heading),
        Role::Rook => straight(8, heading),
        Role::Bishop => diagonal(8, heading),
        Role::Silver => silver(heading),
        Role::Knight => knight(heading),
        Role::Lance => ahead(8, heading),
        Role::Pawn => ahead(1, heading),
        Role::PromotedRook => straight(8, heading) + diagonal(1, heading),
        Role::PromotedBishop => diagonal(8, heading) + straight(1, heading),
        Role::Gold
        | Role::PromotedSilver
        | Role::PromotedKnight
        | Role::PromotedLance
        | Role::PromotedPawn => gold(heading),
    }
}
