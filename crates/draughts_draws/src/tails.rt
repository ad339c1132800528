//! Counters that give the end of a game without looking at earlier plies.
ghost use Rattle.std.specs.Prelude.{◌≡◌, ◌<◌};
ghost use Rattle.draughts_draws.specs.Ends.{is_king_move, is_three_to_one, is_two_to_one};
ghost use Rattle.draughts_draws.specs.Tails.{in_class, class_of, class_count, first_tail, next_tail, class_end, end_by};

use crate::classes::{is_three_to_one, is_two_to_one};
use crate::ends::DEnd;
use crate::king_moves::is_king_move;
use draughts_moves::has_move;
use squares::{DMove, DPos};

/// The endings with a lone king against few pieces. No position belongs to both.
#[derive(Clone, Copy, Debug, PartialEq, Eq)]
pub enum Class {
    /// Three pieces, at least one of them a king, against a lone king.
    ThreeToOne,
    /// A king, or two pieces with at least one king, against a lone king.
    TwoToOne,
}

/// The counters that, with the last position, its repetition count and the number of plies, give the end of a game.
#[derive(Clone, Copy, Debug, PartialEq, Eq)]
pub struct Tail {
    /// The number of consecutive king moves without a capture, in plies, up to the last ply.
    pub king_plies: u32,
    /// The number of consecutive positions, up to and with the last, in the last one's class; 0 if it has none.
    pub class_positions: u32,
}

/// The repetition count at which a game ends.
const STANDS: usize = 3;

/// The number of plies after which every game ends.
const PLY_LIMIT: usize = 600;

/// The number of consecutive king moves without a capture, in plies, at which a game ends.
const KING_PLIES: u32 = 50;

/// The number of consecutive three-to-one positions at which a game ends.
const THREE_TO_ONE: u32 = 33;

/// The number of consecutive two-to-one positions at which a game ends.
const TWO_TO_ONE: u32 = 11;

// Whether the position belongs to the class.
fn in_class(class: Class, position: &DPos) -> bool
    ensures { result ≡ in_class class position.now }
{
    match class {
        Class::ThreeToOne => is_three_to_one(position),
        Class::TwoToOne => is_two_to_one(position),
    }
}

// The class of the position, if it has one.
fn class_of(position: &DPos) -> Option<Class>
    ensures { result ≡ class_of position.now }
{
    if is_three_to_one(position) {
        return Some(Class::ThreeToOne);
    }
    if is_two_to_one(position) {
        return Some(Class::TwoToOne);
    }
    None
}

// The number of consecutive positions in the class of `after`, if `count` is that number up to `before`.
fn class_count(before: &DPos, after: &DPos, count: u32) -> u32
    requires { count < 4294967295 }
    ensures { result ≡ class_count before.now after.now count }
{
    match class_of(after) {
        None => 0,
        Some(class) => {
            if in_class(class, before) {
                count + 1
            } else {
                1
            }
        }
    }
}

impl Tail {
    /// The tail before the first move.
    pub fn start(position: &DPos) -> Tail
        ensures { result ≡ first_tail position.now }
    {
        let class_positions = match class_of(position) {
            None => 0,
            Some(_) => 1,
        };
        Tail {
            king_plies: 0,
            class_positions,
        }
    }

    /// The tail after one more move, which leads from `before` to `after`.
    pub fn next(self, before: &DPos, played: &DMove, after: &DPos) -> Tail
        requires king_plies { self.king_plies < 4294967295 }
        requires class_positions { self.class_positions < 4294967295 }
        ensures { result ≡ next_tail self before.now played.now after.now }
    {
        let king_plies = if is_king_move(before, played) {
            self.king_plies + 1
        } else {
            0
        };
        Tail {
            king_plies,
            class_positions: class_count(before, after, self.class_positions),
        }
    }

    /// The end of a game with this tail, if it has ended.
    ///
    /// `position` is the last position, `plies` the number of plies, and `times` the repetition count of the position.
    #[tactic(auto, unfolding(crate::specs::Tails::end_by))]
    pub fn end(self, position: &DPos, plies: usize, times: usize) -> Option<DEnd>
        ensures { result ≡ end_by self position.now plies times }
    {
        if !has_move(position) {
            return Some(DEnd::NoMove);
        }
        if times >= STANDS {
            return Some(DEnd::Repetition);
        }
        if self.king_plies >= KING_PLIES {
            return Some(DEnd::KingMoves);
        }
        match self.class_end(position) {
            Some(end) => return Some(end),
            None => {}
        }
        if plies == PLY_LIMIT {
            return Some(DEnd::PlyLimit);
        }
        None
    }

    // The end by an ending with few pieces, if there is one.
    fn class_end(self, position: &DPos) -> Option<DEnd>
        ensures { result ≡ class_end self position.now }
    {
        if is_three_to_one(position) && self.class_positions >= THREE_TO_ONE {
            return Some(DEnd::ThreeToOne);
        }
        if is_two_to_one(position) && self.class_positions >= TWO_TO_ONE {
            return Some(DEnd::TwoToOne);
        }
        None
    }
}
