//! Endings with a lone king against few pieces.
ghost use Rattle.std.specs.Prelude.{◌≡◌};
ghost use Rattle.draughts_draws.specs.Ends.{count_of_pieces, count_of_kings, has_lone_king};
ghost use Rattle.draughts_draws.specs.Ends.{has_three, has_two, is_three_to_one, is_two_to_one};

use squares::{DPos, Side};

fn count_of_pieces(side: Side, position: &DPos) -> usize
    ensures { result ≡ count_of_pieces side position.now }
{
    position.keeps_to_its_squares();
    position.squares_of(side).len()
}

fn count_of_kings(side: Side, position: &DPos) -> usize
    ensures { result ≡ count_of_kings side position.now }
{
    position.keeps_to_its_squares();
    let own = position.squares_of(side);
    own.intersection(position.kings()).len()
}

fn has_lone_king(side: Side, position: &DPos) -> bool
    ensures { result ≡ has_lone_king side position.now }
{
    count_of_pieces(side, position) == 1 && count_of_kings(side, position) == 1
}

fn has_three(side: Side, position: &DPos) -> bool
    ensures { result ≡ has_three side position.now }
{
    count_of_pieces(side, position) == 3 && count_of_kings(side, position) >= 1
}

fn has_two(side: Side, position: &DPos) -> bool
    ensures { result ≡ has_two side position.now }
{
    count_of_pieces(side, position) == 2 && count_of_kings(side, position) >= 1
}

// Three pieces, at least one of them a king, against a lone king.
pub(crate) fn is_three_to_one(position: &DPos) -> bool
    ensures { result ≡ is_three_to_one position.now }
{
    !position.kings().is_empty()
        && ((has_three(Side::First, position) && has_lone_king(Side::Second, position))
            || (has_three(Side::Second, position) && has_lone_king(Side::First, position)))
}

// A king, or two pieces with at least one king, against a lone king.
pub(crate) fn is_two_to_one(position: &DPos) -> bool
    ensures { result ≡ is_two_to_one position.now }
{
    !position.kings().is_empty()
        && (((has_lone_king(Side::First, position) || has_two(Side::First, position))
            && has_lone_king(Side::Second, position))
            || ((has_lone_king(Side::Second, position) || has_two(Side::Second, position))
                && has_lone_king(Side::First, position)))
}
