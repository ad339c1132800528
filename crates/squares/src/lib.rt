//! The board model of both games: sides, scores, squares, pieces, hands, moves and positions.
//!
//! The rules are in `draughts_moves` and `shogi_moves`.
//!
//! # Guarantees
//!
//! - `numbers_and_places_correspond` (`numbers`, `places`), `numbers_and_squares_correspond` (`numbers`, `squares`):
//!   numbers and squares correspond one to one, in both games.
//! - `lines_follow_coordinates`: a line of draughts squares follows the coordinates to the edge.
//! - `Dsq::new` (`some`, `value`), `Dsq::from_coords` (`dark`, `value`), `Ssq::new` (`some`, `value`), `SPiece::new`
//!   (`some`): `None` exactly for values outside the range.
//! - `SPos::new` (`some`, `value`): `None` exactly for boards without one king each, or with more pieces than a set.
//! - `DPos`, `DSet`, `SBoard`: boards and sets are finite maps and sets; `keeps_to_its_squares` says that nothing is
//!   off the board.
//! - `DSet::word`, `SPos::word`: the bitboard has exactly the bits of the squares of the set, or of the piece.
//! - `Hash` for `DPos`, `Ord` for `SPos`: positions are compared and hashed by squares, hands and turn, whatever their
//!   representation.
//! - `DPos::opening` (`value`, `pieces`), `SPos::opening`: the opening positions.
#![tactic(auto)]

pub mod draughts;
pub mod shogi;
pub mod sides;

pub use draughts::direction::Direction;
pub use draughts::moves::DMove;
pub use draughts::numbers::Numbers;
pub use draughts::piece::DPiece;
pub use draughts::position::DPos;
pub use draughts::set::DSet;
pub use draughts::square::Dsq;
pub use shogi::board::SBoard;
pub use shogi::hand::{Hand, Hands};
pub use shogi::moves::SMove;
pub use shogi::piece::{HandKind, Kind, Role, SPiece};
pub use shogi::position::SPos;
pub use shogi::square::Ssq;
pub use sides::{Score, Side};
