//! The cross table of an event: each member's total score, place and line.
//!
//! # Guarantees
//!
//! - `Standings::add` (`adds`), `rank` (`ranked`, `totals`), `of_rows` (`totals`, `ranked`, `only`): one total for
//!   each member, ordered by points, wins and id. No other order is right.
//! - `field_lines` (`field`, `only`, `too_many`): one line for each member with a game, running or ended, ordered by
//!   points, wins, Sonneborn-Berger number and id.
//! - `header`, `line`, `cells_of` (`cells`, `own`): the lines of a cross table are these bytes exactly. A member's own
//!   rows are enough for their cells.
#![tactic(auto)]

pub mod cells;
pub mod field;
pub mod lines;
pub mod standings;
pub mod sums;

pub use cells::{Cell, cell_of, cells_of};
pub use field::{EventGame, FieldLine, field_lines};
pub use lines::{header, line};
pub use standings::{Standing, Standings, StandingsFault};
pub use sums::{OpponentScore, ScoreTotals};
