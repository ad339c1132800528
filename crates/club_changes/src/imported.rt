//! The rows of a recorded game that is imported, and the moves of a stored game.

pub mod added;
pub mod moves;
pub mod seen;
pub mod stored_game;

pub use added::{NewRows, new_rows};
pub use stored_game::played_of;
