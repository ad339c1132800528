//! The transition that imports a recorded game into a club, or its refusal.
//!
//! # Guarantees
//!
//! - `import` (`value`, `by_rules`): an import is the step of the state machine: repeated, refused, or a game added
//!   that follows the rules.
//! - `imported_row`: the row of the added game.
#![tactic(auto)]

pub mod imports;
pub mod played;
pub mod rows;

pub use imports::{ImportDecision, NewGame, import};
pub use played::{ComparedGames, PlayedGame};
pub use rows::imported_row;
