//! Properties of the tables. Each is stated by the contract of a function with an empty body.

ghost use Rattle.std.specs.Prelude.{◌≡◌, ℕ};
ghost use Rattle.club_core.specs.ClubRules.{both};
ghost use Rattle.club_core.specs.LegalState.{IsLegalState};
ghost use Rattle.club_core.specs.State.{State};
ghost use Rattle.club_rows.specs.internal.Made.{MadeRowIsLast, RulingRowIsLast};
ghost use Rattle.club_rows.specs.Tables.{tables_of};

use club_rules::{Records, Rules};

/// Law: a move that is played in a legal game appends one row, that of its reply, to the rows of the game's moves.
pub fn made_row_is_last<R: Rules>()
    ensures { MadeRowIsLast R.rules }
{}

/// Law: a ruling appends one row to those of the game's rulings, and leaves the rows of its moves.
pub fn ruling_row_is_last<R: Rules>()
    ensures { RulingRowIsLast R.rules }
{}

/// Law: the tables determine the state. Two legal states with the same tables are equal.
pub fn tables_tell_the_club<D: Records, S: Records>()
    ensures { (s t : State D.Move S.Move) → IsLegalState (both D.rules S.rules D.records S.records) s →
        IsLegalState (both D.rules S.rules D.records S.records) t →
        ((n : ℕ) → tables_of (both D.rules S.rules D.records S.records) s n
        ≡ tables_of (both D.rules S.rules D.records S.records) t n) → s ≡ t }
{}
