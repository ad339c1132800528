//! The properties of the state machine, for any two games.
//!
//! Each is the `ensures` clause of a function with an empty body.

ghost use Rattle.std.specs.Prelude.{ℕ, IsTrue};
ghost use Rattle.club_requests.specs.Limits.{is_budget, is_increment};
ghost use Rattle.club_core.specs.ClubRules.{both};
ghost use Rattle.club_core.specs.Game.{Game};
ghost use Rattle.club_core.specs.Legal.{IsLegalGame};
ghost use Rattle.club_core.specs.View.{Shows, ShowsPly, IsSound, terms_of};
ghost use Rattle.club_laws.specs.Laws.{FoldsAccepted, LeavesState, TimestampsNeverDecrease, KeepsLegal, IsIdempotent};
ghost use Rattle.club_laws.specs.Laws.{KeysIdentify, RefusesPassedOffers};

use club_core::GameView;
use club_rules::{Records, Rules};

/// Replaying only the accepted requests of a sequence leads to the same state.
pub fn accepted_suffice<D: Records, S: Records>()
    ensures { FoldsAccepted (both D.rules S.rules D.records S.records) }
{}

/// A refused or repeated request does not change the state.
pub fn unaccepted_requests_change_nothing<D: Records, S: Records>()
    ensures { LeavesState (both D.rules S.rules D.records S.records) }
{}

/// The timestamp of the last accepted request never decreases.
pub fn timestamps_never_decrease<D: Records, S: Records>()
    ensures { TimestampsNeverDecrease (both D.rules S.rules D.records S.records) }
{}

/// A request with a valid timestamp (at most `Moment::LAST`) keeps a legal state legal. A club without an arbiter
/// takes no command that needs one.
pub fn requests_keep_legal<D: Records, S: Records>()
    ensures { KeepsLegal (both D.rules S.rules D.records S.records) }
{}

/// In a legal state the newest key of a member identifies the member, and an earlier key nobody.
pub fn keys_identify<D: Records, S: Records>()
    ensures { KeysIdentify (both D.rules S.rules D.records S.records) }
{}

/// Commands are idempotent: an accepted command, sent again by the same caller, is repeated with the same answer, at
/// any time and after any other requests. A member sends it again under the key that the member has then.
///
/// Exceptions are a sweep, and a draw offer after a later move.
pub fn commands_are_idempotent<D: Records, S: Records>()
    ensures { IsIdempotent (both D.rules S.rules D.records S.records) }
{}

/// A draw offer that is sent again after a later move is refused: 56 `GameOver` if the game has ended, otherwise 57
/// `WrongPly`.
pub fn outdated_offers_are_refused<D: Records, S: Records>()
    ensures { RefusesPassedOffers (both D.rules S.rules D.records S.records) }
{}

/// A view that represents a legal game of an event satisfies `IsSound`, which `decide` requires.
pub fn shown_is_sound<R: Rules>(view: &GameView<R>)
    ensures { (game : Game R.Move) (ply : ℕ) → IsTrue (is_budget view.now.budget) →
        IsTrue (is_increment view.now.increment) →
        IsLegalGame R.rules (terms_of view.now) game → Shows R.rules game view.now →
        ShowsPly R.rules game ply view.now →
        IsSound R.rules view.now }
{}
